// The making of an array.
ghost use Rattle.std.specs.Prelude.{◌≡◌, ◌*◌, ◌≤◌, true, length, vec_len};
ghost use Rattle.part.specs.Laws.{PartLaws};
ghost use Rattle.array.specs.Limits.{most_blocks, least_width, most_width, possible, bytes, fit, fitting, checked};
ghost use Rattle.array.specs.Means.{means, new_array, made};
ghost use Rattle.array.specs.Making.{MadeOn, BlankMade};

use crate::array::{Array, Layout};
use crate::unmade::Unmade;
use fault::{Cause, PartFault};
use part::Standing;
use std::alloc::Global;

/// The most blocks of an array.
pub const MOST_BLOCKS: u32 = 256;

/// The fewest bytes of a block.
pub const LEAST_WIDTH: u32 = 64;

/// The most bytes of a block.
pub const MOST_WIDTH: u32 = 65_536;

impl Layout {
    /// Whether the numbers are inside their limits, which can be asked before there is memory.
    pub fn is_possible(self) -> bool
        ensures { result ≡ possible self }
    {
        (1..=MOST_BLOCKS).contains(&self.count) && (LEAST_WIDTH..=MOST_WIDTH).contains(&self.width)
    }

    /// How many bytes the blocks have together.
    pub fn bytes(self) -> usize
        ensures { result ≡ bytes self }
    {
        self.count as usize * self.width as usize
    }

    /// Whether an array can be made of these numbers and so many bytes of memory.
    pub fn fits(self, len: usize) -> bool
        ensures { result ≡ fit self len }
    {
        self.is_possible() && len == self.bytes()
    }
}

/// The refusal of what does not fit.
pub const UNFIT: PartFault = PartFault {
    cause: Cause::UnfitMaking,
    place: 0,
};

// Refuses what does not fit.
fn fitting(fits: bool) -> Result<(), PartFault>
    ensures { result ≡ fitting fits }
{
    if fits { Ok(()) } else { Err(UNFIT) }
}

// The layout of a dead array.
const NO_BLOCKS: Layout = Layout {
    count: 0,
    width: LEAST_WIDTH,
};

impl Array {
    /// Refuses numbers outside their limits and memory of another size.
    pub fn check(layout: Layout, memory: &[u8]) -> Result<(), PartFault>
        ensures { result ≡ checked layout (length memory.now) }
    {
        fitting(layout.fits(memory.len()))
    }

    fn fresh(layout: Layout, cells: Vec<u8>) -> Array
        requires whole { vec_len cells ≡ layout.count * layout.width }
        requires few { layout.count ≤ most_blocks }
        requires least { least_width ≤ layout.width }
        requires most { layout.width ≤ most_width }
        ensures { means result ≡ new_array layout cells.items }
    {
        Array {
            cells,
            layout,
            standing: Standing::Idle,
            clock: 0,
        }
    }

    /// An array on this memory; a dead one, with no blocks, where `check` refuses it.
    #[tactic(auto, using(part::proofs::Lasting::part_laws))]
    pub fn new(layout: Layout, mut memory: Vec<u8>) -> Array
        ensures part { means result ≡ made layout memory.items }
        ensures laws { PartLaws }
    {
        if layout.fits(memory.len()) {
            return Array::fresh(layout, memory);
        }
        memory.clear();
        Array::fresh(NO_BLOCKS, memory)
    }

    /// An array on this memory, refused as `check` refuses it.
    pub fn on(layout: Layout, memory: Vec<u8>) -> Result<Array, PartFault>
        ensures { MadeOn layout memory.items result }
    {
        Array::check(layout, memory.as_slice())?;
        Ok(Array::new(layout, memory))
    }

    /// An array with FFh throughout. Numbers outside their limits are refused before memory is asked for.
    pub fn blank(heap: Global, layout: Layout) -> Result<Array, Unmade>
        ensures { BlankMade layout result }
    {
        fitting(layout.is_possible())?;
        let memory = vec![in heap; 0xFFu8; layout.bytes()]?;
        Ok(Array::new(layout, memory))
    }
}
