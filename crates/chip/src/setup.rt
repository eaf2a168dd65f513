// The numbers that a chip is made with, and their limits, which are tested here alone.
ghost use Rattle.std.specs.Prelude.{◌≡◌, length};
ghost use Rattle.geometry.specs.Plans.{plan_of};
ghost use Rattle.chip.specs.Setups.{in_limits, fit};
ghost use Rattle.chip.specs.Making.{fitting, checked};

use fault::{Cause, ChipFault};
use flash::{erase_fits, program_fits, suspend_fits};
use geometry::BlockSet;

/// The numbers that a chip is made with.
#[derive(Clone, Copy, Debug, PartialEq, Eq)]
pub struct Setup {
    /// Which geometry: TOP, BOTTOM or BENCH of the crate `geometry`. A plain number, so that every number is refused or answered.
    pub kind: u8,
    /// Microseconds that a byte takes to program.
    pub program: u32,
    /// Microseconds that a block takes to erase.
    pub erase: u32,
    /// Microseconds from the suspend command until the chip is suspended.
    pub suspend: u32,
    /// The protected blocks.
    pub protected: BlockSet,
    /// The worn blocks. A worn block can be neither programmed nor erased.
    pub worn: BlockSet,
}

// The numbers of a dead chip: no geometry, and the least times.
pub(crate) const NO_CHIP: Setup = Setup {
    kind: geometry::DEAD,
    program: 1,
    erase: 1,
    suspend: 1,
    protected: BlockSet::NONE,
    worn: BlockSet::NONE,
};

// Refuses what does not fit.
pub(crate) fn fitting(fits: bool) -> Result<(), ChipFault>
    ensures { result ≡ fitting fits }
{
    if fits {
        Ok(())
    } else {
        Err(ChipFault {
            cause: Cause::UnfitMaking,
            place: 0,
        })
    }
}

impl Setup {
    fn in_limits(&self) -> bool
        ensures { result ≡ in_limits self.now }
    {
        let blocks = geometry::blocks(self.kind);
        program_fits(self.program)
            && erase_fits(self.erase)
            && suspend_fits(self.suspend)
            && self.protected.is_within(blocks)
            && self.worn.is_within(blocks)
    }

    /// How many bytes of memory a chip of these numbers is made on.
    pub fn size(&self) -> usize
        ensures { result ≡ (plan_of self.now.kind).size }
    {
        geometry::size(self.kind) as usize
    }

    /// Whether a chip can be made of these numbers on so many bytes of memory. With `size` it can be asked before there is any.
    pub fn fits(&self, bytes: usize) -> bool
        ensures { result ≡ fit self.now bytes }
    {
        geometry::is_chip(self.kind) && self.in_limits() && bytes == self.size()
    }

    /// Refuses numbers outside their limits and memory that has not the geometry's size.
    pub fn check(&self, memory: &[u8]) -> Result<(), ChipFault>
        ensures { result ≡ checked self.now (length memory.now) }
    {
        fitting(self.fits(memory.len()))
    }
}
