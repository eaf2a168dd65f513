// What can be asked of a chip.
ghost use Rattle.std.specs.Prelude.{◌≡◌, ◌≤◌, length};
ghost use Rattle.geometry.specs.Blocks.{block_of};
ghost use Rattle.geometry.specs.Plans.{plan_of, sheet_of, IsTable, block_at};
ghost use Rattle.geometry.specs.Sets.{largest_set};
ghost use Rattle.chip.specs.Flash.{view, size, blocks};

use crate::chip::Chip;
use geometry::{Block, Sheet};

impl Chip {
    /// How many bytes the chip has.
    pub fn size(&self) -> u32
        ensures { result ≡ size (view self.now) }
    {
        geometry::size(self.setup.kind)
    }

    /// How many blocks the chip has.
    pub fn blocks(&self) -> usize
        ensures { result ≡ length (blocks (view self.now)) }
    {
        geometry::count(self.setup.kind)
    }

    /// The blocks, one after the other.
    pub fn table(&self) -> &'static [Block]
        ensures { IsTable (plan_of (view self.now).setup.kind) result.now }
    {
        geometry::table(self.setup.kind)
    }

    /// Where a block begins and how many bytes it has; none where there is no such block.
    pub fn block(&self, number: usize) -> Option<Block>
        ensures { result ≡ block_at (plan_of (view self.now).setup.kind) number }
    {
        geometry::nth_block(self.setup.kind, number)
    }

    /// The block that an address lies in; the number of blocks where the address is outside.
    pub fn block_at(&self, address: u32) -> usize
        ensures value { result ≡ block_of (blocks (view self.now)) address }
        ensures bound { result ≤ largest_set }
    {
        geometry::block_at(self.setup.kind, address)
    }

    /// What the chip's data sheet says of it beside its blocks: its codes, and where it takes commands.
    pub fn sheet(&self) -> Sheet
        ensures { result ≡ sheet_of (plan_of (view self.now).setup.kind) }
    {
        geometry::sheet(self.setup.kind)
    }

    /// The chip's device code.
    pub fn code(&self) -> u8
        ensures { result ≡ (plan_of (view self.now).setup.kind).code }
    {
        geometry::code(self.setup.kind)
    }

    /// The microseconds that have passed on the chip, modulo 4,294,967,296.
    pub fn clock(&self) -> u32
        ensures { result ≡ (view self.now).clock }
    {
        self.clock
    }
}
