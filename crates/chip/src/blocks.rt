// What a chip knows of the block that an address lies in.
ghost use Rattle.std.specs.Prelude.{◌≡◌};
ghost use Rattle.flash.specs.BlockMaps.{block_map};
ghost use Rattle.chip.specs.Flash.{view, block_map_of, cell, lies_in};

use crate::chip::Chip;
use flash::BlockMap;
use geometry::BlockSet;

impl Chip {
    // The blocks that operations on the cells work on.
    pub(crate) fn block_map(&self) -> BlockMap
        ensures { block_map result ≡ block_map_of (view self.now) }
    {
        BlockMap {
            table: geometry::block_table(self.setup.kind),
            protected: self.setup.protected,
            worn: self.setup.worn,
        }
    }

    // The cell at an address; 0 where there is none.
    pub(crate) fn cell(&self, address: u32) -> u8
        ensures { result ≡ cell (view self.now) address }
    {
        geometry::cell_at(self.cells.as_slice(), address)
    }

    // Whether an address lies in a block of the set.
    pub(crate) fn lies_in(&self, set: BlockSet, address: u32) -> bool
        ensures { result ≡ lies_in (view self.now) set address }
    {
        self.block_map().table.is_in(set, address)
    }
}
