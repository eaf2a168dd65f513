// What an operation on cells knows of a chip's blocks.
ghost use Rattle.std.specs.Prelude.{◌≡◌};
ghost use Rattle.flash.specs.BlockMaps.{block_map, is_protected, block_alone};

use geometry::{BlockSet, BlockTable};

/// The blocks that operations work on: how they lie, and which of them are protected and which worn. A worn block can be neither programmed nor
/// erased.
#[derive(Clone, Copy)]
pub struct BlockMap {
    pub table: BlockTable,
    pub protected: BlockSet,
    pub worn: BlockSet,
}

impl BlockMap {
    /// Whether an address lies in a protected block.
    pub fn is_protected(&self, address: u32) -> bool
        ensures { result ≡ is_protected (block_map self.now) address }
    {
        self.table.is_in(self.protected, address)
    }

    /// The block that an address lies in, as a set.
    pub fn block_alone(&self, address: u32) -> BlockSet
        ensures { result ≡ block_alone (block_map self.now) address }
    {
        BlockSet::only(self.table.block_at(address))
    }
}
