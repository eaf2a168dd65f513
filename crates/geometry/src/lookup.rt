// Blocks in a row, which is all that work on cells knows of a chip's geometry.
ghost use Rattle.std.specs.Prelude.{◌≡◌, position};
ghost use Rattle.geometry.specs.Plans.{holds};
ghost use Rattle.geometry.specs.BlockTables.{Unbroken};

use crate::block::Block;
use crate::set::BlockSet;
use crate::tables::Geometry;

// The first of the blocks that holds an address.
fn holder(blocks: &[Block], address: u32) -> Option<usize>
    ensures { result ≡ position (holds address) blocks.now }
{
    blocks.iter().position(|block| block.contains(address))
}

/// The blocks of a chip in a row: the first begins at address 0, and each other one where the one before it ends.
#[derive(Clone, Copy)]
pub struct BlockTable {
    blocks: &'static [Block],
    ghost unbroken: { Unbroken blocks.now },
}

impl BlockTable {
    ghost use Rattle.geometry.specs.Blocks.{block_of, filled};
    ghost use Rattle.geometry.specs.Sets.{has};
    ghost use Rattle.geometry.specs.TableSizes.{sizes};

    /// The blocks of a geometry, also of one that another crate brings.
    #[tactic(auto, using(crate::proofs::Placing::unbroken))]
    pub fn of<G: Geometry>() -> BlockTable
        ensures { sizes result ≡ G.Geometry.plan.sizes }
    {
        BlockTable { blocks: G::table() }
    }

    /// The block that an address lies in; past the last block, the number of blocks.
    #[tactic(auto, using(crate::proofs::Placing::holder_is))]
    pub fn block_at(&self, address: u32) -> usize
        ensures { result ≡ block_of (sizes self.now) address }
    {
        holder(self.blocks, address).unwrap_or(self.blocks.len())
    }

    /// Whether an address lies in a block of the set.
    pub fn is_in(&self, set: BlockSet, address: u32) -> bool
        ensures { result ≡ has set (block_of (sizes self.now) address) }
    {
        set.contains(self.block_at(address))
    }

    /// Fills each block of the set with `byte`, as far as there are cells.
    pub fn fill(&self, cells: &mut [u8], set: BlockSet, byte: u8)
        ensures { cells.new ≡ filled (sizes self.now) set byte cells.old }
    {
        for (number, block) in self.blocks.iter().enumerate() {
            if set.contains(number) {
                block.fill(cells, byte);
            }
        }
    }
}
