// What a geometry says of a chip, for any geometry. `size`, `code`, `sheet`, `count` and `table` hand on what a geometry brings: a macro that asks
// for them by type is refused, as it would have an item in its expansion.
ghost use Rattle.std.specs.Prelude.{◌≡◌, length, slice_index};
ghost use Rattle.geometry.specs.Blocks.{block_of};
ghost use Rattle.geometry.specs.Plans.{sheet_of, IsTable, block_at};
ghost use Rattle.geometry.specs.TableSizes.{sizes};

use crate::block::Block;
use crate::datasheet::Sheet;
use crate::lookup::BlockTable;
use crate::tables::Geometry;

pub(crate) fn size<G: Geometry>() -> u32
    ensures { result ≡ G.Geometry.plan.size }
{
    G::SIZE
}

pub(crate) fn code<G: Geometry>() -> u8
    ensures { result ≡ G.Geometry.plan.code }
{
    G::CODE
}

pub(crate) fn sheet<G: Geometry>() -> Sheet
    ensures { result ≡ sheet_of G.Geometry.plan }
{
    G::sheet()
}

pub(crate) fn count<G: Geometry>() -> usize
    ensures { result ≡ length G.Geometry.plan.sizes }
{
    G::BLOCKS
}

// The blocks, one after the other.
pub(crate) fn table<G: Geometry>() -> &'static [Block]
    ensures { IsTable G.Geometry.plan result.now }
{
    G::table()
}

// Where a block begins and how many bytes it has; none where there is no such block.
pub(crate) fn nth_block<G: Geometry>(number: usize) -> Option<Block>
    ensures { result ≡ block_at G.Geometry.plan number }
{
    G::table().get(number).copied()
}

// The table of the blocks.
pub(crate) fn block_table<G: Geometry>() -> BlockTable
    ensures { sizes result ≡ G.Geometry.plan.sizes }
{
    BlockTable::of::<G>()
}

// The block that an address lies in; past the last block, the number of blocks.
pub(crate) fn block_at<G: Geometry>(address: u32) -> usize
    ensures { result ≡ block_of G.Geometry.plan.sizes address }
{
    BlockTable::of::<G>().block_at(address)
}

/// The cell at an address; 0 where there is none.
pub fn cell_at(cells: &[u8], address: u32) -> u8
    ensures { result ≡ slice_index cells.now address }
{
    cells.get(address as usize).copied().unwrap_or(0)
}
