// The geometries by a plain number, which is what a chip keeps: each call goes to the one text that is generic over them.
// A number and no enum, so that every number that a caller can write down has a meaning here.
ghost use Rattle.std.specs.Prelude.{◌≡◌, ℕ, ◌≤◌, length};
ghost use Rattle.geometry.specs.Blocks.{block_of};
ghost use Rattle.geometry.specs.DataSheets.{AsTheSheetsSay};
ghost use Rattle.geometry.specs.Plans.{plan_of, sheet_of, is_chip, blocks_of, IsTable, block_at, LaidOut};
ghost use Rattle.geometry.specs.TableSizes.{sizes};
ghost use Rattle.geometry.specs.Sets.{largest_set};

use crate::block::Block;
use crate::datasheet::Sheet;
use crate::lookup::BlockTable;
use crate::set::BlockSet;
use crate::tables::{Bench, Bottom, Dead, Top};
use crate::walk;

/// TC58FVT004
pub const TOP: u8 = 0;
/// TC58FVB004
pub const BOTTOM: u8 = 1;
/// the bench chip
pub const BENCH: u8 = 2;
/// no chip; every number that names none means the same
pub const DEAD: u8 = 255;

// The work `walk::$work` for the geometry of a number.
macro_rules! by_kind {
    ($kind:expr, $work:ident($($given:expr),*)) => {
        match $kind {
            TOP => walk::$work::<Top>($($given),*),
            BOTTOM => walk::$work::<Bottom>($($given),*),
            BENCH => walk::$work::<Bench>($($given),*),
            _ => walk::$work::<Dead>($($given),*),
        }
    };
}

/// How many bytes the chip has.
pub fn size(kind: u8) -> u32
    ensures { result ≡ (plan_of kind).size }
{
    by_kind!(kind, size())
}

/// The device code that the chip gives in ID mode.
pub fn code(kind: u8) -> u8
    ensures { result ≡ (plan_of kind).code }
{
    by_kind!(kind, code())
}

/// What the data sheet says of the chip beside its blocks.
pub fn sheet(kind: u8) -> Sheet
    ensures { result ≡ sheet_of (plan_of kind) }
{
    by_kind!(kind, sheet())
}

/// How many blocks the chip has.
#[tactic(auto, using(crate::proofs::Placing::every_few, crate::proofs::Placing::every_laid_out, crate::proofs::AsTheSheetsSay::as_the_sheets_say))]
pub fn count(kind: u8) -> usize
    ensures value { result ≡ length (plan_of kind).sizes }
    ensures bound { result ≤ largest_set }
    ensures law { (kind : ℕ) → LaidOut (plan_of kind) }
    ensures sheets { AsTheSheetsSay }
{
    by_kind!(kind, count())
}

/// Whether a number names a chip.
pub fn is_chip(kind: u8) -> bool
    ensures { result ≡ is_chip kind }
{
    count(kind) > 0
}

/// The blocks that the chip has, as a set.
pub fn blocks(kind: u8) -> BlockSet
    ensures { result ≡ blocks_of kind }
{
    BlockSet::first(count(kind))
}

/// The blocks, one after the other.
pub fn table(kind: u8) -> &'static [Block]
    ensures { IsTable (plan_of kind) result.now }
{
    by_kind!(kind, table())
}

/// Where a block begins and how many bytes it has; none where there is no such block.
pub fn nth_block(kind: u8, number: usize) -> Option<Block>
    ensures { result ≡ block_at (plan_of kind) number }
{
    by_kind!(kind, nth_block(number))
}

/// The block that an address lies in; past the last block, the number of blocks.
pub fn block_at(kind: u8, address: u32) -> usize
    ensures value { result ≡ block_of (plan_of kind).sizes address }
    ensures bound { result ≤ largest_set }
{
    by_kind!(kind, block_at(address))
}

/// The table of the blocks.
pub fn block_table(kind: u8) -> BlockTable
    ensures { sizes result ≡ (plan_of kind).sizes }
{
    by_kind!(kind, block_table())
}
