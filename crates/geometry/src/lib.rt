//! The geometries: how large each chip is, what its data sheet says, and where its blocks lie.
#![tactic(auto)]

mod block;
mod datasheet;
mod kinds;
mod lookup;
mod set;
mod tables;
mod walk;

pub use block::Block;
pub use datasheet::{Choice, Commands, Sheet};
pub use kinds::{
    BENCH, BOTTOM, DEAD, TOP, block_at, block_table, blocks, code, count, is_chip, nth_block,
    sheet, size, table,
};
pub use lookup::BlockTable;
pub use set::{BlockSet, LARGEST_SET};
pub use tables::{Bench, Bottom, Dead, Geometry, Top};
pub use walk::cell_at;
