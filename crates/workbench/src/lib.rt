//! What the programs of the workbench share.
#![tactic(auto)]

mod bench_chip;
mod commands;
mod trouble;

pub use bench_chip::BENCH_CHIP;
pub use commands::{command, erase, program};
pub use trouble::Trouble;
