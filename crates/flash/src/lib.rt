//! What chips with this command set share: the command sequences, what a program and an erase do and how long they last, what a reset leaves,
//! and what a status read and a read in ID mode answer. A family has states of its own, and hands the work on cells to this crate.
#![tactic(auto)]

mod block_map;
mod erase;
mod limits;
mod program;
mod reads;
mod sequence;

pub use block_map::BlockMap;
pub use erase::ERASED;
pub use limits::{
    LONGEST_ERASE, LONGEST_PROGRAM, LONGEST_SUSPENSION, PROTECTED_ERASE, PROTECTED_PROGRAM, WINDOW,
    erase_fits, program_fits, suspend_fits,
};
pub use reads::{Question, SUSPENDED_STATUS, identity, status};
pub use sequence::{Decision, Mode, Place};
