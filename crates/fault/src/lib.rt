//! Why a call was refused: the causes with their numbers, each layer's own fault, and how a fault passes up.
#![tactic(auto)]

mod cause;
mod faults;
mod limits;

pub use cause::Cause;
pub use faults::{ChipFault, ConsoleFault, PartFault};
pub use limits::{LONGEST, needs_erase, time_no};
