//! How numbers and chips are named in a line of text. Each function takes what it reads from the front of the line, and gives the rest back.
#![tactic(auto)]

mod numbers;
mod setups;
mod wrong;

pub use numbers::{ended, take_u8, take_u32, take_u64};
pub use setups::take_setup;
pub use wrong::Wrong;
