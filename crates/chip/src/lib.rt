//! A NOR flash chip of the family TC58FVT004, TC58FVB004 as its bus sees it: write and read cycles, time, and the reset pin.
#![tactic(auto)]

mod blocks;
mod chip;
mod cycles;
mod making;
mod questions;
mod reads;
mod resets;
mod setup;
mod state;
mod time;
mod unmade;
mod writes;

pub use chip::Chip;
pub use setup::Setup;
pub use state::{Erase, Phase, Program, State};
pub use unmade::Unmade;
