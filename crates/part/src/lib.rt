//! A part: flash memory as a console sees it. A part has cells in blocks, of which some are guarded and some are worn, at
//! most one erasure, and a clock of microseconds. Everything above this crate is written for any part.
#![tactic(auto)]

mod answers;
mod grant;
mod neighbour;
mod part;

pub use answers::{Progress, Shape, Standing, Turn, burn_why};
pub use grant::granted;
pub use neighbour::{catch_up, let_pass};
pub use part::Part;
