//! Two consoles side by side, and the worked examples on a chip.
#![tactic(auto)]

mod account;
mod again;
mod bench;
mod line;
mod row;
mod together;

pub use account::{Openings, Seats};
pub use again::reopen;
pub use bench::{console_on_bench, play_on_bench};
pub use line::Line;
pub use row::Row;
pub use together::rehearse;
