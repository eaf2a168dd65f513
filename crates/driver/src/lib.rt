//! The driver: a chip of any family as a part, by bus cycles and time alone. It knows the chip through the trait `Bus`; what it notes of its chip is kept
//! beside the chip by a type of each family's own, through the trait `Seat`.
#![tactic(auto)]

mod bus;
mod calls;
mod commands;
mod driven;
mod erase;
mod notes;
mod program;
mod seat;
mod suspend;
mod verdict;

pub use bus::Bus;
pub use calls::{begin, burn, go_on, hold, pass, peek, take};
pub use driven::{Driven, Rigged};
pub use notes::Notes;
pub use seat::Seat;
