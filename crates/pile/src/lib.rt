//! Piles: the one type of part that a list of names makes. A pile is one to four pieces end to end, each a driven chip or an array, and is itself a part.
#![tactic(auto)]

mod kind;
mod making;
mod one_of;
mod pile;
mod unmade;

pub use kind::Kind;
pub use making::{make, size};
pub use one_of::OneOf;
pub use pile::{Four, Piece, Pile, Three, Two};
pub use unmade::Unmade;
