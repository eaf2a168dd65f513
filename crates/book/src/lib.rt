//! Pages and books: which bytes they are, how they are read, and how they are written. A book is one block of a part that holds
//! registrations; it has a page of 64 bytes for its head and one for each position.
#![tactic(auto)]

mod book;
mod books;
mod change;
mod copy;
mod fetched;
mod finding;
mod open;
mod page;
mod read;
mod spot;
mod survey;
mod write;

pub use book::Book;
pub use books::Books;
pub use fetched::Fetched;
pub use page::{Page, STOPS};
pub use spot::Spot;
