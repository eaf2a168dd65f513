//! Scripts: what a line of one says, a whole script, and the text of the answers to it.
#![tactic(auto)]

mod account;
mod alike;
mod answers;
mod draft;
mod entry;
mod head;
mod reading;
mod replies;
mod script;
mod unread;

pub use account::{push_line, push_total};
pub use draft::read;
pub use entry::{Cells, Entry, Pieces, Request, Who};
pub use reading::parse;
pub use replies::Reply;
pub use script::{Patch, Script, Step};
pub use unread::{Complaint, Unread};
