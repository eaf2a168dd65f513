//! What a run of a script decides: what is in the memory of its parts, and whether it is one open and a list of calls.
#![tactic(auto)]

mod listing;
mod memory;

pub use listing::list_of;
pub use memory::memory_of;
