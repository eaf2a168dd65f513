//! The console: the calls by which an organist stores registrations and steps through them, over any part.
#![tactic(auto)]

mod answers;
mod call;
mod check;
mod console;
mod faults;
mod looking;
mod storing;
mod waiting;

pub use answers::{Answer, Said};
pub use call::Call;
pub use console::Console;
