//! One model chip on a wire: a line asks for a cycle, for time or for the count, and a line answers it.
#![tactic(auto)]

mod chip_line;
mod reply;
mod request;
mod serving;

pub use chip_line::chip_named;
pub use reply::Reply;
pub use request::Request;
pub use serving::serve;
