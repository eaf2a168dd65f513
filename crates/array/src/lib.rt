//! The array: equal blocks in plain memory, as a part.
#![tactic(auto)]

mod array;
mod calls;
mod making;
mod refusals;
mod unmade;
mod work;

pub use array::{Array, Layout};
pub use making::{LEAST_WIDTH, MOST_BLOCKS, MOST_WIDTH, UNFIT};
pub use unmade::Unmade;
