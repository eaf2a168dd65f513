//! The joined part: any two parts end to end, again a part, so that parts can be piled to any depth.
#![tactic(auto)]

mod aim;
mod calls;
mod joined;
mod side;
mod sides;

pub use joined::{Joined, MOST_BLOCKS, MOST_BYTES, TwoSided};
pub use sides::small_together;
