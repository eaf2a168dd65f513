//! The chips TC58FVT004 and TC58FVB004, and the bench chip, in the hands of the driver.
#![tactic(auto)]

mod calls;
mod making;
mod seated;
mod wires;

pub use making::{DrivenChip, driven};
pub use seated::Seated;
pub use wires::Wires;
