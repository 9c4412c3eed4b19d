//! The lives of children that are alone. To one of them nothing happens, and the other is asked for the last checkpoint.
#![tactic(auto)]

mod asked;
mod asked_life;
mod quiet;
mod quiet_life;

pub use asked::Asked;
pub use quiet::{Home, Quiet};
