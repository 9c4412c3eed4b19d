//! A child's life as the child sees it: its pid, its signals, and what the gate answers.
#![tactic(auto)]

mod life;
mod scripted;
mod seat;
mod standing;

pub use life::{Attempt, Cancelled, GateNo, Life, Signals};
pub use pm_supervisor::Reason;
pub use scripted::ScriptedLife;
pub use seat::Seat;
pub use standing::{Standing, listen};
