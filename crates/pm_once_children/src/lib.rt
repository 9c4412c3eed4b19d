//! The children that serve no connection, of a server that runs each of them itself: who is there, what they were told and have
//! to do, how the startup child reads the log and the checkpointer writes the last checkpoint, and what they came to.
#![tactic(auto)]

mod alone;
mod auxiliaries;
mod checkpointer;
mod outcome;
mod startup;

pub use alone::{Alone, Work};
pub use auxiliaries::{Auxiliaries, Duty};
pub use checkpointer::{Closed, write_last};
pub use outcome::Outcome;
pub use startup::read_log;
