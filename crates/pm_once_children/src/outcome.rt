//! What an auxiliary child came to.

use crate::checkpointer::Closed;
use pm_server::StartWhy;

/// What an auxiliary child came to that used the store.
#[derive(Clone, Copy, Debug, PartialEq, Eq)]
pub enum Outcome {
    /// The log wasn't to be read.
    Refused(StartWhy),
    /// What became of the last checkpoint.
    Closed(Closed),
}
