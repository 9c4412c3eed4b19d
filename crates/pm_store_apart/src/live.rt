//! The log as a generation goes on with it.

use pm_log::Log;

/// The log after a generation's redo.
#[derive(Clone, Copy, Debug, PartialEq, Eq)]
pub struct Live {
    pub log: Log,
    /// How many commits the redo has kept.
    pub kept: u64,
    /// The epoch in which the redo has found it.
    pub epoch: u64,
    /// The disk's count of faults after the one that broke the log, and 0 before.
    pub faults: u64,
    /// Whether a clean checkpoint was made. Then nothing more is committed.
    pub closed: bool,
    /// How many commits were taken, flushed or staged.
    pub front: u64,
    /// How many bytes the staged ones need in the log, each as a batch of its own.
    pub needs: u64,
    /// How many calls the disk had had when the log was last read, written or moved. Answers and releases are noted with it.
    pub mark: u64,
}
