//! The end of a child.

use pm_exit::{Kind, Status};

/// A child that was found to have ended.
#[derive(Clone, Copy, Debug, PartialEq, Eq)]
pub struct ChildExit {
    /// Its number.
    pub pid: u32,
    /// What it was for.
    pub kind: Kind,
    /// How it ended.
    pub status: Status,
    /// Whether its slot was still marked as active.
    pub was_active: bool,
    /// The number of commits that it kept, of a startup child that brought the data up to date.
    pub kept: Option<u64>,
}
