//! What a log file stands for.

use pm_disk::Which;
use pm_rows::Rows;

/// What was found in a log file that counts.
#[derive(Debug, Drop)]
pub struct Found {
    pub file: Which,
    pub epoch: u64,
    /// The place of the first gate after the base.
    pub base_end: u64,
    /// The place of the closed gate after the last batch.
    pub end: u64,
    /// The rows after all commits.
    pub rows: Rows,
    /// The number of commits since `initdb` that the base holds.
    pub base_count: u64,
    /// The number of commits since `initdb`.
    pub count: u64,
    /// The number of batches after the base.
    pub batches: u64,
    /// Whether no batch comes after a base that was written by a clean shutdown.
    pub clean: bool,
}

/// What a log file holds.
#[derive(Debug, Drop)]
pub enum Contents {
    /// The file is empty, or its gate is closed.
    Closed,
    /// Its gate is open, and it stands for this.
    Standing(Found),
}
