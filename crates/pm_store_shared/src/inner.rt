//! What the shared side and its tokens have together.
use crate::plays::Guarded;
use pm_disk::Disk;
use pm_outside::Chronicle;
use pm_query::BookEntry;
use pm_store_turns::{Due, Joining, Sleepers};

/// The table in which the store lies, who sleeps for it, who flushes, and whether a checkpoint is due.
#[derive(Drop)]
pub(crate) struct Inner<D: Disk, B: Chronicle<BookEntry>> {
    pub(crate) table: Guarded<D, B>,
    pub(crate) sleepers: Sleepers,
    pub(crate) joining: Joining,
    pub(crate) due: Due,
}
