//! The two ways of a commit into the log.

/// When a store writes a commit into the log.
#[derive(Clone, Copy, Debug, PartialEq, Eq)]
pub enum Commits {
    /// Before its answer: nothing ever waits for the log. It's the way of a thread that has the store for itself.
    AtOnce,
    /// At the next flush, with all that were staged by then. It's the way of several threads.
    Staged,
}
