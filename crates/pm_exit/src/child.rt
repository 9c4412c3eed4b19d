//! What a child is for, how it ends, and what its end means.

/// What a child told at its end.
#[derive(Clone, Copy, Debug, PartialEq, Eq)]
pub enum Status {
    /// It ended by itself with this exit code.
    Code(u8),
    /// It was ended by the signal of this number.
    Signal(u8),
}

/// What a child is for.
#[derive(Clone, Copy, Debug, PartialEq, Eq)]
pub enum Kind {
    /// Brings the data up to date from the commit log, before connections are served.
    Startup,
    /// Writes checkpoints.
    Checkpointer,
    /// Writes commits to the log in the background.
    Writer,
    /// A background worker.
    Worker,
    /// Serves one connection.
    Backend,
    /// Tells one connection that it can't be served now.
    DeadEnd,
}

/// What the end of a child means.
#[derive(Clone, Copy, Debug, PartialEq, Eq)]
pub enum Class {
    /// It ended as it may.
    Normal,
    /// Shared state may be half changed: the other children have to end too.
    Crash,
    /// Recovery didn't come to its end.
    StartupFailed,
}
