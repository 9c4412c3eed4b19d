//! A connection that was taken.

use pm_server::ServerEnd;

/// A connection that was taken, before its session.
#[derive(Clone, Copy, Debug, PartialEq, Eq)]
pub struct Admitted {
    /// Its child's number.
    pub pid: u32,
    /// Whether the server can go on after the session: it can't where memory was short for the shutdown that was owed.
    pub settled: Result<(), ServerEnd>,
}
