//! What a server does for its machine.

use pm_exit::Kind;
use pm_state::Line;
use pm_supervisor::{Ending, Reason};

/// One act, with the numbers that it needs. Its entry stands in the journal.
#[derive(Clone, Copy, Debug, PartialEq, Eq)]
pub enum Act {
    /// Start this child.
    Start {
        /// Its number: below 2^31, and one more than the last.
        pid: u32,
        /// What it is for.
        kind: Kind,
    },
    /// Let no child attach any more, and tell every child to end at once.
    Quit(Reason),
    /// Tell backends, workers, the writer and a startup child to end.
    Terminate,
    /// Kill every child that is left.
    KillAll,
    /// Tell the checkpointer to write the last checkpoint and end.
    AskCheckpoint,
    /// Let sessions attach.
    Ready {
        /// The generation in which they may.
        generation: u32,
    },
    /// Begin the next generation.
    Reset {
        /// Its number.
        generation: u32,
    },
    /// Write a line to the log.
    Say(Line),
    /// End the server.
    End(Ending),
}

/// The next generation is due, and the present one has the last number, 4,294,967,295.
#[derive(Clone, Copy, Debug, PartialEq, Eq)]
pub struct GenerationsSpent;
