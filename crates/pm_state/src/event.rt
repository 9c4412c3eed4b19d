//! The journal of the supervisor.

use crate::action::Line;
use pm_admit::Cac;
use pm_exit::{Kind, Status};
use pm_modes::Mode;
use pm_supervisor::{Ending, Reason};

/// One entry of the supervisor's journal: what happened, or what the supervisor did. Moments are in milliseconds.
#[derive(Clone, Copy, Debug, PartialEq, Eq)]
pub enum PmEvent {
    /// A child was started.
    Started {
        /// Its number.
        pid: u32,
        /// What it is for.
        kind: Kind,
    },
    /// A connection was accepted, and a child was started for it.
    Accepted {
        /// The child's number.
        pid: u32,
        /// Whether the child serves the connection, or why it refuses it.
        decision: Cac,
    },
    /// A child was found to have ended.
    Exited {
        /// Its number.
        pid: u32,
        /// What it was for.
        kind: Kind,
        /// How it ended.
        status: Status,
        /// Whether its slot was still marked as active.
        was_active: bool,
        /// When it was found.
        at: u64,
    },
    /// A shutdown was asked for.
    Asked {
        /// How.
        mode: Mode,
        /// When.
        at: u64,
    },
    /// It was asked to kill one child.
    KillAsked {
        /// The child's number.
        pid: u32,
    },
    /// No child may attach any more, and every child was told to end at once.
    QuitSent(Reason),
    /// Backends, workers, the writer and the startup child were told to end.
    TerminateSent,
    /// Every child that was left was killed.
    KillSent {
        /// When.
        at: u64,
    },
    /// The checkpointer was told to write the last checkpoint.
    CheckpointAsked,
    /// The startup child brought the data up to date.
    RedoEnded {
        /// The generation in which it did.
        generation: u32,
        /// The number of commits since the cluster was made.
        kept: u64,
    },
    /// Sessions may attach.
    Ready {
        /// The generation in which they may.
        generation: u32,
    },
    /// The next generation began.
    Reset {
        /// Its number.
        generation: u32,
    },
    /// A line was written to the log.
    Said(Line),
    /// The supervisor ended.
    Ended(Ending),
}
