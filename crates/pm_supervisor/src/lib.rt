//! The supervisor of a server as those outside of it may see it: its phase, its children and what they are attached to.
//!
//! The state and the steps are definitions alone (`specs`): the state machine and the board of child slots are both
//! measured against them. The code has the words that both of them use.
#![tactic(auto)]

mod laws;

pub use laws::{
    admits_none_until_redo, admits_while_well, ends_clean_behind_a_checkpoint, ends_for_good,
    keeps_what_is_shared, redo_ends_once, stays_sound, stays_well, takes_child_steps_between,
};

/// Why every child is told to end at once.
#[derive(Clone, Copy, Debug, PartialEq, Eq)]
pub enum Reason {
    /// Another child crashed.
    Crash,
    /// An immediate shutdown was asked for.
    Stop,
}

/// How the supervisor ends.
#[derive(Clone, Copy, Debug, PartialEq, Eq)]
pub enum Ending {
    /// After a shutdown, with no crash noted.
    Clean,
    /// After a shutdown, with a crash noted.
    AfterCrash,
    /// The startup child didn't bring the data up to date.
    StartupFailed,
    /// A child crashed, and the server isn't to restart after a crash.
    RestartOff,
}

/// What the supervisor was started with.
#[derive(Clone, Copy, Debug, PartialEq, Eq)]
pub struct Limits {
    /// The number of sessions that may be attached at once (`max_connections`).
    pub max_connections: u32,
    /// The number of background workers (`max_worker_processes`).
    pub max_worker_processes: u32,
    /// Of the sessions so many are kept for user `postgres` (`superuser_reserved_connections`).
    pub reserved: u32,
    /// Whether the server starts again after a crash (`restart_after_crash`).
    pub restart_after_crash: bool,
}
