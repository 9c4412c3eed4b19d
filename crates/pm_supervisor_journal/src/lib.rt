//! A supervisor at work: the state machine of `pm_state`, with the journal of what it does, over any chronicle.
//!
//! [`Supervision`] makes the machine's calls for a server. It draws the pids, remembers the children, and notes each entry
//! beside what it tells of. A call that asks for acts leaves them due; the server does them one by one, each after a call of
//! `next`, and no further call of the machine is made before the last.
#![tactic(auto)]

mod act;
mod exit;
mod laws;
mod memory;
mod roll;
mod supervision;

pub use act::{Act, GenerationsSpent};
pub use exit::ChildExit;
pub use laws::{goes_on_over_its_journal, keeps_a_legal_journal, notes_what_is_due};
pub use roll::Enrolled;
pub use supervision::{Supervision, Taken};
