//! The state machine of the supervisor, after PostgreSQL's `pmState`.
//!
//! It starts the startup child, and connections are served once that has brought the data up to date. It takes a smart, fast
//! or immediate shutdown to its end (the manual, 19.5 "Shutting Down the Server"), and after a crash of one child ends all
//! others and starts again (20.14 "Error Handling", `restart_after_crash`).
//!
//! It takes what happened (a child ended, a shutdown was asked for, time passed) and answers what is to be done, in order.
//! It has no handle, takes no memory and reads no clock: the caller does what it says and tells it the time.
#![tactic(auto)]

mod action;
mod event;
mod laws;
mod machine;
mod pm_core;
mod text;
mod turn;

pub use action::{Action, Actions, Line};
pub use event::PmEvent;
pub use laws::{
    keeps_its_facts, keeps_its_promises, restarts_safely, shows_a_supervisor, stays_in_step,
    tells_of_each_start, worked_restarts, writes_a_legal_journal,
};
pub use pm_core::PmCore;
pub use pm_supervisor::{Ending, Limits, Reason};
