//! Which child sits in which slot of the board, and what the acts of the supervisor are there.
#![tactic(auto)]

mod audience;
mod calls;
mod chained;
mod desk;
mod finish;
mod laws;
mod mail;
mod meant;
mod parts;
mod seats;
mod telling;
mod worker_mail;

pub use audience::Audience;
pub use chained::{
    calls_leave_the_gate, calls_may_be_done, ends_are_runs, lines_may_ask_for_nothing,
};
pub use desk::{Desk, Looked};
pub use finish::{Rest, ends_with_nobody, kill_rest, may_end_anywhere, reap_rest};
pub use mail::Report;
pub use meant::is_told;
pub use seats::{reap, seat, seated};
pub use telling::{quit_all, tell};
