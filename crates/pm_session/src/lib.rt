//! One connection: its startup packet, its queries, and how it ends.
//!
//! [`serve`] reads what a client sends, answers it over any [`Store`](pm_query::Store), and heeds the signals that its
//! [`Life`](pm_child_life::Life) gives it. What a client is sent for what it sends, what is noted, how a session ends and why
//! are the definitions of `specs/Session` here, and of `specs/Sent` and `specs/Queries` of [`pm_session_exchange`].
#![tactic(auto)]

mod close;
mod converse;
mod desk;
mod laws;
mod session;
mod startup;

pub use laws::each_query_is_answered;
pub use pm_session_exchange::{Cause, Done, Means, MessageFault, Stage};
pub use session::{Admission, SessionConf, serve};
