//! The server of `once`: one thread takes the supervisor's machine through its states, with its journal, serves the links of
//! a port one after another over a store, and goes through a crash cycle where a child crashes.
//!
//! [`once`] is the whole run. A server does what is due before anything else: the acts of the machine, in their order, and
//! then the runs of children that have something to do, one at a time. Only then the next link is asked for.
#![tactic(auto)]

mod admitted;
mod ended;
mod laws;
mod rounds;
mod run_once;
mod server;
mod session;

pub use ended::Ended;
pub use run_once::once;
