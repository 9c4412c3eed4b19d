//! The acts that a supervisor's machine asks for. A server does them one after the other ([`act_all`]). While nobody is killed
//! and none but smart shutdowns are asked for, these are few: what they keep of where the supervisor stands, and what the steps
//! of a server tell that does them.
#![tactic(auto)]

mod acts;
mod laws;

pub use acts::{Acting, act_all};
pub use laws::opens_once;
