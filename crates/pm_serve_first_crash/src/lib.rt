//! No child of a server of many connections crashes without a cause: what the first crash of its journal is due to, by the runs of
//! its workers.
//!
//! pm_supervisor_crashes says which ends of children are crashes, `specs/Causes` what a child can crash by, and `specs/BlameLaws` takes
//! it to what a server leaves.
#![tactic(auto)]

mod laws;

pub use laws::worked_firsts;
