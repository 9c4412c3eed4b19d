//! The workload: its queries through the server of one connection at a time, all in memory, and whether every answer was that of
//! the queries' meaning.
#![tactic(auto)]

mod checking;
mod memory;
mod running;

pub use checking::checked;
pub use running::{WorkloadNo, workload};
