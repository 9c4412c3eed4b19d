//! Work for threads of its own: what a work owes and gives, the leave to start threads, and many works that are started and
//! waited for.
#![tactic(auto)]

mod pool;
mod running;
mod spawner;
mod task;
mod threads;

pub use pool::{join_all, start_all};
pub use running::{Running, start};
pub use spawner::Spawner;
pub use task::Task;
pub use threads::{FewThreads, Threads};
