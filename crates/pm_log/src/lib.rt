//! The commit log over two files: batches behind gates, and checkpoints that move it to the other file.
//!
//! [`init`] makes a cluster of no commits. [`Log::resume`] goes on with what a recovery has found, [`Log::append`] adds a
//! batch of commits, and [`Log::checkpoint`] writes all rows as the base of the other file. [`Log::begin`], [`Log::step`]
//! and [`Log::switch`] do that in pieces, between which batches are appended, and [`Log::abandon`] gives it up. At every
//! tick of these a stop leaves what stood before, or that with all of the call's work; after a fault of the disk the log
//! is broken and makes no device call. A stop inside `init` may leave a part of a cluster.
#![tactic(auto)]

mod base;
mod cluster;
mod laws;
mod limits;
mod log;
mod making;
mod pieces;

pub use cluster::{InitNo, init};
pub use laws::room_is_the_smaller;
pub use limits::may_append;
pub use log::{Log, LogFault, Receipt};
pub use making::{Making, Stepped};
