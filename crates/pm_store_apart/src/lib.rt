//! A store apart from its disk: rows, commit log and book, which children share, over whatever disk it may be.
//!
//! An [`Apart`] notes each of its events in the book, and makes each commit durable before its answer may be sent: at once, or
//! staged with others, as one batch. Calls that need the disk are handed it. It may be lent for a [`Batch`]: meanwhile the other
//! calls go on. That the book is legal and that rows and log are its replay holds from the moment at which the store got its
//! disk, and from the base that its first redo found: each call says that it keeps this, for every such beginning (`Moves`).
#![tactic(auto)]

mod apart;
mod append;
mod batch;
mod children;
mod commit;
mod commits;
mod due;
mod flush;
mod front;
mod history;
mod live;
mod pass;
mod piece;
mod pieces;
mod ran;
mod redo;
mod renew;
mod stage;

pub use apart::Apart;
pub use batch::{Batch, Lending, Written};
pub use children::Children;
pub use commit::Begun;
pub use commits::Commits;
pub use history::history_laws;
pub use live::Live;
pub use pass::Pass;
pub use piece::{Came, Piece};
pub use ran::Ran;
