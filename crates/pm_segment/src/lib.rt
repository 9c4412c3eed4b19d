//! The store of a server: the rows, the commit log on its disk and the book of what happened.
//!
//! A [`Segment`] notes each of its events in the book, and makes each commit durable before its answer may be sent. From the end
//! of the first redo on, at every tick of the disk a stop leaves a number of the book's history that holds every acknowledged
//! commit. [`Sole`] is one that a thread has for itself. An [`Apart`] is one whose disk is elsewhere, as while a batch is written.
#![tactic(auto)]

mod laws;
mod segment;

pub use pm_store_apart::{Apart, Batch, Came, Commits, Lending, Live, Pass, Piece, Written};
pub use segment::{Segment, Sole};
