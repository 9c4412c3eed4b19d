//! What a script answers, what it leaves to commit, and what a session asks of the store that keeps the commits.
//!
//! [`answer`] runs the statements of a script in order over the rows of the table. Each gives one [`Item`]; the first
//! error item is the last, and then nothing is committed. The table itself isn't changed: what the script has changed so
//! far lies over it.
//!
//! A [`Store`] is the rows as its children use them together. It notes each event as a [`BookEntry`]; which books are legal,
//! and which history of commits a book tells, are definitions of this crate.
#![tactic(auto)]

mod book;
mod draft;
mod effect;
mod item;
mod laws;
mod pairs;
mod reply;
mod run;
mod store;
mod work;

pub use book::BookEntry;
pub use item::Item;
pub use laws::{
    acked_is_within, acked_never_falls, acknowledged_stays, checkpoint_bytes_are_the_number,
    commit_leaves_rows, only_writes_commit, past_stays, present_is_whole, repeat_changes_nothing,
    rows_are_within_needs, worked_books,
};
pub use pairs::Pairs;
pub use pm_record::RedoFault;
pub use reply::Reply;
pub use run::{Outcome, answer};
pub use store::{CHECKPOINT_BYTES, Checkpointed, Seen, Staged, Stepping, Store, StoreNo};
pub use work::Work;
