//! The rows of the table `kv`, and the commits that change them.
//!
//! A [`Commit`] is a list of changes, and [`Rows::apply`] makes them in order: a put sets its key to its value, and a
//! deletion takes its key out. Contracts see [`Rows`] as a finite map from keys to the bytes of the values.
#![tactic(auto)]

mod apply;
mod commit;
mod limits;
mod rows;
mod rows_iter;
mod text;

pub use apply::Prepared;
pub use commit::{Change, Commit};
pub use limits::{
    MAX_CHANGE_BYTES, MAX_CHANGES, MAX_COMMIT_BYTES, MAX_COMMITS, MAX_FILE_BYTES, MAX_ROWS,
    MAX_ROWS_BYTES, MAX_VALUE_BYTES, limits_are_the_numbers,
};
pub use rows::Rows;
pub use rows_iter::RowsIter;
pub use text::Text;
