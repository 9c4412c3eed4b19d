//! A database: tables by name, each with its rows, and the commits that change it.
//!
//! A [`TableCommit`] is a list of changes, each of the table that it names, and [`Tables::apply`] makes them in order.
//! Contracts see [`Tables`] as a finite map from names to the finite maps of the tables' rows.
#![tactic(auto)]

mod apply;
mod change;
mod commit;
mod fate;
mod fates;
mod held;
mod laws;
mod limits;
mod tables;
mod tables_iter;
mod totals;

pub use apply::PreparedTables;
pub use change::TableChange;
pub use commit::TableCommit;
pub use laws::{commits_add_their_weight, each_table_by_itself};
pub use limits::{MAX_NAME_BYTES, MAX_TABLES, limits_are_the_numbers};
pub use tables::Tables;
pub use tables_iter::TablesIter;
