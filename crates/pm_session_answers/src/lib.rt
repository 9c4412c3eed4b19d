//! The replies of sessions beside the book of their store: each is that of its script on the rows of one number of the history.
//!
//! `specs/Replies` says what a right reply is, for sessions one after the other and side by side; `specs/Own` which entries of a book
//! are a child's; `laws` that what a session sent is right whose entries stand in a legal book.
#![tactic(auto)]

mod laws;

pub use laws::{own_entries_stand, replies_are_right};
