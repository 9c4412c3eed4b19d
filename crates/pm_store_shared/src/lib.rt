//! A store that several threads use, one at a time: the shared side, which brings it from one generation to the next, and
//! tokens, of which each worker has one.
//!
//! The store lies in the one slot of a table. Each call of a token takes it, waiting until it has it, and gives it back before
//! it returns. A flush takes it twice, and writes its batch in between, with the disk alone: meanwhile others use the store without
//! it. A flush that another's has done waits for that one's end, and only asks the store how far the log is flushed. Contracts see
//! in a token the list of the entries that its calls noted. When all tokens are back, the lists and the shared side's own are a
//! shuffle of the book.
#![tactic(auto)]

mod deed;
mod holding;
mod inner;
mod marking;
mod pieces;
mod place;
mod plays;
mod shared;
mod token;
mod token_store;
mod views;

pub use pm_store_turns::Caller;
pub use shared::{Shared, Tokens};
pub use token::Token;
pub use token_store::TokenStore;
pub use views::{Desk, Hand, Lent, Noted, Taken, View};
