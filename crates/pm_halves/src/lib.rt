//! A table of two parts, each under a rule of its own, that are tied seat by seat.
//!
//! The table's words and slots are those of the first part and then those of the second. A seat has a view of each part, and
//! what ties the views of all seats is a third fact ([`Tie`]). A step on a word of one part is allowed where that part's own
//! rule allows it and the views stay tied. So who has proved a rule and its steps has them here as they were, and a fact of
//! both parts costs no more than what ties them.
//!
//! The second part has places: each is a word, and a slot for a value that the seats share, one at a time. The word is 0
//! exactly while the value lies there for who comes next.
#![tactic(auto)]

mod lot;
mod places;
mod plays;
mod seat;
mod seats;
mod steps;
mod table;
mod tie;
mod waits;

pub use lot::Lot;
pub use places::Hand;
pub use seat::TwoSeat;
pub use table::TwoTable;
pub use tie::{Tells, Tie};
