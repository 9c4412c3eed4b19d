//! The board: the words that the supervisor and its children share, one slot for each child.
//!
//! A [`Roster`] is the supervisor's seat at the board, and a [`Post`] that of the worker of one slot. The supervisor
//! assigns a child to an unused slot and hands a mail over with it; the worker starts the child, and hands a mail back at
//! its end; the supervisor finds the end by a look, and releases the slot. Each step is one atomic operation on one word.
//!
//! Something may lie at the board's home ([`pm_board_home::Home`]), which the seats share, one at a time: a worker has it only while
//! its child is attached, in the generation that it is of. Nothing lies there unless a board says what.
//!
//! A seat has a view, what it knows, which exists in proofs alone. One rule ties words, mails and all views together
//! (`specs/Rule`). It holds between any two steps, and each call tells its caller what it adds to the own view.
#![tactic(auto)]

mod board;
mod gate_steps;
mod home_steps;
mod latch_steps;
mod laws;
mod plays;
mod post;
mod posts;
mod room;
mod roster;

pub use board::Board;
pub use laws::{
    counts_children, hears_what_was_sent, history_is_of_the_seats, lends_rightly, lets_in_rightly,
    reset_finds_nobody, shows_a_sound_state,
};
pub use pm_board_words::{
    Cancel, Heard, LatchLook, Letter, Offer, PastChild, PostNotes, PostStep, PostView, RosterNotes,
    RosterStep, RosterView, SessionLimit, Sight, Signal, SlotView, View, Work,
};
pub use post::{Post, Started};
pub use posts::Posts;
pub use room::Room;
pub use roster::{Look, Released, Roster};
