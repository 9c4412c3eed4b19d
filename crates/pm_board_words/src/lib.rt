//! The words of a board: how what a slot, the gate and a latch tell is packed into one number each, and what the seats of a board
//! know.
//!
//! Nothing here is shared or waits: a board changes these words, each by one atomic operation. The views exist in proofs alone.
#![tactic(auto)]

mod packing;
mod views;

pub use packing::{
    ACTIVE, EMPTY_HOME, EXITED, FIRST_GATE, NEVER_HOME, NEXT_STAGE, NO_SIGNALS, OFFERED, UNUSED,
    answer_at, armed, armed_for, ended, is_active, kind, low_half, new_word, offered, pid, place,
    quit_adds, ready_adds, signal_bit, signals, stage, status,
};
pub use views::{
    Cancel, Heard, LatchLook, Letter, Offer, PastChild, PostNotes, PostStep, PostView, RosterNotes,
    RosterStep, RosterView, SessionLimit, Sight, Signal, SlotView, View, Work,
};
