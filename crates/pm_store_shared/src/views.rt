//! What the seats of a shared store know. No value of these is made: views exist in proofs alone.
use pm_query::BookEntry;
use pm_segment::{Batch, Pass};
use std::collections::LinkedList;

/// An entry, with its place in the log. Where it tells that a child is gone, also how often that child was attached just before.
pub struct Noted {
    pub at: u64,
    pub entry: BookEntry,
    pub attached: u64,
}

/// The store as a seat has taken it, and all entries so far.
pub struct Taken<S> {
    pub log: LinkedList<BookEntry>,
    pub store: S,
}

/// What a token has lent of the store: the disk as it was then, for a batch of this generation.
pub struct Lent<F> {
    pub disk: F,
    pub batch: Batch,
    pub generation: u32,
}

/// What a token knows: its number, the disk as the store got it, the entries that its calls noted, its passes, all entries
/// that it found as it took the store last (none before its first call), the store as it was taken, and what the token has
/// lent of it.
pub struct Hand<S, F, L> {
    pub number: u32,
    pub first: F,
    pub own: LinkedList<Noted>,
    pub passes: LinkedList<Pass>,
    pub past: LinkedList<BookEntry>,
    pub held: Option<Taken<S>>,
    pub lent: Option<L>,
}

/// What a token knew as it was joined: the entries that its calls noted, and all that it found last.
pub struct Joined {
    pub own: LinkedList<Noted>,
    pub past: LinkedList<BookEntry>,
}

/// What the shared side knows: the next number, the disk as the store got it, the generation, the entries that its own
/// calls noted, what the tokens knew that were joined, and the store as it was taken.
pub struct Desk<S, F> {
    pub dealt: u32,
    pub first: F,
    pub generation: u32,
    pub own: LinkedList<Noted>,
    pub joined: LinkedList<Joined>,
    pub held: Option<Taken<S>>,
}

pub enum View<S, F, L> {
    /// The shared side, before the table has a store.
    Vacant,
    /// The same, with the slot in its hand.
    Founding,
    Master(Desk<S, F>),
    Worker(Hand<S, F, L>),
    /// The seat was taken in by another.
    Spent,
}
