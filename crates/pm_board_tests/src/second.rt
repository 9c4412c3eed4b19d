//! What a seat knows of one of two counters. It stands apart, since definitions name it.

/// What the seat knows of the second counter.
pub(crate) enum Second {
    /// Nothing was put at the place yet.
    Fresh,
    /// This number lies there.
    Home(u64),
    /// The seat has it.
    Held(u64),
}
