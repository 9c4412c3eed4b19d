//! The leave of a child to use the store.

/// The leave of one child to use the store, from `enter` to `leave`.
#[derive(Clone, Copy, Debug, PartialEq, Eq)]
pub struct Pass {
    pub pid: u32,
    pub generation: u32,
    /// The number of commits that its last answer was read from.
    pub front: Option<u64>,
}
