//! What the gate hands out.

/// A child's leave to use what this generation shares.
#[derive(Debug, Drop)]
pub struct Attached {
    pub generation: u32,
}

/// A generation that has begun.
#[derive(Clone, Copy, Debug, PartialEq, Eq)]
pub struct Generation {
    pub number: u32,
}
