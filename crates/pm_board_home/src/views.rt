//! What a seat knows of its board's home. No value of it is made: views exist in proofs alone.
use std::collections::LinkedList;

/// What a seat knows of its board's home, and the words that its takes met there.
pub struct HomeView<K> {
    pub knows: K,
    pub met: LinkedList<u64>,
}
