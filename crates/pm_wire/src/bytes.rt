//! A buffer of bytes to send.

ghost use Rattle.std.specs.Prelude.{◌≡◌, ℕ, List, [], IsTrue, ◌↔◌, length};

use crate::outbox::Outbox;
use std::alloc::Global;
use std::marker::Model;

/// A growing list of bytes.
#[derive(Debug, Drop)]
pub struct Bytes {
    pub(crate) held: Outbox,
}

impl Model for Bytes {
    ghost Value = { List ℕ };

    ghost view = { λ b. b.held.bytes };
}

impl Bytes {
    /// No bytes; takes no memory yet.
    pub fn new(alloc: Global) -> Bytes
        ensures { result ≡ [] }
    {
        Bytes {
            held: Outbox::new(alloc),
        }
    }

    pub fn as_slice(&self) -> &[u8]
        ensures { result.now ≡ self.now }
    {
        self.held.as_slice()
    }

    pub fn len(&self) -> usize
        ensures { result ≡ length self.now }
    {
        self.held.len()
    }

    pub fn is_empty(&self) -> bool
        ensures { IsTrue result ↔ (self.now ≡ []) }
    {
        self.held.is_empty()
    }

    /// Forgets the bytes and keeps the memory for the next ones.
    pub fn clear(&mut self)
        ensures { self.new ≡ [] }
    {
        self.held.clear();
    }
}
