//! What is to be sent, with room that was taken ahead.

ghost use Rattle.std.specs.Prelude.{◌≡◌, ◌+◌, ◌<◌, ◌≤◌, ◌++◌, [], IfOk, OnOk, OnErr, IsTrue, ◌↔◌, length};
ghost use Rattle.pm_wire.specs.Outgoing.{room};

use std::alloc::{AllocError, Global};
use std::marker::Model;

/// Bytes to send. Where there is room for more, these are appended without taking memory.
#[derive(Debug, Drop)]
pub struct Outbox {
    pub(crate) held: Vec<u8>,
}

impl Model for Outbox {
    ghost use Rattle.std.specs.Prelude.{vec_capacity};
    ghost use Rattle.pm_wire.specs.Outgoing.{Outgoing};

    ghost Value = { Outgoing };

    ghost view = { λ o. record { bytes = o.held.items; capacity = vec_capacity o.held } };
}

impl Outbox {
    /// No bytes, and no room yet.
    pub fn new(alloc: Global) -> Outbox
        ensures { result.bytes ≡ [] }
    {
        let held = Vec::new(alloc);
        Outbox { held }
    }

    /// No bytes, and room for as many as said.
    pub fn with_capacity(alloc: Global, capacity: usize) -> Result<Outbox, AllocError>
        ensures { IfOk result (λ out. (out.bytes ≡ []) × (capacity ≤ out.capacity)) }
    {
        let held = Vec::with_capacity(alloc, capacity)?;
        Ok(Outbox { held })
    }

    /// Takes room for so many bytes more.
    pub fn reserve(&mut self, more: usize) -> Result<(), AllocError>
        ensures bytes { self.new.bytes ≡ self.old.bytes }
        ensures ok { OnOk result (more ≤ room self.new) }
        ensures full { OnErr result (room self.old < more) }
        ensures capacity { self.old.capacity ≤ self.new.capacity }
    {
        self.held.reserve(more)
    }

    pub fn as_slice(&self) -> &[u8]
        ensures { result.now ≡ self.now.bytes }
    {
        self.held.as_slice()
    }

    pub fn len(&self) -> usize
        ensures { result ≡ length self.now.bytes }
    {
        self.held.len()
    }

    pub fn is_empty(&self) -> bool
        ensures { IsTrue result ↔ (self.now.bytes ≡ []) }
    {
        self.held.is_empty()
    }

    /// How many bytes more can be appended without taking memory.
    pub fn room(&self) -> usize
        ensures { result ≡ room self.now }
    {
        self.held.capacity() - self.held.len()
    }

    /// Forgets the bytes and keeps the room for the next ones.
    pub fn clear(&mut self)
        ensures bytes { self.new.bytes ≡ [] }
        ensures capacity { self.new.capacity ≡ self.old.capacity }
    {
        self.held.clear();
    }

    /// Appends bytes for which there is room.
    pub fn append(&mut self, bytes: &[u8])
        requires { length bytes.now ≤ room self.old }
        ensures bytes { self.new.bytes ≡ self.old.bytes ++ bytes.now }
        ensures capacity { self.old.capacity ≤ self.new.capacity }
    {
        if self.held.extend_from_slice(bytes).is_err() {
            unreachable!();
        }
    }
}
