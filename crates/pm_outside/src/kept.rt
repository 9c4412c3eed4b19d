// A chronicle that keeps its entries.
ghost use Rattle.std.specs.{Prelude.{◌+◌, ◌≤◌, length}, Vec.{vec_len, vec_capacity}};

use crate::chronicle::Chronicle;
use std::alloc::{AllocError, Global};

/// Keeps its entries in order, in room that is reserved before.
#[derive(Drop)]
pub struct Kept<E> {
    entries: Vec<E>,
    room: usize,
    ghost fits: { vec_len entries + room ≤ vec_capacity entries },
}

impl<E> Kept<E> {
    ghost use Rattle.std.specs.Prelude.{◌≡◌, []};
    ghost use Rattle.pm_outside.specs.Kept.{kept_entries, kept_room};

    /// No entries, and no room yet.
    pub fn new(alloc: Global) -> Self
        ensures empty { kept_entries result ≡ [] }
        ensures room { kept_room result ≡ 0 }
    {
        Kept {
            entries: Vec::new(alloc),
            room: 0,
        }
    }

    /// All entries, in the order in which they were noted.
    pub fn entries(&self) -> &[E]
        ensures { result.now ≡ kept_entries self.now }
    {
        &self.entries
    }
}

impl<E> Chronicle<E> for Kept<E> {
    ghost use Rattle.std.specs.Prelude.{◌≡◌, ◌+◌, ◌≤◌, [], ◌∷◌, ◌++◌, max, OnOk, OnErr, Some};
    ghost use Rattle.pm_outside.specs.Kept.{kept_entries, kept_room};

    ghost entries = { λ k. Some (kept_entries k) };

    ghost spare = { kept_room };

    fn reserve(&mut self, count: usize) -> Result<(), AllocError>
        ensures room { OnOk result (kept_room self.new ≡ max (kept_room self.old) count) }
        ensures refused { OnErr result (kept_room self.new ≡ kept_room self.old) }
        ensures entries { kept_entries self.new ≡ kept_entries self.old }
    {
        if self.room < count {
            self.entries.reserve(count)?;
            self.room = count;
        }
        Ok(())
    }

    fn note(&mut self, entry: E)
        requires { 1 ≤ kept_room self.old }
        ensures entries { kept_entries self.new ≡ kept_entries self.old ++ entry ∷ [] }
        ensures room { kept_room self.new + 1 ≡ kept_room self.old }
    {
        self.room -= 1;
        self.entries.push(entry).unwrap();
    }
}
