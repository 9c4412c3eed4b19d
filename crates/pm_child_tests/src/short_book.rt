// A book that is refused memory at some calls.
ghost use Rattle.std.specs.Prelude.{◌≡◌};

use pm_outside::{Chronicle, Kept};
use pm_query::BookEntry;
use std::alloc::AllocError;

/// Keeps its entries, and finds no memory at the reservations with these numbers, which count from 1.
#[derive(Drop)]
pub struct ShortBook {
    kept: Kept<BookEntry>,
    failing: Vec<u64>,
    asked: u64,
}

impl ShortBook {
    /// A book that was asked for nothing yet.
    pub fn new(kept: Kept<BookEntry>, failing: Vec<u64>) -> ShortBook
        ensures { (result.kept ≡ kept) × (result.failing ≡ failing) × (result.asked ≡ 0) }
    {
        ShortBook {
            kept,
            failing,
            asked: 0,
        }
    }

    /// All entries, in the order in which they were noted.
    pub fn entries(&self) -> &[BookEntry] {
        self.kept.entries()
    }

    /// How often it was asked for room.
    pub fn asked(&self) -> u64
        ensures { result ≡ self.now.asked }
    {
        self.asked
    }
}

impl Chronicle<BookEntry> for ShortBook {
    ghost use Rattle.std.specs.Prelude.{Some};
    ghost use Rattle.pm_outside.specs.Kept.{kept_entries, kept_room};

    ghost entries = { λ book. Some (kept_entries book.kept) };

    ghost spare = { λ book. kept_room book.kept };

    fn reserve(&mut self, count: usize) -> Result<(), AllocError> {
        self.asked = self.asked.saturating_add(1);
        if self.failing.contains(&self.asked) {
            return Err(AllocError);
        }
        self.kept.reserve(count)
    }

    fn note(&mut self, entry: BookEntry) {
        self.kept.note(entry)
    }
}
