//! The rows that a statement shows.
ghost use Rattle.std.specs.Prelude.{◌≡◌, [], ◌∷◌, ◌++◌, All, IfOk, OnOk};
ghost use Rattle.pm_rows.specs.{RowsIter.shown_row, Typed.IsTypedRow};

use pm_rows::Text;
use std::alloc::{AllocError, Global};
use std::marker::Model;
use std::sync::ArcSlice;

/// Rows, each as its key and its value, in the order in which they are shown. Contracts see them as that list.
///
/// Its copies share the list, so rows that several statements and the book's entry show are listed once.
#[derive(Debug, Drop)]
pub struct Pairs {
    pairs: ArcSlice<(i64, Text)>,
}

impl Model for Pairs {
    ghost use Rattle.std.specs.{Prelude.{All, ℕ, ℤ, List}, Arc.arc_slice_items};

    ghost Value = { List (ℤ × List ℕ) };

    ghost view = { λ shown. arc_slice_items shown.pairs };

    ghost use Rattle.pm_rows.specs.Typed.{IsTypedRow};

    ghost invariant = { λ shown. All IsTypedRow (arc_slice_items shown.pairs) };
}

impl Pairs {
    /// The rows, in order. Each has a key that fits 64 bits, and a value that is UTF-8.
    pub fn pairs(&self) -> &[(i64, Text)]
        ensures list { result.now ≡ self.now }
        ensures typed { All IsTypedRow self.now }
    {
        &self.pairs
    }

    /// Equal rows, which share the list. It fails only where there are as many copies as can be counted.
    pub fn copy(&self) -> Result<Pairs, AllocError>
        ensures { IfOk result (λ pairs. pairs ≡ self.now) }
    {
        Ok(Pairs {
            pairs: self.pairs.clone()?,
        })
    }
}

/// Rows while they are listed. Contracts see them as the list so far.
#[derive(Drop)]
pub(crate) struct Listing {
    pairs: Vec<(i64, Text)>,
}

impl Model for Listing {
    ghost use Rattle.std.specs.Prelude.{All, ℕ, ℤ, List};

    ghost Value = { List (ℤ × List ℕ) };

    ghost view = { λ listing. listing.pairs.items };

    ghost use Rattle.pm_rows.specs.Typed.{IsTypedRow};

    ghost invariant = { λ listing. All IsTypedRow listing.pairs.items };
}

impl Listing {
    // No rows yet, with room for so many.
    pub(crate) fn with_room(alloc: Global, rows: usize) -> Result<Listing, AllocError>
        ensures { IfOk result (λ listing. listing ≡ []) }
    {
        Ok(Listing {
            pairs: Vec::with_capacity(alloc, rows)?,
        })
    }

    // Adds a row after the others.
    pub(crate) fn push(&mut self, row: (i64, &Text)) -> Result<(), AllocError>
        ensures { OnOk result (self.new ≡ self.old ++ shown_row row.entry ∷ []) }
    {
        let (key, value) = row;
        // A text is UTF-8, as its slice tells.
        let _utf8 = value.as_str();
        let text = value.copy()?;
        self.pairs.push((key, text))?;
        Ok(())
    }

    // The rows that were listed, to be shared.
    pub(crate) fn shared(self) -> Result<Pairs, AllocError>
        ensures { IfOk result (λ pairs. pairs ≡ self) }
    {
        let Listing { pairs } = self;
        Ok(Pairs {
            pairs: ArcSlice::from_vec(pairs)?,
        })
    }
}
