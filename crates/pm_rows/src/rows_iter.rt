//! The iterator over rows.
ghost use Rattle.std.specs.{Prelude.{◌≡◌, length}, Iterator.at_most, Map.Iter.{TakesFirst, ShowsInOrder}};
ghost use Rattle.pm_rows.specs.RowsIter.{shown_row};

use crate::text::Text;
use std::collections::btree_map;
use std::marker::Model;

/// The rows by rising key, each as its key and its value. Contracts see it as the list of the rows that are left.
#[derive(Drop)]
pub struct RowsIter<'a> {
    entries: btree_map::Iter<'a, i64, Text>,
}

impl<'a> Model for RowsIter<'a> {
    ghost use Rattle.std.specs.Prelude.{ℕ, ℤ, List};

    ghost Value = { List (ℤ × List ℕ) };

    ghost view = { λ rows. rows.entries };
}

impl<'a> RowsIter<'a> {
    pub(crate) fn of(entries: btree_map::Iter<'a, i64, Text>) -> RowsIter<'a>
        ensures { result ≡ entries.entry }
    {
        RowsIter { entries }
    }
}

impl<'a> Iterator for RowsIter<'a> {
    type Item = (i64, &'a Text);

    ghost next_gives = { TakesFirst shown_row };

    ghost remaining = { λ rows. at_most (length rows) };

    fn next(&mut self) -> Option<(i64, &'a Text)> {
        match self.entries.next() {
            Some((key, value)) => Some((*key, value)),
            None => None,
        }
    }
}
