//! The iterator over tables.
ghost use Rattle.std.specs.{Prelude.{◌≡◌, length}, Iterator.at_most, Map.Iter.{TakesFirst, ShowsInOrder}};
ghost use Rattle.pm_tables.specs.{Inside.named, TablesIter.shown_table};

use pm_rows::Rows;
use std::collections::btree_map;
use std::marker::Model;

/// The tables by rising name, each as its name and its rows. Contracts see it as the list of the tables that are left.
#[derive(Drop)]
pub struct TablesIter<'a> {
    entries: btree_map::Iter<'a, String, Rows>,
}

impl<'a> Model for TablesIter<'a> {
    ghost use Rattle.std.specs.{Prelude.List, Coded.coded_list};
    ghost use Rattle.pm_tables.specs.{Sizes.NamedTable, Pending.named_table_code, Inside.named};

    ghost Value = { List NamedTable };

    ghost coded = { coded_list named_table_code };

    ghost view = { λ tables. named tables.entries };
}

impl<'a> TablesIter<'a> {
    pub(crate) fn of(entries: btree_map::Iter<'a, String, Rows>) -> TablesIter<'a>
        ensures { result ≡ named entries.entry }
    {
        TablesIter { entries }
    }
}

impl<'a> Iterator for TablesIter<'a> {
    type Item = (&'a str, &'a Rows);

    ghost next_gives = { TakesFirst shown_table };

    ghost remaining = { λ tables. at_most (length tables) };

    fn next(&mut self) -> Option<(&'a str, &'a Rows)> {
        match self.entries.next() {
            Some((name, rows)) => Some((name.as_str(), rows)),
            None => None,
        }
    }
}
