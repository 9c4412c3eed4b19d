//! The rows as a script's statements so far leave them.
ghost use Rattle.std.specs.{Prelude.{◌≡◌, ◌+◌, ◌≤◌, ◌++◌, ◌↔◌, [], IsTrue, IfOk, OnOk}, Option.option_copied, Ordering.int_cmp, FinMap.Entries.is_sorted};
ghost use Rattle.std.specs.FinMap as map;
ghost use Rattle.pm_rows.specs.{Fold.changed, Limits.max_rows_bytes, Size.size_of};
ghost use Rattle.pm_query.specs.{Changes.{left_at, rows_at, size_at}, Merge.laid, Answer.row_at};

use crate::pairs::{Listing, Pairs};
use pm_rows::{Change, MAX_ROWS_BYTES, Rows, RowsIter, Text};
use std::alloc::{AllocError, Global};
use std::cmp::Ordering;
use std::collections::{BTreeMap, btree_map};
use std::marker::Model;

/// The table, and over it what was changed so far: a value for each key that was put, and none for each that was deleted.
/// Contracts see it as the rows that both make. The list of all rows is kept, where it was made since the last change.
#[derive(Drop)]
pub(crate) struct Draft<'a> {
    table: &'a Rows,
    changes: BTreeMap<i64, Option<Text>>,
    count: usize,
    size: u128,
    listed: Option<Pairs>,
}

impl<'a> Model for Draft<'a> {
    ghost use Rattle.std.specs.Coded.{coded_ℤ, coded_ℕ, coded_list};
    ghost use Rattle.std.specs.FinMap as map;
    ghost use Rattle.pm_rows.specs.Fold.{RowMap};

    ghost Value = { RowMap };

    ghost coded = { map.code coded_ℤ (coded_list coded_ℕ) };

    ghost use Rattle.pm_query.specs.{Changes.laid_over, Draft.IsDraft};

    ghost view = { λ draft. laid_over draft.table.now draft.changes.entries };

    ghost invariant = { λ draft. IsDraft draft.table.now draft.changes draft.count draft.size draft.listed };
}

impl<'a> Draft<'a> {
    /// The table, unchanged. A table of 2^64 bytes can't be kept in memory, so it counts as want of memory.
    pub(crate) fn of(alloc: Global, table: &'a Rows) -> Result<Draft<'a>, AllocError>
        ensures { IfOk result (λ draft. draft ≡ table.now) }
    {
        let size = table.size();
        if size == u64::MAX {
            return Err(AllocError);
        }
        Ok(Draft {
            table,
            changes: BTreeMap::new(alloc),
            count: table.len(),
            size: u128::from(size),
            listed: None,
        })
    }

    /// The value of the row of a key, where there is one.
    pub(crate) fn get(&self, key: i64) -> Option<&Text>
        ensures { option_copied result ≡ map.get self.now key }
    {
        match self.changes.get(&key) {
            Some(value) => value.as_ref(),
            None => self.table.get(key),
        }
    }

    /// The number of rows.
    pub(crate) fn len(&self) -> usize
        ensures { result ≡ map.len self.now }
    {
        self.count
    }

    /// Whether the rows with this value at this key keep the limit on their size.
    pub(crate) fn fits(&self, key: i64, value: &Text) -> bool
        ensures { IsTrue result ↔ (size_of (map.insert self.now key value.now) ≤ max_rows_bytes) }
    {
        let (_, added) = row_of(Some(value));
        // The row that goes is looked up only where its bytes decide.
        keeps_limit(self.size, added) || keeps_limit(self.others(key).1, added)
    }

    /// Makes a change.
    pub(crate) fn make(&mut self, change: &Change) -> Result<(), AllocError>
        ensures { OnOk result (self.new ≡ changed self.old change.now) }
    {
        match change {
            Change::Put { key, value } => self.set(*key, Some(value.copy()?)),
            Change::Del { key } => self.set(*key, None),
        }
    }

    // Leaves this at a key: a row with this value, or none. Numbers that overflow would be those of more rows than
    // memory can hold.
    fn set(&mut self, key: i64, value: Option<Text>) -> Result<(), AllocError>
        ensures { OnOk result (self.new ≡ left_at self.old key value) }
    {
        let (rows, bytes) = self.others(key);
        let (rows_added, bytes_added) = row_of(value.as_ref());
        let count = rows.checked_add(rows_added).ok_or(AllocError)?;
        let size = bytes.checked_add(bytes_added).ok_or(AllocError)?;
        self.changes.insert(key, value)?;
        self.count = count;
        self.size = size;
        self.listed = None;
        Ok(())
    }

    // How many rows there are but for that of a key, and how many bytes they take.
    fn others(&self, key: i64) -> (usize, u128)
        ensures rows { result.0 + rows_at (map.get self.now key) ≡ map.len self.now }
        ensures bytes { result.1 + size_at (map.get self.now key) ≡ size_of self.now }
    {
        let (rows, bytes) = row_of(self.get(key));
        (self.count - rows, self.size - bytes)
    }

    /// All rows, by rising key. They are listed once for as long as nothing is changed, and all answers share that list.
    pub(crate) fn pairs(&mut self, alloc: Global) -> Result<Pairs, AllocError>
        ensures pairs { IfOk result (λ pairs. pairs ≡ map.entries self.old) }
        ensures unchanged { self.new ≡ self.old }
    {
        if let Some(pairs) = &self.listed {
            return pairs.copy();
        }
        let pairs = self.list(alloc)?;
        self.listed = Some(pairs.copy()?);
        Ok(pairs)
    }

    // Lists all rows, by rising key.
    fn list(&self, alloc: Global) -> Result<Pairs, AllocError>
        ensures { IfOk result (λ pairs. pairs ≡ map.entries self.now) }
    {
        let listing = Listing::with_room(alloc, self.count)?;
        merged(listing, self.table.iter(), self.changes.iter())
    }
}

// How many rows there are at a key that has this value or none, and how many bytes they take.
fn row_of(value: Option<&Text>) -> (usize, u128)
    ensures rows { result.0 ≡ rows_at (option_copied value.entry) }
    ensures bytes { result.1 ≡ size_at (option_copied value.entry) }
{
    match value {
        Some(value) => (1, 12 + value.as_str().len() as u128),
        None => (0, 0),
    }
}

// Whether rows of so many bytes and one of so many more keep the limit on their size.
fn keeps_limit(bytes: u128, added: u128) -> bool
    ensures { IsTrue result ↔ (bytes + added ≤ max_rows_bytes) }
{
    bytes.saturating_add(added) <= u128::from(MAX_ROWS_BYTES)
}

// The rows and the changes over them, both by rising key, as one list.
fn merged<'a>(
    mut listing: Listing,
    mut rows: RowsIter<'a>,
    mut changes: btree_map::Iter<'a, i64, Option<Text>>,
) -> Result<Pairs, AllocError>
    requires rows { IsTrue (is_sorted int_cmp rows) }
    requires changes { IsTrue (is_sorted int_cmp changes) }
    requires empty { listing ≡ [] }
    ensures { IfOk result (λ pairs. pairs ≡ laid rows.entry changes.entry) }
{
    let mut row = rows.next();
    let mut change = changes.next();
    loop {
        match (row, change) {
            (None, None) => return listing.shared(),
            (Some(next), None) => {
                listing.push(next)?;
                row = rows.next();
            }
            (None, Some(next)) => {
                push_change(&mut listing, next)?;
                change = changes.next();
            }
            (Some(next), Some(next_change)) => match next.0.cmp(next_change.0) {
                Ordering::Less => {
                    listing.push(next)?;
                    row = rows.next();
                }
                Ordering::Equal => {
                    push_change(&mut listing, next_change)?;
                    row = rows.next();
                    change = changes.next();
                }
                Ordering::Greater => {
                    push_change(&mut listing, next_change)?;
                    change = changes.next();
                }
            },
        }
    }
}

// Adds the row of a changed key that has a value.
fn push_change(listing: &mut Listing, change: (&i64, &Option<Text>)) -> Result<(), AllocError>
    ensures { OnOk result (listing.new ≡ listing.old ++ row_at change.entry.0.now
        change.entry.1.now) }
{
    let (key, value) = change;
    match value {
        Some(value) => listing.push((*key, value)),
        None => Ok(()),
    }
}
