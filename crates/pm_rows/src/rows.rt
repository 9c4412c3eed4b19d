//! The rows of the table.
ghost use Rattle.std.specs.{Prelude.{◌≡◌, ◌+◌, ◌-◌, ◌^◌, ◌<◌, min, All, FitsSigned, IfOk, IfSome, OnOk, OnErr}, Int.w64, Map.Iter.ShowsInOrder, Option.option_copied, Str.IsUtf8};
ghost use Rattle.std.specs.FinMap as map;
ghost use Rattle.pm_rows.specs.{Fold.rows_of_pairs, Limits.IsWithinRowLimits, RowsIter.shown_row, Size.{row_size, size_of}, Table.IsTable, Typed.IsTypedRow};

use crate::rows_iter::RowsIter;
use crate::text::Text;
use std::alloc::{AllocError, Global};
use std::collections::BTreeMap;
use std::marker::Model;

/// The rows, by rising key. Contracts see them as a finite map from keys to the bytes of the values.
#[derive(Debug, Drop)]
pub struct Rows {
    table: BTreeMap<i64, Text>,
    // The exact sum. It fits, since there are fewer than 2^63 rows, each of less than 2^64 + 12 bytes.
    size: u128,
    alloc: Global,
}

impl Model for Rows {
    ghost use Rattle.std.specs.Coded.{coded_ℤ, coded_ℕ, coded_list};
    ghost use Rattle.std.specs.FinMap as map;
    ghost use Rattle.pm_rows.specs.Fold.{RowMap};

    ghost Value = { RowMap };

    ghost coded = { map.code coded_ℤ (coded_list coded_ℕ) };

    ghost use Rattle.pm_rows.specs.Table.{rows_in, IsTable};

    ghost view = { λ rows. rows_in rows.table };

    ghost invariant = { λ rows. IsTable rows.table rows.size };
}

impl Rows {
    /// A table without rows. It takes no memory.
    pub fn new(alloc: Global) -> Rows
        ensures none { result ≡ map.empty }
        ensures limits { IsWithinRowLimits result }
    {
        Rows {
            table: BTreeMap::new(alloc),
            size: 0,
            alloc,
        }
    }

    /// The rows of pairs of a key and its value, put one after the other: of those of one key the last is left. It fails
    /// only where memory is short. Where the keys rise it takes time of the order of the list's length, and else that
    /// times its logarithm.
    pub fn of_pairs(alloc: Global, pairs: Vec<(i64, Text)>) -> Result<Rows, AllocError>
        ensures { IfOk result (λ rows. rows ≡ rows_of_pairs pairs.items) }
    {
        let table: BTreeMap<i64, Text> = pairs.into_iter().collect(alloc)?;
        let size = table_size(&table);
        Ok(Rows { table, size, alloc })
    }

    /// The value of the row of a key, where there is one. It takes time of the order of the logarithm of the rows.
    pub fn get(&self, key: i64) -> Option<&Text>
        ensures { option_copied result ≡ map.get self.now key }
    {
        self.table.get(&key)
    }

    /// The number of rows.
    pub fn len(&self) -> usize
        ensures { result ≡ map.len self.now }
    {
        self.table.len()
    }

    /// The size of the rows in bytes: 12 for each row and the length of its value, or the largest `u64` where that is
    /// more. It is kept, and not counted.
    pub fn size(&self) -> u64
        ensures { result ≡ min (size_of self.now) (2 ^ 64 - 1) }
    {
        u64::try_from(self.size).unwrap_or(u64::MAX)
    }

    /// The rows by rising key. Each has a key that fits 64 bits, and a value that is UTF-8.
    pub fn iter(&self) -> RowsIter<'_>
        ensures rest { result ≡ map.entries self.now }
        ensures runs { ShowsInOrder shown_row }
        ensures typed { All IsTypedRow (map.entries self.now) }
    {
        RowsIter::of(self.table.iter())
    }

    /// Equal rows of their own. It fails only where memory is short.
    pub fn copy(&self) -> Result<Rows, AllocError>
        ensures { IfOk result (λ rows. rows ≡ self.now) }
    {
        Ok(Rows {
            table: self.table.clone()?,
            size: self.size,
            alloc: self.alloc,
        })
    }

    /// The law that each key fits 64 bits and that each value is UTF-8.
    pub fn are_typed(&self)
        ensures { All IsTypedRow (map.entries self.now) }
    {
        let _rows = &self.table;
    }

    pub(crate) fn allocator(&self) -> Global {
        self.alloc
    }

    /// Sets the value at a key. Only a key without a row takes memory.
    pub fn put(&mut self, key: i64, value: Text) -> Result<(), AllocError>
        ensures ok { OnOk result (self.new ≡ map.insert self.old key value) }
        ensures err { OnErr result (self.new ≡ self.old) }
        ensures absent { OnErr result (map.get self.old key ≡ None) }
    {
        let added = row_size(&value);
        // `len` tells that there are fewer than 2^63 rows.
        let _rows = self.table.len();
        let old = self.table.insert(key, value)?;
        self.size += added;
        if let Some(replaced) = old {
            self.size -= row_size(&replaced);
        }
        Ok(())
    }

    // Takes a key out, where it has a row.
    pub(crate) fn take_out(&mut self, key: i64)
        ensures { self.new ≡ map.remove self.old key }
    {
        if let Some(removed) = self.table.remove(&key) {
            self.size -= row_size(&removed);
        }
    }
}

// The size of the rows of a table.
fn table_size(table: &BTreeMap<i64, Text>) -> u128
    ensures { IsTable table.now result }
{
    let mut size = 0;
    for (key, value) in table.iter() {
        key_fits(key);
        size += row_size(value);
    }
    size
}

// The law that a key fits 64 bits.
fn key_fits(key: &i64)
    ensures { FitsSigned w64 key.now }
{
    let _key = *key;
}

// The bytes that a row of this value takes.
fn row_size(value: &Text) -> u128
    ensures size { result ≡ row_size value.now }
    ensures small { result < 2 ^ 64 + 12 }
    ensures utf8 { IsUtf8 value.now }
{
    12 + value.as_str().len() as u128
}
