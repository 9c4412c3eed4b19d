//! The tables of a database.
ghost use Rattle.std.specs.{Prelude.{◌≡◌, ◌-◌, ◌^◌, min, None, All, IfNone, OnOk, OnErr, OnSome}, Map.Iter.ShowsInOrder, Option.option_copied};
ghost use Rattle.std.specs.FinMap as map;
ghost use Rattle.pm_tables.specs.{Inside.capped, Limits.IsWithinLimits, Sizes.{rows_of, size_of_tables}, TablesIter.shown_table};

use crate::tables_iter::TablesIter;
use crate::totals::Totals;
use pm_rows::Rows;
use std::alloc::{AllocError, Global};
use std::collections::BTreeMap;
use std::marker::Model;
use std::mem;

/// Tables by name. Contracts see them as a finite map from the bytes of the names to the tables' rows.
#[derive(Debug, Drop)]
pub struct Tables {
    tables: BTreeMap<String, Rows>,
    totals: Totals,
    alloc: Global,
}

impl Model for Tables {
    ghost use Rattle.pm_tables.specs.{Tables.TableMap, Pending.table_map_code, Inside.{tables_in, IsDatabase}};

    ghost Value = { TableMap };

    ghost coded = { table_map_code };

    ghost view = { λ database. tables_in database.tables };

    ghost invariant = { λ database. IsDatabase database.tables database.totals };
}

impl Tables {
    /// A database without tables. It takes no memory.
    pub fn new(alloc: Global) -> Tables
        ensures none { result ≡ map.empty }
        ensures limits { IsWithinLimits result }
    {
        Tables {
            tables: BTreeMap::new(alloc),
            totals: Totals::NONE,
            alloc,
        }
    }

    /// The rows of the table of a name, where there is one. It takes no memory, and time of the order of the logarithm of
    /// the number of tables.
    pub fn table(&self, name: &str) -> Option<&Rows>
        ensures { option_copied result ≡ map.get self.now name.now }
    {
        self.tables.get(name)
    }

    /// The number of tables.
    pub fn table_count(&self) -> usize
        ensures { result ≡ map.len self.now }
    {
        self.tables.len()
    }

    /// The number of the rows of all tables, or the largest `usize` where that is less. It is kept, and not counted.
    pub fn len(&self) -> usize
        ensures { result ≡ min (rows_of self.now) (2 ^ 64 - 1) }
    {
        usize::try_from(self.totals.rows).unwrap_or(usize::MAX)
    }

    /// The size of all tables in bytes: that of their rows, and for each table but `kv` five and the length of its name,
    /// or the largest `u64` where that is less. It is kept, and not counted.
    pub fn size(&self) -> u64
        ensures { result ≡ min (size_of_tables self.now) (2 ^ 64 - 1) }
    {
        u64::try_from(self.totals.size).unwrap_or(u64::MAX)
    }

    /// The tables by rising name.
    pub fn iter(&self) -> TablesIter<'_>
        ensures rest { result ≡ map.entries self.now }
        ensures runs { ShowsInOrder shown_table }
    {
        TablesIter::of(self.tables.iter())
    }

    /// Puts a table under a name, in place of the one that was there. Only a name without a table takes memory; where that
    /// is short the tables stay as they were.
    pub fn put(&mut self, name: &str, rows: Rows) -> Result<(), AllocError>
        ensures ok { OnOk result (self.new ≡ map.insert self.old name.now rows) }
        ensures err { OnErr result (self.new ≡ self.old) }
    {
        if self.tables.contains_key(name) {
            let _ = self.swap(name, rows);
            return Ok(());
        }
        let given = Totals::of(name, &rows);
        // `len` tells that there are fewer than 2^63 tables.
        let _tables = self.tables.len();
        self.tables
            .insert(String::from_str(self.alloc, name)?, rows)?;
        self.totals = self.totals.exchange(Totals::NONE, given);
        Ok(())
    }

    /// Puts other rows into the table of a name, where there is one, and answers those that it had.
    pub(crate) fn swap(&mut self, name: &str, rows: Rows) -> Option<Rows>
        ensures was { result ≡ map.get self.old name.now }
        ensures some { OnSome result (self.new ≡ map.insert self.old name.now rows) }
        ensures none { IfNone result (self.new ≡ self.old) }
    {
        let given = Totals::of(name, &rows);
        let _tables = self.tables.len();
        let table = self.tables.get_mut(name)?;
        let old = mem::replace(table, rows);
        self.totals = self.totals.exchange(Totals::of(name, &old), given);
        Some(old)
    }

    /// Takes the table of a name out, where there is one.
    pub(crate) fn remove(&mut self, name: &str) -> Option<Rows>
        ensures was { result ≡ map.get self.old name.now }
        ensures out { self.new ≡ map.remove self.old name.now }
    {
        let _tables = self.tables.len();
        let old = self.tables.remove(name)?;
        self.totals = self.totals.exchange(Totals::of(name, &old), Totals::NONE);
        Some(old)
    }

    pub(crate) fn allocator(&self) -> Global {
        self.alloc
    }
}
