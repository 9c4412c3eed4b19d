//! How tables take a commit: wholly, or where memory is short not at all.
//!
//! Each table that the commit names is changed in place, made, or goes. All memory for it is taken first, table by table:
//! the rows that it has, and those that it will have, are held outside the tables, and an empty table keeps its place.
//! Then the held rows are put into these places, which takes no memory. No rows are copied.
ghost use Rattle.std.specs.{Prelude.{◌≡◌, [], fold, IsSome, IfOk, OnOk, OnErr}, String.string_cmp, BTreeMap.IsOrdered};
ghost use Rattle.std.specs.FinMap as map;
ghost use Rattle.pm_tables.specs.{Tables.{committed, with_table}, Held.{befores, afters, given, IsReady, IsHeld}, Holding.{Holds, HoldsAll}, Pending.pending};

use crate::commit::TableCommit;
use crate::fate::Fate;
use crate::held::{Held, Touched};
use crate::tables::Tables;
use pm_rows::{Commit as RowCommit, Rows};
use std::alloc::AllocError;
use std::collections::BTreeMap;
use std::marker::Model;
use std::mem;

/// Tables for which all memory of a commit is taken. Contracts see the tables without the commit and the tables with it.
#[derive(Debug, Drop)]
pub struct PreparedTables {
    tables: Tables,
    touched: Vec<Touched>,
}

impl Model for PreparedTables {
    ghost use Rattle.std.specs.Prelude.{fold};
    ghost use Rattle.pm_tables.specs.{Pending.{Pending, pending_code}, Held.{befores, afters, given, IsReady}};

    ghost Value = { Pending };

    ghost coded = { pending_code };

    ghost view = { λ it. record {
      before = fold given it.tables (befores it.touched.items);
      after = fold given it.tables (afters it.touched.items);
    } };

    ghost invariant = { λ it. IsReady it.tables (befores it.touched.items) × IsReady it.tables (afters it.touched.items) };
}

impl PreparedTables {
    /// The tables with the commit. It takes no memory.
    pub fn apply(self) -> Tables
        ensures { result ≡ self.after }
    {
        let PreparedTables {
            mut tables,
            touched,
        } = self;
        tables.settle(touched);
        tables
    }

    /// The tables without the commit. It takes no memory.
    pub fn cancel(self) -> Tables
        ensures { result ≡ self.before }
    {
        let PreparedTables {
            mut tables,
            touched,
        } = self;
        tables.restore(touched);
        tables
    }
}

impl Tables {
    /// Makes the changes of a commit, in order. Where memory is short the tables stay as they were. It takes time of the
    /// order of the number of changes times the logarithm of the rows and of the tables, and frees the rows of a table
    /// that goes.
    pub fn apply(&mut self, commit: &TableCommit) -> Result<(), AllocError>
        ensures ok { OnOk result (self.new ≡ committed self.old commit.now) }
        ensures err { OnErr result (self.new ≡ self.old) }
    {
        let prepared = self.prepare(commit)?;
        *self = prepared.apply();
        Ok(())
    }

    /// Takes all the memory that a commit needs. The tables go into what is answered, which gives them back with the
    /// commit or without it; until then there are none here. Where memory is short the tables stay as they were.
    pub fn prepare(&mut self, commit: &TableCommit) -> Result<PreparedTables, AllocError>
        ensures ok { IfOk result (λ prepared. prepared ≡ pending self.old commit.now) }
        ensures held { OnOk result (self.new ≡ map.empty) }
        ensures err { OnErr result (self.new ≡ self.old) }
    {
        let fates = self.fates(commit)?;
        let mut touched = Vec::new(self.allocator());
        match self.hold_all(fates, &mut touched) {
            Ok(()) => {
                let none = Tables::new(self.allocator());
                Ok(PreparedTables {
                    tables: mem::replace(self, none),
                    touched,
                })
            }
            Err(error) => {
                self.restore(touched);
                Err(error)
            }
        }
    }

    // Holds each table that has a fate, until memory is short.
    fn hold_all(
        &mut self,
        fates: BTreeMap<String, Fate>,
        touched: &mut Vec<Touched>,
    ) -> Result<(), AllocError>
        requires none { touched.old.items ≡ [] }
        requires ordered { IsOrdered string_cmp fates }
        ensures held { Holds self.old self.new touched.new.items }
        ensures all { OnOk result (HoldsAll self.old fates.entries self.new touched.new.items) }
    {
        for (name, fate) in fates {
            touched.reserve(1)?;
            let held = self.hold(name.as_str(), fate)?;
            let _ = touched.push(Touched { name, held });
        }
        Ok(())
    }

    // Takes the rows of a table out, and the memory for what becomes of it.
    fn hold(&mut self, name: &str, fate: Fate) -> Result<Held, AllocError>
        ensures ok { IfOk result (IsHeld self.old name.now fate self.new) }
        ensures err { OnErr result (self.new ≡ self.old) }
    {
        match fate {
            Fate::Changed(changes) => self.hold_changed(name, &changes),
            Fate::Made(changes) => self.hold_made(name, &changes),
            Fate::Gone => Ok(self.hold_dropped(name)),
        }
    }

    fn hold_changed(&mut self, name: &str, changes: &RowCommit) -> Result<Held, AllocError>
        ensures ok { IfOk result (IsHeld self.old name.now (Fate.Changed changes.now) self.new) }
        ensures err { OnErr result (self.new ≡ self.old) }
    {
        let Some(mut rows) = self.swap(name, Rows::new(self.allocator())) else {
            return Ok(Held::Replaced {
                before: None,
                after: None,
            });
        };
        match rows.prepare(changes) {
            Ok(prepared) => Ok(Held::Changed(prepared)),
            Err(error) => {
                let _ = self.swap(name, rows);
                Err(error)
            }
        }
    }

    fn hold_made(&mut self, name: &str, changes: &RowCommit) -> Result<Held, AllocError>
        ensures ok { IfOk result (IsHeld self.old name.now (Fate.Made changes.now) self.new) }
        ensures err { OnErr result (self.new ≡ self.old) }
    {
        let mut after = Rows::new(self.allocator());
        after.apply(changes)?;
        let before = self.swap(name, Rows::new(self.allocator()));
        if before.is_none() {
            self.put(name, Rows::new(self.allocator()))?;
        }
        Ok(Held::Replaced {
            before,
            after: Some(after),
        })
    }

    fn hold_dropped(&mut self, name: &str) -> Held
        ensures { IsHeld self.old name.now Fate.Gone self.new result }
    {
        Held::Replaced {
            before: self.swap(name, Rows::new(self.allocator())),
            after: None,
        }
    }

    // Puts what the touched tables are with the commit.
    fn settle(&mut self, touched: Vec<Touched>)
        requires { IsReady self.old (afters touched.items) }
        ensures { self.new ≡ fold given self.old (afters touched.items) }
    {
        // The slice tells that the vector has as many elements as it counts.
        let _all = touched.as_slice();
        for Touched { name, held } in touched {
            self.set(name.as_str(), held.after());
        }
    }

    // Puts back what the touched tables are without the commit.
    fn restore(&mut self, touched: Vec<Touched>)
        requires { IsReady self.old (befores touched.items) }
        ensures { self.new ≡ fold given self.old (befores touched.items) }
    {
        // The slice tells that the vector has as many elements as it counts.
        let _all = touched.as_slice();
        for Touched { name, held } in touched {
            self.set(name.as_str(), held.before());
        }
    }

    // Gives a name these rows, or none. It takes no memory.
    fn set(&mut self, name: &str, rows: Option<Rows>)
        requires { IsSome rows → IsSome (map.get self.old name.now) }
        ensures { self.new ≡ with_table self.old name.now rows }
    {
        match rows {
            Some(rows) => {
                let _ = self.swap(name, rows);
            }
            None => {
                let _ = self.remove(name);
            }
        }
    }
}
