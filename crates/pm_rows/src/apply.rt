//! How rows take a commit: wholly, or where memory is short not at all.
//!
//! A removal takes no memory, and neither does a new value at a key that has a row. So a commit is made in two halves.
//! The first finds what it leaves at each of its keys, and gives each key that gets a row one with an empty text. The
//! second sets the values and takes the deleted keys out, or takes the empty rows out again. Between the two the rows
//! are held in a [`Prepared`].
ghost use Rattle.std.specs.{Prelude.{◌≡◌, fold, FitsSigned, IfOk, OnOk, OnErr}, Int.w64};
ghost use Rattle.std.specs.FinMap as map;
ghost use Rattle.pm_rows.specs.{Fold.{committed, key_of, value_left}, NetChanges.{IsNet, missing_keys, HasRoom, settled, IsReady}, Pending.pending};

use crate::commit::{Change, Commit};
use crate::rows::Rows;
use crate::text::Text;
use std::alloc::{AllocError, Global};
use std::collections::BTreeMap;
use std::marker::Model;
use std::mem;

/// Rows for which all memory of a commit is taken. Contracts see the rows without the commit and the rows with it.
#[derive(Debug, Drop)]
pub struct Prepared {
    rows: Rows,
    net: BTreeMap<i64, Option<Text>>,
    // The keys whose rows are there for the commit alone.
    missing: Vec<i64>,
}

impl Model for Prepared {
    ghost use Rattle.std.specs.Prelude.{fold};
    ghost use Rattle.std.specs.FinMap as map;
    ghost use Rattle.pm_rows.specs.{Pending.{Pending, pending_code}, NetChanges.{settled, IsReady}};

    ghost Value = { Pending };

    ghost coded = { pending_code };

    ghost view = { λ held. record {
      before = fold map.remove held.rows held.missing.items;
      after = fold settled held.rows held.net.entries;
    } };

    ghost invariant = { λ held. IsReady held.rows held.net.entries };
}

impl Prepared {
    /// The rows with the commit. It takes no memory.
    pub fn apply(self) -> Rows
        ensures { result ≡ self.after }
    {
        let Prepared { mut rows, net, .. } = self;
        rows.settle(net);
        rows
    }

    /// The rows without the commit. It takes no memory.
    pub fn cancel(self) -> Rows
        ensures { result ≡ self.before }
    {
        let Prepared {
            mut rows,
            missing,
            ..
        } = self;
        rows.take_out_all(&missing);
        rows
    }
}

impl Rows {
    /// Makes the changes of a commit, in order. Where memory is short the rows stay as they were. It takes time of the
    /// order of the number of changes times the logarithm of the rows.
    pub fn apply(&mut self, commit: &Commit) -> Result<(), AllocError>
        ensures ok { OnOk result (self.new ≡ committed self.old commit.now) }
        ensures err { OnErr result (self.new ≡ self.old) }
    {
        let prepared = self.prepare(commit)?;
        *self = prepared.apply();
        Ok(())
    }

    /// Takes all the memory that a commit needs. The rows go into what is answered, which gives them back with the
    /// commit or without it; until then there are none here. Where memory is short the rows stay as they were.
    pub fn prepare(&mut self, commit: &Commit) -> Result<Prepared, AllocError>
        ensures ok { IfOk result (λ prepared. prepared ≡ pending self.old commit.now) }
        ensures held { OnOk result (self.new ≡ map.empty) }
        ensures err { OnErr result (self.new ≡ self.old) }
    {
        let net = net_changes_of(self.allocator(), commit)?;
        let missing = self.make_room(&net)?;
        let none = Rows::new(self.allocator());
        Ok(Prepared {
            rows: mem::replace(self, none),
            net,
            missing,
        })
    }

    // Gives each key that gets a value and has no row one with an empty text, and answers these keys.
    fn make_room(&mut self, net: &BTreeMap<i64, Option<Text>>) -> Result<Vec<i64>, AllocError>
        ensures room { OnOk result (HasRoom net.now self.old self.new) }
        ensures undone { IfOk result (λ keys. fold map.remove self.new keys.items ≡ self.old) }
        ensures err { OnErr result (self.new ≡ self.old) }
    {
        let missing = self.missing_keys(net)?;
        let empty = Text::of(self.allocator(), "")?;
        for key in &missing {
            if let Err(error) = self.put_copy(*key, &empty) {
                self.take_out_all(&missing);
                return Err(error);
            }
        }
        Ok(missing)
    }

    fn put_copy(&mut self, key: i64, value: &Text) -> Result<(), AllocError>
        ensures ok { OnOk result (self.new ≡ map.insert self.old key value.now) }
        ensures err { OnErr result (self.new ≡ self.old) }
    {
        self.put(key, value.copy()?)
    }

    // The keys that get a value and have no row.
    fn missing_keys(&self, net: &BTreeMap<i64, Option<Text>>) -> Result<Vec<i64>, AllocError>
        ensures { IfOk result (λ keys. keys.items ≡ missing_keys self.now net.now) }
    {
        net.iter()
            .filter(|(key, value)| value.is_some() && self.get(**key).is_none())
            .map(|(key, _)| *key)
            .collect(self.allocator())
    }

    fn take_out_all(&mut self, keys: &[i64])
        ensures { self.new ≡ fold map.remove self.old keys.now }
    {
        for key in keys {
            self.take_out(*key);
        }
    }

    // Sets the values and takes the deleted keys out.
    fn settle(&mut self, net: BTreeMap<i64, Option<Text>>)
        requires { IsReady self.old net.entries }
        ensures { self.new ≡ fold settled self.old net.entries }
    {
        for (key, value) in net {
            match value {
                Some(text) => {
                    let _ = self.put(key, text);
                }
                None => self.take_out(key),
            }
        }
    }
}

// What the changes leave at each of their keys: a value, or no row.
fn net_changes_of(alloc: Global, commit: &Commit) -> Result<BTreeMap<i64, Option<Text>>, AllocError>
    ensures { IfOk result (IsNet commit.now) }
{
    let mut net = BTreeMap::new(alloc);
    for change in commit.changes() {
        let (key, value) = left_by(change)?;
        net.insert(key, value)?;
    }
    Ok(net)
}

// The key of a change, and what the change leaves there.
fn left_by(change: &Change) -> Result<(i64, Option<Text>), AllocError>
    ensures value { IfOk result (λ left. left ≡ (key_of change.now, value_left change.now)) }
    ensures range { IfOk result (λ left. FitsSigned w64 left.0) }
{
    match change {
        Change::Put { key, value } => Ok((*key, Some(value.copy()?))),
        Change::Del { key } => Ok((*key, None)),
    }
}
