//! Commits that were answered and wait for the log.
//!
//! A [`Stage`] knows up to which number the log is flushed, and holds each commit after that, in order. The oldest of
//! them go into the log as one batch. It also tells of a key whether one of them changes it.
#![tactic(auto)]

ghost use Rattle.std.specs.Prelude.{◌≡◌, ◌+◌, ◌-◌, ◌^◌, ◌<◌, ◌≤◌, [], ◌∷◌, ◌++◌, length, IfOk, OnOk, OnErr, All};
ghost use Rattle.pm_rows.specs.Batch.{IsCommit};
ghost use Rattle.pm_stage.specs.{Naming.is_named, Stage.{batch_of, flushed_to, front_of}};

mod names;

use crate::names::{Names, count_all, discount_commits};
use pm_rows::{Commit, MAX_COMMITS};
use std::alloc::{AllocError, Global};
use std::collections::BTreeMap;
use std::marker::Model;

/// Commits that wait for the log.
#[derive(Debug, Drop)]
pub struct Stage {
    flushed: u64,
    commits: Vec<Commit>,
    // How many changes of these commits name each key.
    names: Names,
}

impl Model for Stage {
    ghost use Rattle.std.specs.Prelude.{◌+◌, ◌^◌, ◌<◌, length, All};
    ghost use Rattle.pm_rows.specs.Batch.{IsCommit};
    ghost use Rattle.pm_stage.specs.{Naming.{Counts, times_named}, Stage.Waiting};

    ghost Value = { Waiting };

    ghost view = { λ stage. record { flushed = stage.flushed; commits = stage.commits.items } };

    ghost invariant = { λ stage. (stage.flushed + length stage.commits.items < 2 ^ 64) × All IsCommit stage.commits.items
        × Counts stage.names (λ key. times_named key stage.commits.items) };
}

impl Stage {
    /// None, after this number. It takes no memory.
    pub fn new(alloc: Global, front: u64) -> Stage
        ensures { result ≡ record { flushed = front; commits = [] } }
    {
        Stage {
            flushed: front,
            commits: Vec::new(alloc),
            names: BTreeMap::new(alloc),
        }
    }

    /// One commit more, and the number of all commits with it. Where memory is short they stay as they were. It takes
    /// time of the order of the number of its changes times the logarithm of the keys that are staged.
    pub fn add(&mut self, commit: Commit) -> Result<u64, AllocError>
        requires number { front_of self.old < 2 ^ 64 - 1 }
        requires commit { IsCommit commit }
        ensures front { IfOk result (λ front. front ≡ front_of self.new) }
        ensures ok { OnOk result (self.new ≡ record self.old
            { commits = self.old.commits ++ commit ∷ [] }) }
        ensures err { OnErr result (self.new ≡ self.old) }
    {
        self.commits.reserve(1)?;
        count_all(&mut self.names, commit.changes())?;
        self.commits.push(commit)?;
        Ok(self.front())
    }

    /// The oldest commits, as many as one batch may have. Each can go into the log.
    pub fn batch(&self) -> &[Commit]
        ensures value { result.now ≡ batch_of self.now }
        ensures each { All IsCommit self.now.commits }
        ensures number { front_of self.now < 2 ^ 64 }
    {
        let few = MAX_COMMITS.min(self.commits.len());
        &self.commits[..few]
    }

    /// The log is flushed up to this number, which is none after the batch. Those up to it wait no more. It takes no
    /// memory, and time of the order of the number of their changes times the logarithm of the keys that are staged.
    pub fn flushed(&mut self, upto: u64)
        requires later { self.old.flushed ≤ upto }
        requires within { upto ≤ self.old.flushed + length (batch_of self.old) }
        ensures { self.new ≡ flushed_to upto self.old }
    {
        let gone = (upto - self.flushed) as usize;
        discount_commits(&mut self.names, &self.commits[..gone]);
        self.commits.drain(..gone);
        self.flushed = upto;
    }

    /// Whether a commit that waits changes the row of this key. It takes time of the order of the logarithm of the keys
    /// that are staged.
    pub fn names(&self, key: i64) -> bool
        ensures { result ≡ is_named key self.now.commits }
    {
        self.names.contains_key(&key)
    }

    /// The number of all commits.
    pub fn front(&self) -> u64
        ensures { result ≡ front_of self.now }
    {
        self.flushed + self.commits.len() as u64
    }

    /// The number up to which the log is flushed.
    pub fn flushed_front(&self) -> u64
        ensures { result ≡ self.now.flushed }
    {
        self.flushed
    }
}
