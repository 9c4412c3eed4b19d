//! The queries of a workload, run one after another as their meaning says.
ghost use Rattle.std.specs.Prelude.{◌≡◌, ◌≤◌, ◌++◌, List, IfOk, OnOk};
ghost use Rattle.pm_wire.specs.Backend.{BackMessage};
ghost use Rattle.pm_session_exchange.specs.Sent.{bytes_of, greeting};
ghost use Rattle.pm_load.specs.Replay.{IsAnswered, IsReplay, new_standing};

use crate::answers::put_items;
use crate::greeting::put_greeting;
use crate::queries::query_at;
use crate::refusal::ReplayNo;
use crate::say::say;
use pm_query::answer;
use pm_rows::Rows;
use pm_sql::parse;
use pm_wire::{Back, Bytes};
use std::alloc::{AllocError, Global};
use std::marker::Model;

/// How far a client alone has come: the rows, how many commits have left them, and what it was sent.
#[derive(Drop)]
pub struct Replay {
    rows: Rows,
    commits: u64,
    sent: Bytes,
}

impl Model for Replay {
    ghost use Rattle.pm_load.specs.Replay.{Replayed, replayed_code};

    ghost Value = { Replayed };

    ghost coded = { replayed_code };

    ghost view = { λ r. record { standing = record { rows = r.rows; count = r.commits }; sent = r.sent } };
}

impl Replay {
    // A greeted client of a new cluster.
    fn greeted(alloc: Global, pid: u32, key: u32) -> Result<Replay, AllocError>
        ensures standing { IfOk result (λ replay. replay.standing ≡ new_standing) }
        ensures sent { IfOk result (λ replay. replay.sent ≡ bytes_of (greeting pid key)) }
    {
        let mut sent = Bytes::new(alloc);
        put_greeting(&mut sent, pid, key)?;
        Ok(Replay {
            rows: Rows::new(alloc),
            commits: 0,
            sent,
        })
    }

    // Runs one query.
    fn run(&mut self, alloc: Global, text: &str) -> Result<(), ReplayNo>
        ensures { OnOk result ((messages : List BackMessage)
            × IsAnswered text.now self.old.standing self.new.standing messages
            × (self.new.sent ≡ self.old.sent ++ bytes_of messages)) }
    {
        let Ok(script) = parse(alloc, text) else {
            return Err(ReplayNo::OtherAnswer);
        };
        let outcome = answer(alloc, &self.rows, &script)?;
        put_items(&mut self.sent, outcome.reply.items())?;
        say(&mut self.sent, &Back::Ready)?;
        if outcome.commit.changes().is_empty() {
            return Ok(());
        }
        let Some(commits) = self.commits.checked_add(1) else {
            return Err(ReplayNo::OtherAnswer);
        };
        self.rows.apply(&outcome.commit)?;
        self.commits = commits;
        Ok(())
    }

    /// The rows that are left.
    pub fn rows(&self) -> &Rows
        ensures { result.now ≡ self.now.standing.rows }
    {
        &self.rows
    }

    /// How many commits have left them.
    pub fn commits(&self) -> u64
        ensures { result ≡ self.now.standing.count }
    {
        self.commits
    }

    /// What the client was sent.
    pub fn sent(&self) -> &[u8]
        ensures { result.now ≡ self.now.sent }
    {
        self.sent.as_slice()
    }
}

/// Runs so many queries for a client alone on a new cluster, whose session has this pid and this key.
pub fn replay_queries(alloc: Global, number: u32, pid: u32, key: u32) -> Result<Replay, ReplayNo>
    requires { number ≤ 100000 }
    ensures { IfOk result (IsReplay number pid key) }
{
    let mut replay = Replay::greeted(alloc, pid, key)?;
    for i in 0..number {
        let text = query_at(alloc, i + 1)?;
        replay.run(alloc, text.as_str())?;
    }
    Ok(replay)
}
