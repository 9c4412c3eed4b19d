//! A flush in three parts, and as one call.
//!
//! The disk is lent with a copy of the oldest batch; the batch is written, without the store; what that came to is marked. Between the
//! parts others may use the store. All memory is taken before the disk is lent.

ghost use Rattle.std.specs.Prelude.{◌≡◌, IfOk};

use crate::apart::Apart;
use crate::batch::{Batch, Lending, Written};
use crate::commit::note_fault;
use crate::history::history_laws;
use crate::live::Live;
use crate::pass::Pass;
use pm_disk::Disk;
use pm_outside::Chronicle;
use pm_query::{BookEntry, Checkpointed, StoreNo};
use pm_rows::Commit;
use std::alloc::{AllocError, Global};

/// How many bytes a commit of its own needs beside those that it needs in a batch after others.
const ALONE: u64 = 9;

impl<D: Disk, B: Chronicle<BookEntry>> Apart<D, B> {
    ghost use Rattle.std.specs.Prelude.{◌≡◌, List, Option};
    ghost use Rattle.pm_query.specs.{declared.book.BookEntry.BookEntry, Calls.FlushNotes};
    ghost use Rattle.pm_log.specs.Half.{Half};
    ghost use Rattle.pm_store_apart.specs.{Apart.MovesOn, Lending.{IsHome, IsUnder, LendsOrAnswers, Marks, Wrote}, Moment.alone, Passes.{Admits, user_in}, Pieces.IsMaking, Rests.IsAtRest};

    /// Lends the disk with a copy of the oldest batch, or answers a flush that needs none: the log isn't read, it is broken,
    /// nothing is staged, or memory is short.
    pub fn lend(&mut self, pass: &Pass) -> Lending
        requires admits { Admits pass.now (alone self.old) }
        requires home { IsHome self.old }
        ensures lends { LendsOrAnswers (user_in (alone self.old) pass.now) self.old self.new
            result }
        ensures admits { Admits pass.now (alone self.new) }
    {
        let room = self.entries_for(1);
        if self.book.reserve(room).is_err() {
            return Lending::Answered(Err(StoreNo::NoMemory));
        }
        let Some(live) = self.live else {
            return Lending::Answered(Err(StoreNo::NoMemory));
        };
        if let Some(since) = live.log.since {
            let refusal = self.broken(*pass, live, since);
            return Lending::Answered(Err(refusal));
        }
        if self.stage.batch().is_empty() {
            return Lending::Answered(Ok(live.log.count));
        }
        let Ok(commits) = copied(self.alloc, self.stage.batch()) else {
            return Lending::Answered(Err(StoreNo::NoMemory));
        };
        self.lent = true;
        Lending::Lent(Batch {
            log: live.log,
            commits,
            alloc: self.alloc,
        })
    }

    /// Marks what the writing of the batch came to, with the disk that comes back: the disk is lent no longer. It takes no memory.
    pub fn mark(
        &mut self,
        pass: &Pass,
        batch: Batch,
        disk: &D,
        written: Written,
    ) -> Result<u64, StoreNo>
        requires admits { Admits pass.now (alone self.old) }
        requires under { IsUnder batch self.old }
        requires wrote { (taken : D) × Wrote D.Disk taken disk.now batch written }
        ensures notes { (taken : D) → IsAtRest taken self.old
            → Wrote D.Disk taken disk.now batch written → (entries : List BookEntry)
            × MovesOn entries taken self.old disk.now self.new
            × FlushNotes (user_in (alone self.old) pass.now) result entries }
        ensures rests { (taken : D) → IsAtRest taken self.old
            → Wrote D.Disk taken disk.now batch written → IsAtRest disk.now self.new }
        ensures made { (taken : D) (half : Option Half) → IsAtRest taken self.old
            → Wrote D.Disk taken disk.now batch written → IsMaking taken self.old half
            → IsMaking disk.now self.new half }
        ensures admits { Admits pass.now (alone self.new) }
        ensures home { IsHome self.new }
        ensures marks { Marks batch written self.old self.new result }
    {
        history_laws();
        let _oldest = self.stage.batch();
        let Some(mut live) = self.live else {
            unreachable!()
        };
        self.lent = false;
        match written {
            Written::Durable { log, tick } => {
                let gates = ALONE * (batch.commits.len() as u64 - 1);
                live.needs -= log.end - live.log.end + gates;
                live.log = log;
                live.mark = tick;
                self.stage.flushed(log.count);
                self.live = Some(live);
                Ok(log.count)
            }
            Written::Failed { log } => {
                live.log = log;
                live.faults = disk.faults();
                self.live = Some(live);
                note_fault(&mut self.book, pass.pid, disk);
                Err(StoreNo::Disk)
            }
            Written::NoMemory => Err(StoreNo::NoMemory),
        }
    }
}

impl<D: Disk, B: Chronicle<BookEntry>> Apart<D, B> {
    ghost use Rattle.std.specs.Prelude.{◌≡◌, ◌⊎◌, ◌-◌, ◌≤◌, [], List, Some, None, OnOk, true};
    ghost use Rattle.pm_query.specs.{declared.book.BookEntry.BookEntry, Calls.{CheckpointNotes, FlushNotes, due_bytes}};
    ghost use Rattle.pm_store_apart.specs.{declared.commits.Commits.Commits, Apart.MovesOn, Causes.IsUnbroken, Flushes.{FlushCause, FlushesAll, IsLonger, WriteNotes, WritesNothing}, Lending.IsHome, Moment.{HasDiskAt, HasLogAt, alone, over, over_as}, Passes.{Admits, user_in}, Redos.{CheckpointCause, FullAtLast, MadeAfresh, MakesCalls}, Rests.IsAtRest};

    /// Appends the oldest of what is staged, as one batch, and answers up to where the log is flushed.
    pub fn flush(&mut self, disk: &mut D, pass: &Pass) -> Result<u64, StoreNo>
        requires admits { Admits pass.now (alone self.old) }
        requires home { IsHome self.old }
        requires rests { IsAtRest disk.old self.old }
        ensures notes { (entries : List BookEntry)
            × MovesOn entries disk.old self.old disk.new self.new
            × FlushNotes (user_in (alone self.old) pass.now) result entries }
        ensures admits { Admits pass.now (alone self.new) }
        ensures home { IsHome self.new }
        ensures rests { IsAtRest disk.new self.new }
        ensures cause { (ways : Commits) → FlushCause (over_as ways disk.old self.old)
            (over_as ways disk.new self.new) result }
        ensures longer { OnOk result (IsLonger self.old.live self.new.live) }
        ensures rest { WritesNothing self.old.stage.commits result
            → HasLogAt disk.old self.old disk.new self.new }
    {
        match self.lend(pass) {
            Lending::Answered(result) => result,
            Lending::Lent(batch) => {
                let written = batch.write(disk);
                self.mark(pass, batch, disk, written)
            }
        }
    }

    // Writes all that is staged, batch by batch.
    fn flush_all(&mut self, disk: &mut D, pass: &Pass) -> Result<(), StoreNo>
        requires admits { Admits pass.now (alone self.old) }
        requires home { IsHome self.old }
        requires rests { IsAtRest disk.old self.old }
        requires unbroken { IsUnbroken self.old.live }
        ensures notes { (entries : List BookEntry)
            × MovesOn entries disk.old self.old disk.new self.new
            × WriteNotes pass.now.pid result entries }
        ensures admits { Admits pass.now (alone self.new) }
        ensures home { IsHome self.new }
        ensures rests { IsAtRest disk.new self.new }
        ensures all { OnOk result (self.new.stage.commits ≡ []) }
        ensures longer { OnOk result (IsLonger self.old.live self.new.live) }
        ensures rest { self.old.stage.commits ≡ []
            → HasLogAt disk.old self.old disk.new self.new }
    {
        while !self.stage.batch().is_empty() {
            self.flush(disk, pass)?;
        }
        Ok(())
    }

    // Writes all that is staged, and then all rows as the base of the log's other file.
    pub(crate) fn move_all(
        &mut self,
        disk: &mut D,
        pass: &Pass,
        live: Live,
        clean: bool,
    ) -> Result<Checkpointed, StoreNo>
        requires admits { Admits pass.now (alone self.old) }
        requires home { IsHome self.old }
        requires rests { IsAtRest disk.old self.old }
        requires read { self.old.live ≡ Some live }
        requires unbroken { live.log.since ≡ None }
        requires due { (clean ≡ true) ⊎ (due_bytes ≤ live.log.end - live.log.base_end) }
        ensures notes { (entries : List BookEntry)
            × MovesOn entries disk.old self.old disk.new self.new
            × CheckpointNotes (user_in (alone self.old) pass.now) clean result entries }
        ensures admits { Admits pass.now (alone self.new) }
        ensures home { IsHome self.new }
        ensures rests { IsAtRest disk.new self.new }
        ensures none { self.old.stage.commits ≡ [] → self.new.stage.commits ≡ [] }
        ensures cause { CheckpointCause self.old.live clean result }
        ensures still { self.old.stage.commits ≡ [] → ¬ (MakesCalls result)
            → HasDiskAt disk.old self.old disk.new self.new }
        ensures full { FullAtLast (D.seen disk.new) result }
        ensures afresh { MadeAfresh clean (over disk.new self.new) result }
        ensures flushed { (ways : Commits) → FlushesAll (over_as ways disk.new self.new) result }
    {
        self.flush_all(disk, pass)?;
        let room = self.entries_for(1);
        self.book.reserve(room)?;
        let Some(written) = self.live else {
            unreachable!()
        };
        self.move_log(disk, pass, written, clean)
    }
}

// Equal commits.
fn copied(alloc: Global, batch: &[Commit]) -> Result<Vec<Commit>, AllocError>
    ensures { IfOk result (λ copy. copy.items ≡ batch.now) }
{
    let mut copy = Vec::with_capacity(alloc, batch.len())?;
    for commit in batch {
        copy.push(commit.copy()?)?;
    }
    Ok(copy)
}
