//! A commit that is written before its answer.

use crate::apart::Apart;
use crate::commit::{answer, note_answer, note_fault, note_full};
use crate::history::history_laws;
use crate::live::Live;
use crate::pass::Pass;
use crate::ran::Ran;
use pm_disk::Disk;
use pm_log::LogFault;
use pm_outside::Chronicle;
use pm_query::{BookEntry, Staged, StoreNo};
use pm_stage::Stage;
use std::slice;

impl<D: Disk, B: Chronicle<BookEntry>> Apart<D, B> {
    ghost use Rattle.std.specs.Prelude.{◌≡◌, ◌≢◌, ◌+◌, ◌<◌, ◌≤◌, ◌^◌, [], length, List, Some, None, IfOk, OnErr, cond, false};
    ghost use Rattle.pm_query.specs.{declared.book.BookEntry.BookEntry, Calls.{with_front, RunNotes, ReachesNoLess}};
    ghost use Rattle.pm_store_apart.specs.{declared.commits.Commits.Commits, Answers.IsAnswerOn, Apart.MovesOn, Causes.{MakesNoCall, RunCause}, Lending.IsHome, Moment.{HasLogAt, alone, over_as}, Passes.{Admits, user_in, view_of}, Rests.IsAtRest};

    /// Appends a commit to the log on this disk, and answers. The commit is noted where it may stand.
    pub fn append(
        &mut self,
        disk: &mut D,
        pass: &mut Pass,
        live: Live,
        ran: Ran,
    ) -> Result<Staged, StoreNo>
        requires admits { Admits pass.old (alone self.old) }
        requires home { IsHome self.old }
        requires rests { IsAtRest disk.old self.old }
        requires room { length self.old.inside + cond self.old.lent 1 0 + 2 ≤ B.spare self.old.book }
        requires live { self.old.live ≡ Some live }
        requires unbroken { live.log.since ≡ None }
        requires answer { IsAnswerOn self.old.rows ran }
        requires some { ran.commit ≢ [] }
        requires unclosed { live.closed ≡ false }
        requires number { live.front + 1 < 2 ^ 64 }
        requires none { self.old.stage.commits ≡ [] }
        ensures notes { (entries : List BookEntry)
            × MovesOn entries disk.old self.old disk.new self.new
            × RunNotes (user_in (alone self.old) pass.old) ran.script result entries }
        ensures admits { Admits pass.new (alone self.new) }
        ensures home { IsHome self.new }
        ensures rests { IsAtRest disk.new self.new }
        ensures reply { IfOk result (λ staged. staged.reply ≡ ran.reply) }
        ensures fresh { IfOk result (λ staged. ReachesNoLess (view_of pass.old) staged.front) }
        ensures view { IfOk result (λ staged. view_of pass.new ≡ with_front staged.front
            (view_of pass.old)) }
        ensures refused { OnErr result (view_of pass.new ≡ view_of pass.old) }
        ensures cause { RunCause (over_as Commits.AtOnce disk.old self.old) ran.script result }
        ensures rest { MakesNoCall self.old.rows ran.script result
            → HasLogAt disk.old self.old disk.new self.new }
        ensures none { self.new.stage.commits ≡ [] }
    {
        history_laws();
        let _typed = ran.commit.changes();
        let prepared = self.rows.prepare(&ran.commit)?;
        let tick = live.mark;
        let mut grown = live;
        match grown
            .log
            .append(self.alloc, disk, slice::from_ref(&ran.commit))
        {
            Ok(receipt) => {
                grown.front = receipt.count;
                grown.mark = receipt.tick;
                self.rows = prepared.apply();
                self.live = Some(grown);
                self.stage = Stage::new(self.alloc, receipt.count);
                Ok(answer(&mut self.book, pass, ran, receipt.count, tick))
            }
            Err(LogFault::Disk) => {
                grown.faults = disk.faults();
                self.rows = prepared.apply();
                self.live = Some(grown);
                note_answer(&mut self.book, pass.pid, ran, live.front + 1, tick);
                note_fault(&mut self.book, pass.pid, disk);
                Err(StoreNo::Disk)
            }
            Err(LogFault::Full { need, room }) => {
                self.rows = prepared.cancel();
                Err(note_full(&mut self.book, pass.pid, ran, need, room))
            }
            Err(LogFault::Broken { since: _ } | LogFault::NoMemory) => {
                self.rows = prepared.cancel();
                Err(StoreNo::NoMemory)
            }
        }
    }
}
