//! Taking a commit that waits for the log.

use crate::apart::Apart;
use crate::commit::{answer, note_full};
use crate::history::history_laws;
use crate::live::Live;
use crate::pass::Pass;
use crate::ran::Ran;
use pm_disk::Disk;
use pm_outside::Chronicle;
use pm_query::{BookEntry, Staged, StoreNo};
use pm_record::body_length;
use std::alloc::AllocError;
use std::slice;

impl<D: Disk, B: Chronicle<BookEntry>> Apart<D, B> {
    ghost use Rattle.std.specs.Prelude.{◌≡◌, ◌≢◌, ◌+◌, ◌<◌, ◌≤◌, ◌^◌, [], length, List, Some, None, IfOk, OnErr, cond, false};
    ghost use Rattle.pm_query.specs.{declared.book.BookEntry.BookEntry, Calls.{with_front, RunNotes, ReachesNoLess}};
    ghost use Rattle.pm_store_apart.specs.{Answers.IsAnswerOn, Apart.Grows, Causes.{MakesNoCall, RunCause, staged_behind}, Moment.{KeepsLog, alone}, Passes.{Admits, user_in, view_of}};

    // Stages a commit, and answers. What is staged has room in the log, so that no flush finds it full.
    pub(crate) fn stage(&mut self, pass: &mut Pass, live: Live, ran: Ran) -> Result<Staged, StoreNo>
        requires admits { Admits pass.old (alone self.old) }
        requires room { length self.old.inside + cond self.old.lent 1 0 + 2 ≤ B.spare self.old.book }
        requires live { self.old.live ≡ Some live }
        requires unbroken { live.log.since ≡ None }
        requires answer { IsAnswerOn self.old.rows ran }
        requires some { ran.commit ≢ [] }
        requires unclosed { live.closed ≡ false }
        requires number { live.front + 1 < 2 ^ 64 }
        ensures notes { (entries : List BookEntry) × Grows entries self.old self.new
            × RunNotes (user_in (alone self.old) pass.old) ran.script result entries }
        ensures admits { Admits pass.new (alone self.new) }
        ensures reply { IfOk result (λ staged. staged.reply ≡ ran.reply) }
        ensures fresh { IfOk result (λ staged. ReachesNoLess (view_of pass.old) staged.front) }
        ensures view { IfOk result (λ staged. view_of pass.new ≡ with_front staged.front
            (view_of pass.old)) }
        ensures refused { OnErr result (view_of pass.new ≡ view_of pass.old) }
        ensures cause { RunCause (alone self.old) ran.script result }
        ensures rest { MakesNoCall self.old.rows ran.script result → KeepsLog self.old self.new }
        ensures staged { (alone self.new).staged
            ≡ staged_behind (alone self.old) ran.script result }
    {
        history_laws();
        let _typed = ran.commit.changes();
        let need = 5 + body_length(slice::from_ref(&ran.commit));
        let room = live.log.room() - live.needs;
        if need > room {
            return Err(note_full(&mut self.book, pass.pid, ran, need, room));
        }
        let waits = ran.commit.copy()?;
        let prepared = self.rows.prepare(&ran.commit)?;
        match self.stage.add(waits) {
            Ok(front) => {
                let mut grown = live;
                grown.front = front;
                grown.needs += need;
                self.rows = prepared.apply();
                self.live = Some(grown);
                Ok(answer(&mut self.book, pass, ran, front, live.mark))
            }
            Err(AllocError) => {
                self.rows = prepared.cancel();
                Err(StoreNo::NoMemory)
            }
        }
    }
}
