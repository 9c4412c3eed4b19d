//! Reading the log, and writing its checkpoints.

use crate::apart::Apart;
use crate::commit::note_fault;
use crate::history::history_laws;
use crate::live::Live;
use crate::pass::Pass;
use pm_disk::Disk;
use pm_log::{Log, LogFault};
use pm_outside::Chronicle;
use pm_query::{
    BookEntry, CHECKPOINT_BYTES, Checkpointed, StoreNo, checkpoint_bytes_are_the_number,
    rows_are_within_needs,
};
use pm_record::{RedoFault, lengths_are_the_numbers};
use pm_redo::recover;
use pm_rows::{MAX_FILE_BYTES, limits_are_the_numbers};
use pm_stage::Stage;

impl<D: Disk, B: Chronicle<BookEntry>> Apart<D, B> {
    ghost use Rattle.std.specs.Prelude.{◌≡◌, ◌⊎◌, ◌+◌, ◌-◌, ◌≤◌, [], length, List, Some, None, OnOk, cond, true, false};
    ghost use Rattle.pm_query.specs.{declared.{book.BookEntry.BookEntry, store.StoreNo.StoreNo}, Calls.{CheckpointNotes, RedoNotes, due_bytes}};
    ghost use Rattle.pm_store_apart.specs.{Apart.MovesOn, Lending.IsHome, declared.commits.Commits.Commits, Flushes.FlushesAll, Moment.{HasDiskAt, alone, over, over_as}, Passes.{Admits, user_in}, Redos.{CheckpointCause, FullAtLast, GoesOnAsFound, HasReason, IsRead, LeavesFiles, LeavesUnread, MadeAfresh, MakesCalls}, Rests.IsAtRest};

    /// Reads the log, or tells again how many commits it was found with.
    pub fn redo(&mut self, disk: &mut D, pass: &Pass) -> Result<u64, StoreNo>
        requires admits { Admits pass.now (alone self.old) }
        requires home { IsHome self.old }
        requires rests { IsAtRest disk.old self.old }
        ensures notes { (entries : List BookEntry)
            × MovesOn entries disk.old self.old disk.new self.new
            × RedoNotes (user_in (alone self.old) pass.now) result entries }
        ensures admits { Admits pass.now (alone self.new) }
        ensures home { IsHome self.new }
        ensures rests { IsAtRest disk.new self.new }
        ensures none { self.old.stage.commits ≡ [] → self.new.stage.commits ≡ [] }
        ensures read { OnOk result (IsRead self.new.live) }
        ensures again { IsRead self.old.live → HasDiskAt disk.old self.old disk.new self.new }
        ensures reason { HasReason (D.seen disk.old) result }
        ensures kept { LeavesFiles (D.seen disk.old) (D.seen disk.new) result }
        ensures unread { LeavesUnread self.new.live result }
        ensures found { GoesOnAsFound (over disk.old self.old) (over disk.new self.new) }
    {
        history_laws();
        let room = self.entries_for(1);
        if self.book.reserve(room).is_err() {
            return Err(StoreNo::Redo(RedoFault::NoMemory));
        }
        if let Some(live) = self.live {
            self.book.note(BookEntry::Redone {
                pid: pass.pid,
                generation: self.generation,
                kept: live.kept,
            });
            return Ok(live.kept);
        }
        if self.skipped {
            return Err(StoreNo::Redo(RedoFault::NoMemory));
        }
        self.read_log(disk, pass)
    }

    // Reads the log for the first time in this generation.
    fn read_log(&mut self, disk: &mut D, pass: &Pass) -> Result<u64, StoreNo>
        requires admits { Admits pass.now (alone self.old) }
        requires home { IsHome self.old }
        requires room { length self.old.inside + cond self.old.lent 1 0 + 1 ≤ B.spare self.old.book }
        requires unread { self.old.live ≡ None }
        requires unskipped { self.old.skipped ≡ false }
        ensures notes { (entries : List BookEntry)
            × MovesOn entries disk.old self.old disk.new self.new
            × RedoNotes (user_in (alone self.old) pass.now) result entries }
        ensures admits { Admits pass.now (alone self.new) }
        ensures home { IsHome self.new }
        ensures rests { IsAtRest disk.new self.new }
        ensures none { self.old.stage.commits ≡ [] → self.new.stage.commits ≡ [] }
        ensures read { OnOk result (IsRead self.new.live) }
        ensures reason { HasReason (D.seen disk.old) result }
        ensures kept { LeavesFiles (D.seen disk.old) (D.seen disk.new) result }
        ensures unread { LeavesUnread self.new.live result }
        ensures found { GoesOnAsFound (over disk.old self.old) (over disk.new self.new) }
    {
        history_laws();
        limits_are_the_numbers();
        lengths_are_the_numbers();
        rows_are_within_needs();
        match recover(self.alloc, disk) {
            Ok(found) => {
                let kept = found.count;
                let log = Log::resume(&found, MAX_FILE_BYTES);
                self.live = Some(Live {
                    log,
                    kept,
                    epoch: found.epoch,
                    faults: 0,
                    closed: false,
                    front: kept,
                    needs: 0,
                    mark: disk.ticks(),
                });
                self.stage = Stage::new(self.alloc, kept);
                self.rows = found.rows;
                self.book.note(BookEntry::Redone {
                    pid: pass.pid,
                    generation: self.generation,
                    kept,
                });
                Ok(kept)
            }
            Err(fault) => {
                if fault == RedoFault::Disk {
                    note_fault(&mut self.book, pass.pid, disk);
                }
                Err(StoreNo::Redo(fault))
            }
        }
    }

    /// Writes a checkpoint where it is due.
    pub fn checkpoint(
        &mut self,
        disk: &mut D,
        pass: &Pass,
        clean: bool,
    ) -> Result<Checkpointed, StoreNo>
        requires admits { Admits pass.now (alone self.old) }
        requires home { IsHome self.old }
        requires rests { IsAtRest disk.old self.old }
        ensures notes { (entries : List BookEntry)
            × MovesOn entries disk.old self.old disk.new self.new
            × CheckpointNotes (user_in (alone self.old) pass.now) clean result entries }
        ensures admits { Admits pass.now (alone self.new) }
        ensures home { IsHome self.new }
        ensures rests { IsAtRest disk.new self.new }
        ensures none { self.old.stage.commits ≡ [] → self.new.stage.commits ≡ [] }
        ensures cause { CheckpointCause self.old.live clean result }
        ensures still { self.old.stage.commits ≡ [] → ¬ (MakesCalls result)
            → HasDiskAt disk.old self.old disk.new self.new }
        ensures full { FullAtLast (D.seen disk.new) result }
        ensures afresh { MadeAfresh clean (over disk.new self.new) result }
        ensures flushed { (ways : Commits) → FlushesAll (over_as ways disk.new self.new) result }
    {
        history_laws();
        checkpoint_bytes_are_the_number();
        let room = self.entries_for(1);
        self.book.reserve(room)?;
        let Some(live) = self.live else {
            self.skipped = true;
            self.book.note(BookEntry::CheckpointEnded {
                pid: pass.pid,
                done: false,
                clean,
            });
            return Ok(Checkpointed::Skipped);
        };
        if let Some(since) = live.log.since {
            return Err(self.broken(*pass, live, since));
        }
        let behind = live.log.behind();
        if !clean && behind < CHECKPOINT_BYTES {
            return Ok(Checkpointed::NotDue { behind });
        }
        self.move_all(disk, pass, live, clean)
    }

    // Writes all rows as the base of the log's other file, and goes on there.
    pub(crate) fn move_log(
        &mut self,
        disk: &mut D,
        pass: &Pass,
        live: Live,
        clean: bool,
    ) -> Result<Checkpointed, StoreNo>
        requires admits { Admits pass.now (alone self.old) }
        requires home { IsHome self.old }
        requires rests { IsAtRest disk.old self.old }
        requires room { length self.old.inside + cond self.old.lent 1 0 + 1 ≤ B.spare self.old.book }
        requires read { self.old.live ≡ Some live }
        requires unbroken { live.log.since ≡ None }
        requires due { (clean ≡ true) ⊎ (due_bytes ≤ live.log.end - live.log.base_end) }
        requires unstaged { self.old.stage.commits ≡ [] }
        ensures notes { (entries : List BookEntry)
            × MovesOn entries disk.old self.old disk.new self.new
            × CheckpointNotes (user_in (alone self.old) pass.now) clean result entries }
        ensures admits { Admits pass.now (alone self.new) }
        ensures home { IsHome self.new }
        ensures rests { IsAtRest disk.new self.new }
        ensures cause { CheckpointCause self.old.live clean result }
        ensures still { ¬ (MakesCalls result) → HasDiskAt disk.old self.old disk.new self.new }
        ensures full { FullAtLast (D.seen disk.new) result }
        ensures afresh { MadeAfresh clean (over disk.new self.new) result }
        ensures unstaged { self.new.stage.commits ≡ [] }
    {
        history_laws();
        rows_are_within_needs();
        self.rows.are_typed();
        let mut moved = live;
        // A file that is being made beside it is given up.
        moved.log.making = None;
        match moved.log.checkpoint(self.alloc, disk, &self.rows, clean) {
            Ok(epoch) => {
                moved.closed |= clean;
                moved.mark = disk.ticks();
                self.live = Some(moved);
                self.book.note(BookEntry::CheckpointEnded {
                    pid: pass.pid,
                    done: true,
                    clean,
                });
                Ok(Checkpointed::Done { epoch })
            }
            Err(LogFault::Disk) => {
                moved.faults = disk.faults();
                self.live = Some(moved);
                note_fault(&mut self.book, pass.pid, disk);
                Err(StoreNo::Disk)
            }
            Err(LogFault::Full { need, room }) => Err(StoreNo::Full { need, room }),
            Err(LogFault::Broken { since: _ } | LogFault::NoMemory) => Err(StoreNo::NoMemory),
        }
    }
}
