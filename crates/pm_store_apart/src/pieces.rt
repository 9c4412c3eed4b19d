//! A checkpoint in pieces, between which commits go on.
//!
//! Where nothing is staged the rows are listed: from then on the log's other file is made from that list, with a copy of what is
//! appended meanwhile. For each piece the disk is lent, as for a batch; with the last one the log goes on in that file.

use crate::apart::Apart;
use crate::batch::Batch;
use crate::commit::note_fault;
use crate::history::history_laws;
use crate::pass::Pass;
use crate::piece::Came;
use pm_disk::Disk;
use pm_log::{LogFault, Making};
use pm_outside::Chronicle;
use pm_query::{BookEntry, Stepping, StoreNo, rows_are_within_needs};
use std::alloc::Global;

/// The place of the gate after a base without rows.
const EMPTY_BASE_END: u64 = 30;

impl<D: Disk, B: Chronicle<BookEntry>> Apart<D, B> {
    ghost use Rattle.std.specs.Prelude.{◌≡◌, [], List, IfOk, IsTrue, Some, false};
    ghost use Rattle.pm_query.specs.declared.book.BookEntry.{BookEntry};
    ghost use Rattle.pm_store_apart.specs.{declared.{commits.Commits.Commits, pass.Pass.Pass}, Apart.MovesOn, Lending.IsHome, Moment.{alone, over_as}, Moves.Moves, Passes.{Admits, user_in}, Pieces.{BeginNotes, IsMaking, IsNoLonger, ListCause}, Redos.IsDue, Rests.IsAtRest, Stands.bytes_of_rows};

    /// Whether its log is due for a checkpoint, and a file of all rows isn't longer than the log's.
    pub fn may_begin(&self) -> bool
        ensures due { IsTrue result → IsDue (alone self.now).live false }
        ensures no_longer { IsTrue result → IsNoLonger (alone self.now).live
            (bytes_of_rows (alone self.now).rows) }
    {
        let Some(live) = self.live else { return false };
        self.is_due() && EMPTY_BASE_END + self.rows.size() <= live.log.end
    }

    /// Begins to make the log's other file: writes the oldest of what is staged, as one batch, and lists the rows. Where more is
    /// staged it doesn't begin.
    pub fn begin_pieces(&mut self, disk: &mut D, pass: &Pass) -> Result<Option<Making>, StoreNo>
        requires admits { Admits pass.now (alone self.old) }
        requires home { IsHome self.old }
        requires rests { IsAtRest disk.old self.old }
        requires due { IsDue self.old.live false }
        requires no_longer { IsNoLonger self.old.live (bytes_of_rows self.old.rows) }
        ensures notes { (entries : List BookEntry)
            × MovesOn entries disk.old self.old disk.new self.new
            × BeginNotes (user_in (alone self.old) pass.now) result entries }
        ensures admits { Admits pass.now (alone self.new) }
        ensures home { IsHome self.new }
        ensures rests { IsAtRest disk.new self.new }
        ensures made { IfOk result (IsMaking disk.new self.new) }
    {
        self.flush(disk, pass)?;
        if !self.stage.batch().is_empty() {
            return Ok(None);
        }
        Ok(Some(self.list_rows()?))
    }

    // Lists the rows, where nothing is staged, and lets the log know of the file that is to be made of them.
    fn list_rows(&mut self) -> Result<Making, StoreNo>
        requires due { IsDue self.old.live false }
        requires no_longer { IsNoLonger self.old.live (bytes_of_rows self.old.rows) }
        requires unstaged { self.old.stage.commits ≡ [] }
        ensures moves { (ways : Commits) (disk : D) → Moves [] (over_as ways disk self.old)
            (over_as ways disk self.new) }
        ensures admits { (pass : Pass) → Admits pass (alone self.old) → Admits pass (alone self.new) }
        ensures home { IsHome self.old → IsHome self.new }
        ensures rests { (disk : D) → IsAtRest disk self.old → IsAtRest disk self.new }
        ensures made { IfOk result (λ half. (disk : D) → IsAtRest disk self.old
            → IsMaking disk self.new (Some half)) }
        ensures cause { ListCause result }
    {
        history_laws();
        rows_are_within_needs();
        self.rows.are_typed();
        let Some(mut live) = self.live else {
            unreachable!()
        };
        // One that was given up leaves this behind.
        live.log.making = None;
        match live.log.begin(self.alloc, &self.rows) {
            Ok(making) => {
                self.live = Some(live);
                Ok(making)
            }
            Err(LogFault::Full { need, room }) => Err(StoreNo::Full { need, room }),
            Err(LogFault::Broken { since: _ } | LogFault::Disk | LogFault::NoMemory) => {
                Err(StoreNo::NoMemory)
            }
        }
    }
}

impl<D: Disk, B: Chronicle<BookEntry>> Apart<D, B> {
    ghost use Rattle.std.specs.Prelude.{List, Option};
    ghost use Rattle.pm_query.specs.{declared.book.BookEntry.BookEntry, Calls.StepNotes};
    ghost use Rattle.pm_log.specs.Half.{Half};
    ghost use Rattle.pm_store_apart.specs.{Apart.MovesOn, Lending.{IsHome, IsUnder}, Moment.alone, Passes.{Admits, user_in}, Pieces.{IsMaking, LendsPiece, MadePiece, MarksPiece}, Rests.IsAtRest};

    /// Lends the disk for a piece of the log's other file, or tells why it can't be: the log isn't read, it is broken, or memory is
    /// short.
    pub fn lend_piece(&mut self, pass: &Pass) -> Result<Batch, StoreNo>
        requires admits { Admits pass.now (alone self.old) }
        requires home { IsHome self.old }
        ensures lends { LendsPiece (user_in (alone self.old) pass.now) self.old self.new result }
        ensures admits { Admits pass.now (alone self.new) }
    {
        let room = self.entries_for(1);
        if self.book.reserve(room).is_err() {
            return Err(StoreNo::NoMemory);
        }
        let Some(live) = self.live else {
            return Err(StoreNo::NoMemory);
        };
        if let Some(since) = live.log.since {
            return Err(self.broken(*pass, live, since));
        }
        self.lent = true;
        Ok(Batch {
            log: live.log,
            commits: Vec::new(self.alloc),
            alloc: self.alloc,
        })
    }

    /// Marks what the making of a piece came to, with the disk that comes back: the disk is lent no longer. It takes no memory.
    pub fn mark_piece(
        &mut self,
        pass: &Pass,
        batch: Batch,
        disk: &D,
        came: Came,
    ) -> Result<Stepping, StoreNo>
        requires admits { Admits pass.now (alone self.old) }
        requires under { IsUnder batch self.old }
        requires made { (taken : D) × (half : Half) × (left : Option Half)
            × MadePiece D.Disk taken disk.now batch.log half came left }
        ensures notes { (taken : D) (half : Half) (left : Option Half)
            → MadePiece D.Disk taken disk.now batch.log half came left → (entries : List BookEntry)
            × MovesOn entries taken self.old disk.now self.new
            × StepNotes (user_in (alone self.old) pass.now) result entries }
        ensures rests { (taken : D) (half : Half) (left : Option Half) → IsAtRest taken self.old
            → MadePiece D.Disk taken disk.now batch.log half came left
            → (IsAtRest disk.now self.new × IsMaking disk.now self.new left) }
        ensures admits { Admits pass.now (alone self.new) }
        ensures home { IsHome self.new }
        ensures marks { MarksPiece came result }
    {
        history_laws();
        rows_are_within_needs();
        let Some(mut live) = self.live else {
            unreachable!()
        };
        self.lent = false;
        match came {
            Came::More => Ok(Stepping::More),
            Came::Switched { log, tick } => {
                live.log = log;
                live.mark = tick;
                self.live = Some(live);
                self.book.note(BookEntry::CheckpointEnded {
                    pid: pass.pid,
                    done: true,
                    clean: false,
                });
                Ok(Stepping::Done { epoch: log.epoch })
            }
            Came::Failed { log } => {
                live.log = log;
                live.faults = disk.faults();
                self.live = Some(live);
                note_fault(&mut self.book, pass.pid, disk);
                Err(StoreNo::Disk)
            }
        }
    }
}
