//! A store in memory, which one caller uses alone. Its log grows, is flushed, and fails, when its owner says so.
ghost use Rattle.std.specs.Prelude.{◌≡◌, ◌+◌, ◌≤◌, ◌++◌, ◌∷◌, [], option_map, IfOk};
ghost use Rattle.pm_query.specs.Limits.{HasShortRows};
ghost use Rattle.pm_rows_tests.specs.MemStore.{count_behind};

use pm_child_life::Seat;
use pm_outside::Chronicle;
use pm_query::{
    BookEntry, CHECKPOINT_BYTES, Checkpointed, Outcome, RedoFault, Seen, Staged, Store, StoreNo,
    answer, checkpoint_bytes_are_the_number,
};
use pm_rows::{Commit, MAX_COMMITS, Rows};
use pm_sql::Script;
use std::alloc::{AllocError, Global};

/// The one generation of such a store.
pub const GENERATION: u32 = 1;

/// A fault of the log: its tick, and the count of faults from then on.
#[derive(Clone, Copy, Debug, PartialEq, Eq)]
pub struct Fault {
    pub since: u64,
    pub faults: u64,
}

/// The rows, how many commits left them, how many of these are flushed and how many redo has kept, the log's epoch and
/// its bytes after its base, and the book.
#[derive(Debug, Drop)]
pub struct MemStore<B> {
    pub(crate) book: B,
    pub(crate) rows: Rows,
    pub(crate) count: u64,
    pub(crate) flushed: u64,
    pub(crate) fault: Option<Fault>,
    pub(crate) redone: Option<u64>,
    pub(crate) epoch: u64,
    pub(crate) behind: u64,
    alloc: Global,
    ghost short: { HasShortRows rows },
}

/// A child's leave to use it.
#[derive(Clone, Copy, Debug, PartialEq, Eq)]
pub struct MemPass {
    pub(crate) pid: u32,
    pub(crate) generation: u32,
    pub(crate) front: Option<u64>,
}

impl<B: Chronicle<BookEntry>> MemStore<B> {
    /// A store without rows, whose book is to be told here.
    pub fn new(alloc: Global, book: B) -> MemStore<B>
        ensures book { result.book ≡ book }
        ensures begin { (result.count ≡ 0) × (result.flushed ≡ 0) × (result.fault ≡ None)
            × (result.redone ≡ None) }
        ensures log { (result.epoch ≡ 1) × (result.behind ≡ 0) }
    {
        MemStore {
            book,
            rows: Rows::new(alloc),
            count: 0,
            flushed: 0,
            fault: None,
            redone: None,
            epoch: 1,
            behind: 0,
            alloc,
        }
    }

    /// Lets the log have so many bytes after its base.
    pub fn grow(&mut self, behind: u64)
        ensures { self.new ≡ record self.old { behind = behind } }
    {
        self.behind = behind;
    }

    /// Flushes all commits.
    pub fn flush_all(&mut self)
        ensures { self.new ≡ record self.old { flushed = self.old.count } }
    {
        self.flushed = self.count;
    }

    /// Lets the log fail.
    pub fn fail(&mut self, fault: Fault)
        ensures { self.new ≡ record self.old { fault = Some fault } }
    {
        self.fault = Some(fault);
    }

    /// Gives the book back.
    pub fn into_book(self) -> B
        ensures { result ≡ self.book }
    {
        let MemStore {
            book,
            rows: _,
            count: _,
            flushed: _,
            fault: _,
            redone: _,
            epoch: _,
            behind: _,
            alloc: _,
        } = self;
        book
    }
}

impl<B: Chronicle<BookEntry>> Seat for MemStore<B> {
    ghost use Rattle.std.specs.Prelude.{◌≡◌, None};
    ghost use Rattle.pm_query.specs.pm_child_life.Life.{no_child};

    ghost child = { λ store. no_child };

    ghost told = { λ store. None };

    ghost rests = { λ before now. now ≡ before };
}

impl<B: Chronicle<BookEntry>> Store for MemStore<B> {
    ghost use Rattle.std.proofs.Common.{[], Some, refl, subst, sym};
    ghost use Rattle.pm_rows_tests.specs.{MemStore.{Moment, Goes, Admits}, MemStoreLaws.{goes_nowhere, goes_on, same_number}};

    type Pass = MemPass;

    ghost notes = { λ entries before now. Goes entries
        (record { book = B.entries before.book; rows = before.rows; count = before.count; redone = before.redone })
        (record { book = B.entries now.book; rows = now.rows; count = now.count; redone = now.redone }) };

    ghost admits = { λ store pass. Admits pass.front store.count (B.spare store.book) };

    ghost view = { λ pass. record { pid = pass.pid; generation = pass.generation; front = pass.front } };

    ghost stamp = { λ _. Some 1 };

    ghost met = { λ _. 1 };

    ghost learned = { λ _ _. Unit {0} };

    fn enter(&mut self, pid: u32, generation: u32) -> Result<MemPass, StoreNo> {
        if generation != GENERATION {
            return Err(StoreNo::Stale {
                mine: generation,
                found: GENERATION,
            });
        }
        self.book.reserve(2)?;
        self.book.note(BookEntry::Attached { pid, generation });
        Ok(MemPass {
            pid,
            generation,
            front: None,
        })
    }

    fn run(&mut self, pass: &mut MemPass, script: &Script) -> Result<Staged, StoreNo> {
        self.book.reserve(2)?;
        if let Some(fault) = self.fault {
            return Err(self.broken(pass.pid, fault));
        }
        let Outcome { reply, commit } = answer(self.alloc, &self.rows, script)?;
        let script = script.copy()?;
        let shown = reply.copy()?;
        let wrote = !commit.changes().is_empty();
        let front = count_behind(self.count, &commit)?;
        self.rows.apply(&commit)?;
        self.book.note(BookEntry::Answered {
            pid: pass.pid,
            script,
            reply: shown,
            commit,
            front,
            tick: 0,
        });
        self.count = front;
        pass.front = Some(front);
        Ok(Staged {
            reply,
            front,
            wrote,
        })
    }

    fn seen(&mut self, pass: &mut MemPass, front: u64) -> Result<Seen, StoreNo> {
        self.book.reserve(2)?;
        if front <= self.flushed {
            self.book.note(BookEntry::Released {
                pid: pass.pid,
                front,
                tick: 0,
            });
            return Ok(Seen::Released);
        }
        match self.fault {
            Some(fault) => Err(self.broken(pass.pid, fault)),
            None => Ok(Seen::NotFlushed {
                flushed: self.flushed,
            }),
        }
    }

    fn flush(&mut self, pass: &mut MemPass) -> Result<u64, StoreNo> {
        self.book.reserve(2)?;
        if let Some(fault) = self.fault {
            return Err(self.broken(pass.pid, fault));
        }
        let batch_end = self.flushed.saturating_add(MAX_COMMITS as u64);
        self.flushed = self.count.min(batch_end);
        Ok(self.flushed)
    }

    fn redo(&mut self, pass: &mut MemPass) -> Result<u64, StoreNo> {
        if self.book.reserve(2).is_err() {
            return Err(StoreNo::Redo(RedoFault::NoMemory));
        }
        let kept = self.redone.unwrap_or(self.count);
        self.redone = Some(kept);
        self.book.note(BookEntry::Redone {
            pid: pass.pid,
            generation: pass.generation,
            kept,
        });
        Ok(kept)
    }

    fn checkpoint(&mut self, pass: &mut MemPass, clean: bool) -> Result<Checkpointed, StoreNo> {
        checkpoint_bytes_are_the_number();
        self.book.reserve(2)?;
        if self.redone.is_none() {
            self.book.note(BookEntry::CheckpointEnded {
                pid: pass.pid,
                done: false,
                clean,
            });
            return Ok(Checkpointed::Skipped);
        }
        if let Some(fault) = self.fault {
            return Err(self.broken(pass.pid, fault));
        }
        if !clean && self.behind < CHECKPOINT_BYTES {
            return Ok(Checkpointed::NotDue {
                behind: self.behind,
            });
        }
        if self.epoch == u64::MAX {
            return Err(StoreNo::Full { need: 9, room: 0 });
        }
        self.epoch += 1;
        self.behind = 0;
        self.book.note(BookEntry::CheckpointEnded {
            pid: pass.pid,
            done: true,
            clean,
        });
        Ok(Checkpointed::Done { epoch: self.epoch })
    }

    fn leave(&mut self, pass: MemPass) {
        self.book.note(BookEntry::Detached { pid: pass.pid });
    }

    ghost at_rest = { λ store. goes_nowhere (record { book = B.entries store.book; rows = store.rows; count = store.count; redone = store.redone }) };

    ghost apart = { λ before now same. subst
        (λ store. Goes []
        (record { book = B.entries before.book; rows = before.rows; count = before.count; redone = before.redone })
        (record { book = B.entries store.book; rows = store.rows; count = store.count; redone = store.redone }))
        (sym same) (goes_nowhere (record { book = B.entries before.book; rows = before.rows; count = before.count; redone = before.redone })) };

    ghost admits_still = { λ before now pass same admits. subst
        (λ store. Admits pass.front store.count (B.spare store.book)) (sym same) admits };

    ghost met_still = { λ before now same. refl };

    ghost in_turn = { λ before between now first second one two. goes_on first second
        (record { book = B.entries before.book; rows = before.rows; count = before.count; redone = before.redone })
        (record { book = B.entries between.book; rows = between.rows; count = between.count; redone = between.redone })
        (record { book = B.entries now.book; rows = now.rows; count = now.count; redone = now.redone }) one two };

    ghost stays = { λ before now entries one. refl };

    ghost rises = { λ before now entries one. same_number 1 };

    ghost keeps = { λ before now entries one fact nothing. nothing };
}

impl<B: Chronicle<BookEntry>> MemStore<B> {
    // Notes the fault again, under this child.
    fn broken(&mut self, pid: u32, fault: Fault) -> StoreNo
        requires { 1 ≤ B.spare self.old.book }
        ensures answer { result ≡ StoreNo.Broken fault.since }
        ensures noted { B.entries self.new.book ≡ option_map
            (λ book. book ++ BookEntry.Broke pid fault.since fault.faults ∷ [])
            (B.entries self.old.book) }
        ensures room { B.spare self.new.book + 1 ≡ B.spare self.old.book }
        ensures kept { (self.new.rows ≡ self.old.rows) × (self.new.count ≡ self.old.count)
            × (self.new.redone ≡ self.old.redone) }
    {
        self.book.note(BookEntry::Broke {
            pid,
            since: fault.since,
            faults: fault.faults,
        });
        StoreNo::Broken { since: fault.since }
    }
}

// How many commits there are with this one, which counts where it has changes.
fn count_behind(count: u64, commit: &Commit) -> Result<u64, AllocError>
    ensures { IfOk result (λ sum. sum ≡ count_behind count commit.now) }
{
    if commit.changes().is_empty() {
        Ok(count)
    } else {
        count.checked_add(1).ok_or(AllocError)
    }
}
