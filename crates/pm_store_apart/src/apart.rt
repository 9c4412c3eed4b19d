//! A store apart from its disk, and the calls that need none.

ghost use Rattle.std.specs.Prelude.{◌≡◌, ◌≤◌, ◌+◌, length, cond};
ghost use Rattle.pm_query.specs.{pm_rows.Limits.IsWithinRowLimits, Limits.HasShortRows};
ghost use Rattle.pm_store_apart.specs.Waits.{IsBehind};

use crate::children::Children;
use crate::history::history_laws;
use crate::live::Live;
use crate::pass::Pass;
use pm_disk::Disk;
use pm_outside::Chronicle;
use pm_query::{BookEntry, Seen, StoreNo};
use pm_rows::Rows;
use pm_stage::Stage;
use std::alloc::Global;
use std::marker::PhantomData;

/// The generation in which a store begins.
const FIRST_GENERATION: u32 = 1;

/// All that the children of a generation share but for the disk, which may be lent for a batch. It stages commits, and its log is as
/// it was last read or marked.
///
/// Its type keeps that the book has room for the leave of each child inside and, while the disk is lent, for its fault.
#[derive(Drop)]
pub struct Apart<D: Disk, B: Chronicle<BookEntry>> {
    pub(crate) book: B,
    pub(crate) generation: u32,
    pub(crate) inside: Children,
    pub(crate) rows: Rows,
    // The log, once it was read.
    pub(crate) live: Option<Live>,
    // Whether a checkpoint was asked for before that.
    pub(crate) skipped: bool,
    // What waits for the log.
    pub(crate) stage: Stage,
    // Whether the disk is lent.
    pub(crate) lent: bool,
    pub(crate) alloc: Global,
    pub(crate) kind: PhantomData<D>,
    ghost begun: { 1 ≤ generation },
    ghost short: { HasShortRows rows },
    ghost limits: { IsWithinRowLimits rows },
    ghost behind: { ∥ IsBehind live stage ∥₁ },
    // So that definitions of the struct may speak of the disk.
    ghost ticks: { (disk : D) → D.ticks disk ≡ D.ticks disk },
    ghost room: { length inside + cond lent 1 0 ≤ B.spare book },
}

impl<D: Disk, B: Chronicle<BookEntry>> Apart<D, B> {
    ghost use Rattle.std.specs.Prelude.{◌∷◌, [], List, Some, IfErr, IfOk, option_map};
    ghost use Rattle.pm_query.specs.{declared.{book.BookEntry.BookEntry, store.StoreNo.StoreNo}, Calls.{EnterNotes, HasReached, LeaveNotes, MetAnother, MetLater, SeenNotes, new_pass, newcomer}};
    ghost use Rattle.pm_store_apart.specs.{Apart.{Grows, IsNew}, Causes.SeenCause, Fronts.flushed_of, Lending.IsHome, Moment.{KeepsLog, alone}, Passes.{Admits, user_in, view_of}, Redos.is_broken};

    /// One in its first generation, which has no rows before its redo. Where memory is short the book comes back.
    pub fn new(alloc: Global, book: B) -> Result<Apart<D, B>, B>
        ensures new { IfOk result (IsNew (B.entries book)) }
        ensures home { IfOk result IsHome }
        ensures refused { IfErr result (λ back. B.entries back ≡ B.entries book) }
    {
        let mut book = book;
        if book.reserve(1).is_err() {
            return Err(book);
        }
        book.note(BookEntry::Opened {
            generation: FIRST_GENERATION,
        });
        Ok(Apart {
            book,
            generation: FIRST_GENERATION,
            inside: Children::new(alloc),
            rows: Rows::new(alloc),
            live: None,
            skipped: false,
            stage: Stage::new(alloc, 0),
            lent: false,
            alloc,
            kind: PhantomData,
        })
    }

    /// Gives the book back. It takes no memory.
    pub fn into_book(self) -> B
        ensures { result ≡ self.book }
    {
        let Apart {
            book,
            generation: _,
            inside: _,
            rows: _,
            live: _,
            skipped: _,
            stage: _,
            lent: _,
            alloc: _,
            kind: _,
        } = self;
        book
    }

    /// The generation that it is in.
    pub fn generation(&self) -> u32
        ensures { result ≡ (alone self.now).generation }
    {
        self.generation
    }

    /// Whether its log is broken: the disk has failed since the redo of this generation.
    pub fn is_broken(&self) -> bool
        ensures { result ≡ is_broken (alone self.now).live }
    {
        match self.live {
            None => false,
            Some(live) => live.log.since.is_some(),
        }
    }

    /// How many commits its log has flushed, once it was read in this generation.
    pub fn flushed(&self) -> Option<u64>
        ensures { result ≡ option_map flushed_of (alone self.now).live }
    {
        self.live.map(|live| live.log.count)
    }

    /// Lets a child in.
    pub fn enter(&mut self, pid: u32, generation: u32) -> Result<Pass, StoreNo>
        ensures notes { (entries : List BookEntry) × Grows entries self.old self.new
            × EnterNotes (newcomer (Some (alone self.old).generation) pid generation) result entries }
        ensures admits { IfOk result (λ pass. Admits pass (alone self.new)) }
        ensures view { IfOk result (λ pass. view_of pass ≡ new_pass pid generation) }
        ensures stale { MetAnother (alone self.new).generation generation result }
        ensures rest { KeepsLog self.old self.new }
    {
        history_laws();
        if generation != self.generation {
            return Err(StoreNo::Stale {
                mine: generation,
                found: self.generation,
            });
        }
        let room = self.entries_for(2);
        self.book.reserve(room)?;
        self.inside.add(pid)?;
        self.book.note(BookEntry::Attached { pid, generation });
        Ok(Pass {
            pid,
            generation,
            front: None,
        })
    }

    /// Whether the answers up to a front may be sent. While a batch is written, those before it may.
    pub fn seen(&mut self, pass: &mut Pass, front: u64) -> Result<Seen, StoreNo>
        requires admits { Admits pass.old (alone self.old) }
        requires reached { HasReached (view_of pass.old) front }
        ensures notes { (entries : List BookEntry) × Grows entries self.old self.new
            × SeenNotes (user_in (alone self.old) pass.old) front result entries }
        ensures admits { Admits pass.new (alone self.new) }
        ensures view { view_of pass.new ≡ view_of pass.old }
        ensures stale { MetLater (alone self.new).generation pass.old.generation result }
        ensures cause { SeenCause (alone self.old).live front result }
        ensures rest { KeepsLog self.old self.new }
    {
        history_laws();
        let room = self.entries_for(1);
        self.book.reserve(room)?;
        let Some(live) = self.live else {
            return Err(StoreNo::NoMemory);
        };
        if front <= live.log.count {
            self.book.note(BookEntry::Released {
                pid: pass.pid,
                front,
                tick: live.mark,
            });
            return Ok(Seen::Released);
        }
        if let Some(since) = live.log.since {
            return Err(self.broken(*pass, live, since));
        }
        Ok(Seen::NotFlushed {
            flushed: live.log.count,
        })
    }

    /// Lets a child go.
    pub fn leave(&mut self, pass: Pass)
        requires { Admits pass (alone self.old) }
        ensures notes { (entries : List BookEntry) × Grows entries self.old self.new
            × LeaveNotes (user_in (alone self.old) pass) entries }
        ensures left { Grows (BookEntry.Detached pass.pid ∷ []) self.old self.new }
        ensures rest { KeepsLog self.old self.new }
    {
        history_laws();
        self.inside.remove(pass.pid);
        self.book.note(BookEntry::Detached { pid: pass.pid });
    }

    // How many entries the book needs room for: these, and those that are kept for later.
    pub(crate) fn entries_for(&self, more: usize) -> usize
        requires { more ≤ 2 }
        ensures { result ≡ length self.now.inside + cond self.now.lent 1 0 + more }
    {
        let kept = if self.lent { 1 } else { 0 };
        self.inside.entries_for(more + kept)
    }

    // Tells the fault again that broke the log, under this child.
    pub(crate) fn broken(&mut self, pass: Pass, live: Live, since: u64) -> StoreNo
        requires room { length self.old.inside + cond self.old.lent 1 0 + 1 ≤ B.spare self.old.book }
        requires admits { Admits pass (alone self.old) }
        requires read { self.old.live ≡ Some live }
        requires broken { live.log.since ≡ Some since }
        ensures answer { result ≡ StoreNo.Broken since }
        ensures notes { Grows (BookEntry.Broke pass.pid since live.faults ∷ []) self.old self.new }
        ensures admits { Admits pass (alone self.new) }
        ensures rest { KeepsLog self.old self.new }
    {
        history_laws();
        self.book.note(BookEntry::Broke {
            pid: pass.pid,
            since,
            faults: live.faults,
        });
        StoreNo::Broken { since }
    }
}
