//! A store, and the calls by which children use it.
//!
//! `run` either appends its commit to the log before it answers, so that what a pass has seen is flushed already, or stages it
//! without a call of the disk, until a flush. All memory that a call takes for that is taken before its first call of the disk,
//! and its entries are noted after it, so that each call of the disk has its entry.

ghost use Rattle.std.specs.Prelude.{◌≡◌, [], false};
ghost use Rattle.pm_store_apart.specs.{Rests.IsAtRest, declared.commits.Commits.{Commits, TheVariants.AtOnce}};

use pm_child_life::Seat;
use pm_disk::Disk;
use pm_outside::Chronicle;
use pm_query::{BookEntry, Checkpointed, Seen, Staged, Store, StoreNo};
use pm_sql::Script;
use pm_store_apart::{Apart, Begun, Commits, Pass};
use std::alloc::{AllocError, Global};

/// What the children of a generation share: the rows, the log on its disk, and the book of what happened.
///
/// Its type keeps that the log rests on the disk with these rows, up to what is staged, while it goes on. That the book is legal, and that rows and log are its replay, holds from the moment at which the
/// segment got its disk, and from the base that its first redo found: each call says that it keeps this, for every such
/// beginning (`Moves`).
#[derive(Drop)]
pub struct Segment<D: Disk, B: Chronicle<BookEntry>> {
    pub(crate) apart: Apart<D, B>,
    pub(crate) disk: D,
    pub(crate) commits: Commits,
    ghost rests: { IsAtRest disk apart },
    ghost home: { apart.lent ≡ false },
    ghost at_once: { commits ≡ AtOnce → apart.stage.commits ≡ [] },
}

/// A segment that one thread has for itself. It needs no lock, and stages nothing where it writes commits at once.
pub type Sole<D, B> = Segment<D, B>;

impl<D: Disk, B: Chronicle<BookEntry>> Segment<D, B> {
    ghost use Rattle.std.specs.Prelude.{ℕ, ◌+◌, ◌≤◌, [], ◌∷◌, ◌++◌, List, map, Some, IfOk, IfErr, OnOk, OnErr, option_map};
    ghost use Rattle.pm_query.specs.declared.book.BookEntry.{BookEntry, TheVariants.{Gone, Opened}};
    ghost use Rattle.pm_store_apart.specs.{Children.AreOthers, Moves.{IsAsBefore, Renews}, Fronts.flushed_of, Lending.IsHome, Redos.is_broken, Stands.WaitsFrom};
    ghost use Rattle.pm_segment.specs.Moment.{apart_of, book_of, disk_of, moment};
    ghost use Rattle.pm_outside.specs.Added.{Added};

    /// A store in its first generation, which has no rows before its redo. Where memory is short disk and book come back.
    pub fn new(alloc: Global, commits: Commits, disk: D, book: B) -> Result<Segment<D, B>, (D, B)>
        ensures disk { IfOk result (λ store. disk_of store ≡ disk) }
        ensures notes { IfOk result (λ store.
            Added (BookEntry.Opened 1 ∷ []) (B.entries book) (moment store).book) }
        ensures waits { IfOk result (λ store. B.entries book ≡ Some []
            → WaitsFrom (record {
              files = D.seen disk;
              tick = D.ticks disk;
              faults = D.faults
                  disk;
            }) (moment store)) }
        ensures generation { IfOk result (λ store. (moment store).generation ≡ 1) }
        ensures unread { IfOk result (λ store. (moment store).live ≡ None) }
        ensures empty { IfOk result (λ store. (moment store).inside ≡ []) }
        ensures commits { IfOk result (λ store. (moment store).commits ≡ commits) }
        ensures unstaged { IfOk result (λ store. (moment store).staged ≡ []) }
        ensures refused { IfErr result (λ parts.
            (parts.0 ≡ disk) × (B.entries parts.1 ≡ B.entries book)) }
    {
        match Apart::new(alloc, book) {
            Ok(apart) => Ok(Segment {
                apart,
                disk,
                commits,
            }),
            Err(book) => Err((disk, book)),
        }
    }

    /// The generation that it is in.
    pub fn generation(&self) -> u32
        ensures { result ≡ (moment self.now).generation }
    {
        self.apart.generation()
    }

    /// Whether its log is broken: the disk has failed since the redo of this generation.
    pub fn is_broken(&self) -> bool
        ensures { result ≡ is_broken (moment self.now).live }
    {
        self.apart.is_broken()
    }

    /// How many commits its log has flushed, once it was read in this generation.
    pub fn flushed(&self) -> Option<u64>
        ensures { result ≡ option_map flushed_of (moment self.now).live }
    {
        self.apart.flushed()
    }

    /// Begins the next generation: the children named are gone, and so is every other one that is still inside. Its rows
    /// are those of no commit, nothing is staged, and its log isn't read, until its redo. Where memory is short nothing has changed.
    ///
    /// It makes no call of the disk, and takes time of the order of the children inside times those named.
    pub fn renew(&mut self, generation: u32, gone: &[u32]) -> Result<(), AllocError>
        requires { generation ≡ (moment self.old).generation + 1 }
        ensures renews { OnOk result ((others : List ℕ)
            × AreOthers (moment self.old).inside gone.now others
            × Renews (map Gone (gone.now ++ others) ++ Opened generation ∷ [])
            (moment self.old) (moment self.new)) }
        ensures refused { OnErr result (IsAsBefore (moment self.old) (moment self.new)) }
        ensures room { OnErr result (B.spare (book_of self.old) ≤ B.spare (book_of self.new)) }
        ensures disk { disk_of self.new ≡ disk_of self.old }
    {
        self.apart.renew(generation, gone)
    }

    /// Gives the disk and the book back. It takes no memory.
    pub fn into_parts(self) -> (D, B)
        ensures { (result.0 ≡ disk_of self) × (result.1 ≡ book_of self) }
    {
        let Segment {
            apart,
            disk,
            commits: _,
        } = self;
        (disk, apart.into_book())
    }

    /// What it has but for its disk, and the disk. It is of a store that stages commits.
    pub fn part(self) -> (Apart<D, B>, D)
        requires { (moment self).commits ≡ Commits.Staged }
        ensures parts { (result.0 ≡ apart_of self) × (result.1 ≡ disk_of self) }
        ensures home { IsHome result.0 }
        ensures rests { IsAtRest result.1 result.0 }
    {
        let Segment {
            apart,
            disk,
            commits: _,
        } = self;
        (apart, disk)
    }

    /// A store that stages commits, with this disk.
    pub fn join(apart: Apart<D, B>, disk: D) -> Segment<D, B>
        requires home { IsHome apart }
        requires rests { IsAtRest disk apart }
        ensures parts { (apart_of result ≡ apart) × (disk_of result ≡ disk) }
        ensures staged { (moment result).commits ≡ Commits.Staged }
    {
        Segment {
            apart,
            disk,
            commits: Commits::Staged,
        }
    }
}

impl<D: Disk, B: Chronicle<BookEntry>> Seat for Segment<D, B> {
    ghost use Rattle.std.specs.Prelude.{None};
    ghost use Rattle.pm_query.specs.pm_child_life.Life.{no_child};

    ghost child = { λ store. no_child };

    ghost told = { λ store. None };

    ghost rests = { λ before now. now ≡ before };
}

impl<D: Disk, B: Chronicle<BookEntry>> Store for Segment<D, B> {
    ghost use Rattle.std.{proofs.Common.{Some, ap, subst, sym}, specs.Prelude.{◌≡◌, ◌⊎◌, ◌∷◌, [], All, List, IfOk, OnOk, OnErr}};
    ghost use Rattle.pm_query.specs.{declared.{book.BookEntry.BookEntry, store.StoreNo.StoreNo}, Calls.{CheckpointNotes, EnterNotes, FlushNotes, HasReached, IsPast, LearnsFront, LearnsReason, LeaveNotes, MetAnother, MetLater, ReachesNoLess, RedoNotes, RunNotes, SeenNotes, new_pass, newcomer, with_front}, Limits.HasShortValues, pm_child_life.Life.TouchesNoChild};
    ghost use Rattle.pm_store_apart.specs.{Causes.{MakesNoCall, RunCause, SeenCause, staged_behind}, Flushes.{FlushCause, FlushesAll, WritesNothing}, Moves.Moves, MovesLaws.{moves_none, moves_on, never_falls}, Passes.{Admits, user_in, view_of}, ReadsApart.AnswersEarly, Redos.{CheckpointCause, FullAtLast, GoesOnAsFound, HasReason, IsRead, LeavesFiles, LeavesUnread, MadeAfresh, MakesCalls}};
    ghost use Rattle.pm_segment.specs.Moment.{HasDiskOf, HasLogOf, disk_of, moment};

    type Pass = Pass;

    ghost notes = { λ entries before now. Moves entries (moment before) (moment now) };

    ghost admits = { λ store pass. Admits pass (moment store) };

    ghost view = { view_of };

    ghost stamp = { λ store. Some (moment store).generation };

    ghost met = { λ store. (moment store).generation };

    ghost learned = { λ store fact. Unit {0} };

    fn enter(&mut self, pid: u32, generation: u32) -> Result<Pass, StoreNo>
        ensures notes { (entries : List BookEntry) × Moves entries (moment self.old)
            (moment self.new) × EnterNotes (newcomer (Some (moment self.old).generation) pid
            generation) result entries }
        ensures admits { IfOk result (λ pass. Admits pass (moment self.new)) }
        ensures view { IfOk result (λ pass. view_of pass ≡ new_pass pid generation) }
        ensures stale { MetAnother (moment self.new).generation generation result }
        ensures life { TouchesNoChild }

        ensures rest { HasLogOf self.old self.new }
    {
        self.apart.enter(pid, generation)
    }

    fn run(&mut self, pass: &mut Pass, script: &Script) -> Result<Staged, StoreNo>
        requires { Admits pass.old (moment self.old) }
        ensures notes { (entries : List BookEntry)
            × Moves entries (moment self.old) (moment self.new)
            × RunNotes (user_in (moment self.old) pass.old) script.now result entries }
        ensures admits { Admits pass.new (moment self.new) }
        ensures fresh { IfOk result (λ staged. ReachesNoLess (view_of pass.old) staged.front) }
        ensures view { IfOk result (λ staged. view_of pass.new ≡ with_front staged.front
            (view_of pass.old)) }
        ensures refused { OnErr result (view_of pass.new ≡ view_of pass.old) }
        ensures short { IfOk result (λ staged. All HasShortValues staged.reply) }
        ensures stale { MetLater (moment self.new).generation pass.old.generation result }
        ensures life { TouchesNoChild }

        ensures cause { RunCause (moment self.old) script.now result }
        ensures early { IfOk result (λ staged.
            AnswersEarly (moment self.old) pass.old.front script.now staged.front) }
        ensures rest { MakesNoCall (moment self.old).rows script.now result
            → HasLogOf self.old self.new }
        ensures still { (moment self.old).commits ≡ Commits.Staged
            → disk_of self.new ≡ disk_of self.old }
        ensures staged { (moment self.new).staged
            ≡ staged_behind (moment self.old) script.now result }
    {
        let begun = self.apart.begin(pass, script, self.commits)?;
        match begun {
            Begun::Answered(staged) => Ok(staged),
            Begun::Commits(live, ran) => self.apart.append(&mut self.disk, pass, live, ran),
        }
    }

    fn seen(&mut self, pass: &mut Pass, front: u64) -> Result<Seen, StoreNo>
        requires admits { Admits pass.old (moment self.old) }
        requires reached { HasReached (view_of pass.old) front }
        ensures notes { (entries : List BookEntry)
            × Moves entries (moment self.old) (moment self.new)
            × SeenNotes (user_in (moment self.old) pass.old) front result entries }
        ensures admits { Admits pass.new (moment self.new) }
        ensures view { view_of pass.new ≡ view_of pass.old }
        ensures stale { MetLater (moment self.new).generation pass.old.generation result }
        ensures life { TouchesNoChild }

        ensures cause { SeenCause (moment self.old).live front result }
        ensures rest { HasLogOf self.old self.new }
    {
        self.apart.seen(pass, front)
    }

    fn flush(&mut self, pass: &mut Pass) -> Result<u64, StoreNo>
        requires { Admits pass.old (moment self.old) }
        ensures notes { (entries : List BookEntry)
            × Moves entries (moment self.old) (moment self.new)
            × FlushNotes (user_in (moment self.old) pass.old) result entries }
        ensures admits { Admits pass.new (moment self.new) }
        ensures view { view_of pass.new ≡ view_of pass.old }
        ensures stale { MetLater (moment self.new).generation pass.old.generation result }
        ensures learned { LearnsFront (λ fact. Unit {0}) result }
        ensures life { TouchesNoChild }

        ensures cause { FlushCause (moment self.old) (moment self.new) result }
        ensures rest { WritesNothing (moment self.old).staged result → HasLogOf self.old self.new }
    {
        self.apart.flush(&mut self.disk, pass)
    }

    fn redo(&mut self, pass: &mut Pass) -> Result<u64, StoreNo>
        requires { Admits pass.old (moment self.old) }
        ensures notes { (entries : List BookEntry)
            × Moves entries (moment self.old) (moment self.new)
            × RedoNotes (user_in (moment self.old) pass.old) result entries }
        ensures admits { Admits pass.new (moment self.new) }
        ensures view { view_of pass.new ≡ view_of pass.old }
        ensures stale { MetLater (moment self.new).generation pass.old.generation result }
        ensures learned { LearnsReason (λ fact. Unit {0}) result }
        ensures life { TouchesNoChild }

        ensures read { OnOk result (IsRead (moment self.new).live) }
        ensures again { IsRead (moment self.old).live → HasDiskOf self.old self.new }
        ensures reason { HasReason (moment self.old).files result }
        ensures kept { LeavesFiles (moment self.old).files (moment self.new).files result }
        ensures unread { LeavesUnread (moment self.new).live result }
        ensures found { GoesOnAsFound (moment self.old) (moment self.new) }
    {
        self.apart.redo(&mut self.disk, pass)
    }

    fn checkpoint(&mut self, pass: &mut Pass, clean: bool) -> Result<Checkpointed, StoreNo>
        requires { Admits pass.old (moment self.old) }
        ensures notes { (entries : List BookEntry)
            × Moves entries (moment self.old) (moment self.new)
            × CheckpointNotes (user_in (moment self.old) pass.old) clean result entries }
        ensures admits { Admits pass.new (moment self.new) }
        ensures view { view_of pass.new ≡ view_of pass.old }
        ensures stale { MetLater (moment self.new).generation pass.old.generation result }
        ensures life { TouchesNoChild }

        ensures cause { CheckpointCause (moment self.old).live clean result }
        ensures still { (moment self.old).staged ≡ [] → ¬ (MakesCalls result)
            → HasDiskOf self.old self.new }
        ensures full { FullAtLast (moment self.new).files result }
        ensures afresh { MadeAfresh clean (moment self.new) result }
        ensures flushed { FlushesAll (moment self.new) result }
    {
        self.apart.checkpoint(&mut self.disk, pass, clean)
    }

    fn leave(&mut self, pass: Pass)
        requires { Admits pass (moment self.old) }
        ensures notes { (entries : List BookEntry)
            × Moves entries (moment self.old) (moment self.new)
            × LeaveNotes (user_in (moment self.old) pass) entries }
        ensures stale { Moves (BookEntry.Detached pass.pid ∷ []) (moment self.old)
            (moment self.new) ⊎ IsPast (moment self.new).generation pass.generation }
        ensures life { TouchesNoChild }

        ensures rest { HasLogOf self.old self.new }
    {
        self.apart.leave(pass);
    }

    ghost at_rest = { λ store. moves_none (moment store) };

    ghost apart = { λ before now same. subst (λ store. Moves [] (moment before) (moment store)) (sym same) (moves_none (moment before)) };

    ghost admits_still = { λ before now pass same admits. subst (λ store. Admits pass (moment store)) (sym same) admits };

    ghost met_still = { λ before now same. ap (λ store. (moment store).generation) same };

    ghost in_turn = { λ before between now first second. moves_on first second (moment before) (moment between) (moment now) };

    ghost stays = { λ before now entries moves. ap (λ n. Some n) moves.generation };

    ghost rises = { λ before now entries moves. never_falls (moment before).generation (moment now).generation moves.generation };

    ghost keeps = { λ before now entries moves fact one. one };
}
