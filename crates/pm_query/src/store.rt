//! What a child asks of the store.
ghost use Rattle.std.specs.Prelude.{◌≡◌, ◌≤◌, ◌⊎◌, ◌++◌, ◌∷◌, [], ℕ, List, Option, All, IfOk, OnErr};
ghost use Rattle.pm_query.specs.{declared.{book.BookEntry.{BookEntry, TheVariants.Detached}, store.StoreNo.TheVariants.{Disk, NoMemory}}, Calls.{DiskFact, LearnsFront, LearnsReason, PassView, user_of, newcomer, new_pass, with_front, ReachesNoLess, HasReached, IsPast, MetAnother, MetLater, EnterNotes, RunNotes, SeenNotes, FlushNotes, RedoNotes, CheckpointNotes, step_of, StepNotes, LeaveNotes}, Limits.HasShortValues, pm_child_life.Life.IsUntouched};

use crate::book::BookEntry;
use crate::reply::Reply;
use pm_child_life::Seat;
use pm_disk::DiskFault;
use pm_record::RedoFault;
use pm_sql::Script;
use std::alloc::AllocError;
use thiserror::Error;

/// With so many bytes of batches after its base, the log is due for a checkpoint.
pub const CHECKPOINT_BYTES: u64 = 67_108_864;

/// Why the store refused a call.
#[derive(Clone, Copy, Debug, PartialEq, Eq, Error)]
pub enum StoreNo {
    /// The store is in another generation than the caller's: it was found in this one.
    #[error("generation {mine} is over: the store is in generation {found}")]
    Stale { mine: u32, found: u32 },
    /// The disk failed in this call.
    #[error("disk fault")]
    Disk,
    /// The disk failed before, at this tick, and the log wasn't read again since.
    #[error("the commit log broke at tick {since}")]
    Broken { since: u64 },
    #[error("the commit log is full: {need} bytes are needed, and there is room for {room}")]
    Full { need: u64, room: u64 },
    #[error("{0}")]
    Redo(RedoFault),
    #[error("out of memory")]
    NoMemory,
}

impl From<DiskFault> for StoreNo {
    ghost from_gives = { λ _ e. e ≡ Disk };

    fn from(_: DiskFault) -> StoreNo {
        StoreNo::Disk
    }
}

impl From<AllocError> for StoreNo {
    ghost from_gives = { λ _ e. e ≡ NoMemory };

    fn from(_: AllocError) -> StoreNo {
        StoreNo::NoMemory
    }
}

/// What a script that was run gets for a reply, once the log is flushed up to `front`.
#[derive(Debug, Drop)]
pub struct Staged {
    pub reply: Reply,
    pub front: u64,
    /// Whether the script's commit has changes.
    pub wrote: bool,
}

/// Whether a reply may be sent.
#[derive(Clone, Copy, Debug, PartialEq, Eq)]
pub enum Seen {
    Released,
    /// The log is flushed only up to here.
    NotFlushed { flushed: u64 },
}

/// What a checkpoint came to.
#[derive(Clone, Copy, Debug, PartialEq, Eq)]
pub enum Checkpointed {
    /// The log goes on in the other file, in this epoch.
    Done { epoch: u64 },
    /// Redo hasn't ended in this generation, and nothing was written.
    Skipped,
    /// Only so many bytes of batches stand after the log's base, and nothing was written.
    NotDue { behind: u64 },
}

/// What a step of a checkpoint came to.
#[derive(Clone, Copy, Debug, PartialEq, Eq)]
pub enum Stepping {
    /// The checkpoint is under way.
    More,
    /// It was made: the log goes on in the other file, in this epoch.
    Done { epoch: u64 },
    /// Redo hasn't ended in this generation, and nothing was written.
    Skipped,
    /// Only so many bytes of batches stand after the log's base, and nothing was written.
    NotDue { behind: u64 },
}

impl Stepping {
    /// What the one step of a checkpoint is that came to this.
    pub fn of(came: Checkpointed) -> Stepping
        ensures { result ≡ step_of came }
    {
        match came {
            Checkpointed::Done { epoch } => Stepping::Done { epoch },
            Checkpointed::Skipped => Stepping::Skipped,
            Checkpointed::NotDue { behind } => Stepping::NotDue { behind },
        }
    }
}

/// The store, as one child uses it: it enters, runs scripts, waits until what it saw is flushed, and leaves. A child of
/// the server reads the log, flushes commits, or writes checkpoints in place of scripts.
///
/// Each call notes entries in the book. A caller sees those that this store's own calls have noted, in order; what else
/// stands between them, and what the book as a whole keeps, is each store's own.
///
/// After a fault of the disk a store stands broken, and its calls still may be made: those that would write, and `seen`
/// above what is flushed, answer `Broken` and note the same fault again, until the log is read again.
pub trait Store: Seat {
    /// The leave of one child to use the store, from `enter` to `leave`.
    type Pass: Drop;

    /// Between two moments this store's own calls have noted these entries, and no others. A store says here too what its
    /// calls keep, so that who knows the store finds it again after any code that is generic over stores.
    ghost notes: { List BookEntry → Self → Self → Type 0 };

    /// An `enter` of this store answered the pass, which has not left.
    ghost admits: { Self → Self.Pass → Type 0 };

    /// Whose pass it is, and how far it has seen.
    ghost view: { Self.Pass → PassView };

    /// The generation that the store is in. A store that others can bring into the next one between two calls has none.
    ghost stamp: { Self → Option ℕ };

    /// The last generation that its own calls have met it in, whoever brought it there.
    ghost met: { Self → ℕ };

    /// What its own calls have learned of its disk.
    ghost learned: { Self → DiskFact → Type 0 };

    /// Lets a child in, and keeps room for the entry of its leave.
    fn enter(&mut self, pid: u32, generation: u32) -> Result<Self::Pass, StoreNo>
        ensures notes { (entries : List BookEntry) × notes entries self.old self.new
            × EnterNotes (newcomer (stamp self.old) pid generation) result entries }
        ensures admits { IfOk result (λ pass. admits self.new pass) }
        ensures view { IfOk result (λ pass. view pass ≡ new_pass pid generation) }
        ensures stale { MetAnother (met self.new) generation result }
        ensures life { IsUntouched (Self.child self.old) (Self.child self.new) (Self.told self.old)
            (Self.told self.new) };

    /// Runs a script, and stages its commit where it has changes. All memory is taken before that.
    fn run(&mut self, pass: &mut Self::Pass, script: &Script) -> Result<Staged, StoreNo>
        requires { admits self.old pass.old }
        ensures notes { (entries : List BookEntry) × notes entries self.old self.new
            × RunNotes (user_of (stamp self.old) (view pass.old)) script.now result entries }
        ensures admits { admits self.new pass.new }
        ensures fresh { IfOk result (λ staged. ReachesNoLess (view pass.old) staged.front) }
        ensures view { IfOk result (λ staged. view pass.new ≡ with_front staged.front
            (view pass.old)) }
        ensures refused { OnErr result (view pass.new ≡ view pass.old) }
        ensures short { IfOk result (λ staged. All HasShortValues staged.reply) }
        ensures stale { MetLater (met self.new) (view pass.old).generation result }
        ensures life { IsUntouched (Self.child self.old) (Self.child self.new) (Self.told self.old)
            (Self.told self.new) };

    /// Whether the log is flushed up to a front that the pass has reached. Then the answers up to it may be sent, also
    /// where the log is broken.
    fn seen(&mut self, pass: &mut Self::Pass, front: u64) -> Result<Seen, StoreNo>
        requires admits { admits self.old pass.old }
        requires reached { HasReached (view pass.old) front }
        ensures notes { (entries : List BookEntry) × notes entries self.old self.new
            × SeenNotes (user_of (stamp self.old) (view pass.old)) front result entries }
        ensures admits { admits self.new pass.new }
        ensures view { view pass.new ≡ view pass.old }
        ensures stale { MetLater (met self.new) (view pass.old).generation result }
        ensures life { IsUntouched (Self.child self.old) (Self.child self.new) (Self.told self.old)
            (Self.told self.new) };

    /// Writes at most one batch of the staged commits, and answers up to where the log is flushed. With none staged no
    /// device call is made.
    fn flush(&mut self, pass: &mut Self::Pass) -> Result<u64, StoreNo>
        requires { admits self.old pass.old }
        ensures notes { (entries : List BookEntry) × notes entries self.old self.new
            × FlushNotes (user_of (stamp self.old) (view pass.old)) result entries }
        ensures admits { admits self.new pass.new }
        ensures view { view pass.new ≡ view pass.old }
        ensures stale { MetLater (met self.new) (view pass.old).generation result }
        ensures learned { LearnsFront (learned self.new) result }
        ensures life { IsUntouched (Self.child self.old) (Self.child self.new) (Self.told self.old)
            (Self.told self.new) };

    /// Reads the log, and answers how many commits stand. Where it was read in this generation already, it answers that
    /// number again.
    fn redo(&mut self, pass: &mut Self::Pass) -> Result<u64, StoreNo>
        requires { admits self.old pass.old }
        ensures notes { (entries : List BookEntry) × notes entries self.old self.new
            × RedoNotes (user_of (stamp self.old) (view pass.old)) result entries }
        ensures admits { admits self.new pass.new }
        ensures view { view pass.new ≡ view pass.old }
        ensures stale { MetLater (met self.new) (view pass.old).generation result }
        ensures learned { LearnsReason (learned self.new) result }
        ensures life { IsUntouched (Self.child self.old) (Self.child self.new) (Self.told self.old)
            (Self.told self.new) };

    /// Writes all rows as the base of the log's other file, where redo has ended in this generation. A clean one is the
    /// last: no changes are committed after it. Any other is made once so many bytes of batches stand after the base
    /// that the log is due for it.
    fn checkpoint(&mut self, pass: &mut Self::Pass, clean: bool) -> Result<Checkpointed, StoreNo>
        requires { admits self.old pass.old }
        ensures notes { (entries : List BookEntry) × notes entries self.old self.new
            × CheckpointNotes (user_of (stamp self.old) (view pass.old)) clean result entries }
        ensures admits { admits self.new pass.new }
        ensures view { view pass.new ≡ view pass.old }
        ensures stale { MetLater (met self.new) (view pass.old).generation result }
        ensures life { IsUntouched (Self.child self.old) (Self.child self.new) (Self.told self.old)
            (Self.told self.new) };

    /// One step of a checkpoint that isn't the last: it begins one where one is due, or goes on with the one that is under
    /// way. A store whose checkpoint is one call makes it all in one step.
    fn checkpoint_step(&mut self, pass: &mut Self::Pass) -> Result<Stepping, StoreNo>
        requires { admits self.old pass.old }
        ensures notes { (entries : List BookEntry) × notes entries self.old self.new
            × StepNotes (user_of (stamp self.old) (view pass.old)) result entries }
        ensures admits { admits self.new pass.new }
        ensures view { view pass.new ≡ view pass.old }
        ensures stale { MetLater (met self.new) (view pass.old).generation result }
        ensures life { IsUntouched (Self.child self.old) (Self.child self.new) (Self.told self.old)
            (Self.told self.new) }
    {
        Ok(Stepping::of(self.checkpoint(pass, false)?))
    }

    /// Gives up the checkpoint that is under way, if one is. It takes no memory.
    fn checkpoint_drop(&mut self, pass: &mut Self::Pass)
        requires { admits self.old pass.old }
        ensures notes { notes [] self.old self.new }
        ensures admits { admits self.new pass.new }
        ensures view { view pass.new ≡ view pass.old }
        ensures life { IsUntouched (Self.child self.old) (Self.child self.new) (Self.told self.old)
            (Self.told self.new) }
    {}

    /// Lets a child go, and notes that, unless the store has met a later generation. It takes no memory.
    fn leave(&mut self, pass: Self::Pass)
        requires { admits self.old pass }
        ensures notes { (entries : List BookEntry) × notes entries self.old self.new
            × LeaveNotes (user_of (stamp self.old) (view pass)) entries }
        ensures stale { notes (Detached (view pass).pid ∷ []) self.old self.new
            ⊎ IsPast (met self.new) (view pass).generation }
        ensures life { IsUntouched (Self.child self.old) (Self.child self.new) (Self.told self.old)
            (Self.told self.new) };

    /// Where no call is made, nothing is noted.
    ghost at_rest: { (store : Self) → notes [] store store };

    /// Nor in a call of the child's life, which leaves each pass as it is.
    ghost apart: { (before now : Self) → Self.rests before now → notes [] before now };

    ghost admits_still: { (before now : Self) (pass : Self.Pass) → Self.rests before now → admits before pass
        → admits now pass };

    ghost met_still: { (before now : Self) → Self.rests before now → met now ≡ met before };

    /// What is noted later stands after what was noted before.
    ghost in_turn: { (before between now : Self) (first second : List BookEntry)
        → notes first before between → notes second between now → notes (first ++ second) before now };

    /// No call brings the store into another generation.
    ghost stays: { (before now : Self) (entries : List BookEntry) → notes entries before now → stamp now ≡ stamp before };

    /// A generation that it has met is met for good: what is past stays past.
    ghost rises: { (before now : Self) (entries : List BookEntry) → notes entries before now → met before ≤ met now };

    /// Nor is what it has learned forgotten.
    ghost keeps: { (before now : Self) (entries : List BookEntry) → notes entries before now
        → (fact : DiskFact) → learned before fact → learned now fact };
}
