//! What the seats of a board know. No value of a view is made: views exist in proofs alone.
ghost use Rattle.std.specs.Prelude.{Bool};
ghost use Rattle.pm_exit.specs.declared.child.{Kind.Kind, Status.Status};

use pm_child_life::{Attempt, Reason, Signals};
use pm_exit::{Kind, Status};
use std::collections::LinkedList;

/// How many sessions may be attached at once, and how many of these places are reserved: kept from ordinary ones.
#[derive(Clone, Copy, Debug, PartialEq, Eq)]
pub struct SessionLimit {
    pub most: u32,
    pub reserved: u32,
}

/// A mail, by its content as plain data, and the children that it is for.
pub trait Letter {
    type Told;

    ghost told: { Self → Self.Told };

    /// This mail may be given to a child of this kind.
    ghost fits: { Self → Kind → Type 0 } = { λ _ _. Unit {0} };

    /// This mail may come back from a child of this kind that exits with this status, and active or not.
    ghost comes_back: { Self → Kind → Status → Bool → Type 0 } = { λ _ _ _ _. Unit {0} };
}

/// What the supervisor may send to a child.
#[derive(Clone, Copy, Debug, PartialEq, Eq)]
pub enum Signal {
    /// End at once, and say why.
    Quit(Reason),
    /// End when nothing is in progress.
    Terminate,
    /// End at once, and say nothing.
    Kill,
    /// Write a checkpoint.
    Checkpoint,
}

/// A child as it is assigned to a slot.
pub struct Offer<D> {
    pub pid: u32,
    pub kind: Kind,
    /// The generation that it was assigned in.
    pub generation: u32,
    /// What the mail that was given with it told.
    pub given: D,
}

/// A child that has exited.
pub struct PastChild<D> {
    pub offer: Offer<D>,
    pub status: Status,
    /// It exited attached, in its own generation.
    pub was_active: bool,
    /// What the mail that came back told.
    pub back: D,
}

/// What a child met at the gate and took from its latch.
pub struct Heard {
    /// How often it asked for its signals.
    pub asked: u64,
    /// Each answer that it was given.
    pub given: LinkedList<Signals>,
    /// It has heeded a cancel that no answer has told yet.
    pub heeded: bool,
    /// A heed has found a cancel for it.
    pub found: bool,
    /// What its last step at the gate met.
    pub met: Option<Attempt>,
}

/// A cancel that a child sent to another.
pub struct Cancel {
    /// The slot on whose cancel word it was made.
    pub slot: u32,
    pub pid: u32,
    pub seed: [u8; 32],
    pub key: u32,
}

/// What a look at the latch of a slot met.
pub struct LatchLook {
    pub slot: u32,
    pub word: u64,
}

/// A step that the supervisor made.
pub enum RosterStep {
    Assign {
        slot: u32,
        pid: u32,
        kind: Kind,
        generation: u32,
    },
    Release {
        pid: u32,
        kind: Kind,
        generation: u32,
    },
    Quit {
        reason: Reason,
        generation: u32,
    },
    Ready {
        generation: u32,
    },
    Reset {
        generation: u32,
    },
    Send {
        slot: u32,
        pid: u32,
        kind: Kind,
        signal: Signal,
        generation: u32,
    },
}

/// A step of a worker that changes what the board shows.
pub enum PostStep {
    /// So many places at the gate were kept from it.
    Attach { pid: u32, reserve: u32 },
    Detach { pid: u32 },
    Exit { pid: u32, kind: Kind },
}

/// What the supervisor sees of a slot.
pub enum Sight<D> {
    Unused,
    /// It is about to be assigned, and its latch is armed for this pid.
    Opened(u32),
    Assigned(Offer<D>),
    /// A look found its child exited: its status, and whether it was active.
    Exited(Offer<D>, Status, bool),
    /// It is about to be unused again.
    Collected(Offer<D>, Status, bool),
    /// Its post was taken in, with what that knew.
    Gathered(LinkedList<PastChild<D>>, PostNotes),
}

/// A slot as the supervisor knows it.
pub struct SlotView<D> {
    /// Its children that were released, the first one first.
    pub past: LinkedList<PastChild<D>>,
    pub sight: Sight<D>,
    /// The pid of the last connection, when a look last found the slot's child running.
    pub found_running: u32,
}

/// What the supervisor notes of its own steps.
pub struct RosterNotes {
    /// The greatest pid so far, or 0.
    pub last_pid: u32,
    /// The pid of the last child that was assigned for a connection, or 0.
    pub last_connection: u32,
    pub steps: LinkedList<RosterStep>,
    /// The words that its looks met.
    pub met: LinkedList<u64>,
}

/// What the supervisor knows.
pub struct RosterView<D> {
    pub slots: LinkedList<SlotView<D>>,
    /// How many posts it has made.
    pub dealt: u64,
    pub notes: RosterNotes,
    pub generation: u32,
    pub is_open: bool,
    pub noticed: Option<Reason>,
    pub session_limit: SessionLimit,
}

/// What a worker does.
pub enum Work<D> {
    Idle,
    /// It has loaded this word, which offers a child.
    Sees(u64),
    /// It runs a child whose slot isn't marked as active.
    Inactive(Offer<D>),
    Active(Offer<D>),
    /// The gate of this generation refused the child.
    Refused(Offer<D>, u32),
    /// The child is attached in this generation.
    Attached(Offer<D>, u32),
}

/// What a worker notes of its own steps.
pub struct PostNotes {
    pub session_limit: SessionLimit,
    /// The words that its loads, its tries at the gate, and its takes and heeds met.
    pub met: LinkedList<u64>,
    /// Its looks at latches.
    pub looked: LinkedList<LatchLook>,
    pub steps: LinkedList<PostStep>,
    /// Of the child that it runs.
    pub now: Heard,
    /// Of each child that has exited.
    pub heard: LinkedList<Heard>,
    pub cancels: LinkedList<Cancel>,
}

/// What a worker knows.
pub struct PostView<D> {
    /// Its children that have exited, the first one first.
    pub past: LinkedList<PastChild<D>>,
    pub work: Work<D>,
    pub notes: PostNotes,
}

/// What a seat knows.
pub enum View<D> {
    Postmaster(RosterView<D>),
    /// The worker of this slot.
    Worker(u64, PostView<D>),
    /// The seat was taken in by another.
    Spent,
}
