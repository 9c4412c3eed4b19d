//! The board of the tests, and a child's way over it.
ghost use Rattle.std.specs.Prelude.{◌≡◌, ◌≤◌, IfOk, IfSome, IsTrue};
ghost use Rattle.pm_board.specs.{Gate.gate_of, Places.{MayAssign, IsAssigned}, Models.MayAttach, pm_board_words.declared.views.Work.TheVariants.Idle, Posts.AllIdle};
ghost use Rattle.pm_board_tests.specs.GateChildren.{HasBegun, HasReaped, IsUntouched, RunsKind, shut_gate};

use pm_board::{Board, Letter, Look, Post, Posts, Released, Roster, SessionLimit, Started};
use pm_child_life::GateNo;
use pm_exit::Kind;
use pm_gate::{attach, detach};
use std::alloc::{AllocError, Global};

/// Slots 3 to 10 serve sessions.
pub const SLOTS: u32 = 15;
/// The first that serves sessions.
pub const FIRST: u32 = 3;

/// How a child comes to its end.
#[derive(Clone, Copy, PartialEq, Eq)]
pub enum Ending {
    /// Once it has met a notice.
    AtNotice,
    /// Once it is attached: it dies there.
    Attached,
    /// Once it has been attached so often.
    After(u32),
}

/// What a child is told, and at its end what it tells.
#[derive(Drop)]
pub struct Note {
    pub generation: u32,
    pub ending: Ending,
    /// How often it was attached.
    pub attaches: u32,
    /// How many answers were none that it may get.
    pub faults: u32,
}

impl Letter for Note {
    type Told = u32;

    ghost told = { λ n. n.generation };
}

impl Note {
    /// What the child met is a fault where it isn't right.
    pub fn judge(&mut self, is_right: bool)
        ensures { self.new.generation ≡ self.old.generation }
    {
        if !is_right {
            self.faults = self.faults.saturating_add(1);
        }
    }

    /// Whether it has been attached often enough, or has met a fault: then nothing may end it.
    pub fn is_done(&self) -> bool {
        match self.ending {
            _ if self.faults > 0 => true,
            Ending::After(attaches) => self.attaches >= attaches,
            Ending::AtNotice | Ending::Attached => false,
        }
    }
}

/// What a child of this generation is told.
pub fn task(generation: u32, ending: Ending) -> Note
    ensures { result.generation ≡ generation }
{
    Note {
        generation,
        ending,
        attaches: 0,
        faults: 0,
    }
}

/// A child to come.
#[derive(Clone, Copy)]
pub struct Newcomer {
    pub slot: u32,
    pub pid: u32,
    pub kind: Kind,
}

/// So many sessions may be attached, and no place is reserved.
pub fn up_to(most: u32) -> SessionLimit
    ensures { result.most ≡ most }
{
    SessionLimit { most, reserved: 0 }
}

/// A new board.
pub fn new_board(
    alloc: Global,
    session_limit: SessionLimit,
) -> Result<(Roster<Note>, Posts<Note>), AllocError>
    requires { session_limit.most ≤ 200 }
    ensures roster { IfOk result (λ made. IsUntouched made.0.knows
        × (gate_of made.0.knows ≡ shut_gate 1)) }
    ensures posts { IfOk result (λ made. AllIdle made.1.left.items) }
{
    Board::new::<Note>(alloc, SLOTS, session_limit)
}

/// The post after so many that are left out.
pub fn take_post(posts: &mut Posts<Note>, skipped: u32) -> Option<Post<Note>>
    requires { AllIdle posts.old.left.items }
    ensures left { AllIdle posts.new.left.items }
    ensures idle { IfSome result (λ post. post.knows.work ≡ Idle) }
{
    for _ in 0..skipped {
        posts.take();
    }
    posts.take()
}

/// A child is assigned.
pub fn offer(roster: &mut Roster<Note>, child: Newcomer, note: Note)
    requires { MayAssign roster.old.knows child.slot child.pid child.kind }
    ensures { HasBegun child.slot child.pid roster.old.knows roster.new.knows }
{
    roster.assign(child.slot, child.pid, child.kind, note);
}

/// A child is assigned, and starts on the post. Whether it did.
pub fn begin(roster: &mut Roster<Note>, post: &mut Post<Note>, child: Newcomer, note: Note) -> bool
    requires may { MayAssign roster.old.knows child.slot child.pid child.kind }
    requires post { post.old.knows.work ≡ Idle }
    ensures roster { HasBegun child.slot child.pid roster.old.knows roster.new.knows }
    ensures runs { IsTrue result → RunsKind child.kind post.new.knows.work }
{
    offer(roster, child, note);
    match post.start() {
        Started::Idle => false,
        Started::Job { pid, kind, .. } => pid == child.pid && kind == child.kind,
    }
}

/// A child goes to the gate, and out again where it was let in.
pub fn try_once(post: &mut Post<Note>) -> Result<u32, GateNo>
    requires { MayAttach post.old.knows.work }
    ensures { post.new.knows.work ≡ post.old.knows.work }
{
    let attached = attach(post, true)?;
    let generation = attached.generation;
    detach(post, attached);
    Ok(generation)
}

/// The child that has exited on this slot. None where it runs.
pub fn reap(roster: &mut Roster<Note>, slot: u32) -> Option<Released<Note>>
    requires { IsAssigned roster.old.knows slot }
    ensures { IfSome result (λ _. HasReaped slot roster.old.knows roster.new.knows) }
{
    match roster.look(slot) {
        Look::Running => None,
        Look::Exited { .. } => Some(roster.release(slot)),
    }
}
