//! What a supervisor at work remembers beside its journal.

ghost use Rattle.std.specs.Prelude.{◌≡◌, ◌≤◌, length};
ghost use Rattle.pm_state.specs.pm_supervisor.Steps.{kind_for};

use crate::act::Act;
use crate::exit::ChildExit;
use crate::roll::{Enrolled, Roll};
use arrayvec::ArrayVec;
use pm_admit::{Cac, decide};
use pm_exit::Kind;
use pm_modes::Mode;
use pm_state::{Action, Actions, Limits, PmCore, PmEvent, tells_of_each_start};
use std::alloc::{AllocError, Global};

/// The number of the last generation.
const LAST_GENERATION: u32 = 4_294_967_295;

/// The last pid. A smart shutdown is asked for once it was drawn.
const LAST_PID: u32 = 2_147_480_000;

// The machine, the acts that it asked for, and what the entries so far leave.
#[derive(Drop)]
pub(crate) struct Memory {
    pub(crate) core: PmCore,
    // The acts that are due, in their order.
    pub(crate) due: ArrayVec<Action, 8>,
    // The moment of the call that asked for them.
    pub(crate) called_at: u64,
    pub(crate) roll: Roll,
    pub(crate) last_pid: u32,
    pub(crate) generation: u32,
    // The moment of the last entry that has one.
    pub(crate) moment: u64,
    // The last pid was drawn, and no shutdown was asked for since.
    pub(crate) owes_smart: bool,
    // The end was given and noted.
    pub(crate) ended: bool,
    ghost room: { length due.items ≤ roll.room },
}

impl Memory {
    ghost use Rattle.std.specs.Prelude.{◌≡◌, ℕ, ◌+◌, ◌≤◌, ◌<◌, [], ◌∷◌, length, max, false, OnOk, IfSome, IsTrue, ◌↔◌};
    ghost use Rattle.pm_supervisor.specs.Limits.{IsWithinLimits};
    ghost use Rattle.pm_state.specs.{declared.action.Action.Action, Machine.{MayAccept, IsReady, IsCounted}, Shows.{Accepts, Asks, Ticks, TakesTurn}};
    ghost use Rattle.pm_supervisor_journal.specs.Standing.{standing_of, nothing_done, called, decision_on, exit_call, next_pid, owing, MayTake};

    pub(crate) fn new(alloc: Global, limits: Limits) -> Self
        requires within { IsWithinLimits limits }
        ensures { standing_of result ≡ nothing_done limits }
    {
        Memory {
            core: PmCore::new(limits),
            due: ArrayVec::new(),
            called_at: 0,
            roll: Roll::new(alloc),
            last_pid: 0,
            generation: 1,
            moment: 0,
            owes_smart: false,
            ended: false,
        }
    }

    // Makes room for so many more children.
    pub(crate) fn reserve(&mut self, count: usize) -> Result<(), AllocError>
        ensures standing { standing_of self.new ≡ standing_of self.old }
        ensures room { OnOk result (count ≤ self.new.roll.room) }
    {
        self.roll.reserve(count)
    }

    // Of this moment and the last one the later.
    pub(crate) fn later(&self, at: u64) -> u64
        ensures { result ≡ max at self.now.moment }
    {
        at.max(self.moment)
    }

    // The acts of a call that was made at this moment are due.
    fn owe(&mut self, actions: &Actions, now: u64)
        requires room { length actions.now ≤ self.old.roll.room }
        ensures standing { standing_of self.new ≡ owing actions.now now (standing_of self.old) }
        ensures room { self.new.roll.room ≡ self.old.roll.room }
    {
        let mut due = ArrayVec::new();
        due.try_extend_from_slice(actions.list()).unwrap();
        self.due = due;
        self.called_at = now;
    }

    // It is this moment.
    pub(crate) fn tick(&mut self, at: u64)
        requires ready { IsReady self.old.core }
        requires room { 4 ≤ self.old.roll.room }
        ensures { standing_of self.new ≡ called (Ticks at) (standing_of self.old) }
    {
        tells_of_each_start();
        let actions = self.core.tick(at);
        self.owe(&actions, at);
    }

    // What the machine does by itself. None of its acts has a moment.
    pub(crate) fn turn(&mut self)
        requires ready { IsReady self.old.core }
        requires room { 4 ≤ self.old.roll.room }
        ensures { standing_of self.new ≡ called TakesTurn (standing_of self.old) }
    {
        tells_of_each_start();
        let actions = self.core.turn();
        self.owe(&actions, 0);
    }

    // A shutdown is asked for.
    pub(crate) fn ask(&mut self, mode: Mode, at: u64)
        requires ready { IsReady self.old.core }
        requires room { 4 ≤ self.old.roll.room }
        ensures { standing_of self.new ≡ called (Asks mode at) (standing_of self.old) }
    {
        tells_of_each_start();
        let actions = self.core.asked(mode, at);
        self.owe(&actions, at);
    }

    // A child has ended.
    pub(crate) fn exit(&mut self, exit: ChildExit, at: u64)
        requires ready { IsReady self.old.core }
        requires counted { IsCounted self.old.core exit.kind }
        requires room { 4 ≤ self.old.roll.room }
        ensures { standing_of self.new ≡ called (exit_call exit at) (standing_of self.old) }
    {
        tells_of_each_start();
        let actions = self
            .core
            .exited(exit.pid, exit.kind, exit.status, exit.was_active, at);
        self.owe(&actions, at);
    }

    // The next connection is accepted, by the decision that is answered.
    pub(crate) fn accept(&mut self) -> Cac
        requires ready { IsReady self.old.core }
        requires may { MayAccept self.old.core }
        requires none_due { self.old.due.items ≡ [] }
        ensures decision { result ≡ decision_on (standing_of self.old) }
        ensures standing { standing_of self.new ≡ called (Accepts (next_pid (standing_of self.old)))
            (standing_of self.old) }
        ensures room { self.new.roll.room ≡ self.old.roll.room }
    {
        self.core.accepted()
    }

    // The decision on the next connection.
    pub(crate) fn decision(&self) -> Cac
        ensures { result ≡ decision_on (standing_of self.now) }
    {
        decide(&self.core.view())
    }

    // Whether a connection may be accepted: none once the last pid was drawn.
    pub(crate) fn may_take(&self) -> bool
        ensures { IsTrue result ↔ MayTake (standing_of self.now) }
    {
        self.last_pid < LAST_PID && self.core.may_accept()
    }
}

impl Memory {
    ghost use Rattle.std.specs.Prelude.{◌≡◌, ℕ, ◌+◌, ◌≤◌, ◌<◌, ◌||◌, List, [], ◌∷◌, Option, Some, None, false, length};
    ghost use Rattle.pm_state.specs.{declared.action.Action.TheVariants.Reset, Journal.all_reported, Starts.has_end};
    ghost use Rattle.pm_supervisor_journal.specs.{Standing.{standing_of, noted, enrolled, act_for, entry_for, is_spent, first_due, last_generation, reported}, Doing.{HasNumbers, MayReport, room_for}};

    // What an entry changes of what is remembered.
    pub(crate) fn remember(&mut self, entry: PmEvent)
        requires room { length self.old.due.items + room_for entry ≤ self.old.roll.room }
        ensures standing { standing_of self.new ≡ noted entry (standing_of self.old) }
        ensures room { self.new.roll.room + room_for entry ≡ self.old.roll.room }
    {
        match entry {
            PmEvent::Started { pid, kind } => self.enroll(pid, kind),
            PmEvent::Accepted { pid, decision } => self.enroll(pid, kind_for(decision)),
            PmEvent::Exited { pid, at, .. } => {
                self.roll.remove(pid);
                self.moment = at;
            }
            PmEvent::Asked { at, .. } => {
                self.moment = at;
                self.owes_smart = false;
            }
            PmEvent::KillSent { at } => self.moment = at,
            PmEvent::Reset { generation } => self.generation = generation,
            _ => {}
        }
    }

    // A child was started under this pid.
    fn enroll(&mut self, pid: u32, kind: Kind)
        requires room { length self.old.due.items + 1 ≤ self.old.roll.room }
        ensures standing { standing_of self.new ≡ enrolled pid kind (standing_of self.old) }
        ensures room { self.new.roll.room + 1 ≡ self.old.roll.room }
    {
        self.roll.add(Enrolled { pid, kind });
        self.last_pid = pid;
        if pid == LAST_PID {
            self.owes_smart = true;
        }
    }

    // The first act that is due.
    pub(crate) fn first_due(&self) -> Option<Action>
        ensures { result ≡ first_due self.now.due.items }
    {
        self.due.first().copied()
    }

    // The act begins the next generation, and there is none.
    pub(crate) fn is_spent(&self, action: Action) -> bool
        ensures spent { result ≡ is_spent action (standing_of self.now) }
        ensures further { result ≡ false → action ≡ Reset → self.now.generation < last_generation }
    {
        matches!(action, Action::Reset) && self.generation == LAST_GENERATION
    }

    // An act, with the numbers that it needs.
    pub(crate) fn act_for(&self, action: Action) -> Act
        requires numbers { HasNumbers action (standing_of self.now) }
        ensures { result ≡ act_for action (standing_of self.now) }
    {
        match action {
            Action::Start(kind) => Act::Start {
                pid: self.last_pid + 1,
                kind,
            },
            Action::Quit(reason) => Act::Quit(reason),
            Action::Terminate => Act::Terminate,
            Action::KillAll => Act::KillAll,
            Action::AskCheckpoint => Act::AskCheckpoint,
            Action::Ready => Act::Ready {
                generation: self.generation,
            },
            Action::Reset => Act::Reset {
                generation: self.generation + 1,
            },
            Action::Say(line) => Act::Say(line),
            Action::End(ending) => Act::End(ending),
        }
    }

    // The entry of an act.
    pub(crate) fn entry_for(&self, action: Action) -> PmEvent
        requires numbers { HasNumbers action (standing_of self.now) }
        ensures { result ≡ entry_for action (standing_of self.now) }
    {
        match action {
            Action::Start(kind) => PmEvent::Started {
                pid: self.last_pid + 1,
                kind,
            },
            Action::Quit(reason) => PmEvent::QuitSent(reason),
            Action::Terminate => PmEvent::TerminateSent,
            Action::KillAll => PmEvent::KillSent { at: self.called_at },
            Action::AskCheckpoint => PmEvent::CheckpointAsked,
            Action::Ready => PmEvent::Ready {
                generation: self.generation,
            },
            Action::Reset => PmEvent::Reset {
                generation: self.generation + 1,
            },
            Action::Say(line) => PmEvent::Said(line),
            Action::End(ending) => PmEvent::Ended(ending),
        }
    }

    // The first act that is due is done: the machine is told of a start, and of an end no call is made any more.
    pub(crate) fn report(&mut self, action: Action)
        requires first { first_due self.old.due.items ≡ Some action }
        requires may { MayReport action self.old.core }
        ensures standing { standing_of self.new ≡ reported action (standing_of self.old) }
        ensures room { self.new.roll.room ≡ self.old.roll.room }
    {
        self.due.remove(0);
        match action {
            Action::Start(kind) => self.core.started(kind),
            Action::End(_) => self.ended = true,
            _ => {}
        }
    }
}

// The child that is started for a connection.
fn kind_for(decision: Cac) -> Kind
    ensures { result ≡ kind_for decision }
{
    match decision {
        Cac::Ok => Kind::Backend,
        _ => Kind::DeadEnd,
    }
}
