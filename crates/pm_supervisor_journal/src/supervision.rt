//! The calls of a server.

ghost use Rattle.std.specs.Prelude.{◌≤◌, length};

use crate::act::{Act, GenerationsSpent};
use crate::exit::ChildExit;
use crate::laws::laws;
use crate::memory::Memory;
use pm_admit::Cac;
use pm_exit::{Kind, Status};
use pm_modes::Mode;
use pm_outside::Chronicle;
use pm_state::{Limits, PmEvent};
use std::alloc::{AllocError, Global};

/// How many acts may come of one call.
const ACTS: usize = 4;

/// A connection that was accepted.
#[derive(Clone, Copy, Debug, PartialEq, Eq)]
pub struct Taken {
    /// The number of its child: one more than the last.
    pub pid: u32,
    /// Whether the child serves the connection, or why it refuses it.
    pub decision: Cac,
}

/// A supervisor at work: the state machine, what it remembers of its children, and the journal.
///
/// Each call takes room for all entries that can come of it before it does anything: where memory is short it is refused, and
/// nothing was done or noted. The acts that a call asks for are then due, and `next` gives them one by one.
#[derive(Drop)]
pub struct Supervision<J: Chronicle<PmEvent>> {
    pub(crate) memory: Memory,
    pub(crate) journal: J,
    ghost room: { length memory.due.items ≤ J.spare journal },
}

impl<J: Chronicle<PmEvent>> Supervision<J> {
    ghost use Rattle.std.specs.Prelude.{◌≡◌, ◌+◌, ◌≤◌, ◌<◌, ◌^◌, ◌↔◌, ℕ, [], ◌∷◌, false, true, Option, Some, Ok, IfOk, IfSome, IsTrue, OnOk, OnErr, IsSome};
    ghost use Rattle.pm_supervisor.specs.{pm_exit.declared.child.Kind.Kind, declared.Limits.Limits, Limits.IsWithinLimits, Steps.empty_trace};
    ghost use Rattle.pm_supervisor_journal.specs.{declared.act.Act.TheVariants.Start, Roll.kind_in, Standing.{IsAtRest, MayTake, MayAsk, accepting, all_noted, exit_entry, redo_entries, asking, decision_on, ends_redo, exiting, made, next_of, next_pid, killed, kill_entry, nothing_done, ticking, turning}, Supervision.{HasRoom, at_work, standing, told}, Stands.{GoesOn, GoesOnBy, HasPast, IsSettled, Stands}};
    ghost use Rattle.pm_outside.specs.Added.{Added};

    /// A server before its start, over a journal without entries.
    pub fn new(alloc: Global, limits: Limits, journal: J) -> Self
        requires within { IsWithinLimits limits }
        ensures standing { standing result ≡ nothing_done limits }
        ensures told { told result ≡ J.entries journal }
        ensures stands { IfSome (J.entries journal) (λ entries. entries ≡ [])
            → Stands limits (told result) (standing result) empty_trace }
    {
        laws();
        Supervision {
            memory: Memory::new(alloc, limits),
            journal,
        }
    }

    /// The journal.
    pub fn into_journal(self) -> J
        ensures { J.entries result ≡ told self }
    {
        let Supervision { memory: _, journal } = self;
        journal
    }

    /// What the child with this pid is for, if it is there. It takes time in proportion to the children that are there.
    pub fn kind_of(&self, pid: u32) -> Option<Kind>
        ensures { result ≡ kind_in pid (standing self.now).children }
    {
        self.memory.roll.kind_of(pid)
    }

    /// The moment of the last entry that has one, in milliseconds.
    pub fn moment(&self) -> u64
        ensures { result ≡ (standing self.now).moment }
    {
        self.memory.moment
    }

    /// The present generation: 1 at first.
    pub fn generation(&self) -> u32
        ensures { result ≡ (standing self.now).generation }
    {
        self.memory.generation
    }

    /// Whether the end was given. Then no call is made any more.
    pub fn has_ended(&self) -> bool
        ensures { result ≡ (standing self.now).ended }
    {
        self.memory.ended
    }

    /// Whether a smart shutdown has to be asked for before any other call, since the last pid, 2,147,480,000, was drawn.
    pub fn owes_smart(&self) -> bool
        ensures { result ≡ (standing self.now).owes_smart }
    {
        self.memory.owes_smart
    }

    /// Whether a connection may be accepted after a turn: the machine takes one, and the last pid wasn't drawn.
    pub fn may_accept(&self) -> bool
        ensures { IsTrue result ↔ MayTake (standing self.now) }
    {
        self.memory.may_take()
    }

    // Makes room for so many entries, and for the children that they tell of.
    fn reserve(&mut self, count: usize) -> Result<(), AllocError>
        ensures standing { standing self.new ≡ standing self.old }
        ensures told { told self.new ≡ told self.old }
        ensures journal { OnOk result (count ≤ J.spare self.new.journal) }
        ensures children { OnOk result (count ≤ self.new.memory.roll.room) }
    {
        self.journal.reserve(count)?;
        self.memory.reserve(count)?;
        Ok(())
    }

    /// It is this moment, in milliseconds, or that of the last entry where that is later.
    pub fn tick(&mut self, at: u64) -> Result<(), AllocError>
        requires stands { HasPast (at_work self.old) }
        requires rests { IsAtRest (standing self.old) }
        requires unowed { (standing self.old).owes_smart ≡ false }
        ensures standing { OnOk result (standing self.new ≡ made (ticking at (standing self.old))
            (standing self.old)) }
        ensures told { told self.new ≡ told self.old }
        ensures refused { OnErr result (standing self.new ≡ standing self.old) }
        ensures stands { OnOk result (GoesOnBy (ticking at (standing self.old)).call
            (at_work self.old) (at_work self.new)) }
    {
        laws();
        self.reserve(ACTS)?;
        let at = self.memory.later(at);
        self.memory.tick(at);
        Ok(())
    }

    /// What the machine does by itself. A connection may be accepted once its acts are done.
    pub fn turn(&mut self) -> Result<(), AllocError>
        requires stands { HasPast (at_work self.old) }
        requires rests { IsAtRest (standing self.old) }
        requires unowed { (standing self.old).owes_smart ≡ false }
        ensures standing { OnOk result (standing self.new ≡ made turning (standing self.old)) }
        ensures told { told self.new ≡ told self.old }
        ensures refused { OnErr result (standing self.new ≡ standing self.old) }
        ensures settled { OnOk result (IsSettled (standing self.new)) }
        ensures stands { OnOk result (GoesOnBy turning.call (at_work self.old) (at_work self.new)) }
    {
        laws();
        self.reserve(ACTS)?;
        self.memory.turn();
        Ok(())
    }

    /// A shutdown is asked for, at this moment or at that of the last entry where that is later. One that isn't stronger than
    /// what stands asks for no act.
    pub fn ask(&mut self, mode: Mode, at: u64) -> Result<(), AllocError>
        requires stands { HasPast (at_work self.old) }
        requires rests { IsAtRest (standing self.old) }
        requires may { MayAsk mode (standing self.old) }
        ensures standing { OnOk result (standing self.new ≡ made
            (asking mode at (standing self.old)) (standing self.old)) }
        ensures told { OnOk result (Added (asking mode at (standing self.old)).entries
            (told self.old) (told self.new)) }
        ensures refused { OnErr result ((standing self.new ≡ standing self.old)
            × (told self.new ≡ told self.old)) }
        ensures stands { OnOk result (GoesOnBy (asking mode at (standing self.old)).call
            (at_work self.old) (at_work self.new)) }
    {
        laws();
        self.reserve(1 + ACTS)?;
        let at = self.memory.later(at);
        let entry = PmEvent::Asked { mode, at };
        self.memory.ask(mode, at);
        self.memory.remember(entry);
        self.journal.note(entry);
        Ok(())
    }

    /// It is asked to kill a child that is there.
    pub fn kill(&mut self, pid: u32) -> Result<(), AllocError>
        requires stands { HasPast (at_work self.old) }
        requires rests { IsAtRest (standing self.old) }
        requires unowed { (standing self.old).owes_smart ≡ false }
        requires there { IsSome (kind_in pid (standing self.old).children) }
        ensures standing { OnOk result (standing self.new ≡ killed pid (standing self.old)) }
        ensures told { OnOk result (Added (kill_entry pid ∷ []) (told self.old) (told self.new)) }
        ensures refused { OnErr result ((standing self.new ≡ standing self.old)
            × (told self.new ≡ told self.old)) }
        ensures stands { OnOk result (GoesOn (at_work self.old) (at_work self.new)) }
    {
        laws();
        self.reserve(1)?;
        let entry = PmEvent::KillAsked { pid };
        self.memory.remember(entry);
        self.journal.note(entry);
        Ok(())
    }

    /// The decision on the next connection.
    pub fn decision(&self) -> Cac
        ensures { result ≡ decision_on (standing self.now) }
    {
        self.memory.decision()
    }

    /// Makes room for the next connection, so that it can be taken whatever memory is left.
    pub fn make_room(&mut self) -> Result<(), AllocError>
        ensures room { OnOk result (HasRoom 1 self.new) }
        ensures standing { standing self.new ≡ standing self.old }
        ensures told { told self.new ≡ told self.old }
    {
        self.reserve(1)
    }

    /// The next connection is accepted, right after a turn, under the next pid, where room was made for it.
    pub fn take(&mut self) -> Taken
        requires stands { HasPast (at_work self.old) }
        requires rests { IsAtRest (standing self.old) }
        requires settled { IsSettled (standing self.old) }
        requires may { MayTake (standing self.old) }
        requires room { HasRoom 1 self.old }
        ensures pid { result.pid ≡ next_pid (standing self.old) }
        ensures decision { result.decision ≡ decision_on (standing self.old) }
        ensures standing { standing self.new ≡ made (accepting (standing self.old))
            (standing self.old) }
        ensures told { Added (accepting (standing self.old)).entries (told self.old)
            (told self.new) }
        ensures stands { GoesOnBy (accepting (standing self.old)).call (at_work self.old)
            (at_work self.new) }
    {
        laws();
        let pid = self.memory.last_pid + 1;
        let decision = self.memory.accept();
        let entry = PmEvent::Accepted { pid, decision };
        self.memory.remember(entry);
        self.journal.note(entry);
        Taken { pid, decision }
    }

    /// The next connection is accepted as by `take`, and room is made for it before.
    pub fn accept(&mut self) -> Result<Taken, AllocError>
        requires stands { HasPast (at_work self.old) }
        requires rests { IsAtRest (standing self.old) }
        requires settled { IsSettled (standing self.old) }
        requires may { MayTake (standing self.old) }
        ensures pid { IfOk result (λ taken. taken.pid ≡ next_pid (standing self.old)) }
        ensures decision { IfOk result (λ taken. taken.decision ≡ decision_on (standing self.old)) }
        ensures standing { OnOk result (standing self.new ≡ made (accepting (standing self.old))
            (standing self.old)) }
        ensures told { OnOk result (Added (accepting (standing self.old)).entries (told self.old)
            (told self.new)) }
        ensures refused { OnErr result ((standing self.new ≡ standing self.old)
            × (told self.new ≡ told self.old)) }
        ensures stands { OnOk result (GoesOnBy (accepting (standing self.old)).call
            (at_work self.old) (at_work self.new)) }
    {
        self.make_room()?;
        Ok(self.take())
    }

    /// A child that is there has ended, at this moment or at that of the last entry where that is later. Of a startup child that
    /// ended with code 0 its number of kept commits is noted after its end.
    pub fn exited(&mut self, exit: ChildExit, at: u64) -> Result<(), AllocError>
        requires stands { HasPast (at_work self.old) }
        requires rests { IsAtRest (standing self.old) }
        requires unowed { (standing self.old).owes_smart ≡ false }
        requires there { kind_in exit.pid (standing self.old).children ≡ Some exit.kind }
        requires kept { ends_redo exit ≡ true → IsSome exit.kept }
        ensures standing { OnOk result (standing self.new ≡ made
            (exiting exit at (standing self.old)) (standing self.old)) }
        ensures told { OnOk result (Added (exiting exit at (standing self.old)).entries
            (told self.old) (told self.new)) }
        ensures refused { OnErr result ((standing self.new ≡ standing self.old)
            × (told self.new ≡ told self.old)) }
        ensures stands { OnOk result (GoesOnBy (exiting exit at (standing self.old)).call
            (at_work self.old) (at_work self.new)) }
    {
        laws();
        self.reserve(2 + ACTS)?;
        let at = self.memory.later(at);
        self.memory.exit(exit, at);
        self.note_exit(exit, at);
        Ok(())
    }

    // Notes the end of a child, and the end of redo after it.
    fn note_exit(&mut self, exit: ChildExit, at: u64)
        requires room { length (standing self.old).due + 2 ≤ J.spare self.old.journal }
        requires kept { ends_redo exit ≡ true → IsSome exit.kept }
        ensures standing { standing self.new ≡ all_noted
            (exit_entry exit at ∷ redo_entries exit (standing self.old)) (standing self.old) }
        ensures told { Added (exit_entry exit at ∷ redo_entries exit (standing self.old))
            (told self.old) (told self.new) }
    {
        let generation = self.memory.generation;
        let entry = PmEvent::Exited {
            pid: exit.pid,
            kind: exit.kind,
            status: exit.status,
            was_active: exit.was_active,
            at,
        };
        self.memory.remember(entry);
        self.journal.note(entry);
        if let (Kind::Startup, Status::Code(0), Some(kept)) = (exit.kind, exit.status, exit.kept) {
            let entry = PmEvent::RedoEnded { generation, kept };
            self.memory.remember(entry);
            self.journal.note(entry);
        }
    }

    /// The next act that is due, if there is one: its entry is noted, and the caller does it at once. A start that was noted is
    /// reported to the machine. Refused is only a further generation after the last one; then nothing was noted.
    pub fn next(&mut self) -> Result<Option<Act>, GenerationsSpent>
        requires stands { HasPast (at_work self.old) }
        ensures act { result ≡ (next_of (standing self.old)).answer }
        ensures standing { standing self.new ≡ (next_of (standing self.old)).after }
        ensures told { Added (next_of (standing self.old)).entries (told self.old) (told self.new) }
        ensures pids { (pid : ℕ) (kind : Kind) → result ≡ Ok (Some (Start pid kind))
            → pid < 2 ^ 31 }
        ensures stands { GoesOn (at_work self.old) (at_work self.new) }
        ensures settled { IsSettled (standing self.old) → IsSettled (standing self.new) }
    {
        laws();
        let Some(action) = self.memory.first_due() else {
            return Ok(None);
        };
        if self.memory.is_spent(action) {
            return Err(GenerationsSpent);
        }
        let act = self.memory.act_for(action);
        let entry = self.memory.entry_for(action);
        self.memory.report(action);
        self.memory.remember(entry);
        self.journal.note(entry);
        Ok(Some(act))
    }
}
