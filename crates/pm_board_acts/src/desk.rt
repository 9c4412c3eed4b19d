//! A supervisor at work with its board: the calls of a turn that tell of children.
ghost use Rattle.pm_board_acts.specs.{Acts.{slot_of, ShowsNow, MayPerform, Performs}, Calls.exit_of, Sitting.{AreReaped, KeepsPast}};
ghost use Rattle.std.specs.Prelude.{◌≡◌, ◌+◌, ◌<◌, ℕ, List, Option, false, None, OnErr, OnOk, Some, is_some, length, option_map};

use crate::audience::Audience;
use crate::laws::laws;
use crate::mail::Report;
use crate::meant::child_kind;
use crate::seats::{reap, seat, seated};
use crate::telling::{quit_all, tell};
use pm_board::{Letter, Released, Roster, Signal};
use pm_exit::{Kind, Status};
use pm_outside::Chronicle;
use pm_state::PmEvent;
use pm_supervisor_journal::{Act, ChildExit, Enrolled, GenerationsSpent, Supervision, Taken};

/// What a look at a slot came to.
#[derive(Drop)]
pub enum Looked<M> {
    /// Nobody sits there, or the child was found running.
    Nothing,
    /// The child has ended, which was noted.
    Ended(Released<M>),
    /// The child has ended, and there was no memory to note it.
    ShortOfMemory(Released<M>),
}

/// A supervisor at work, and its roster.
#[derive(Drop)]
pub struct Desk<J: Chronicle<PmEvent>, M: Letter + Drop> {
    pub(crate) supervision: Supervision<J>,
    pub(crate) roster: Roster<M>,
}

impl<J: Chronicle<PmEvent>, M: Report + Drop> Desk<J, M> {
    ghost use Rattle.pm_board.specs.{pm_supervisor.Steps.kind_for, Models.HasAssigned, Places.AllReaped};
    ghost use Rattle.pm_supervisor_journal.specs.{Standing.{IsAtRest, MayTake, accepting, decision_on, made, next_pid}, Stands.IsSettled, Supervision.{HasRoom, at_work, standing, told}};
    ghost use Rattle.pm_board_acts.specs.{Board.{seat_at, seats_of}, Seating.Move, Standing.{Goes, IsRunning, SeatServes, view}, Calls.{accepts, HasLookedAt}};

    /// Takes the next connection, right after a turn, for a child in a slot that is free and serves it.
    pub fn admit(&mut self, slot: u32, mail: M) -> Taken
        requires fits { M.fits mail (kind_for (decision_on (standing self.old.supervision))) }
        requires running { IsRunning (view (at_work self.old.supervision) self.old.roster.knows) }
        requires rests { IsAtRest (standing self.old.supervision) }
        requires settled { IsSettled (standing self.old.supervision) }
        requires may { MayTake (standing self.old.supervision) }
        requires room { HasRoom 1 self.old.supervision }
        requires slot { slot < length (seats_of self.old.roster.knows) }
        requires free { seat_at slot (seats_of self.old.roster.knows) ≡ None }
        requires serves { SeatServes (length (seats_of self.old.roster.knows)) slot (kind_for (decision_on
            (standing self.old.supervision))) }
        requires reaped { AllReaped self.old.roster.knows }
        ensures table { self.new.roster.table ≡ self.old.roster.table }
        ensures tells { is_some (told self.new.supervision) ≡ is_some (told self.old.supervision) }
        ensures pid { result.pid ≡ next_pid (standing self.old.supervision) }
        ensures decision { result.decision ≡ decision_on (standing self.old.supervision) }
        ensures standing { standing self.new.supervision ≡ made
            (accepting (standing self.old.supervision)) (standing self.old.supervision) }
        ensures assigned { HasAssigned slot (next_pid (standing self.old.supervision))
            (kind_for (decision_on (standing self.old.supervision))) (M.told mail)
            self.old.roster.knows self.new.roster.knows }
        ensures past { KeepsPast self.old.roster.knows self.new.roster.knows }
        ensures goes { Goes (accepts slot (standing self.old.supervision))
            (view (at_work self.old.supervision) self.old.roster.knows)
            (view (at_work self.new.supervision) self.new.roster.knows) }
    {
        laws();
        let taken = self.supervision.take();
        let child = Enrolled {
            pid: taken.pid,
            kind: child_kind(taken.decision),
        };
        seat(&mut self.roster, slot, child, mail);
        taken
    }

    /// Looks at a slot, and notes the end of its child where it has ended. The child is handed on, with the mail that came back.
    pub fn look_at(&mut self, slot: u32, now: u64) -> Looked<M>
        requires running { IsRunning (view (at_work self.old.supervision) self.old.roster.knows) }
        requires rests { IsAtRest (standing self.old.supervision) }
        requires unowed { (standing self.old.supervision).owes_smart ≡ false }
        requires slot { slot < length (seats_of self.old.roster.knows) }
        ensures table { self.new.roster.table ≡ self.old.roster.table }
        ensures tells { is_some (told self.new.supervision) ≡ is_some (told self.old.supervision) }
        ensures looks { HasLookedAt M.Letter M.kept slot now result
            (view (at_work self.old.supervision) self.old.roster.knows)
            (view (at_work self.new.supervision) self.new.roster.knows) }
        ensures reaped { AreReaped slot self.old.roster.knows
            → AreReaped (slot + 1) self.new.roster.knows }
    {
        laws();
        let Some(child) = seated(&self.roster, slot) else {
            return Looked::Nothing;
        };
        match reap(&mut self.roster, slot, child) {
            None => Looked::Nothing,
            Some(released) => match self.supervision.exited(exit_of(&released), now) {
                Ok(()) => Looked::Ended(released),
                Err(_) => Looked::ShortOfMemory(released),
            },
        }
    }
}

impl<J: Chronicle<PmEvent>, M: Report + Drop> Desk<J, M> {
    ghost use Rattle.std.specs.Prelude.{Bool, Err, Ok, true};
    ghost use Rattle.pm_board.specs.pm_exit.declared.child.Kind.{Kind};
    ghost use Rattle.pm_supervisor_journal.specs.{Standing.next_of, Stands.IsSettled, Supervision.{at_work, standing, told}, declared.act.{Act.Act, GenerationsSpent.GenerationsSpent}};
    ghost use Rattle.pm_board_acts.specs.{Acts.{IsDone, MayPerform, slot_of}, Board.seats_of, Calls.DoesNext, Seating.Move, Standing.{Goes, IsRunning, view}};

    /// Does the next act that is due, if there is one: its entry is noted, and then it is done at the board.
    pub fn do_next(&mut self) -> Result<Option<Act>, GenerationsSpent>
        requires running { IsRunning (view (at_work self.old.supervision) self.old.roster.knows) }
        ensures table { self.new.roster.table ≡ self.old.roster.table }
        ensures tells { is_some (told self.new.supervision) ≡ is_some (told self.old.supervision) }
        ensures answer { result ≡ (next_of (standing self.old.supervision)).answer }
        ensures standing { standing self.new.supervision
            ≡ (next_of (standing self.old.supervision)).after }
        ensures settled { IsSettled (standing self.old.supervision)
            → IsSettled (standing self.new.supervision) }
        ensures may { (a : Act) → result ≡ Ok (Some a)
            → MayPerform a self.old.roster.knows (seats_of self.old.roster.knows) }
        ensures performs { IsDone result M.ordered self.old.roster.knows self.new.roster.knows }
        ensures past { KeepsPast self.old.roster.knows self.new.roster.knows }
        ensures act { DoesNext result
            (view (at_work self.old.supervision) self.old.roster.knows)
            (view (at_work self.new.supervision) self.new.roster.knows) }
        ensures reaped { (n : ℕ) → AreReaped n self.old.roster.knows
            → AreReaped n self.new.roster.knows }
    {
        laws();
        match self.supervision.next() {
            Ok(Some(act)) => {
                self.perform(act);
                Ok(Some(act))
            }
            Ok(None) => Ok(None),
            Err(GenerationsSpent) => Err(GenerationsSpent),
        }
    }

    // Does an act at the board, whose entry was noted.
    fn perform(&mut self, act: Act)
        requires shows { ShowsNow self.old.roster.knows (seats_of self.old.roster.knows) }
        requires may { MayPerform act self.old.roster.knows (seats_of self.old.roster.knows) }
        ensures supervision { self.new.supervision ≡ self.old.supervision }
        ensures table { self.new.roster.table ≡ self.old.roster.table }
        ensures performs { Performs act M.ordered self.old.roster.knows (seats_of self.old.roster.knows)
            self.new.roster.knows (seats_of self.new.roster.knows) }
    {
        let roster = &mut self.roster;
        match act {
            Act::Start { pid, kind } => seat(
                roster,
                slot_of(kind),
                Enrolled { pid, kind },
                M::order(kind),
            ),
            Act::Quit(why) => quit_all(roster, why),
            Act::Terminate => tell(roster, Audience::Stoppable, Signal::Terminate),
            Act::KillAll => tell(roster, Audience::Everyone, Signal::Kill),
            Act::AskCheckpoint => tell(roster, Audience::Checkpointer, Signal::Checkpoint),
            Act::Ready { .. } => pm_gate::ready(roster),
            Act::Reset { generation } => {
                prove!(generation > 0);
                pm_gate::reset(roster);
            }
            Act::Say(_) | Act::End(_) => {}
        }
    }
}

// The slot of a child that serves no connection.
fn slot_of(kind: Kind) -> u32
    ensures { result ≡ slot_of kind }
{
    match kind {
        Kind::Checkpointer => 1,
        Kind::Writer => 2,
        _ => 0,
    }
}

// The end of a child that was released. Of a startup child that ended with code 0 it tells the number that it kept.
fn exit_of<M: Report>(released: &Released<M>) -> ChildExit
    ensures { result ≡ exit_of (M.kept released.now.job) released.now }
{
    let kept = match (released.kind, released.status) {
        (Kind::Startup, Status::Code(0)) => Some(released.job.kept().unwrap_or(0)),
        _ => None,
    };
    ChildExit {
        pid: released.pid,
        kind: released.kind,
        status: released.status,
        was_active: released.was_active,
        kept,
    }
}
