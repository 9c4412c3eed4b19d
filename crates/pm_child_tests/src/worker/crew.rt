//! The supervisor of the tests: it assigns children to the slots of a board, one after the other, and collects those that have
//! exited.
ghost use Rattle.std.specs.Prelude.{◌≡◌, ◌+◌, ◌<◌, ◌≤◌, false, true, length, None, IfSome};
ghost use Rattle.pm_board.specs.{pm_board_words.declared.views.Sight.TheVariants.Unused, Places.{slot_at, SlotServes, is_connection}, Children.child_seen};
ghost use Rattle.pm_child_tests.specs.Crew.{IsManned, IsFresh, IsLookedOver, HasLookedAt};

use crate::worker::tally::Tally;
use pm_board::{Letter, Look, Released, Roster};
use pm_exit::Kind;
use pm_latch::{Signal, send};
use pm_outside::MemLink;
use pm_worker::Mail;
use std::sync::Wait;
use std::thread;

/// Of the tests' board.
pub(crate) const SLOTS: u32 = 47;

pub(crate) type Job = Mail<MemLink>;

/// Assigns a child to the first slot that has had none.
pub(crate) fn begin<J: Letter + Drop>(roster: &mut Roster<J>, slot: u32, kind: Kind, job: J)
    requires fresh { IsFresh roster.old.knows slot }
    requires serves { (slot < 3) × SlotServes 47 slot kind × (is_connection kind ≡ false) }
    requires fits { J.fits job kind }
    ensures fresh { IsFresh roster.new.knows (slot + 1) }
    ensures gate { roster.new.knows.is_open ≡ roster.old.knows.is_open }
{
    roster.assign(slot, slot + 1, kind, job);
}

/// Assigns a child of a connection to a slot that has none, after a look at every slot.
pub(crate) fn connect<J: Letter + Drop>(
    roster: &mut Roster<J>,
    slot: u32,
    pid: u32,
    kind: Kind,
    job: J,
)
    requires looked { IsLookedOver roster.old.knows 47 }
    requires free { (slot < 47) × (child_seen (slot_at roster.old.knows slot).sight ≡ None) }
    requires serves { SlotServes 47 slot kind × (is_connection kind ≡ true) }
    requires pid { (roster.old.knows.notes.last_pid < pid) × (pid < 1000) }
    requires fits { J.fits job kind }
    ensures manned { IsManned roster.new.knows }
    ensures pid { roster.new.knows.notes.last_pid ≡ pid }
{
    roster.assign(slot, pid, kind, job);
}

/// Sends a signal to the child of a slot, if it has one.
pub(crate) fn tell(roster: &mut Roster<Job>, slot: u32, signal: Signal)
    requires { IsManned roster.old.knows × (slot < 47) }
    ensures manned { IsManned roster.new.knows }
    ensures pid { roster.new.knows.notes.last_pid ≡ roster.old.knows.notes.last_pid }
{
    if roster.child(slot).is_some() {
        send(roster, slot, signal);
    }
}

/// Looks at a slot, and takes its child if that has exited.
pub(crate) fn look_at(roster: &mut Roster<Job>, slot: u32) -> Option<Released<Job>>
    requires { IsManned roster.old.knows × (slot < 47) }
    ensures looked { HasLookedAt slot roster.old.knows roster.new.knows }
    ensures freed { IfSome result (λ _. (slot_at roster.new.knows slot).sight ≡ Unused) }
{
    if roster.child(slot).is_none() {
        return None;
    }
    match roster.look(slot) {
        Look::Running => None,
        Look::Exited { .. } => Some(roster.release(slot)),
    }
}

/// Looks at every slot.
pub(crate) fn look_over(roster: &mut Roster<Job>, tally: &mut Tally)
    requires { IsManned roster.old.knows }
    ensures looked { IsLookedOver roster.new.knows 47 }
    ensures pid { roster.new.knows.notes.last_pid ≡ roster.old.knows.notes.last_pid }
{
    for slot in 0..SLOTS {
        if let Some(released) = look_at(roster, slot) {
            tally.note(&released);
        }
    }
}

/// Looks at every slot, until no more than so many have a child.
pub(crate) fn wait_for<R: Wait>(rt: &R, roster: &mut Roster<Job>, tally: &mut Tally, most: u32)
    requires { IsManned roster.old.knows }
    ensures looked { IsLookedOver roster.new.knows 47 }
    ensures pid { roster.new.knows.notes.last_pid ≡ roster.old.knows.notes.last_pid }
{
    for _ in rt.forever() {
        look_over(roster, tally);
        if roster.used() <= most {
            return;
        }
        thread::yield_now();
    }
    unreachable!()
}

/// A slot of sessions that has no child.
pub(crate) fn free_slot(roster: &Roster<Job>) -> Option<u32>
    requires { length roster.now.knows.slots ≡ 47 }
    ensures { IfSome result (λ slot. (3 ≤ slot) × (slot + 4 < 47)
        × (child_seen (slot_at roster.now.knows slot).sight ≡ None)) }
{
    for slot in 3..SLOTS - 4 {
        if roster.child(slot).is_none() {
            return Some(slot);
        }
    }
    None
}
