//! Who sits where.
ghost use Rattle.std.specs.Prelude.{◌≡◌, ◌<◌, None, Some, IfNone, IfSome, length, slice_set};
ghost use Rattle.pm_board.specs.{Places.MayAssign, Models.HasAssigned};
ghost use Rattle.pm_board_acts.specs.{Acts.ShowsNow, Board.{seat_at, seats_of}, Sitting.{HasReaped, StillRuns}};

use pm_board::{Letter, Look, Released, Roster};
use pm_exit::Kind;
use pm_supervisor_journal::Enrolled;

/// The child that sits in a slot.
pub fn seated<M: Letter + Drop>(roster: &Roster<M>, slot: u32) -> Option<Enrolled>
    requires { slot < length (seats_of roster.now.knows) }
    ensures { result ≡ seat_at slot (seats_of roster.now.knows) }
{
    match roster.child(slot) {
        None => None,
        Some((pid, kind)) => Some(Enrolled { pid, kind }),
    }
}

/// Assigns a child to an unused slot.
pub fn seat<M: Letter + Drop>(roster: &mut Roster<M>, slot: u32, child: Enrolled, mail: M)
    requires may { MayAssign roster.old.knows slot child.pid child.kind }
    requires fits { M.fits mail child.kind }
    ensures table { roster.new.table ≡ roster.old.table }
    ensures assigned { HasAssigned slot child.pid child.kind (M.told mail) roster.old.knows
        roster.new.knows }
    ensures seats { seats_of roster.new.knows ≡ slice_set (seats_of roster.old.knows) slot
        (Some child) }
{
    roster.assign(slot, child.pid, child.kind, mail);
}

/// Looks at a slot that has a child, and releases it where it has ended.
pub fn reap<M: Letter + Drop>(
    roster: &mut Roster<M>,
    slot: u32,
    child: Enrolled,
) -> Option<Released<M>>
    requires shows { ShowsNow roster.old.knows (seats_of roster.old.knows) }
    requires slot { slot < length (seats_of roster.old.knows) }
    requires sits { seat_at slot (seats_of roster.old.knows) ≡ Some child }
    ensures table { roster.new.table ≡ roster.old.table }
    ensures runs { IfNone result (StillRuns slot child roster.old.knows roster.new.knows
        × (seats_of roster.new.knows ≡ seats_of roster.old.knows)) }
    ensures ended { IfSome result (λ released. HasReaped M.Letter slot child released
        roster.old.knows roster.new.knows
        × (seats_of roster.new.knows ≡ slice_set (seats_of roster.old.knows) slot None)) }
{
    match roster.look(slot) {
        Look::Running => None,
        Look::Exited { .. } => Some(roster.release(slot)),
    }
}
