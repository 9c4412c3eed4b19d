//! How a child lets go of what it holds, or stays inside, by the cause of its end.
ghost use Rattle.std.specs.Prelude.{◌≡◌, ℕ, List, None, Some, false, if◌then◌else◌};
ghost use Rattle.pm_query.specs.{declared.book.BookEntry.BookEntry, Calls.user_of};
ghost use Rattle.pm_child_life.specs.Life.{IsUntouched};
ghost use Rattle.pm_aux.specs.{Ends.lets_go, Work.LeavesIf};

use crate::cause::AuxiliaryEnd;
use pm_child_life::Life;
use pm_query::Store;

/// Lets go of the attachment, if the cause lets it.
pub(crate) fn step_out<W: Life>(work: &mut W, cause: AuxiliaryEnd)
    requires { (generation : ℕ) × ((W.child work.old).attached ≡ Some generation) }
    ensures attached { (W.child work.new).attached
        ≡ (if lets_go cause then None else (W.child work.old).attached) }
    ensures told { W.told work.new ≡ W.told work.old }
    ensures rests { W.rests work.old work.new }
{
    if cause.lets_go() {
        work.detach();
    }
}

/// Leaves the store, if the cause lets it.
pub(crate) fn leave<W: Store>(work: &mut W, pass: W::Pass, cause: AuxiliaryEnd)
    requires { W.admits work.old pass }
    ensures notes { (noted : List BookEntry) × W.notes noted work.old work.new
        × LeavesIf (lets_go cause) (user_of (W.stamp work.old) (W.view pass)) noted }
    ensures stays { lets_go cause ≡ false → work.new ≡ work.old }
    ensures life { IsUntouched (W.child work.old) (W.child work.new) (W.told work.old)
        (W.told work.new) }
{
    if cause.lets_go() {
        work.leave(pass);
    }
}
