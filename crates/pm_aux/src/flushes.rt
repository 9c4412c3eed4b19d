//! What the writer does: it flushes commits in the background.
ghost use Rattle.std.specs.Prelude.{◌≡◌, List};
ghost use Rattle.pm_query.specs.{declared.book.BookEntry.BookEntry, Calls.user_of};
ghost use Rattle.pm_child_life.specs.Attention.{attention, IsAttentive};
ghost use Rattle.pm_exit.specs.declared.child.Kind.TheVariants.{Writer};
ghost use Rattle.pm_aux.specs.{Ends.{fault_by, IsMetBehind}, Signals.{Listens, EndsInside}, Work.Flushes};

use crate::cause::AuxiliaryEnd;
use crate::rest::rest;
use crate::signals::ends;
use pm_child_life::{Life, Standing, listen};
use pm_outside::Clock;
use pm_query::{Store, StoreNo};
use std::sync::Wait;

/// Flushes and rests, up to its end. Told to terminate, it flushes until two flushes in a row answer the same front: after the
/// second nothing was left.
pub(crate) fn flush_on<R: Wait, W: Store + Life, C: Clock>(
    rt: &R,
    work: &mut W,
    pass: &mut W::Pass,
    clock: &C,
    standing: &mut Standing,
) -> AuxiliaryEnd
    requires admits { W.admits work.old pass.old }
    requires attentive { IsAttentive (attention (W.told work.old) (W.child work.old) standing.old) }
    ensures admits { W.admits work.new pass.new }
    ensures view { W.view pass.new ≡ W.view pass.old }
    ensures notes { (noted : List BookEntry) × W.notes noted work.old work.new
        × Flushes (user_of (W.stamp work.old) (W.view pass.old)) result noted }
    ensures listens { Listens 0 (attention (W.told work.old) (W.child work.old) standing.old)
        (attention (W.told work.new) (W.child work.new) standing.new) }
    ensures ends { EndsInside Writer result standing.new }
    ensures met { IsMetBehind (W.met work.new) (fault_by result) }
{
    let mut last = None;
    for _ in rt.forever() {
        if let Some(cause) = ends(*standing) {
            return cause;
        }
        match work.flush(pass) {
            Ok(front) if standing.terminate => {
                if last == Some(front) {
                    return AuxiliaryEnd::Flushed;
                }
                last = Some(front);
                listen(work, standing);
            }
            Ok(_) => rest(clock, work, standing),
            Err(StoreNo::NoMemory) => rest(clock, work, standing),
            Err(no) => return AuxiliaryEnd::Refused(no),
        }
    }
    unreachable!()
}
