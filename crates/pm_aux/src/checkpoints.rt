//! What the checkpointer does: it makes a checkpoint whenever one is due, and the last one when it is asked for it.
ghost use Rattle.std.specs.Prelude.{◌≡◌, [], List};
ghost use Rattle.pm_exit.specs.declared.child.Kind.TheVariants.{Checkpointer};
ghost use Rattle.pm_query.specs.{declared.book.BookEntry.BookEntry, Calls.user_of};
ghost use Rattle.pm_child_life.specs.{Life.IsUntouched, Attention.{attention, IsAttentive}};
ghost use Rattle.pm_aux.specs.{Ends.{fault_by, IsMetBehind}, Signals.{Listens, EndsInside, IsLast}, Work.{Checkpoints, ClosesBy}};

use crate::cause::AuxiliaryEnd;
use crate::rest::{breathe, rest};
use crate::signals::ends;
use pm_child_life::{Life, Standing};
use pm_outside::Clock;
use pm_query::{Checkpointed, Stepping, Store, StoreNo};
use std::sync::Wait;

/// Asks for a step of a checkpoint, which the store makes if one is due, up to its end: it goes on at once while one is under way,
/// and rests before it asks for the next. Asked for the last one, it makes that.
pub(crate) fn checkpoint_on<R: Wait, W: Store + Life, C: Clock>(
    rt: &R,
    work: &mut W,
    pass: &mut W::Pass,
    clock: &C,
    standing: &mut Standing,
) -> AuxiliaryEnd
    requires admits { W.admits work.old pass.old }
    requires attentive { IsAttentive (attention (W.told work.old) (W.child work.old) standing.old) }
    ensures admits { W.admits work.new pass.new }
    ensures view { W.view pass.new ≡ W.view pass.old }
    ensures notes { (noted : List BookEntry) × W.notes noted work.old work.new
        × Checkpoints (user_of (W.stamp work.old) (W.view pass.old)) result noted }
    ensures listens { Listens 0 (attention (W.told work.old) (W.child work.old) standing.old)
        (attention (W.told work.new) (W.child work.new) standing.new) }
    ensures ends { EndsInside Checkpointer result standing.new }
    ensures met { IsMetBehind (W.met work.new) (fault_by result) }
{
    for _ in rt.forever() {
        if let Some(cause) = ends(*standing) {
            return give_up(work, pass, cause);
        }
        if standing.checkpoint {
            return drop_and_close(work, pass);
        }
        match work.checkpoint_step(pass) {
            Ok(Stepping::More) => breathe(clock, work, standing),
            Ok(_) => rest(clock, work, standing),
            Err(StoreNo::NoMemory) => rest(clock, work, standing),
            Err(no) => return AuxiliaryEnd::Refused(no),
        }
    }
    unreachable!()
}

// Ends by this cause. A child that was killed calls nothing any more; any other gives up what is under way.
fn give_up<W: Store>(work: &mut W, pass: &mut W::Pass, cause: AuxiliaryEnd) -> AuxiliaryEnd
    requires admits { W.admits work.old pass.old }
    ensures admits { W.admits work.new pass.new }
    ensures view { W.view pass.new ≡ W.view pass.old }
    ensures notes { W.notes [] work.old work.new }
    ensures cause { result ≡ cause }
    ensures life { IsUntouched (W.child work.old) (W.child work.new) (W.told work.old)
        (W.told work.new) }
{
    if !matches!(cause, AuxiliaryEnd::Killed) {
        work.checkpoint_drop(pass);
    }
    cause
}

// Gives up what is under way, and makes the last checkpoint.
fn drop_and_close<W: Store>(work: &mut W, pass: &mut W::Pass) -> AuxiliaryEnd
    requires admits { W.admits work.old pass.old }
    ensures admits { W.admits work.new pass.new }
    ensures view { W.view pass.new ≡ W.view pass.old }
    ensures notes { (noted : List BookEntry) × W.notes noted work.old work.new
        × ClosesBy (user_of (W.stamp work.old) (W.view pass.old)) result noted }
    ensures last { IsLast result }
    ensures met { IsMetBehind (W.met work.new) (fault_by result) }
    ensures life { IsUntouched (W.child work.old) (W.child work.new) (W.told work.old)
        (W.told work.new) }
{
    work.checkpoint_drop(pass);
    close(work, pass)
}

// Makes the last checkpoint.
fn close<W: Store>(work: &mut W, pass: &mut W::Pass) -> AuxiliaryEnd
    requires admits { W.admits work.old pass.old }
    ensures admits { W.admits work.new pass.new }
    ensures view { W.view pass.new ≡ W.view pass.old }
    ensures notes { (noted : List BookEntry) × W.notes noted work.old work.new
        × ClosesBy (user_of (W.stamp work.old) (W.view pass.old)) result noted }
    ensures last { IsLast result }
    ensures met { IsMetBehind (W.met work.new) (fault_by result) }
    ensures life { IsUntouched (W.child work.old) (W.child work.new) (W.told work.old)
        (W.told work.new) }
{
    match work.checkpoint(pass, true) {
        Ok(Checkpointed::Done { .. }) => AuxiliaryEnd::Closed,
        Ok(Checkpointed::Skipped) => AuxiliaryEnd::LeftOut,
        Ok(Checkpointed::NotDue { .. }) => unreachable!(),
        Err(no) => AuxiliaryEnd::Refused(no),
    }
}
