//! The startup child, which reads the log.
ghost use Rattle.std.specs.Prelude.{◌≡◌, ℕ, List, IfSome, IsTrue, Some, None, Ok};
ghost use Rattle.pm_exit.specs.declared.child.Kind.TheVariants.{Startup};
ghost use Rattle.pm_query.specs.{declared.book.BookEntry.BookEntry, Calls.{newcomer, user_of}};
ghost use Rattle.pm_child_life.specs.Life.{IsUntouched, nothing_told};
ghost use Rattle.pm_aux.specs.{Ends.{attached_behind, done_by, fault_by, IsMetBehind, LearnsWhy}, Runs.{at_end, runner, user_in, IsRunOf}, Work.{HasWorked, NotesInside, ReadsLog}};

use crate::aux_done::AuxDone;
use crate::cause::AuxiliaryEnd;
use crate::leaving::{leave, step_out};
use crate::signals::ends;
use pm_child_life::{Life, Standing, listen};
use pm_query::Store;

/// Goes through the gate, reads the log, and leaves again. It takes its signals once, before all of that.
pub fn startup<W: Store + Life>(work: &mut W) -> AuxDone
    requires free { (W.child work.old).attached ≡ None }
    requires may { ¬ (IsTrue (W.child work.old).is_dead_end) }
    requires untold { IfSome (W.told work.old) (λ told. told ≡ nothing_told) }
    ensures run { (noted : List BookEntry) × W.notes noted work.old work.new
        × IsRunOf Startup (runner (W.stamp work.old) (W.child work.old))
        (at_end result (W.told work.new) (W.child work.new)) noted }
    ensures met { IsMetBehind (W.met work.new) result.fault }
    ensures learned { LearnsWhy (W.learned work.new) result.fault }
{
    AuxDone::by(read_log(work))
}

// The same, by what the child comes to its end.
fn read_log<W: Store + Life>(work: &mut W) -> AuxiliaryEnd
    requires free { (W.child work.old).attached ≡ None }
    requires may { ¬ (IsTrue (W.child work.old).is_dead_end) }
    requires untold { IfSome (W.told work.old) (λ told. told ≡ nothing_told) }
    ensures run { (noted : List BookEntry) × W.notes noted work.old work.new
        × IsRunOf Startup (runner (W.stamp work.old) (W.child work.old))
        (at_end (done_by result) (W.told work.new) (W.child work.new)) noted }
    ensures met { IsMetBehind (W.met work.new) (fault_by result) }
    ensures learned { LearnsWhy (W.learned work.new) (fault_by result) }
{
    let mut standing = Standing::none();
    listen(work, &mut standing);
    if let Some(cause) = ends(standing) {
        return cause;
    }
    if standing.terminate {
        return AuxiliaryEnd::ToldToTerminate;
    }
    match work.attach(false) {
        Ok(generation) => redo(work, generation),
        Err(no) => AuxiliaryEnd::TurnedAway(no),
    }
}

// Behind the gate.
fn redo<W: Store + Life>(work: &mut W, generation: u32) -> AuxiliaryEnd
    requires attached { (W.child work.old).attached ≡ Some generation }
    ensures notes { (noted : List BookEntry) × W.notes noted work.old work.new
        × NotesInside Startup (user_in (runner (W.stamp work.old) (W.child work.old)) generation)
        result noted }
    ensures attached { (W.child work.new).attached ≡ attached_behind result (Some (Ok generation)) }
    ensures told { W.told work.new ≡ W.told work.old }
    ensures met { IsMetBehind (W.met work.new) (fault_by result) }
    ensures learned { LearnsWhy (W.learned work.new) (fault_by result) }
{
    let pid = work.pid();
    let cause = enter_and_redo(work, pid, generation);
    step_out(work, cause);
    cause
}

fn enter_and_redo<W: Store>(work: &mut W, pid: u32, generation: u32) -> AuxiliaryEnd
    ensures notes { (noted : List BookEntry) × W.notes noted work.old work.new
        × NotesInside Startup (newcomer (W.stamp work.old) pid generation) result noted }
    ensures met { IsMetBehind (W.met work.new) (fault_by result) }
    ensures learned { LearnsWhy (W.learned work.new) (fault_by result) }
    ensures life { IsUntouched (W.child work.old) (W.child work.new) (W.told work.old)
        (W.told work.new) }
{
    match work.enter(pid, generation) {
        Ok(pass) => redo_and_leave(work, pass),
        Err(no) => AuxiliaryEnd::Refused(no),
    }
}

fn redo_and_leave<W: Store>(work: &mut W, pass: W::Pass) -> AuxiliaryEnd
    requires { W.admits work.old pass }
    ensures notes { (noted : List BookEntry) × W.notes noted work.old work.new
        × HasWorked Startup (user_of (W.stamp work.old) (W.view pass)) result noted }
    ensures met { IsMetBehind (W.met work.new) (fault_by result) }
    ensures learned { LearnsWhy (W.learned work.new) (fault_by result) }
    ensures life { IsUntouched (W.child work.old) (W.child work.new) (W.told work.old)
        (W.told work.new) }
{
    let mut pass = pass;
    let cause = read(work, &mut pass);
    leave(work, pass, cause);
    cause
}

fn read<W: Store>(work: &mut W, pass: &mut W::Pass) -> AuxiliaryEnd
    requires { W.admits work.old pass.old }
    ensures admits { W.admits work.new pass.new }
    ensures view { W.view pass.new ≡ W.view pass.old }
    ensures notes { (noted : List BookEntry) × W.notes noted work.old work.new
        × ReadsLog (user_of (W.stamp work.old) (W.view pass.old)) result noted }
    ensures met { IsMetBehind (W.met work.new) (fault_by result) }
    ensures learned { LearnsWhy (W.learned work.new) (fault_by result) }
    ensures life { IsUntouched (W.child work.old) (W.child work.new) (W.told work.old)
        (W.told work.new) }
{
    match work.redo(pass) {
        Ok(kept) => AuxiliaryEnd::Redone { kept },
        Err(no) => AuxiliaryEnd::Refused(no),
    }
}
