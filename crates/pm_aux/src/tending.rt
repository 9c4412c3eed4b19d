//! The children that go on until they are told to end: the writer and the checkpointer.
ghost use Rattle.std.specs.Prelude.{◌≡◌, ℕ, List, IfSome, IfOk, IfErr, IsTrue, Some, None, Ok};
ghost use Rattle.pm_exit.specs.declared.child.Kind.TheVariants.{Writer, Checkpointer};
ghost use Rattle.pm_query.specs.{declared.book.BookEntry.BookEntry, Calls.{new_pass, user_of}};
ghost use Rattle.pm_child_life.specs.{Life.nothing_told, Attention.{attention, HasAsked, IsAttentive}};
ghost use Rattle.pm_aux.specs.{Ends.{attached_behind, done_by, fault_by, IsMetBehind}, Signals.{Listens, EndsInside}, Runs.{at_end, runner, user_in, IsRunOf}, Work.{ComesIn, Does, GoesOn, HasWorked, NotesInside}};

use crate::aux_done::AuxDone;
use crate::cause::AuxiliaryEnd;
use crate::checkpoints::checkpoint_on;
use crate::flushes::flush_on;
use crate::leaving::{leave, step_out};
use crate::rest::rest;
use crate::signals::ends;
use pm_child_life::{Life, Standing, listen};
use pm_exit::Kind;
use pm_outside::Clock;
use pm_query::{Store, StoreNo};
use std::sync::Wait;

/// Flushes commits in the background. Told to terminate, it flushes until nothing is left. A Terminate that it takes before it is
/// attached counts as well.
pub fn writer<R: Wait, W: Store + Life, C: Clock>(rt: &R, work: &mut W, clock: &C) -> AuxDone
    requires free { (W.child work.old).attached ≡ None }
    requires may { ¬ (IsTrue (W.child work.old).is_dead_end) }
    requires untold { IfSome (W.told work.old) (λ told. told ≡ nothing_told) }
    ensures run { (noted : List BookEntry) × W.notes noted work.old work.new
        × IsRunOf Writer (runner (W.stamp work.old) (W.child work.old))
        (at_end result (W.told work.new) (W.child work.new)) noted }
    ensures met { IsMetBehind (W.met work.new) result.fault }
{
    AuxDone::by(tend(rt, work, clock, Kind::Writer))
}

/// Makes a checkpoint whenever one is due. Asked for the last one at any of its stop points, it makes that and ends. It is
/// started after the end of redo: before that each checkpoint would be left out, and noted so.
pub fn checkpointer<R: Wait, W: Store + Life, C: Clock>(rt: &R, work: &mut W, clock: &C) -> AuxDone
    requires free { (W.child work.old).attached ≡ None }
    requires may { ¬ (IsTrue (W.child work.old).is_dead_end) }
    requires untold { IfSome (W.told work.old) (λ told. told ≡ nothing_told) }
    ensures run { (noted : List BookEntry) × W.notes noted work.old work.new
        × IsRunOf Checkpointer (runner (W.stamp work.old) (W.child work.old))
        (at_end result (W.told work.new) (W.child work.new)) noted }
    ensures met { IsMetBehind (W.met work.new) result.fault }
{
    AuxDone::by(tend(rt, work, clock, Kind::Checkpointer))
}

// A child's way from its start to its end, by what it ends: signals, gate, store.
fn tend<R: Wait, W: Store + Life, C: Clock>(
    rt: &R,
    work: &mut W,
    clock: &C,
    kind: Kind,
) -> AuxiliaryEnd
    requires goes_on { GoesOn kind }
    requires free { (W.child work.old).attached ≡ None }
    requires may { ¬ (IsTrue (W.child work.old).is_dead_end) }
    requires untold { IfSome (W.told work.old) (λ told. told ≡ nothing_told) }
    ensures run { (noted : List BookEntry) × W.notes noted work.old work.new
        × IsRunOf kind (runner (W.stamp work.old) (W.child work.old))
        (at_end (done_by result) (W.told work.new) (W.child work.new)) noted }
    ensures met { IsMetBehind (W.met work.new) (fault_by result) }
{
    let mut standing = Standing::none();
    listen(work, &mut standing);
    if let Some(cause) = ends(standing) {
        return cause;
    }
    match work.attach(false) {
        Ok(generation) => tend_inside(rt, work, clock, &mut standing, kind, generation),
        Err(no) => AuxiliaryEnd::TurnedAway(no),
    }
}

// Behind the gate.
fn tend_inside<R: Wait, W: Store + Life, C: Clock>(
    rt: &R,
    work: &mut W,
    clock: &C,
    standing: &mut Standing,
    kind: Kind,
    generation: u32,
) -> AuxiliaryEnd
    requires goes_on { GoesOn kind }
    requires attached { (W.child work.old).attached ≡ Some generation }
    requires attentive { IsAttentive (attention (W.told work.old) (W.child work.old) standing.old) }
    ensures notes { (noted : List BookEntry) × W.notes noted work.old work.new
        × NotesInside kind (user_in (runner (W.stamp work.old) (W.child work.old)) generation)
        result noted }
    ensures attached { (W.child work.new).attached ≡ attached_behind result (Some (Ok generation)) }
    ensures asked { HasAsked 0 (W.told work.old) (W.told work.new) }
    ensures attentive { IsAttentive (attention (W.told work.new) (W.child work.new)
        standing.new) }
    ensures ends { EndsInside kind result standing.new }
    ensures met { IsMetBehind (W.met work.new) (fault_by result) }
{
    let cause = enter_and_work(rt, work, clock, standing, kind, generation);
    step_out(work, cause);
    cause
}

fn enter_and_work<R: Wait, W: Store + Life, C: Clock>(
    rt: &R,
    work: &mut W,
    clock: &C,
    standing: &mut Standing,
    kind: Kind,
    generation: u32,
) -> AuxiliaryEnd
    requires goes_on { GoesOn kind }
    requires attentive { IsAttentive (attention (W.told work.old) (W.child work.old) standing.old) }
    ensures notes { (noted : List BookEntry) × W.notes noted work.old work.new
        × NotesInside kind (user_in (runner (W.stamp work.old) (W.child work.old)) generation)
        result noted }
    ensures listens { Listens 0 (attention (W.told work.old) (W.child work.old) standing.old)
        (attention (W.told work.new) (W.child work.new) standing.new) }
    ensures ends { EndsInside kind result standing.new }
    ensures met { IsMetBehind (W.met work.new) (fault_by result) }
{
    match come_in(rt, work, clock, standing, kind, generation) {
        Ok(pass) => work_and_leave(rt, work, pass, clock, standing, kind),
        Err(cause) => cause,
    }
}

// Enters the store. Want of memory is tried again after a rest, unless the last checkpoint was asked for.
fn come_in<R: Wait, W: Store + Life, C: Clock>(
    rt: &R,
    work: &mut W,
    clock: &C,
    standing: &mut Standing,
    kind: Kind,
    generation: u32,
) -> Result<W::Pass, AuxiliaryEnd>
    requires goes_on { GoesOn kind }
    requires attentive { IsAttentive (attention (W.told work.old) (W.child work.old) standing.old) }
    ensures notes { (noted : List BookEntry) × W.notes noted work.old work.new
        × ComesIn kind (user_in (runner (W.stamp work.old) (W.child work.old)) generation)
        result noted }
    ensures admits { IfOk result (λ pass. W.admits work.new pass) }
    ensures view { IfOk result (λ pass. W.view pass ≡ new_pass (W.child work.old).pid generation) }
    ensures listens { Listens 0 (attention (W.told work.old) (W.child work.old) standing.old)
        (attention (W.told work.new) (W.child work.new) standing.new) }
    ensures ends { IfErr result (λ cause. EndsInside kind cause standing.new) }
    ensures met { IfErr result (λ cause. IsMetBehind (W.met work.new) (fault_by cause)) }
{
    let is_patient = kind == Kind::Writer;
    for _ in rt.forever() {
        if let Some(cause) = ends(*standing) {
            return Err(cause);
        }
        let pid = work.pid();
        match work.enter(pid, generation) {
            Ok(pass) => return Ok(pass),
            Err(StoreNo::NoMemory) if is_patient || !standing.checkpoint => {
                rest(clock, work, standing)
            }
            Err(no) => return Err(AuxiliaryEnd::Refused(no)),
        }
    }
    unreachable!()
}

fn work_and_leave<R: Wait, W: Store + Life, C: Clock>(
    rt: &R,
    work: &mut W,
    pass: W::Pass,
    clock: &C,
    standing: &mut Standing,
    kind: Kind,
) -> AuxiliaryEnd
    requires goes_on { GoesOn kind }
    requires admits { W.admits work.old pass }
    requires attentive { IsAttentive (attention (W.told work.old) (W.child work.old) standing.old) }
    ensures notes { (noted : List BookEntry) × W.notes noted work.old work.new
        × HasWorked kind (user_of (W.stamp work.old) (W.view pass)) result noted }
    ensures listens { Listens 0 (attention (W.told work.old) (W.child work.old) standing.old)
        (attention (W.told work.new) (W.child work.new) standing.new) }
    ensures ends { EndsInside kind result standing.new }
    ensures met { IsMetBehind (W.met work.new) (fault_by result) }
{
    let mut pass = pass;
    let cause = work_by_kind(rt, work, &mut pass, clock, standing, kind);
    leave(work, pass, cause);
    cause
}

fn work_by_kind<R: Wait, W: Store + Life, C: Clock>(
    rt: &R,
    work: &mut W,
    pass: &mut W::Pass,
    clock: &C,
    standing: &mut Standing,
    kind: Kind,
) -> AuxiliaryEnd
    requires goes_on { GoesOn kind }
    requires admits { W.admits work.old pass.old }
    requires attentive { IsAttentive (attention (W.told work.old) (W.child work.old) standing.old) }
    ensures admits { W.admits work.new pass.new }
    ensures view { W.view pass.new ≡ W.view pass.old }
    ensures notes { (noted : List BookEntry) × W.notes noted work.old work.new
        × Does kind (user_of (W.stamp work.old) (W.view pass.old)) result noted }
    ensures listens { Listens 0 (attention (W.told work.old) (W.child work.old) standing.old)
        (attention (W.told work.new) (W.child work.new) standing.new) }
    ensures ends { EndsInside kind result standing.new }
    ensures met { IsMetBehind (W.met work.new) (fault_by result) }
{
    match kind {
        Kind::Writer => flush_on(rt, work, pass, clock, standing),
        Kind::Checkpointer => checkpoint_on(rt, work, pass, clock, standing),
        Kind::Startup | Kind::Worker | Kind::Backend | Kind::DeadEnd => unreachable!(),
    }
}
