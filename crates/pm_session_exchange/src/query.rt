//! How a query is answered: its text, its sleeps, its run and its release, in this order.
ghost use Rattle.std.specs.Prelude.{◌≡◌, ℕ, [], Option, IfOk, false};
ghost use Rattle.pm_sql.specs.Faults.{IsFaultOf};
ghost use Rattle.pm_child_life.specs.{Attention.Hears, Life.Told};
ghost use Rattle.pm_session_exchange.specs.{Queries.{HasSleptFor, Sleeps, TurnNotes}, Answers.{AnswerNotes, ScriptNotes, CanRefuseRun, refusal_of, turn_of, IsFit, FitsScript, SleepGoes, Notes, KeepsUser, OvertakesBy, AnswerFits, AnswerSleeps, AnswerUncancelled}, Moments.AnswersOrHeeds, Room.IsQueryString};

use crate::ear::Ear;
use crate::ending::Cause;
use crate::line::Line;
use crate::means::Means;
use crate::release::Answer;
use pm_child_life::Life;
use pm_outside::{Clock, Link};
use pm_query::{Store, StoreNo};
use pm_sql::{Script, SqlFault, fault_text, parse};
use std::alloc::Global;
use std::sync::Wait;

/// What the sleeps of a script came to.
#[derive(Clone, Copy)]
pub(crate) enum Slept {
    Whole,
    Cancelled,
}

impl<L: Link, W: Store + Life> Line<L, W> {
    /// Answers a query, with no word on the link. A cancel and a Terminate are heeded until its run, a Kill and a Quit until
    /// its release.
    pub fn answer_to<R: Wait, C: Clock>(
        &mut self,
        means: &Means<'_, R, C>,
        pass: &mut W::Pass,
        text: &[u8],
    ) -> Result<Answer, Cause>
        requires admits { W.admits self.old.work pass.old }
        requires text { IsQueryString text.now }
        ensures notes { Notes W.Store.own pass.old (λ user. AnswerNotes user text.now result)
            self.old.work self.new.work }
        ensures fit { AnswerFits text.now result self.old.child.told
            self.new.child.told }
        ensures slept { AnswerSleeps (C.gives means.now.clock.now) text.now result }
        ensures uncancelled { AnswerUncancelled result self.old.child.told self.new.child.told }
        ensures admits { W.admits self.new.work pass.new }
        ensures user { KeepsUser W.Store.own self.old.work pass.old self.new.work pass.new }
        ensures overtaken { OvertakesBy (W.met self.new.work) (W.view pass.old).generation result }
        ensures link { self.new.link ≡ self.old.link }
        ensures hears { Hears 0 self.old.child self.new.child }
        ensures heeded { AnswersOrHeeds result self.new.child }
    {
        self.ear.answer_to(means, pass, text)
    }
}

impl<W: Store + Life> Ear<W> {
    /// Answers a query. A cancel and a Terminate are heeded until its run, a Kill and a Quit until its release.
    pub(crate) fn answer_to<R: Wait, C: Clock>(
        &mut self,
        means: &Means<'_, R, C>,
        pass: &mut W::Pass,
        text: &[u8],
    ) -> Result<Answer, Cause>
        requires admits { W.admits self.old.work pass.old }
        requires text { IsQueryString text.now }
        ensures notes { Notes W.Store.own pass.old (λ user. AnswerNotes user text.now result)
            self.old.work self.new.work }
        ensures fit { AnswerFits text.now result self.old.child.told self.new.child.told }
        ensures slept { AnswerSleeps (C.gives means.now.clock.now) text.now result }
        ensures uncancelled { AnswerUncancelled result self.old.child.told self.new.child.told }
        ensures admits { W.admits self.new.work pass.new }
        ensures user { KeepsUser W.Store.own self.old.work pass.old self.new.work pass.new }
        ensures overtaken { OvertakesBy (W.met self.new.work) (W.view pass.old).generation result }
        ensures hears { Hears 0 self.old.child self.new.child }
        ensures heeded { AnswersOrHeeds result self.new.child }
    {
        self.drop_cancel();
        let Ok(text) = str::from_utf8(text) else {
            return Ok(Answer::NotUtf8);
        };
        match parse(means.alloc, text) {
            Ok(script) => self.script_answer(means, pass, &script),
            Err(fault) => Ok(faulted(means.alloc, text, fault)),
        }
    }

    // The answer to a script.
    fn script_answer<R: Wait, C: Clock>(
        &mut self,
        means: &Means<'_, R, C>,
        pass: &mut W::Pass,
        script: &Script,
    ) -> Result<Answer, Cause>
        requires admits { W.admits self.old.work pass.old }
        requires idle { self.old.child.standing.cancel ≡ false }
        ensures notes { Notes W.Store.own pass.old (λ user. ScriptNotes user script.now result)
            self.old.work self.new.work }
        ensures fit { IfOk result (FitsScript script.now self.old.child.told self.new.child.told) }
        ensures slept { IfOk result (λ answer. HasSleptFor (C.gives means.now.clock.now)
            (turn_of answer) script.now) }
        ensures uncancelled { AnswerUncancelled result self.old.child.told self.new.child.told }
        ensures admits { W.admits self.new.work pass.new }
        ensures user { KeepsUser W.Store.own self.old.work pass.old self.new.work pass.new }
        ensures overtaken { OvertakesBy (W.met self.new.work) (W.view pass.old).generation result }
        ensures hears { Hears 0 self.old.child self.new.child }
        ensures heeded { AnswersOrHeeds result self.new.child }
    {
        match self.sleep(means, script.sleep_seconds())? {
            Slept::Cancelled => Ok(Answer::Cancelled),
            Slept::Whole => self.run(means, pass, script),
        }
    }

    // Sleeps so many seconds. It asks for signals once at least: nothing of the query is noted yet.
    fn sleep<R: Wait, C: Clock>(
        &mut self,
        means: &Means<'_, R, C>,
        seconds: u64,
    ) -> Result<Slept, Cause>
        requires idle { self.old.child.standing.cancel ≡ false }
        ensures goes { SleepGoes (C.gives means.now.clock.now) seconds result self.old.child self.new.child }
        ensures hears { Hears 1 self.old.child self.new.child }
        ensures rests { W.rests self.old.work self.new.work }
    {
        let end = means
            .clock
            .now()
            .saturating_add(seconds.saturating_mul(1000));
        for _ in means.rt.forever() {
            self.heed()?;
            if self.is_cancelled() {
                return Ok(Slept::Cancelled);
            }
            if end <= means.clock.now() {
                return Ok(Slept::Whole);
            }
            means.clock.pause();
        }
        unreachable!()
    }

    // Runs a script, and waits for the release of its reply.
    fn run<R: Wait, C: Clock>(
        &mut self,
        means: &Means<'_, R, C>,
        pass: &mut W::Pass,
        script: &Script,
    ) -> Result<Answer, Cause>
        requires admits { W.admits self.old.work pass.old }
        ensures notes { Notes W.Store.own pass.old (λ user. ScriptNotes user script.now result)
            self.old.work self.new.work }
        ensures fit { IfOk result (FitsScript script.now self.old.child.told self.new.child.told) }
        ensures admits { W.admits self.new.work pass.new }
        ensures user { KeepsUser W.Store.own self.old.work pass.old self.new.work pass.new }
        ensures overtaken { OvertakesBy (W.met self.new.work) (W.view pass.old).generation result }
        ensures hears { Hears 0 self.old.child self.new.child }
        ensures heeded { AnswersOrHeeds result self.new.child }
    {
        match self.ask_run(pass, script) {
            Ok(staged) => self.release(means, pass, staged),
            Err(no) => refusal_of(no),
        }
    }
}

// The answer to a text that is no script.
fn faulted(alloc: Global, text: &str, fault: SqlFault) -> Answer
    requires fault { IsFaultOf text.now fault }
    requires text { IsQueryString text.now }
    ensures notes { (pid : ℕ) → TurnNotes pid text.now (turn_of result) [] }
    ensures fit { (before now : Option Told) → IsFit text.now result before now }
{
    if fault == SqlFault::NoMemory {
        return Answer::Memory;
    }
    match fault_text(alloc, text, &fault) {
        Ok(message) => Answer::Faulted { fault, message },
        Err(_) => Answer::Memory,
    }
}

// What a refused run comes to.
fn refusal_of(no: StoreNo) -> Result<Answer, Cause>
    requires { CanRefuseRun no }
    ensures { result ≡ refusal_of no }
{
    match no {
        StoreNo::Full { .. } => Ok(Answer::LogIsFull),
        StoreNo::NoMemory => Ok(Answer::Memory),
        StoreNo::Stale { .. } => Err(Cause::Overtaken),
        StoreNo::Disk | StoreNo::Broken { .. } => Err(Cause::Panicked),
        StoreNo::Redo(_) => unreachable!(),
    }
}
