//! A life that goes by a script, for tests and for a child that is alone.
ghost use Rattle.std.specs.Prelude.{◌≡◌, ◌≤◌, ◌<◌, length};

use crate::life::{Attempt, Cancelled, GateNo, Life, Signals};
use crate::seat::Seat;
use std::alloc::Global;

/// An answer to an ask for which no signal stands.
const NO_SIGNALS: Signals = Signals {
    kill: false,
    quit: None,
    terminate: false,
    cancel: false,
    checkpoint: false,
};

/// Gives the signals of its script, one answer an ask, and then none. The gate and the cancels always answer the same.
#[derive(Drop)]
pub struct ScriptedLife {
    pid: u32,
    is_dead_end: bool,
    attached: Option<u32>,
    script: Vec<Signals>,
    given: usize,
    asked: u64,
    gate: Result<u32, GateNo>,
    met: Option<Attempt>,
    cancelled: Cancelled,
    asked_cancel: Option<(u32, u32)>,
    ghost in_range: { given ≤ length script.items },
    ghost each_ask: { given < length script.items → asked ≡ given },
}

impl ScriptedLife {
    ghost use Rattle.std.specs.Prelude.{None, [], Ok, false};
    ghost use Rattle.pm_child_life.specs.{declared.life.Cancelled.TheVariants.NoSuchPid, Life.nothing_told, Scripted.{child_of_script, told_by_script}};

    /// A life that isn't attached yet, and hasn't asked for anything.
    pub fn new(
        pid: u32,
        is_dead_end: bool,
        script: Vec<Signals>,
        gate: Result<u32, GateNo>,
        cancelled: Cancelled,
    ) -> ScriptedLife
        ensures child { child_of_script result ≡ record
            { pid = pid; is_dead_end = is_dead_end; attached = None } }
        ensures told { told_by_script result ≡ nothing_told }
        ensures answers { (result.script ≡ script) × (result.gate ≡ gate)
            × (result.cancelled ≡ cancelled) }
    {
        ScriptedLife {
            pid,
            is_dead_end,
            attached: None,
            script,
            given: 0,
            asked: 0,
            gate,
            met: None,
            cancelled,
            asked_cancel: None,
        }
    }

    /// A life of one to whom nothing happens: no signal reaches it, the gate lets it into this generation, and it knows of
    /// no other child.
    pub fn quiet(alloc: Global, pid: u32, generation: u32) -> ScriptedLife
        ensures child { child_of_script result ≡ record
            { pid = pid; is_dead_end = false; attached = None } }
        ensures told { told_by_script result ≡ nothing_told }
        ensures answers { (result.script.items ≡ []) × (result.gate ≡ Ok generation)
            × (result.cancelled ≡ NoSuchPid) }
    {
        ScriptedLife::new(
            pid,
            false,
            Vec::new(alloc),
            Ok(generation),
            Cancelled::NoSuchPid,
        )
    }
}

impl ScriptedLife {
    ghost use Rattle.std.specs.Option.{option_to_list};
    ghost use Rattle.pm_child_life.specs.Scripted.{child_of_script, told_by_script};

    /// The generation that it is attached in, if it is.
    pub fn attached(&self) -> Option<u32>
        ensures { result ≡ (child_of_script self.now).attached }
    {
        self.attached
    }

    /// The pid and the key of the cancel that was asked for, if one was.
    pub fn asked_cancel(&self) -> Option<(u32, u32)>
        ensures { option_to_list result ≡ (told_by_script self.now).cancels }
    {
        self.asked_cancel
    }
}

impl Seat for ScriptedLife {
    ghost use Rattle.std.specs.Prelude.{Some};
    ghost use Rattle.pm_child_life.specs.{Life.HasNoStore, Scripted.{child_of_script, told_by_script}};

    ghost child = { child_of_script };

    ghost told = { λ life. Some (told_by_script life) };

    ghost rests = { HasNoStore };
}

impl Life for ScriptedLife {
    ghost use Rattle.std.specs.Prelude.{None, Some, IsTrue, IfOk, OnErr, option_map};
    ghost use Rattle.pm_child_life.specs.{Life.{HasNoCancel, HasNoStore, asked_again, asked_cancel, attached_in, attempt, met_at_gate}, Scripted.{GivesNext, child_of_script, told_by_script}};

    fn pid(&self) -> u32 {
        self.pid
    }

    fn signals(&mut self) -> Signals
        ensures told { Some (told_by_script self.new) ≡ option_map (asked_again result)
            (Some (told_by_script self.old)) }
        ensures child { child_of_script self.new ≡ child_of_script self.old }
        ensures rests { HasNoStore self.old self.new }
        ensures script { GivesNext self.old result self.new }
    {
        self.asked = self.asked.saturating_add(1);
        if self.given == self.script.len() {
            return NO_SIGNALS;
        }
        let signals = self.script[self.given];
        self.given += 1;
        signals
    }

    fn attach(&mut self, is_ordinary: bool) -> Result<u32, GateNo>
        requires free { (child_of_script self.old).attached ≡ None }
        requires may { ¬ (IsTrue (child_of_script self.old).is_dead_end) }
        ensures ok { IfOk result (λ generation. child_of_script self.new ≡ attached_in generation
            (child_of_script self.old)) }
        ensures refused { OnErr result (child_of_script self.new ≡ child_of_script self.old) }
        ensures told { Some (told_by_script self.new) ≡ option_map (met_at_gate (attempt is_ordinary result))
            (Some (told_by_script self.old)) }
        ensures rests { HasNoStore self.old self.new }
        ensures script { result ≡ self.old.gate }
    {
        self.met = Some(Attempt {
            is_ordinary,
            answer: self.gate,
        });
        if let Ok(generation) = self.gate {
            self.attached = Some(generation);
        }
        self.gate
    }

    fn detach(&mut self) {
        self.attached = None;
    }

    fn cancel(&mut self, pid: u32, key: u32) -> Cancelled
        requires { HasNoCancel (Some (told_by_script self.old)) }
        ensures told { Some (told_by_script self.new) ≡ option_map (asked_cancel pid key)
            (Some (told_by_script self.old)) }
        ensures child { child_of_script self.new ≡ child_of_script self.old }
        ensures rests { HasNoStore self.old self.new }
        ensures script { result ≡ self.old.cancelled }
    {
        self.asked_cancel = Some((pid, key));
        self.cancelled
    }

    ghost stands_still = { λ life. tt };

    ghost rests_on = { λ before between now one two. tt };
}
