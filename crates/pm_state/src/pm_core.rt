//! The machine as its caller sees it.

ghost use Rattle.std.specs.Prelude.{◌≡◌, ◌+◌, ◌*◌, ◌<◌, ◌≤◌, ◌↔◌, IsTrue, false};
ghost use Rattle.pm_admit.specs.Admission.{decide_of};

use crate::action::Actions;
use crate::machine::{Exit, Machine, StartupStatus};
use pm_admit::{Cac, PmState, View, decide};
use pm_exit::{Kind, Status};
use pm_modes::{Mode, strengthen};
use pm_supervisor::Limits;
use std::marker::Model;

/// The most children that refuse a connection at one time.
const DEAD_ENDS: u32 = 4;

/// The supervisor's state machine.
///
/// Its caller tells it of each event by a call, does the actions that the call answers in their order, and reports each
/// start that they ask for by `started` before the next event.
#[derive(Drop)]
pub struct PmCore {
    machine: Machine,
}

impl Model for PmCore {
    ghost use Rattle.pm_state.specs.{declared.machine.Machine.Machine as Value_, Machine.StaysWithin};

    ghost Value = { Value_ };

    ghost view = { λ core. core.machine };

    ghost invariant = { λ core. StaysWithin core.machine };
}

impl PmCore {
    ghost use Rattle.pm_supervisor.specs.Limits.{IsWithinLimits};
    ghost use Rattle.pm_state.specs.Machine.{step, begun, view_of, IsReady, IsCounted, IsDue, MayAccept, MachineEvent.{Accepted, Started, Exited, Asked, Ticked, Turned}};

    /// The machine before anything happened.
    pub fn new(limits: Limits) -> Self
        requires { IsWithinLimits limits }
        ensures { result ≡ begun limits }
    {
        PmCore {
            machine: Machine {
                limits,
                state: PmState::Init,
                shutdown: None,
                fatal: false,
                conns: false,
                startup: StartupStatus::NotRunning,
                children: 0,
                dead_ends: 0,
                checkpointer: false,
                writer: false,
                abort_at: None,
                ended: false,
                startup_due: false,
                checkpointer_due: false,
                writer_due: false,
            },
        }
    }

    /// What the decision on a new connection looks at.
    pub fn view(&self) -> View
        ensures { result ≡ view_of self.now }
    {
        let limits = self.machine.limits;
        View {
            state: self.machine.state,
            shutdown: self.machine.shutdown.is_some(),
            fatal: self.machine.fatal,
            conns: self.machine.conns,
            children: self.machine.children,
            limit: 2 * (limits.max_connections + limits.max_worker_processes),
        }
    }

    /// Whether a connection may be accepted now: the server isn't before its start or at its end, and fewer than four
    /// children refuse a connection.
    pub fn may_accept(&self) -> bool
        ensures { IsTrue result ↔ MayAccept self.now }
    {
        let accepts = !matches!(
            self.machine.state,
            PmState::Init | PmState::WaitDeadEnd | PmState::NoChildren
        );
        !self.machine.ended && accepts && self.machine.dead_ends < DEAD_ENDS
    }

    /// A connection is accepted. The answer decides whether its child serves it or refuses it.
    pub fn accepted(&mut self) -> Cac
        requires may_accept { MayAccept self.old }
        requires ready { IsReady self.old }
        ensures decision { result ≡ decide_of (view_of self.old) }
        ensures machine { self.new ≡ (step self.old Accepted).after }
    {
        let decision = decide(&self.view());
        match decision {
            Cac::Ok => self.machine.children += 1,
            _ => self.machine.dead_ends += 1,
        }
        decision
    }

    /// A child has ended. `now` is the moment at which it was found, in milliseconds; `pid` goes into the log alone.
    pub fn exited(
        &mut self,
        pid: u32,
        kind: Kind,
        status: Status,
        was_active: bool,
        now: u64,
    ) -> Actions
        requires counted { IsCounted self.old kind }
        requires ready { IsReady self.old }
        ensures machine { self.new ≡ (step self.old (Exited pid kind status was_active now)).after }
        ensures acts { result ≡ (step self.old (Exited pid kind status was_active now)).acts }
    {
        let exit = Exit {
            pid,
            kind,
            status,
            now,
        };
        self.machine.exited(exit, was_active)
    }

    /// A shutdown was asked for at the moment `now`, in milliseconds. One that isn't stronger than what stands is ignored.
    pub fn asked(&mut self, mode: Mode, now: u64) -> Actions
        requires ready { IsReady self.old }
        ensures machine { self.new ≡ (step self.old (Asked mode now)).after }
        ensures acts { result ≡ (step self.old (Asked mode now)).acts }
    {
        match strengthen(self.machine.shutdown, mode) {
            Some(mode) => self.machine.asked(mode, now),
            None => Actions::none(),
        }
    }

    /// Time has passed: it is `now`, in milliseconds. What is left five seconds after all children were told to end is killed.
    pub fn tick(&mut self, now: u64) -> Actions
        requires ready { IsReady self.old }
        ensures machine { self.new ≡ (step self.old (Ticked now)).after }
        ensures acts { result ≡ (step self.old (Ticked now)).acts }
    {
        self.machine.ticked(now)
    }

    /// What the machine does by itself in its present state. The caller calls this after the other events.
    pub fn turn(&mut self) -> Actions
        requires ready { IsReady self.old }
        ensures machine { self.new ≡ (step self.old Turned).after }
        ensures acts { result ≡ (step self.old Turned).acts }
    {
        self.machine.turn()
    }

    /// A start that was given is reported.
    pub fn started(&mut self, kind: Kind)
        requires goes_on { self.old.ended ≡ false }
        requires due { IsDue self.old kind }
        ensures machine { self.new ≡ (step self.old (Started kind)).after }
    {
        match kind {
            Kind::Startup => self.machine.startup_due = false,
            Kind::Checkpointer => {
                self.machine.checkpointer_due = false;
                self.machine.checkpointer = true;
            }
            Kind::Writer => {
                self.machine.writer_due = false;
                self.machine.writer = true;
            }
            Kind::Worker | Kind::Backend | Kind::DeadEnd => {}
        }
    }
}
