//! The loop of a server.

ghost use Rattle.std.specs.Prelude.{◌≡◌, List};
ghost use Rattle.pm_supervisor_chain.specs.Steps.{Step};

use crate::laws::laws;
use crate::server::Server;
use pm_admit::Cac;
use pm_disk::Disk;
use pm_outside::{Chronicle, Clock, Port, Sink};
use pm_query::BookEntry;
use pm_server::ServerEnd;
use pm_session::SessionConf;
use pm_state::PmEvent;
use std::alloc::Global;
use std::sync::Wait;

impl<J: Chronicle<PmEvent>, O: Sink, D: Disk, B: Chronicle<BookEntry>> Server<J, O, D, B> {
    ghost use Rattle.std.specs.Prelude.{Bool, Err};
    ghost use Rattle.pm_supervisor_journal.specs.{Stands.IsSettled, Supervision.standing, Due.IsIdle};
    ghost use Rattle.pm_once.specs.{Calls.Turns, Goes.IsRunning, Serves.{HasServed, Serves}, Service.Connection, View.view_of};

    // Lets the machine do what it does by itself, and does the acts of that.
    fn turn(&mut self) -> Result<(), ServerEnd>
        requires running { IsRunning (view_of self.old) }
        requires idle { IsIdle (standing self.old.supervision) }
        ensures { (steps : List Step) × Turns result steps (view_of self.old) (view_of self.new) }
    {
        laws();
        match self.supervision.turn() {
            Ok(()) => self.act_all(),
            Err(_) => Err(ServerEnd::NoMemory),
        }
    }

    // Lets a child run that has something to do, or serves the next link where the machine takes connections.
    fn go_on<R: Wait, P: Port, C: Clock>(
        self,
        rt: &R,
        alloc: Global,
        port: &mut P,
        clock: &C,
        seed: &[u8; 32],
        conf: &SessionConf,
    ) -> (Server<J, O, D, B>, Result<(), ServerEnd>)
        requires running { IsRunning (view_of self) }
        requires idle { IsIdle (standing self.supervision) }
        requires settled { IsSettled (standing self.supervision) }
        ensures { (steps : List Step) × (connections : List Connection) × (ended : Bool)
            × Serves (C.gives clock.now) result.1 connections ended steps (view_of self)
            (view_of result.0)
            × HasServed seed.now conf.now.authentication_ms (C.gives clock.now) connections ended
            steps (P.visits port.old) (P.visits port.new) }
    {
        let mut server = self;
        match server.run_one(rt, clock) {
            Some(end) => (server, end),
            None => server.listen(rt, alloc, port, clock, seed, conf),
        }
    }

    // Serves the next link, where links are asked for and the machine takes a connection.
    fn listen<R: Wait, P: Port, C: Clock>(
        self,
        rt: &R,
        alloc: Global,
        port: &mut P,
        clock: &C,
        seed: &[u8; 32],
        conf: &SessionConf,
    ) -> (Server<J, O, D, B>, Result<(), ServerEnd>)
        requires running { IsRunning (view_of self) }
        requires idle { IsIdle (standing self.supervision) }
        requires settled { IsSettled (standing self.supervision) }
        ensures { (steps : List Step) × (connections : List Connection) × (ended : Bool)
            × Serves (C.gives clock.now) result.1 connections ended steps (view_of self)
            (view_of result.0)
            × HasServed seed.now conf.now.authentication_ms (C.gives clock.now) connections ended
            steps (P.visits port.old) (P.visits port.new) }
    {
        if !self.listens || !self.supervision.may_accept() {
            return (self, Ok(()));
        }
        match self.supervision.decision() {
            Cac::Ok => self.serve_next(rt, alloc, port, clock, seed, conf),
            _ => (self, Ok(())),
        }
    }

    // A turn of the machine, and then one thing more.
    fn round<R: Wait, P: Port, C: Clock>(
        self,
        rt: &R,
        alloc: Global,
        port: &mut P,
        clock: &C,
        seed: &[u8; 32],
        conf: &SessionConf,
    ) -> (Server<J, O, D, B>, Result<(), ServerEnd>)
        requires running { IsRunning (view_of self) }
        requires idle { IsIdle (standing self.supervision) }
        ensures { (steps : List Step) × (connections : List Connection) × (ended : Bool)
            × Serves (C.gives clock.now) result.1 connections ended steps (view_of self)
            (view_of result.0)
            × HasServed seed.now conf.now.authentication_ms (C.gives clock.now) connections ended
            steps (P.visits port.old) (P.visits port.new) }
    {
        let mut server = self;
        match server.turn() {
            Ok(()) => {}
            Err(end) => return (server, Err(end)),
        }
        if server.supervision.owes_smart() {
            let asked = server.ask_smart(clock);
            return (server, asked);
        }
        server.go_on(rt, alloc, port, clock, seed, conf)
    }

    /// Does what is due, round after round, until the server ends.
    pub(crate) fn run<R: Wait, P: Port, C: Clock>(
        self,
        rt: &R,
        alloc: Global,
        port: &mut P,
        clock: &C,
        seed: &[u8; 32],
        conf: &SessionConf,
    ) -> (Server<J, O, D, B>, ServerEnd)
        requires running { IsRunning (view_of self) }
        requires idle { IsIdle (standing self.supervision) }
        ensures { (steps : List Step) × (connections : List Connection) × (ended : Bool)
            × Serves (C.gives clock.now) (Err result.1) connections ended steps (view_of self)
            (view_of result.0)
            × HasServed seed.now conf.now.authentication_ms (C.gives clock.now) connections ended
            steps (P.visits port.old) (P.visits port.new) }
    {
        let mut server = self;
        'rounds: for _ in rt.forever() {
            let (next, went) = server.round(rt, alloc, port, clock, seed, conf);
            server = next;
            match went {
                Ok(()) => {}
                Err(end) => return (server, end),
            }
        }
        unreachable!()
    }
}
