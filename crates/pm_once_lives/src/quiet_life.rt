//! A quiet life, as a session lives it.

ghost use Rattle.std.specs.Prelude.{◌≡◌};

use crate::quiet::{Home, Quiet};
use pm_child_life::{Cancelled, GateNo, Life, Seat, Signals};
use std::marker::PhantomData;

impl<H: Home> Quiet<H> {
    ghost use Rattle.pm_child_life.specs.Life.{nothing_told};
    ghost use Rattle.pm_once_lives.specs.Quiet.{quiet_child, quiet_told};
    ghost use Rattle.std.specs.Prelude.{None, false};

    /// One that isn't attached, and hasn't asked for anything. The gate lets it into its generation.
    pub fn new(pid: u32, generation: u32) -> Quiet<H>
        requires { generation ≡ H.home }
        ensures child { quiet_child result ≡ record
            { pid = pid; is_dead_end = false; attached = None } }
        ensures told { quiet_told result ≡ nothing_told }
    {
        Quiet {
            pid,
            generation,
            attached: None,
            asked: 0,
            came_as_ordinary: None,
            asked_cancel: None,
            of: PhantomData,
        }
    }
}

impl<H: Home> Seat for Quiet<H> {
    ghost use Rattle.std.specs.Prelude.{Some};
    ghost use Rattle.pm_child_life.specs.Life.{HasNoStore};
    ghost use Rattle.pm_once_lives.specs.Quiet.{quiet_child, quiet_told};

    ghost child = { quiet_child };

    ghost told = { λ life. Some (quiet_told life) };

    ghost rests = { HasNoStore };
}

impl<H: Home> Life for Quiet<H> {
    fn pid(&self) -> u32 {
        self.pid
    }

    fn signals(&mut self) -> Signals {
        self.asked = self.asked.saturating_add(1);
        Signals {
            kill: false,
            quit: None,
            terminate: false,
            cancel: false,
            checkpoint: false,
        }
    }

    fn attach(&mut self, is_ordinary: bool) -> Result<u32, GateNo> {
        self.attached = Some(self.generation);
        self.came_as_ordinary = Some(is_ordinary);
        Ok(self.generation)
    }

    fn detach(&mut self) {
        self.attached = None;
    }

    fn cancel(&mut self, pid: u32, key: u32) -> Cancelled {
        self.asked_cancel = Some((pid, key));
        Cancelled::NoSuchPid
    }

    ghost stands_still = { λ life. tt };

    ghost rests_on = { λ before between now one two. tt };
}
