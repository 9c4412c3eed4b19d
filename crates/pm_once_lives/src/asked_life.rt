//! The life of one that is asked for the last checkpoint, as a checkpointer lives it.

ghost use Rattle.std.specs.Prelude.{◌≡◌};

use crate::asked::Asked;
use crate::quiet::Home;
use pm_child_life::{Cancelled, GateNo, Life, Seat, Signals};
use std::marker::PhantomData;

impl<H: Home> Asked<H> {
    ghost use Rattle.pm_child_life.specs.Life.{nothing_told};
    ghost use Rattle.pm_once_lives.specs.Asked.{asked_child, asked_told};
    ghost use Rattle.std.specs.Prelude.{None, false};

    /// One that isn't attached, and hasn't asked for anything. The gate lets it into its generation.
    pub fn new(pid: u32, generation: u32) -> Asked<H>
        requires { generation ≡ H.home }
        ensures child { asked_child result ≡ record
            { pid = pid; is_dead_end = false; attached = None } }
        ensures told { asked_told result ≡ nothing_told }
    {
        Asked {
            pid,
            generation,
            attached: None,
            asked: 0,
            is_told: false,
            came_as_ordinary: None,
            asked_cancel: None,
            of: PhantomData,
        }
    }
}

impl<H: Home> Seat for Asked<H> {
    ghost use Rattle.std.specs.Prelude.{Some};
    ghost use Rattle.pm_child_life.specs.Life.{HasNoStore};
    ghost use Rattle.pm_once_lives.specs.Asked.{asked_child, asked_told};

    ghost child = { asked_child };

    ghost told = { λ life. Some (asked_told life) };

    ghost rests = { HasNoStore };
}

impl<H: Home> Life for Asked<H> {
    fn pid(&self) -> u32 {
        self.pid
    }

    fn signals(&mut self) -> Signals {
        let checkpoint = !self.is_told;
        self.is_told = true;
        self.asked = self.asked.saturating_add(1);
        Signals {
            kill: false,
            quit: None,
            terminate: false,
            cancel: false,
            checkpoint,
        }
    }

    fn attach(&mut self, is_ordinary: bool) -> Result<u32, GateNo> {
        self.attached = Some(self.generation);
        self.came_as_ordinary = Some(is_ordinary);
        Ok(self.generation)
    }

    fn detach(&mut self) {
        self.attached = None;
    }

    fn cancel(&mut self, pid: u32, key: u32) -> Cancelled {
        self.asked_cancel = Some((pid, key));
        Cancelled::NoSuchPid
    }

    ghost stands_still = { λ life. tt };

    ghost rests_on = { λ before between now one two. tt };
}
