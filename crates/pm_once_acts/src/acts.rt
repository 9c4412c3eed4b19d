//! The acts that are due, one after the other.

ghost use Rattle.pm_once_acts.specs.Loop.{AreDone};

use pm_server::ServerEnd;

/// A server that does the acts of its machine one at a time.
pub trait Acting {
    ghost use Rattle.std.specs.Prelude.{◌≡◌, ◌+◌, ℕ, Bool, Result, Ok, true};
    ghost use Rattle.pm_server.specs.declared.end.ServerEnd.{ServerEnd};

    /// It stands where the next act may be done.
    ghost may: { Self → Type 0 };

    /// How many acts are due.
    ghost due: { Self → ℕ };

    /// What the doing of the next act leaves, by its answer: whether there was one, or how the server ended by it.
    ghost does: { Result Bool ServerEnd → Self → Self → Type 0 };

    /// Does the next act that is due, and tells whether there was one.
    fn do_next(&mut self) -> Result<bool, ServerEnd>
        requires { may self.old }
        ensures does { does result self.old self.new }
        ensures goes_on { result ≡ Ok true → may self.new }
        ensures fewer { result ≡ Ok true → due self.new + 1 ≡ due self.old };
}

/// Does all acts that are due, in their order, up to one that ends the server.
pub fn act_all<A: Acting>(server: &mut A) -> Result<(), ServerEnd>
    requires { A.may server.old }
    ensures { AreDone A.does result server.old server.new }
{
    'acts: loop {
        match server.do_next() {
            Ok(true) => {}
            Ok(false) => return Ok(()),
            Err(end) => return Err(end),
        }
    }
}
