//! A message of the server, spelled.
ghost use Rattle.std.specs.Prelude.{◌≡◌, ◌∷◌, ◌++◌, [], OnOk};
ghost use Rattle.pm_wire.specs.Backend.{IsWritable, back_message};
ghost use Rattle.pm_session_exchange.specs.Sent.{bytes_of};

use pm_wire::{Back, Bytes};
use std::alloc::AllocError;

/// Appends a message.
#[tactic(auto, unfolding(pm_session_exchange::specs::Sent::bytes_of))]
pub(crate) fn say(out: &mut Bytes, message: &Back) -> Result<(), AllocError>
    requires { IsWritable (back_message message.now) }
    ensures { OnOk result (out.new ≡ out.old ++ bytes_of (back_message message.now ∷ [])) }
{
    message.write(out)
}
