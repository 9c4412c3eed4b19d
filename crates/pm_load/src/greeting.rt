//! What a server says first.
ghost use Rattle.std.specs.Prelude.{◌≡◌, ◌≤◌, ◌+◌, ◌∷◌, ◌++◌, [], OnOk, length};
ghost use Rattle.pm_wire.specs.Backend.{Param};
ghost use Rattle.pm_session_exchange.specs.{pm_query.pm_facts.Zeros.HasNoZero, Sent.{bytes_of, greeting}};

use crate::say::say;
use pm_wire::{Back, Bytes};
use std::alloc::AllocError;

/// Appends the greeting of a session: AuthenticationOk, its settings, its cancel key and ReadyForQuery.
pub(crate) fn put_greeting(out: &mut Bytes, pid: u32, key: u32) -> Result<(), AllocError>
    ensures { OnOk result (out.new ≡ out.old ++ bytes_of (greeting pid key)) }
{
    say(out, &Back::Auth)?;
    put_setting(out, "server_version", "16.0")?;
    put_setting(out, "server_encoding", "UTF8")?;
    put_setting(out, "client_encoding", "UTF8")?;
    put_setting(out, "DateStyle", "ISO, MDY")?;
    put_setting(out, "integer_datetimes", "on")?;
    put_setting(out, "standard_conforming_strings", "on")?;
    say(out, &Back::Key { pid, key })?;
    say(out, &Back::Ready)?;
    Ok(())
}

fn put_setting(out: &mut Bytes, name: &str, value: &str) -> Result<(), AllocError>
    requires words { HasNoZero name.now × HasNoZero value.now }
    requires short { length name.now + length value.now ≤ 60 }
    ensures { OnOk result (out.new ≡ out.old ++ bytes_of (Param name.now value.now ∷ [])) }
{
    say(out, &Back::Param { name, value })
}
