//! What a client sends, as bytes. Where memory runs out, a part of a message may be appended.

ghost use Rattle.std.specs.Prelude.{◌≡◌, ◌≤◌, ◌-◌, ◌^◌, ◌++◌, ◌↔◌, IsTrue, OnOk, length};
ghost use Rattle.pm_wire.specs.Pieces.{int32};
ghost use Rattle.pm_wire_front.specs.Requests.{IsSayable, query, start_packet, terminate};

use byteorder::{BigEndian, ByteOrder};
use std::alloc::AllocError;

/// The most bytes of a text that a message can hold as a string.
const MOST_TEXT: usize = 2_147_483_616;

/// Version 3.0 of the protocol.
const VERSION: u32 = 196_608;

/// The bytes of a startup packet besides its user's name.
const START_BYTES: u32 = 15;

/// What the length of a query counts besides its text.
const QUERY_BYTES: u32 = 5;

/// Whether a message can hold the text as a string: it has no zero byte, and isn't too long.
pub fn can_say(text: &str) -> bool
    ensures { IsTrue result ↔ IsSayable text.now }
{
    text.len() <= MOST_TEXT && !text.as_bytes().contains(&0)
}

// A number in four bytes, the highest first.
#[tactic(auto, unfolding(pm_wire::specs::Pieces::int32))]
fn int32(n: u32) -> [u8; 4]
    ensures { result ≡ int32 n }
{
    let mut bytes = [0; 4];
    BigEndian::write_u32(&mut bytes, n);
    bytes
}

/// Appends a startup packet for this user.
#[tactic(auto, using(pm_wire::specs::Numbers::length_int32))]
pub fn put_start(out: &mut Vec<u8>, user: &str) -> Result<(), AllocError>
    requires { length user.now ≤ 2 ^ 31 - 32 }
    ensures { OnOk result (out.new.items ≡ out.old.items ++ start_packet user.now) }
{
    out.extend_from_slice(&int32(user.len() as u32 + START_BYTES))?;
    out.extend_from_slice(&int32(VERSION))?;
    out.extend_from_slice(b"user\0")?;
    out.extend_from_slice(user.as_bytes())?;
    out.extend_from_slice(b"\0\0")
}

/// Appends a query.
pub fn put_query(out: &mut Vec<u8>, text: &str) -> Result<(), AllocError>
    requires { length text.now ≤ 2 ^ 31 - 32 }
    ensures { OnOk result (out.new.items ≡ out.old.items ++ query text.now) }
{
    out.extend_from_slice(b"Q")?;
    out.extend_from_slice(&int32(text.len() as u32 + QUERY_BYTES))?;
    out.extend_from_slice(text.as_bytes())?;
    out.extend_from_slice(b"\0")
}

/// The message that ends a session.
#[tactic(auto, unfolding(pm_wire::specs::Pieces::int32))]
pub fn terminate() -> &'static [u8]
    ensures { result.now ≡ terminate }
{
    b"X\0\0\0\x04"
}
