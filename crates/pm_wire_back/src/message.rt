//! Reading a message of the server: its type, its length and its body.

ghost use Rattle.std.specs.Prelude.{◌≡◌, ◌<◌, ◌≤◌, ◌^◌, length, true, IfOk};
ghost use Rattle.pm_wire.specs.{Backend.back_message, Reading.seen_by, Taking.IfWhole};
ghost use Rattle.pm_wire_back.specs.{Parts.Gives, Plain.IsPlain, BackReading.{word_at, param_at, key_data_at, fits_type, fields_at, body_at, has_length, back_of_length, back_of}};

use crate::parts::{Ending, Read, Stop, int32, literal, string};
use crate::report::report;
use crate::row::row;
use crate::tag::{leaves_number, tag};
use byteorder::{BigEndian, ByteOrder};
use pm_wire::{Back, Shape, Take, WireFault};

/// Reads a message whose body is this word.
#[tactic(auto, unfolding(crate::specs::BackReading::word_at))]
fn word<'a>(word: &[u8], value: Back<'a>, bytes: &'a [u8]) -> Read<'a, Back<'a>>
    requires { IsPlain value }
    ensures gives { Gives (λ x. (back_message x.0, x.1.now)) result
        (word_at word.now (back_message value.entry) bytes.now) }
    ensures plain { IfOk result (λ x. IsPlain x.0) }
{
    let rest = literal(word, bytes)?;
    Ok((value, rest))
}

#[tactic(auto, unfolding(crate::specs::BackReading::param_at))]
fn param(bytes: &[u8], size: usize) -> Read<'_, Back<'_>>
    requires { 2 ≤ size }
    ensures gives { Gives (λ x. (back_message x.0, x.1.now)) result (param_at size bytes.now) }
    ensures plain { IfOk result (λ x. IsPlain x.0) }
{
    let (name, rest) = string(bytes, Ending::Anywhere, size - 2)?;
    let (value, rest) = string(rest, Ending::Exactly, (size - 2).saturating_sub(name.len()))?;
    Ok((Back::Param { name, value }, rest))
}

#[tactic(auto, unfolding(crate::specs::BackReading::key_data_at))]
fn key_data(bytes: &[u8]) -> Read<'_, Back<'_>>
    ensures gives { Gives (λ x. (back_message x.0, x.1.now)) result (key_data_at bytes.now) }
    ensures plain { IfOk result (λ x. IsPlain x.0) }
{
    let (pid, rest) = int32(bytes)?;
    let (key, rest) = int32(rest)?;
    Ok((Back::Key { pid, key }, rest))
}

/// Whether a message of the type has a body of so many bytes.
fn fits_type(kind: u8, size: usize) -> bool
    ensures { result ≡ fits_type kind size }
{
    match kind {
        b'R' => size == 4,
        b'S' => size > 1,
        b'K' => size == 8,
        b'Z' => size == 1,
        b'T' => size == 42 || size == 26 || size == 29,
        b'D' => size > 5,
        b'C' => leaves_number(9, size) || leaves_number(7, size),
        b'I' => size == 0,
        _ => size > 23,
    }
}

fn fields(bytes: &[u8], size: usize) -> Read<'_, Back<'_>>
    ensures gives { Gives (λ x. (back_message x.0, x.1.now)) result (fields_at size bytes.now) }
    ensures plain { IfOk result (λ x. IsPlain x.0) }
{
    let shape = match size {
        42 => Shape::Pair,
        26 => Shape::Count,
        _ => Shape::Sleep,
    };
    word(shape.description(), Back::Fields(shape), bytes)
}

/// Reads a body of a size that fits its type.
#[tactic(auto, unfolding(crate::specs::BackReading::body_at, pm_wire::specs::Pieces::int32))]
fn body(kind: u8, size: usize, bytes: &[u8]) -> Read<'_, Back<'_>>
    requires fits { fits_type kind size ≡ true }
    requires high { size < 2 ^ 31 }
    ensures gives { Gives (λ x. (back_message x.0, x.1.now)) result (body_at kind size bytes.now) }
    ensures plain { IfOk result (λ x. IsPlain x.0) }
{
    match kind {
        b'R' => word(b"\0\0\0\0", Back::Auth, bytes),
        b'S' => param(bytes, size),
        b'K' => key_data(bytes),
        b'Z' => word(b"I", Back::Ready, bytes),
        b'T' => fields(bytes, size),
        b'D' => row(bytes, size),
        b'C' => tag(bytes, size),
        b'I' => word(b"", Back::Empty, bytes),
        b'E' => {
            let (report, rest) = report(bytes, size)?;
            Ok((Back::Fault(report), rest))
        }
        _ => {
            let (report, rest) = report(bytes, size)?;
            Ok((Back::Notice(report), rest))
        }
    }
}

/// The types of the server's messages.
const TYPES: [u8; 10] = *b"RSKZTDCIEN";

fn has_length(kind: u8, seen: u32) -> bool
    ensures { result ≡ has_length kind seen }
{
    seen > 3 && seen < 1 << 31 && fits_type(kind, (seen - 4) as usize)
}

/// Reads a message after its type and its length.
fn behind_length(kind: u8, seen: u32, after: &[u8]) -> Take<Back<'_>>
    requires { length after.now < 2 ^ 63 }
    ensures seen { seen_by back_message result ≡ back_of_length kind seen after.now }
    ensures plain { IfWhole result (λ value used. IsPlain value) }
{
    if !has_length(kind, seen) {
        return Take::Bad(WireFault::BadLength { seen });
    }
    let whole = seen as usize + 1;
    match body(kind, seen as usize - 4, after) {
        Ok((value, _)) => Take::Whole { value, used: whole },
        Err(Stop::Partial) => Take::Short { wanted: whole },
        Err(Stop::Departs { left }) => Take::Bad(WireFault::BadForm {
            at: (5 + after.len()).saturating_sub(left),
        }),
    }
}

#[tactic(auto, unfolding(crate::specs::BackReading::back_of))]
pub(crate) fn back_of(bytes: &[u8]) -> Take<Back<'_>>
    ensures seen { seen_by back_message result ≡ back_of bytes.now }
    ensures plain { IfWhole result (λ value used. IsPlain value) }
{
    match bytes {
        [] => Take::Short { wanted: 5 },
        [kind, ..] if !TYPES.contains(kind) => Take::Bad(WireFault::BadForm { at: 0 }),
        [kind, rest @ ..] => {
            if rest.len() < 4 {
                return Take::Short { wanted: 5 };
            }
            behind_length(*kind, BigEndian::read_u32(rest), &rest[4..])
        }
    }
}
