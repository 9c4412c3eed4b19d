//! Reading the parts of a message of the server, one after the other. Each reader answers what it read
//! and the bytes after it, or where no message goes on.

ghost use Rattle.std.specs.{Prelude.{◌≡◌, ◌≤◌, ◌<◌, ◌+◌, ◌==◌, ◌&&◌, length, take, drop, OnOk, IfOk, IfSome, IfNone, true, false, not, ◌*◌, ◌^◌, ◌/◌, ◌⊎◌}, Str.IsUtf8, Char.is_ascii_digit};
ghost use Rattle.pm_utf8.specs.Utf8.{boundary, after};
ghost use Rattle.pm_wire_back.specs.Parts.{Gives, literal_at, int32_at, code_at, fitting, string_at, text_at, may_end, behind_digit, number_at, negative, key_at};

use byteorder::{BigEndian, ByteOrder};
use pm_utf8::{Awaited, BOUNDARY, after};

/// Why a part isn't read.
#[derive(Clone, Copy, PartialEq, Eq)]
pub(crate) enum Stop {
    /// The bytes end within it.
    Partial,
    /// No message has the byte there; so many bytes are left from it on.
    Departs { left: usize },
}

/// What was read, and the bytes after it.
pub(crate) type Read<'a, T> = Result<(T, &'a [u8]), Stop>;

/// Where a string may end, by how many more bytes of text there is room for.
#[derive(Clone, Copy, PartialEq, Eq)]
pub(crate) enum Ending {
    Anywhere,
    /// Not with room for one more, since a further field needs three bytes with the end, and no field one.
    NotOneShort,
    /// With no room left.
    Exactly,
}

/// Whether a string may end here.
fn may_end(ending: Ending, left: usize) -> bool
    ensures { result ≡ may_end ending left }
{
    match ending {
        Ending::Anywhere => true,
        Ending::NotOneShort => left != 1,
        Ending::Exactly => left == 0,
    }
}

/// Reads this word and no other.
pub(crate) fn literal<'a>(word: &[u8], bytes: &'a [u8]) -> Result<&'a [u8], Stop>
    ensures { Gives (λ rest. (tt, rest.now)) result (literal_at word.now bytes.now) }
{
    for (i, letter) in word.iter().enumerate() {
        if i >= bytes.len() {
            return Err(Stop::Partial);
        }
        if bytes[i] != *letter {
            return Err(Stop::Departs {
                left: bytes.len() - i,
            });
        }
    }
    Ok(bytes.split_at(word.len()).1)
}

/// Reads a number of four bytes.
#[tactic(auto, unfolding(crate::specs::Parts::int32_at))]
pub(crate) fn int32(bytes: &[u8]) -> Read<'_, u32>
    ensures { Gives (λ x. (x.0, x.1.now)) result (int32_at bytes.now) }
{
    if bytes.len() < 4 {
        return Err(Stop::Partial);
    }
    Ok((BigEndian::read_u32(bytes), &bytes[4..]))
}

/// Reads `count` bytes, none of them zero.
pub(crate) fn nonzero(bytes: &[u8], count: usize) -> Result<(), Stop>
    ensures gives { Gives (λ _. (take count bytes.now, drop count bytes.now)) result
        (code_at count bytes.now) }
    ensures long { OnOk result (count ≤ length bytes.now) }
{
    for i in 0..count {
        if i >= bytes.len() {
            return Err(Stop::Partial);
        }
        if bytes[i] == 0 {
            return Err(Stop::Departs {
                left: bytes.len() - i,
            });
        }
    }
    Ok(())
}

/// The state after one more byte, of which there is room for `left`, or none where no text has the byte there.
fn fitting(state: Awaited, byte: u8, left: usize) -> Option<Awaited>
    ensures { result ≡ fitting left (after state byte) }
{
    after(state, byte).filter(|next| next.more < left)
}

/// Reads a text of `count` bytes: whether it is one.
fn text_end(bytes: &[u8], count: usize) -> Result<(), Stop>
    ensures gives { Gives (λ _. (take count bytes.now, drop count bytes.now)) result
        (text_at boundary count bytes.now) }
    ensures text { OnOk result (IsUtf8 (take count bytes.now)) }
    ensures long { OnOk result (count ≤ length bytes.now) }
{
    let mut state = BOUNDARY;
    for i in 0..count {
        if i >= bytes.len() {
            return Err(Stop::Partial);
        }
        match fitting(state, bytes[i], count - i) {
            Some(next) => state = next,
            None => {
                return Err(Stop::Departs {
                    left: bytes.len() - i,
                });
            }
        }
    }
    Ok(())
}

/// Reads a text of `count` bytes.
pub(crate) fn text(bytes: &[u8], count: usize) -> Read<'_, &str>
    ensures { Gives (λ x. (x.0.now, x.1.now)) result (text_at boundary count bytes.now) }
{
    text_end(bytes, count)?;
    let text = unsafe { str::from_utf8_unchecked(&bytes[..count]) };
    Ok((text, &bytes[count..]))
}

/// A zero that isn't inside a character.
fn ends_string(state: Awaited, byte: u8) -> bool
    ensures { result ≡ (state.more == 0 && byte == 0) }
{
    state.more == 0 && byte == 0
}

/// Reads a string with room for `room` bytes of text: where its zero stands.
fn string_end(bytes: &[u8], ending: Ending, room: usize) -> Result<usize, Stop>
    ensures gives { Gives (λ end. (take end bytes.now, drop (end + 1) bytes.now)) result
        (string_at ending boundary room bytes.now) }
    ensures text { IfOk result (λ end. IsUtf8 (take end bytes.now)) }
    ensures place { IfOk result (λ end. end < length bytes.now) }
{
    let mut state = BOUNDARY;
    for (i, byte) in bytes.iter().enumerate() {
        if ends_string(state, *byte) {
            if may_end(ending, room - i) {
                return Ok(i);
            }
            return Err(Stop::Departs {
                left: bytes.len() - i,
            });
        }
        match fitting(state, *byte, room - i) {
            Some(next) => state = next,
            None => {
                return Err(Stop::Departs {
                    left: bytes.len() - i,
                });
            }
        }
    }
    Err(Stop::Partial)
}

/// Reads a string with room for `room` bytes of text.
pub(crate) fn string(bytes: &[u8], ending: Ending, room: usize) -> Read<'_, &str>
    ensures { Gives (λ x. (x.0.now, x.1.now)) result (string_at ending boundary room bytes.now) }
{
    let end = string_end(bytes, ending, room)?;
    let text = unsafe { str::from_utf8_unchecked(&bytes[..end]) };
    Ok((text, &bytes[end + 1..]))
}

/// The number after one more digit, of which `more` are to come, or none where no number at most
/// `limit` goes on so.
fn behind_digit(value: u64, byte: u8, more: u32, limit: u64, zeros: bool) -> Option<u64>
    requires few { more < 20 }
    requires small { value * 10 ^ (more + 1) ≤ limit }
    ensures next { IfSome result (λ next. (next ≡ behind_digit value byte)
        × (next * 10 ^ more ≤ limit)) }
    ensures digit { IfSome result (λ next. (is_ascii_digit byte ≡ true)
        × ((next == 0 && not (zeros && more == 0)) ≡ false)) }
    ensures none { IfNone result ((is_ascii_digit byte ≡ false)
        ⊎ ((limit / 10 ^ more < behind_digit value byte)
        ⊎ ((behind_digit value byte == 0 && not (zeros && more == 0)) ≡ true))) }
{
    if !byte.is_ascii_digit() {
        return None;
    }
    let digit = u64::from(byte - b'0');
    let most = limit / 10u64.pow(more);
    let tens = 10 * value;
    if digit > most - tens {
        return None;
    }
    let next = tens + digit;
    if next == 0 && !(zeros && more == 0) {
        return None;
    }
    Some(next)
}

/// Reads a number of `count` decimal digits, at most `limit`, without a leading zero, and 0 itself where
/// `zeros` allows it.
pub(crate) fn number(bytes: &[u8], count: u32, limit: u64, zeros: bool) -> Read<'_, u64>
    requires { count ≤ 20 }
    ensures gives { Gives (λ x. (x.0, x.1.now)) result (number_at zeros limit 0 count bytes.now) }
    ensures within { IfOk result (λ x. x.0 ≤ limit) }
    ensures positive { IfOk result (λ x. zeros ≡ false → 0 < count → 0 < x.0) }
{
    let mut value = 0;
    for i in 0..count {
        let at = i as usize;
        if at >= bytes.len() {
            return Err(Stop::Partial);
        }
        match behind_digit(value, bytes[at], count - i - 1, limit, zeros) {
            Some(next) => value = next,
            None => {
                return Err(Stop::Departs {
                    left: bytes.len() - at,
                });
            }
        }
    }
    Ok((value, bytes.split_at(count as usize).1))
}

/// Reads a signed number of 64 bits, of `count` bytes.
#[tactic(auto, unfolding(crate::specs::Parts::key_at))]
pub(crate) fn key(bytes: &[u8], count: u32) -> Read<'_, i64>
    requires low { 1 ≤ count }
    requires high { count ≤ 20 }
    ensures { Gives (λ x. (x.0, x.1.now)) result (key_at count bytes.now) }
{
    let departs = Stop::Departs { left: bytes.len() };
    match bytes {
        [] => Err(Stop::Partial),
        [b'-', rest @ ..] => {
            if count == 1 {
                return Err(departs);
            }
            let (size, rest) = number(rest, count - 1, 1 << 63, false)?;
            Ok((negative(size), rest))
        }
        [_, ..] => {
            if count == 20 {
                return Err(departs);
            }
            let (value, rest) = number(bytes, count, (1 << 63) - 1, true)?;
            Ok((value as i64, rest))
        }
    }
}

/// A number below 0, by its size.
fn negative(size: u64) -> i64
    requires low { 0 < size }
    requires high { size ≤ 2 ^ 63 }
    ensures { result ≡ negative size }
{
    -1 - (size - 1) as i64
}
