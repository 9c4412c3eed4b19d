//! Numbers within ranges, high byte first.

ghost use Rattle.std.specs.Prelude.{◌≡◌, ◌<◌, ◌≤◌, ◌^◌, [], ◌∷◌, true, Ok, IfSome, IfNone, IfOk, IsTrue};
ghost use Rattle.pm_record.specs.Reading.{Gives, IsWithin, may_be, number_at};

use crate::fault::Unread;

/// A number from `low` to `high`, or from `low2` to `high2`; a range is empty where its first is above its last.
#[derive(Clone, Copy)]
pub struct Ranges {
    pub low: u64,
    pub high: u64,
    pub low2: u64,
    pub high2: u64,
}

// How many values so many bytes have.
fn span_of(bytes: usize) -> u64
    requires { bytes < 8 }
    ensures values { result ≡ 256 ^ bytes }
    ensures some { 0 < result }
{
    match bytes {
        0 => 1,
        1 => 0x100,
        2 => 0x1_0000,
        3 => 0x100_0000,
        4 => 0x1_0000_0000,
        5 => 0x100_0000_0000,
        6 => 0x1_0000_0000_0000,
        _ => 0x100_0000_0000_0000,
    }
}

// Whether a number within the ranges has this value in front of so many more bytes.
fn may_be(ranges: &Ranges, value: u64, left: usize) -> bool
    requires { left < 8 }
    ensures { result ≡ may_be ranges.now value left }
{
    let span = span_of(left);
    ranges.low <= ranges.high && ranges.low / span <= value && value <= ranges.high / span
        || ranges.low2 <= ranges.high2
            && ranges.low2 / span <= value
            && value <= ranges.high2 / span
}

// The first byte, and those after it.
pub fn first_of(bytes: &[u8]) -> Option<(u8, &[u8])>
    ensures some { IfSome result (λ x. bytes.now ≡ x.0 ∷ x.1.now) }
    ensures small { IfSome result (λ x. x.0 < 256) }
    ensures none { IfNone result (bytes.now ≡ []) }
{
    match bytes {
        [] => None,
        [first, rest @ ..] => Some((*first, rest)),
    }
}

// Whether a number is within the ranges.
fn is_within(ranges: &Ranges, value: u64) -> bool
    ensures { IsTrue result → IsWithin ranges.now value }
{
    ranges.low <= value && value <= ranges.high || ranges.low2 <= value && value <= ranges.high2
}

// A number of so many bytes, where all of it is there and is within the ranges: then each of its bytes may stand where
// it does, and none needs a test of its own.
fn number_in_front<'a>(bytes: &'a [u8], size: usize, ranges: &Ranges) -> Option<(u64, &'a [u8])>
    requires { size ≤ 8 }
    ensures read { IfSome result (λ x. number_at (may_be ranges.now) size 0 bytes.now
        ≡ Ok (x.0, x.1.now)) }
    ensures within { IfSome result (λ x. IsWithin ranges.now x.0) }
{
    if bytes.len() < size {
        return None;
    }
    let (front, rest) = bytes.split_at(size);
    let mut value: u64 = 0;
    for byte in front {
        value = value * 256 + u64::from(*byte);
    }
    if is_within(ranges, value) {
        Some((value, rest))
    } else {
        None
    }
}

/// A number of so many bytes.
pub fn read_number<'a>(
    bytes: &'a [u8],
    size: usize,
    ranges: &Ranges,
) -> Result<(u64, &'a [u8]), Unread>
    requires { size ≤ 8 }
    ensures read { Gives (λ x. (x.0, x.1.now)) result
        (number_at (may_be ranges.now) size 0 bytes.now) }
    ensures within { 0 < size → IfOk result (λ x. IsWithin ranges.now x.0) }
{
    match number_in_front(bytes, size, ranges) {
        Some(read) => Ok(read),
        None => read_by_bytes(bytes, size, ranges),
    }
}

// A number of so many bytes, with the place of the first that may not stand where it does.
fn read_by_bytes<'a>(
    bytes: &'a [u8],
    size: usize,
    ranges: &Ranges,
) -> Result<(u64, &'a [u8]), Unread>
    requires { size ≤ 8 }
    ensures read { Gives (λ x. (x.0, x.1.now)) result
        (number_at (may_be ranges.now) size 0 bytes.now) }
    ensures within { 0 < size → IfOk result (λ x. IsWithin ranges.now x.0) }
{
    let mut rest = bytes;
    let mut value: u64 = 0;
    for i in 0..size {
        let Some((byte, behind)) = first_of(rest) else {
            return Err(Unread::Bad { left: 0 });
        };
        value = value * 256 + u64::from(byte);
        if !may_be(ranges, value, size - 1 - i) {
            return Err(Unread::Bad { left: rest.len() });
        }
        rest = behind;
    }
    Ok((value, rest))
}
