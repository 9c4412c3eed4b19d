//! Texts, and fields that hold them.

ghost use Rattle.std.specs.Prelude.{◌≡◌, true, false, Ok, IfSome, IfNone, IsSome};
ghost use Rattle.pm_utf8.specs.Utf8.{boundary};
ghost use Rattle.pm_record.specs.{Reading.{Gives, left_of, may_follow, next_of, text_at}, Changes.{key_at, string_at}};

use crate::fault::Unread;
use crate::number::{Ranges, first_of, read_number};
use pm_rows::Text;
use pm_utf8::{Awaited, BOUNDARY, after};
use std::alloc::Global;

/// Any number of eight bytes.
pub const ANY: Ranges = Ranges {
    low: 0,
    high: u64::MAX,
    low2: 1,
    high2: 0,
};

// What may follow a byte that has so many bytes after it, where the byte may stand here.
fn follow(state: Awaited, n: usize, byte: u8) -> Option<Awaited>
    ensures some { IfSome result (λ next. (may_follow state n byte ≡ true)
        × (next ≡ next_of state byte)) }
    ensures none { IfNone result (may_follow state n byte ≡ false) }
{
    match after(state, byte) {
        Some(next) => { if next.more <= n { Some(next) } else { None } }
        None => None,
    }
}

// Where bytes stop being the front of a text of so many bytes: how many are left from there on. None where they are such
// a text, with bytes after it.
fn text_left(count: usize, bytes: &[u8]) -> Option<usize>
    ensures { result ≡ left_of (text_at count boundary bytes.now) }
{
    let mut rest = bytes;
    let mut state = BOUNDARY;
    for i in 0..count {
        let Some((byte, behind)) = first_of(rest) else {
            return Some(0);
        };
        let Some(next) = follow(state, count - 1 - i, byte) else {
            return Some(rest.len());
        };
        state = next;
        rest = behind;
    }
    None
}

// A text of so many bytes, where one is in front, and the bytes after it.
fn text_in_front(count: usize, bytes: &[u8]) -> Option<(&str, &[u8])>
    ensures some { IfSome result (λ x. text_at count boundary bytes.now ≡ Ok (x.0.now, x.1.now)) }
    ensures none { IfNone result (IsSome (left_of (text_at count boundary bytes.now))) }
{
    if bytes.len() < count {
        return None;
    }
    let (front, rest) = bytes.split_at(count);
    match str::from_utf8(front) {
        Ok(text) => Some((text, rest)),
        Err(_) => None,
    }
}

/// A text of so many bytes. Only where there is none are the bytes looked at one by one.
pub fn read_text(alloc: Global, count: usize, bytes: &[u8]) -> Result<(Text, &[u8]), Unread>
    ensures { Gives (λ x. (x.0, x.1.now)) result (text_at count boundary bytes.now) }
{
    let Some((text, rest)) = text_in_front(count, bytes) else {
        let Some(left) = text_left(count, bytes) else {
            unreachable!()
        };
        return Err(Unread::Bad { left });
    };
    Ok((Text::of(alloc, text)?, rest))
}

/// A key.
pub fn read_key(bytes: &[u8]) -> Result<(i64, &[u8]), Unread>
    ensures { Gives (λ x. (x.0, x.1.now)) result (key_at bytes.now) }
{
    let (key, rest) = read_number(bytes, 8, &ANY)?;
    Ok((key.cast_signed(), rest))
}

/// A text after its length, which is within ranges.
pub fn read_string<'a>(
    alloc: Global,
    ranges: &Ranges,
    bytes: &'a [u8],
) -> Result<(Text, &'a [u8]), Unread>
    ensures { Gives (λ x. (x.0, x.1.now)) result (string_at ranges.now bytes.now) }
{
    let (count, rest) = read_number(bytes, 4, ranges)?;
    read_text(alloc, count as usize, rest)
}
