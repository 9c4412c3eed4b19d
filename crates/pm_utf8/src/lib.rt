//! UTF-8 as a rule on each byte and what stands before it, for readers that meet a text byte by byte.
#![tactic(auto)]

ghost use Rattle.std.specs.Prelude.{◌≡◌};
ghost use Rattle.pm_utf8.specs.Utf8.{lead, after};

mod laws;

pub use laws::{
    text_ends_between_characters, text_has_no_byte_past_the_last, text_needs_what_is_awaited,
};

/// What may follow the bytes of a text so far: `more` bytes of a character that has begun, the next of
/// them from `low` to `high`, or the first byte of a character where `more` is 0.
#[derive(Clone, Copy, Debug, PartialEq, Eq)]
pub struct Awaited {
    pub more: usize,
    pub low: u8,
    pub high: u8,
}

/// Between two characters, or at an end of the text.
pub const BOUNDARY: Awaited = Awaited {
    more: 0,
    low: 0x80,
    high: 0xbf,
};

/// What may follow the byte, or none where it can't stand here.
pub fn after(state: Awaited, byte: u8) -> Option<Awaited>
    ensures { result ≡ after state byte }
{
    if state.more == 0 {
        return lead(byte);
    }
    if byte < state.low || state.high < byte {
        return None;
    }
    Some(Awaited {
        more: state.more - 1,
        ..BOUNDARY
    })
}

/// What may follow the first byte of a character.
fn lead(byte: u8) -> Option<Awaited>
    ensures { result ≡ lead byte }
{
    let more = match byte {
        0..=0x7f => return Some(BOUNDARY),
        0xc2..=0xdf => 1,
        0xe0..=0xef => 2,
        0xf0..=0xf4 => 3,
        _ => return None,
    };
    let low = match byte {
        0xe0 => 0xa0,
        0xf0 => 0x90,
        _ => 0x80,
    };
    let high = match byte {
        0xed => 0x9f,
        0xf4 => 0x8f,
        _ => 0xbf,
    };
    Some(Awaited { more, low, high })
}
