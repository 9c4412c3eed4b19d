//! Reading what a statement did.

ghost use Rattle.std.specs.Prelude.{◌≡◌, ◌<◌, ◌≤◌, IfOk};
ghost use Rattle.pm_wire.specs.Backend.{back_message};
ghost use Rattle.pm_wire_back.specs.{Parts.Gives, Plain.IsPlain, BackReading.{counted_verb_at, leaves_number, tag_at, complete_at}};

use crate::parts::{Read, Stop, literal, number};
use pm_wire::{Back, Tag};

/// Reads a tag with this text before its number, of `count` digits: the number.
#[tactic(auto, unfolding(crate::specs::BackReading::counted_verb_at))]
fn verb<'a>(bytes: &'a [u8], verb: &[u8], count: u32) -> Read<'a, u64>
    requires { count ≤ 20 }
    ensures { Gives (λ x. (x.0, x.1.now)) result (counted_verb_at verb.now count bytes.now) }
{
    let rest = literal(verb, bytes)?;
    let (rows, rest) = number(rest, count, u64::MAX, true)?;
    let rest = literal(b"\0", rest)?;
    Ok((rows, rest))
}

/// Whether a tag whose text is so long leaves a number of 1 to 20 digits.
pub(crate) fn leaves_number(len: usize, size: usize) -> bool
    requires { len < 64 }
    ensures { result ≡ leaves_number len size }
{
    len + 1 < size && size < len + 22
}

#[tactic(auto, unfolding(crate::specs::BackReading::tag_at))]
fn tag_of(bytes: &[u8], size: usize) -> Read<'_, Tag>
    ensures { Gives (λ x. (x.0, x.1.now)) result (tag_at size bytes.now) }
{
    let short = leaves_number(7, size);
    match bytes {
        [] => Err(Stop::Partial),
        [b'I', ..] if leaves_number(9, size) => {
            let (rows, rest) = verb(bytes, b"INSERT 0 ", (size - 10) as u32)?;
            Ok((Tag::Insert(rows), rest))
        }
        [b'U', ..] if short => {
            let (rows, rest) = verb(bytes, b"UPDATE ", (size - 8) as u32)?;
            Ok((Tag::Update(rows), rest))
        }
        [b'D', ..] if short => {
            let (rows, rest) = verb(bytes, b"DELETE ", (size - 8) as u32)?;
            Ok((Tag::Delete(rows), rest))
        }
        [b'S', ..] if short => {
            let (rows, rest) = verb(bytes, b"SELECT ", (size - 8) as u32)?;
            Ok((Tag::Select(rows), rest))
        }
        [_, ..] => Err(Stop::Departs { left: bytes.len() }),
    }
}

#[tactic(auto, unfolding(crate::specs::BackReading::complete_at))]
pub(crate) fn tag(bytes: &[u8], size: usize) -> Read<'_, Back<'_>>
    ensures gives { Gives (λ x. (back_message x.0, x.1.now)) result (complete_at size bytes.now) }
    ensures plain { IfOk result (λ x. IsPlain x.0) }
{
    let (tag, rest) = tag_of(bytes, size)?;
    Ok((Back::Complete(tag), rest))
}
