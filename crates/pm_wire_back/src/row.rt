//! Reading a row.

ghost use Rattle.std.specs.Prelude.{◌≡◌, ◌<◌, ◌≤◌, ◌^◌, IfOk};
ghost use Rattle.pm_wire.specs.Backend.{back_message};
ghost use Rattle.pm_wire_back.specs.{Parts.Gives, Plain.IsPlain, BackReading.{one_at, count_at, pair_at, columns_at, row_at}};

use crate::parts::{Read, Stop, key, literal, text};
use pm_wire::Back;

#[tactic(auto, unfolding(crate::specs::BackReading::one_at, pm_wire::specs::Pieces::int32))]
fn one(bytes: &[u8], size: usize) -> Read<'_, Back<'_>>
    requires low { 6 ≤ size }
    requires high { size < 2 ^ 32 }
    ensures gives { Gives (λ x. (back_message x.0, x.1.now)) result (one_at size bytes.now) }
    ensures plain { IfOk result (λ x. IsPlain x.0) }
{
    let rest = literal(&((size - 6) as u32).to_be_bytes(), bytes)?;
    let (text, rest) = text(rest, size - 6)?;
    Ok((Back::One { text }, rest))
}

/// Reads one byte, from 1 to `most`.
#[tactic(auto, unfolding(crate::specs::BackReading::count_at))]
fn count(bytes: &[u8], most: usize) -> Read<'_, u8>
    ensures gives { Gives (λ x. (x.0, x.1.now)) result (count_at most bytes.now) }
    ensures within { IfOk result (λ x. (1 ≤ x.0) × (x.0 ≤ most)) }
{
    match bytes {
        [] => Err(Stop::Partial),
        [count, rest @ ..] => {
            if *count == 0 || most < *count as usize {
                return Err(Stop::Departs { left: bytes.len() });
            }
            Ok((*count, rest))
        }
    }
}

#[tactic(auto, unfolding(crate::specs::BackReading::pair_at, pm_wire::specs::Pieces::int32))]
fn pair(bytes: &[u8], size: usize) -> Read<'_, Back<'_>>
    requires low { 10 < size }
    requires high { size < 2 ^ 32 }
    ensures gives { Gives (λ x. (back_message x.0, x.1.now)) result (pair_at size bytes.now) }
    ensures plain { IfOk result (λ x. IsPlain x.0) }
{
    let room = size - 10;
    let rest = literal(b"\0\0\0", bytes)?;
    let (count, rest) = count(rest, if room < 20 { room } else { 20 })?;
    let (key, rest) = key(rest, u32::from(count))?;
    let value_size = room - count as usize;
    let rest = literal(&(value_size as u32).to_be_bytes(), rest)?;
    let (value, rest) = text(rest, value_size)?;
    Ok((Back::Pair { key, value }, rest))
}

#[tactic(auto, unfolding(crate::specs::BackReading::columns_at))]
fn columns(bytes: &[u8], size: usize) -> Read<'_, Back<'_>>
    requires low { 6 ≤ size }
    requires high { size < 2 ^ 32 }
    ensures gives { Gives (λ x. (back_message x.0, x.1.now)) result (columns_at size bytes.now) }
    ensures plain { IfOk result (λ x. IsPlain x.0) }
{
    match bytes {
        [] => Err(Stop::Partial),
        [1, rest @ ..] => one(rest, size),
        [2, rest @ ..] if size > 10 => pair(rest, size),
        [_, ..] => Err(Stop::Departs { left: bytes.len() }),
    }
}

#[tactic(auto, unfolding(crate::specs::BackReading::row_at))]
pub(crate) fn row(bytes: &[u8], size: usize) -> Read<'_, Back<'_>>
    requires low { 6 ≤ size }
    requires high { size < 2 ^ 32 }
    ensures gives { Gives (λ x. (back_message x.0, x.1.now)) result (row_at size bytes.now) }
    ensures plain { IfOk result (λ x. IsPlain x.0) }
{
    let rest = literal(b"\0", bytes)?;
    columns(rest, size)
}
