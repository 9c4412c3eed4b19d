//! Reading an error or a notice.

ghost use Rattle.std.specs.{Prelude.◌≡◌, Option.option_map};
ghost use Rattle.pm_wire.specs.Backend.{saying};
ghost use Rattle.pm_wire_back.specs.{Parts.{Gives, code_at}, BackReading.{detail_at, severity_fields, text_room, said_at, severity_at, report_at}};

use crate::parts::{Ending, Read, Stop, literal, nonzero, string};
use pm_wire::{Report, Severity};

/// Reads the detail and the end of a report, of which `left` bytes are left besides the end.
#[tactic(auto, unfolding(crate::specs::BackReading::detail_at))]
fn detail(bytes: &[u8], left: usize) -> Read<'_, Option<&str>>
    ensures { Gives (λ x. (option_map (λ text. text.now) x.0, x.1.now)) result
        (detail_at left bytes.now) }
{
    if left == 0 {
        return Ok((None, literal(b"\0", bytes)?));
    }
    let rest = literal(b"D", bytes)?;
    let (detail, rest) = string(rest, Ending::Exactly, left.saturating_sub(2))?;
    Ok((Some(detail), literal(b"\0", rest)?))
}

fn severity_fields(severity: Severity) -> &'static [u8]
    ensures { result.now ≡ severity_fields severity }
{
    match severity {
        Severity::Error => b"ERROR\0VERROR\0C",
        Severity::Fatal => b"FATAL\0VFATAL\0C",
        Severity::Panic => b"PANIC\0VPANIC\0C",
        Severity::Warning => b"WARNING\0VWARNING\0C",
    }
}

/// How many bytes of text a report of this size has room for.
fn text_room(severity: Severity, size: usize) -> usize
    ensures { result ≡ text_room severity size }
{
    size.saturating_sub(match severity {
        Severity::Warning => 28,
        _ => 24,
    })
}

#[tactic(auto, unfolding(crate::specs::BackReading::said_at))]
fn said(bytes: &[u8], severity: Severity, size: usize) -> Read<'_, Report<'_>>
    ensures { Gives (λ x. (saying x.0, x.1.now)) result (said_at severity size bytes.now) }
{
    let room = text_room(severity, size);
    let rest = literal(severity_fields(severity), bytes)?;
    let (code, rest) = code(rest)?;
    let rest = literal(b"\0M", rest)?;
    let (text, rest) = string(rest, Ending::NotOneShort, room)?;
    let (detail, rest) = detail(rest, room.saturating_sub(text.len()))?;
    let report = Report {
        severity,
        code,
        text,
        detail,
    };
    Ok((report, rest))
}

/// Reads a code.
fn code(bytes: &[u8]) -> Read<'_, [u8; 5]>
    ensures { Gives (λ x. (x.0, x.1.now)) result (code_at 5 bytes.now) }
{
    nonzero(bytes, 5)?;
    let (code, rest) = bytes.split_at(5);
    Ok(([code[0], code[1], code[2], code[3], code[4]], rest))
}

#[tactic(auto, unfolding(crate::specs::BackReading::severity_at))]
fn severity(bytes: &[u8], size: usize) -> Read<'_, Report<'_>>
    ensures { Gives (λ x. (saying x.0, x.1.now)) result (severity_at size bytes.now) }
{
    match bytes {
        [] => Err(Stop::Partial),
        [b'E', ..] => said(bytes, Severity::Error, size),
        [b'F', ..] => said(bytes, Severity::Fatal, size),
        [b'P', ..] => said(bytes, Severity::Panic, size),
        [b'W', ..] if size > 27 => said(bytes, Severity::Warning, size),
        [_, ..] => Err(Stop::Departs { left: bytes.len() }),
    }
}

#[tactic(auto, unfolding(crate::specs::BackReading::report_at))]
pub(crate) fn report(bytes: &[u8], size: usize) -> Read<'_, Report<'_>>
    ensures { Gives (λ x. (saying x.0, x.1.now)) result (report_at size bytes.now) }
{
    let rest = literal(b"S", bytes)?;
    severity(rest, size)
}
