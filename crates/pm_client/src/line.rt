//! A message of the server as a line of text.
ghost use Rattle.std.specs.{Prelude.{◌≡◌, ◌++◌, OnOk, codes, decimal}, Fmt.signed_decimal};
ghost use Rattle.pm_wire_back.specs.{pm_wire.Backend.{back_message, saying, severity_word, tag_text}, Plain.IsPlain};
ghost use Rattle.pm_client.specs.Show.{is_ready, line_of, told_text};

use itoa::Buffer;
use pm_wire::{Back, Report, Severity, Tag};
use std::alloc::AllocError;

/// Appends the line of a message that is shown. Where memory runs out, a part of it may be appended.
pub(crate) fn put_line(page: &mut Vec<u8>, message: &Back) -> Result<(), AllocError>
    requires { IsPlain message.now }
    ensures { OnOk result (page.new.items ≡ page.old.items ++ line_of (back_message message.now)) }
{
    match *message {
        Back::Pair { key, value } => put_row(page, key, value),
        Back::One { text } => {
            page.extend_from_slice(text.as_bytes())?;
            page.extend_from_slice(b"\n")
        }
        Back::Complete(tag) => put_tag(page, tag),
        Back::Fault(report) | Back::Notice(report) => put_report(page, &report),
        Back::Auth
        | Back::Param { .. }
        | Back::Key { .. }
        | Back::Ready
        | Back::Fields(_)
        | Back::Empty => Ok(()),
        Back::Told(_) => unreachable!(),
    }
}

/// Whether the server waits for the next query after this message.
pub(crate) fn ends_answer(message: &Back) -> bool
    requires { IsPlain message.now }
    ensures { result ≡ is_ready (back_message message.now) }
{
    match *message {
        Back::Ready => true,
        Back::Auth
        | Back::Param { .. }
        | Back::Key { .. }
        | Back::Fields(_)
        | Back::Pair { .. }
        | Back::One { .. }
        | Back::Complete(_)
        | Back::Empty
        | Back::Fault(_)
        | Back::Notice(_) => false,
        Back::Told(_) => unreachable!(),
    }
}

fn put_row(page: &mut Vec<u8>, key: i64, value: &str) -> Result<(), AllocError>
    ensures { OnOk result (page.new.items ≡ page.old.items ++ (signed_decimal key ++ codes "|"
        ++ value.now ++ codes "\n")) }
{
    page.extend_from_slice(Buffer::new().format(key).as_bytes())?;
    page.extend_from_slice(b"|")?;
    page.extend_from_slice(value.as_bytes())?;
    page.extend_from_slice(b"\n")
}

fn put_tag(page: &mut Vec<u8>, tag: Tag) -> Result<(), AllocError>
    ensures { OnOk result (page.new.items ≡ page.old.items ++ (tag_text tag ++ codes "\n")) }
{
    match tag {
        Tag::Insert(rows) => put_counted(page, b"INSERT 0 ", rows),
        Tag::Update(rows) => put_counted(page, b"UPDATE ", rows),
        Tag::Delete(rows) => put_counted(page, b"DELETE ", rows),
        Tag::Select(rows) => put_counted(page, b"SELECT ", rows),
    }
}

fn put_counted(page: &mut Vec<u8>, verb: &[u8], rows: u64) -> Result<(), AllocError>
    ensures { OnOk result (page.new.items ≡ page.old.items ++ (verb.now ++ decimal rows
        ++ codes "\n")) }
{
    page.extend_from_slice(verb)?;
    page.extend_from_slice(Buffer::new().format(rows).as_bytes())?;
    page.extend_from_slice(b"\n")
}

fn put_report(page: &mut Vec<u8>, report: &Report) -> Result<(), AllocError>
    ensures { OnOk result (page.new.items ≡ page.old.items ++ (told_text (saying report.now)
        ++ codes "\n")) }
{
    page.extend_from_slice(severity_word(report.severity))?;
    page.extend_from_slice(b":  ")?;
    page.extend_from_slice(&report.code)?;
    page.extend_from_slice(b" ")?;
    page.extend_from_slice(report.text.as_bytes())?;
    page.extend_from_slice(b"\n")
}

fn severity_word(severity: Severity) -> &'static [u8]
    ensures { result.now ≡ severity_word severity }
{
    match severity {
        Severity::Error => b"ERROR",
        Severity::Fatal => b"FATAL",
        Severity::Panic => b"PANIC",
        Severity::Warning => b"WARNING",
    }
}
