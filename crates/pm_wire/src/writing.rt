//! Messages of the server as bytes.

ghost use Rattle.std.specs.{Prelude.{◌≡◌, ◌+◌, ◌-◌, ◌<◌, ◌≤◌, ◌^◌, ◌++◌, ◌∷◌, [], codes, decimal, None, Some, OnOk, OnErr, length, flat_map}, Fmt.signed_decimal};
ghost use Rattle.pm_wire.specs.{Pieces.{int32, string, message}, Outgoing.room, Conditions.told, Backend.{back_message, saying, fields, fields_of, report_length, spelling, severity_word, IsShort, IsWritable, Fields, Complete, Pair, One}};
ghost use Rattle.pm_wire.specs.declared.condition.Condition.TheVariants as conditions;

use crate::back::{Back, Report, Severity, Shape, Tag};
use crate::bytes::Bytes;
use crate::condition::Condition;
use crate::outbox::Outbox;
use crate::ready::fixed;
use byteorder::{BigEndian, ByteOrder};
use itoa::Buffer;
use std::alloc::AllocError;

/// A number in four bytes, the highest first.
#[tactic(auto, unfolding(crate::specs::Pieces::int32))]
fn int32_bytes(n: u32) -> [u8; 4]
    ensures { result ≡ int32 n }
{
    let mut bytes = [0; 4];
    BigEndian::write_u32(&mut bytes, n);
    bytes
}

/// How many bytes the pieces have together.
fn total(pieces: &[&[u8]]) -> usize
    requires { length (flat_map (λ piece. piece.now) pieces.now) < 2 ^ 32 }
    ensures { result ≡ length (flat_map (λ piece. piece.now) pieces.now) }
{
    let mut total = 0;
    for piece in pieces {
        total += piece.len();
    }
    total
}

/// Appends the pieces, one after the other, for which there is room.
fn append_all(out: &mut Outbox, pieces: &[&[u8]])
    requires { length (flat_map (λ piece. piece.now) pieces.now) ≤ room out.old }
    ensures bytes { out.new.bytes ≡ out.old.bytes ++ flat_map (λ piece. piece.now) pieces.now }
    ensures capacity { out.old.capacity ≤ out.new.capacity }
{
    for piece in pieces {
        out.append(piece);
    }
}

/// Appends a message whose body is these pieces. Where memory runs out, nothing is appended.
#[tactic(auto, using(crate::proofs::Apart::length_message))]
fn push_message(out: &mut Outbox, kind: u8, pieces: &[&[u8]]) -> Result<(), AllocError>
    requires { 4 + length (flat_map (λ piece. piece.now) pieces.now) < 2 ^ 31 }
    ensures ok { OnOk result (out.new.bytes ≡ out.old.bytes ++ message (kind ∷ [])
        (flat_map (λ piece. piece.now) pieces.now)) }
    ensures err { OnErr result (out.new.bytes ≡ out.old.bytes) }
    ensures full { OnErr result (room out.old < length
        (message (kind ∷ []) (flat_map (λ piece. piece.now) pieces.now))) }
    ensures capacity { out.old.capacity ≤ out.new.capacity }
{
    let length = 4 + total(pieces);
    out.reserve(1 + length)?;
    let [a, b, c, d] = int32_bytes(length as u32);
    out.append(&[kind, a, b, c, d]);
    append_all(out, pieces);
    Ok(())
}

fn severity_word(severity: Severity) -> &'static [u8]
    ensures { result.now ≡ severity_word severity }
{
    match severity {
        Severity::Error => b"ERROR",
        Severity::Fatal => b"FATAL",
        Severity::Panic => b"PANIC",
        Severity::Warning => b"WARNING",
    }
}

/// Appends the fields of an error or a notice, the detail aside.
#[tactic(auto, using(crate::proofs::Joined::plain_fields))]
fn push_plain(
    out: &mut Outbox,
    kind: u8,
    word: &[u8],
    code: &[u8],
    text: &[u8],
) -> Result<(), AllocError>
    requires { 4 + length (fields word.now code.now text.now None) < 2 ^ 31 }
    ensures ok { OnOk result (out.new.bytes ≡ out.old.bytes ++ message (kind ∷ [])
        (fields word.now code.now text.now None)) }
    ensures err { OnErr result (out.new.bytes ≡ out.old.bytes) }
    ensures full { OnErr result (room out.old < length
        (message (kind ∷ []) (fields word.now code.now text.now None))) }
    ensures capacity { out.old.capacity ≤ out.new.capacity }
{
    push_message(
        out,
        kind,
        &[
            b"S", word, b"\0V", word, b"\0C", code, b"\0M", text, b"\0\0",
        ],
    )
}

/// Appends the fields of an error or a notice, with a detail.
#[tactic(auto, using(crate::proofs::Joined::detailed_fields))]
fn push_detailed(
    out: &mut Outbox,
    kind: u8,
    word: &[u8],
    code: &[u8],
    text: &[u8],
    detail: &[u8],
) -> Result<(), AllocError>
    requires { 4 + length (fields word.now code.now text.now (Some detail.now)) < 2 ^ 31 }
    ensures ok { OnOk result (out.new.bytes ≡ out.old.bytes ++ message (kind ∷ [])
        (fields word.now code.now text.now (Some detail.now))) }
    ensures err { OnErr result (out.new.bytes ≡ out.old.bytes) }
    ensures full { OnErr result (room out.old < length
        (message (kind ∷ []) (fields word.now code.now text.now (Some detail.now)))) }
    ensures capacity { out.old.capacity ≤ out.new.capacity }
{
    push_message(
        out,
        kind,
        &[
            b"S", word, b"\0V", word, b"\0C", code, b"\0M", text, b"\0D", detail, b"\0\0",
        ],
    )
}

/// Appends an error or a notice.
#[tactic(auto, using(crate::specs::Sizes::length_fields))]
fn push_report(out: &mut Outbox, kind: u8, report: &Report) -> Result<(), AllocError>
    requires { report_length (saying report.now) < 2 ^ 31 }
    ensures ok { OnOk result (out.new.bytes ≡ out.old.bytes ++ message (kind ∷ [])
        (fields_of (saying report.now))) }
    ensures err { OnErr result (out.new.bytes ≡ out.old.bytes) }
    ensures full { OnErr result (room out.old < length
        (message (kind ∷ []) (fields_of (saying report.now)))) }
    ensures capacity { out.old.capacity ≤ out.new.capacity }
{
    let word = severity_word(report.severity);
    let text = report.text.as_bytes();
    match report.detail {
        None => push_plain(out, kind, word, &report.code, text),
        Some(detail) => push_detailed(out, kind, word, &report.code, text, detail.as_bytes()),
    }
}

/// Appends what columns a result has.
fn push_columns(out: &mut Outbox, shape: Shape) -> Result<(), AllocError>
    ensures ok { OnOk result (out.new.bytes ≡ out.old.bytes ++ spelling (Fields shape)) }
    ensures err { OnErr result (out.new.bytes ≡ out.old.bytes) }
    ensures full { OnErr result (room out.old < length (spelling (Fields shape))) }
    ensures capacity { out.old.capacity ≤ out.new.capacity }
{
    push_message(out, b'T', &[shape.description()])
}

/// Appends the tag that has this text before its number.
fn push_counted_tag(out: &mut Outbox, verb: &[u8], count: u64) -> Result<(), AllocError>
    requires { length verb.now < 64 }
    ensures ok { OnOk result (out.new.bytes ≡ out.old.bytes ++ message (codes "C")
        (string (verb.now ++ decimal count))) }
    ensures err { OnErr result (out.new.bytes ≡ out.old.bytes) }
    ensures full { OnErr result (room out.old < length
        (message (codes "C") (string (verb.now ++ decimal count)))) }
    ensures capacity { out.old.capacity ≤ out.new.capacity }
{
    let mut digits = Buffer::new();
    push_message(out, b'C', &[verb, digits.format(count).as_bytes(), b"\0"])
}

/// Appends what a statement did.
fn push_tag(out: &mut Outbox, tag: Tag) -> Result<(), AllocError>
    ensures ok { OnOk result (out.new.bytes ≡ out.old.bytes ++ spelling (Complete tag)) }
    ensures err { OnErr result (out.new.bytes ≡ out.old.bytes) }
    ensures full { OnErr result (room out.old < length (spelling (Complete tag))) }
    ensures capacity { out.old.capacity ≤ out.new.capacity }
{
    match tag {
        Tag::Insert(rows) => push_counted_tag(out, b"INSERT 0 ", rows),
        Tag::Update(rows) => push_counted_tag(out, b"UPDATE ", rows),
        Tag::Delete(rows) => push_counted_tag(out, b"DELETE ", rows),
        Tag::Select(rows) => push_counted_tag(out, b"SELECT ", rows),
    }
}

/// Appends a row of a key and its value.
#[tactic(auto, using(crate::proofs::Joined::pair_body))]
fn push_pair(out: &mut Outbox, key: i64, value: &str) -> Result<(), AllocError>
    requires { 14 + length (signed_decimal key) + length value.now < 2 ^ 31 }
    ensures ok { OnOk result (out.new.bytes ≡ out.old.bytes ++ spelling (Pair key value.now)) }
    ensures err { OnErr result (out.new.bytes ≡ out.old.bytes) }
    ensures full { OnErr result (room out.old < length (spelling (Pair key value.now))) }
    ensures capacity { out.old.capacity ≤ out.new.capacity }
{
    let mut digits = Buffer::new();
    let key = digits.format(key).as_bytes();
    let value = value.as_bytes();
    push_message(
        out,
        b'D',
        &[
            b"\0\x02",
            &int32_bytes(key.len() as u32),
            key,
            &int32_bytes(value.len() as u32),
            value,
        ],
    )
}

/// Appends a row of one column.
#[tactic(auto, using(crate::proofs::Joined::one_body))]
fn push_one(out: &mut Outbox, text: &str) -> Result<(), AllocError>
    requires { 10 + length text.now < 2 ^ 31 }
    ensures ok { OnOk result (out.new.bytes ≡ out.old.bytes ++ spelling (One text.now)) }
    ensures err { OnErr result (out.new.bytes ≡ out.old.bytes) }
    ensures full { OnErr result (room out.old < length (spelling (One text.now))) }
    ensures capacity { out.old.capacity ≤ out.new.capacity }
{
    let text = text.as_bytes();
    push_message(
        out,
        b'D',
        &[b"\0\x01", &int32_bytes(text.len() as u32), text],
    )
}

/// Appends a message that stands ready.
fn push_ready(out: &mut Outbox, bytes: &[u8]) -> Result<(), AllocError>
    ensures ok { OnOk result (out.new.bytes ≡ out.old.bytes ++ bytes.now) }
    ensures err { OnErr result (out.new.bytes ≡ out.old.bytes) }
    ensures full { OnErr result (room out.old < length bytes.now) }
    ensures capacity { out.old.capacity ≤ out.new.capacity }
{
    out.reserve(bytes.len())?;
    out.append(bytes);
    Ok(())
}

/// Appends an error whose fields are these pieces.
fn push_spelled(
    out: &mut Outbox,
    front: &[u8],
    number: &str,
    between: &[u8],
    other: &str,
    behind: &[u8],
) -> Result<(), AllocError>
    requires { length front.now + length number.now + length between.now + length other.now + length
        behind.now < 2 ^ 30 }
    ensures ok { OnOk result (out.new.bytes ≡ out.old.bytes ++ message (codes "E")
        (front.now ++ (number.now ++ (between.now ++ (other.now ++ behind.now))))) }
    ensures err { OnErr result (out.new.bytes ≡ out.old.bytes) }
    ensures full { OnErr result (room out.old < length
        (message (codes "E") (front.now ++ (number.now
        ++ (between.now ++ (other.now ++ behind.now)))))) }
    ensures capacity { out.old.capacity ≤ out.new.capacity }
{
    push_message(
        out,
        b'E',
        &[front, number.as_bytes(), between, other.as_bytes(), behind],
    )
}

/// Appends that a version of the protocol isn't spoken.
fn push_version(out: &mut Outbox, major: u16, minor: u16) -> Result<(), AllocError>
    ensures ok { OnOk result (out.new.bytes ≡ out.old.bytes ++ spelling
        (told (conditions.Version major minor))) }
    ensures err { OnErr result (out.new.bytes ≡ out.old.bytes) }
    ensures full { OnErr result (room out.old < length
        (spelling (told (conditions.Version major minor)))) }
    ensures capacity { out.old.capacity ≤ out.new.capacity }
{
    let (mut majors, mut minors) = (Buffer::new(), Buffer::new());
    push_spelled(
        out,
        b"SFATAL\0VFATAL\0C0A000\0Munsupported frontend protocol ",
        majors.format(major),
        b".",
        minors.format(minor),
        b": server supports 3.0 to 3.0\0\0",
    )
}

/// Appends that no message has the type.
fn push_unknown_type(out: &mut Outbox, kind: u8) -> Result<(), AllocError>
    ensures ok { OnOk result (out.new.bytes ≡ out.old.bytes ++ spelling
        (told (conditions.UnknownType kind))) }
    ensures err { OnErr result (out.new.bytes ≡ out.old.bytes) }
    ensures full { OnErr result (room out.old < length
        (spelling (told (conditions.UnknownType kind)))) }
    ensures capacity { out.old.capacity ≤ out.new.capacity }
{
    let mut digits = Buffer::new();
    push_spelled(
        out,
        b"SFATAL\0VFATAL\0C08P01\0Minvalid frontend message type ",
        digits.format(kind),
        b"",
        "",
        b"\0\0",
    )
}

/// Appends that a row with the key is there.
fn push_duplicate(out: &mut Outbox, key: i64) -> Result<(), AllocError>
    ensures ok { OnOk result (out.new.bytes ≡ out.old.bytes ++ spelling
        (told (conditions.Duplicate key))) }
    ensures err { OnErr result (out.new.bytes ≡ out.old.bytes) }
    ensures full { OnErr result (room out.old < length
        (spelling (told (conditions.Duplicate key)))) }
    ensures capacity { out.old.capacity ≤ out.new.capacity }
{
    let mut digits = Buffer::new();
    push_spelled(
        out,
        b"SERROR\0VERROR\0C23505\0Mduplicate key value violates unique constraint \"kv_pkey\"\0DKey (k)=(",
        digits.format(key),
        b"",
        "",
        b") already exists.\0\0",
    )
}

/// Appends an error or a notice of the table.
#[tactic(auto, using(crate::specs::Sizes::length_fields))]
fn push_told(out: &mut Outbox, condition: &Condition) -> Result<(), AllocError>
    requires { IsShort (told condition.now) }
    ensures ok { OnOk result (out.new.bytes ≡ out.old.bytes ++ spelling (told condition.now)) }
    ensures err { OnErr result (out.new.bytes ≡ out.old.bytes) }
    ensures full { OnErr result (room out.old < length (spelling (told condition.now))) }
    ensures capacity { out.old.capacity ≤ out.new.capacity }
{
    match *condition {
        Condition::Fixed(f) => push_ready(out, fixed(f)),
        Condition::Version { major, minor } => push_version(out, major, minor),
        Condition::UnknownType { kind } => push_unknown_type(out, kind),
        Condition::Duplicate { key } => push_duplicate(out, key),
        Condition::Statement { fault, text } => {
            let code = fault.state().code();
            push_plain(out, b'E', b"ERROR", &code, text.as_bytes())
        }
    }
}

/// Appends a message. Where memory runs out, nothing is appended.
fn push(out: &mut Outbox, sent: &Back) -> Result<(), AllocError>
    requires { IsShort (back_message sent.now) }
    ensures ok { OnOk result (out.new.bytes ≡ out.old.bytes ++ spelling (back_message sent.now)) }
    ensures err { OnErr result (out.new.bytes ≡ out.old.bytes) }
    ensures full { OnErr result (room out.old < length (spelling (back_message sent.now))) }
    ensures capacity { out.old.capacity ≤ out.new.capacity }
{
    match *sent {
        Back::Auth => push_message(out, b'R', &[&int32_bytes(0)]),
        Back::Param { name, value } => {
            push_message(
                out,
                b'S',
                &[name.as_bytes(), b"\0", value.as_bytes(), b"\0"],
            )
        }
        Back::Key { pid, key } => push_message(out, b'K', &[&int32_bytes(pid), &int32_bytes(key)]),
        Back::Ready => push_message(out, b'Z', &[b"I"]),
        Back::Fields(shape) => push_columns(out, shape),
        Back::Pair { key, value } => push_pair(out, key, value),
        Back::One { text } => push_one(out, text),
        Back::Complete(tag) => push_tag(out, tag),
        Back::Empty => push_message(out, b'I', &[]),
        Back::Fault(report) => push_report(out, b'E', &report),
        Back::Notice(report) => push_report(out, b'N', &report),
        Back::Told(condition) => push_told(out, &condition),
    }
}

impl Back<'_> {
    /// Appends the message to what is to be sent. Where memory runs out, nothing is appended.
    pub fn write(&self, out: &mut Bytes) -> Result<(), AllocError>
        requires { IsWritable (back_message self.now) }
        ensures ok { OnOk result (out.new ≡ out.old ++ spelling (back_message self.now)) }
        ensures err { OnErr result (out.new ≡ out.old) }
    {
        push(&mut out.held, self)
    }

    /// Appends the message to what is to be sent, where there is room for it. Takes no memory.
    pub fn put(&self, out: &mut Outbox)
        requires writable { IsWritable (back_message self.now) }
        requires room { length (spelling (back_message self.now)) ≤ room out.old }
        ensures bytes { out.new.bytes ≡ out.old.bytes ++ spelling (back_message self.now) }
        ensures capacity { out.old.capacity ≤ out.new.capacity }
    {
        if push(out, self).is_err() {
            unreachable!();
        }
    }
}
