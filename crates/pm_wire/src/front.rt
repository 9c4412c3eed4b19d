//! What a client sends after its startup packet.

ghost use Rattle.std.specs.{Prelude.{◌≡◌, ◌≢◌, ℕ, ◌≤◌, ◌<◌, ◌++◌, ◌==◌, ◌↔◌, List, length, take, position}, Option.option_map};
ghost use Rattle.pm_wire.specs.{Frontend.{FrontMessage, IsFront, BeginsBadly, IsUndecided, Wants, front_message}, Reading.{seen_by, text_of, query_of, terminate_of, front_of}, Taking.IfWhole};

use crate::take::{Take, WireFault};
use byteorder::{BigEndian, ByteOrder};

/// A message of the client (Frontend/Backend Protocol, Message Formats).
#[derive(Clone, Copy, Debug, PartialEq, Eq)]
pub enum Front<'a> {
    /// The statements of a simple query, without the zero byte that ends them. They may not be UTF-8.
    Query(&'a [u8]),
    /// A query whose body isn't one string that fills it.
    BadQuery,
    /// A query of a greater length than this server reads. Only its type and length were read.
    LongQuery { seen: u32 },
    Terminate,
    /// A message of the extended query protocol, by its type byte. Nothing else of it was read.
    Extended(u8),
    /// A message of any other type, by its type byte. Nothing else of it was read.
    Other(u8),
}

/// The length of the longest query that is read, with the field itself.
const LONGEST_QUERY: u32 = 65541;

/// The bytes of a message's type and length.
const HEADER: usize = 5;

/// Types of messages of the extended query protocol: Parse, Bind, Describe, Execute, Close, Sync and
/// Flush.
const EXTENDED: [u8; 7] = *b"PBDECSH";

/// The place of the first zero.
fn zero_in(bytes: &[u8]) -> Option<usize>
    ensures { result ≡ position (λ b. b == 0) bytes.now }
{
    bytes.iter().position(|b| *b == 0)
}

/// The bytes before the first zero, where that is the last byte.
#[tactic(auto, unfolding(crate::specs::Reading::text_of))]
fn text_of(body: &[u8]) -> Option<&[u8]>
    ensures { option_map (λ text. text.now) result ≡ text_of body.now }
{
    match zero_in(body) {
        Some(end) if end + 1 == body.len() => Some(&body[..end]),
        _ => None,
    }
}

/// Reads a query after its type.
#[tactic(auto, unfolding(crate::specs::Reading::query_of))]
fn query_of(rest: &[u8]) -> Take<Front<'_>>
    ensures { seen_by front_message result ≡ query_of rest.now }
{
    if rest.len() < 4 {
        return Take::Short { wanted: HEADER };
    }
    let seen = BigEndian::read_u32(rest);
    if seen < 4 {
        return Take::Bad(WireFault::BadLength { seen });
    }
    if seen > LONGEST_QUERY {
        return Take::Whole {
            value: Front::LongQuery { seen },
            used: 5,
        };
    }
    let whole = seen as usize + 1;
    let size = seen as usize - 4;
    let rest = &rest[4..];
    if rest.len() < size {
        return Take::Short { wanted: whole };
    }
    let value = match text_of(&rest[..size]) {
        Some(text) => Front::Query(text),
        None => Front::BadQuery,
    };
    Take::Whole { value, used: whole }
}

/// Reads the end of a session after its type.
#[tactic(auto, unfolding(crate::specs::Reading::terminate_of))]
fn terminate_of(rest: &[u8]) -> Take<Front<'_>>
    ensures { seen_by front_message result ≡ terminate_of rest.now }
{
    if rest.len() < 4 {
        return Take::Short { wanted: HEADER };
    }
    match BigEndian::read_u32(rest) {
        4 => Take::Whole {
            value: Front::Terminate,
            used: 5,
        },
        seen => Take::Bad(WireFault::BadLength { seen }),
    }
}

#[tactic(auto, unfolding(crate::specs::Reading::front_of))]
fn front_of(bytes: &[u8]) -> Take<Front<'_>>
    ensures { seen_by front_message result ≡ front_of bytes.now }
{
    match bytes {
        [] => Take::Short { wanted: 1 },
        [b'Q', rest @ ..] => query_of(rest),
        [b'X', rest @ ..] => terminate_of(rest),
        [kind, ..] if EXTENDED.contains(kind) => Take::Whole {
            value: Front::Extended(*kind),
            used: 1,
        },
        [kind, ..] => Take::Whole {
            value: Front::Other(*kind),
            used: 1,
        },
    }
}

impl<'a> Front<'a> {
    /// Reads the message that the bytes begin with. Nothing is copied: a query lies in the bytes.
    ///
    /// A query is read up to a length of 65,541; a longer one is told by its first five bytes, and one
    /// of any other type but Terminate by its first. So a caller that reads again only when the wanted bytes
    /// are there reads each message at most three times.
    pub fn read(bytes: &'a [u8]) -> Take<Front<'a>>
        // What is read stands there, and every message that stands there is read.
        ensures whole { IfWhole result (λ value used. (used ≤ length bytes.now)
            × IsFront (take used bytes.now) (front_message value)) }
        ensures every { (spelled rest : List ℕ) (m : FrontMessage) → IsFront spelled m
            → bytes.now ≡ spelled ++ rest → seen_by front_message result ≡ Take.Whole m
            (length spelled) }

        // Why nothing is read.
        ensures bad_length { (seen : ℕ) → (result ≡ Take.Bad (WireFault.BadLength seen))
            ↔ BeginsBadly bytes.now seen }
        ensures no_bad_form { (at : ℕ) → result ≢ Take.Bad (WireFault.BadForm at) }
        ensures undecided { IsUndecided bytes.now ↔ ((wanted : ℕ) × (result ≡ Take.Short wanted)) }

        // What more is wanted, and that nothing less decides.
        ensures short { (wanted : ℕ) → (result ≡ Take.Short wanted) ↔ Wants bytes.now wanted }
        ensures least { (wanted : ℕ) (more : List ℕ) → result ≡ Take.Short wanted
            → length (bytes.now ++ more) < wanted → IsUndecided (bytes.now ++ more) }
    {
        front_of(bytes)
    }
}
