//! The text of a fault for the client.
ghost use Rattle.std.specs.Prelude.{◌≡◌, ◌≤◌, ◌+◌, ◌++◌, length, IfOk, slice_index};
ghost use Rattle.pm_sql.specs.{Tokens.{behind_mark, quote}, Message.{is_boundary, from_place, up_to_place, char_len, other_token, token_of, syntax_message, message_of}};
ghost use Rattle.pm_rows.specs.pm_facts.Zeros.{HasNoZero};

use crate::query::SqlFault;
use crate::tokens::{behind_mark, split_digits, split_word, string_end};
use pm_rows::Text;
use std::alloc::{AllocError, Global};

/// What a client is told of a fault in a text: the token where it stands, as it is spelled, or the end of input; a name of
/// a table in lower case. It holds a zero byte only where the text does, and is at most 37 bytes longer than the text.
pub fn fault_text(alloc: Global, text: &str, fault: &SqlFault) -> Result<Text, AllocError>
    ensures message { IfOk result (λ message. message ≡ message_of text.now fault.now) }
    ensures length { IfOk result (λ message. length message ≤ length text.now + 37) }
    ensures zero { HasNoZero text.now → IfOk result (λ message. HasNoZero message) }
{
    message_of(alloc, text, fault)
}

fn message_of(alloc: Global, text: &str, fault: &SqlFault) -> Result<Text, AllocError>
    ensures { IfOk result (λ message. message ≡ message_of text.now fault.now) }
{
    match fault {
        SqlFault::Syntax { at } => syntax_text(alloc, from_place(text, *at)),
        SqlFault::Table { at } => {
            let token = token_of(from_place(text, *at));
            let name = token.to_ascii_lowercase(alloc)?;
            joined(alloc, "relation \"", name.as_str(), "\" does not exist")
        }
        SqlFault::Range { .. } => Text::of(alloc, "bigint out of range"),
        SqlFault::TooLong { .. } => Text::of(alloc, "value exceeds 8192 bytes"),
        SqlFault::TooMany { .. } => Text::of(alloc, "query exceeds 1000 writing statements"),
        SqlFault::NoMemory => Text::of(alloc, "out of memory"),
    }
}

fn syntax_text(alloc: Global, here: &str) -> Result<Text, AllocError>
    ensures { IfOk result (λ message. message ≡ syntax_message here.now) }
{
    if here.is_empty() {
        return Text::of(alloc, "syntax error at end of input");
    }
    let token = token_of(here);
    joined(alloc, "syntax error at or near \"", token, "\"")
}

// Three texts, one after another.
fn joined(alloc: Global, first: &str, second: &str, third: &str) -> Result<Text, AllocError>
    ensures { IfOk result (λ text. text ≡ (first.now ++ second.now) ++ third.now) }
{
    let mut text = String::from_str(alloc, first)?;
    text.push_str(second)?;
    text.push_str(third)?;
    Text::of(alloc, text.as_str())
}

// The text from a place on, or nothing where it can't be cut there.
fn from_place(text: &str, place: usize) -> &str
    ensures { result.now ≡ from_place text.now place }
{
    match text.split_at_checked(place) {
        Some((_, rest)) => rest,
        None => "",
    }
}

// The text up to a place, or all of it where it can't be cut there.
fn up_to_place(text: &str, place: usize) -> &str
    ensures { result.now ≡ up_to_place text.now place }
{
    match text.split_at_checked(place) {
        Some((front, _)) => front,
        None => text,
    }
}

// The token at the front.
fn token_of(here: &str) -> &str
    ensures { result.now ≡ token_of here.now }
{
    let (word, _) = split_word(here);
    if !word.is_empty() {
        return word;
    }
    let (digits, _) = split_digits(here);
    if !digits.is_empty() {
        return digits;
    }
    other_token(here)
}

// A token that is neither word nor digits.
fn other_token(here: &str) -> &str
    ensures { result.now ≡ other_token here.now (behind_mark quote here.now) }
{
    let Some(rest) = behind_mark(here, '\'') else {
        return up_to_place(here, char_len(here));
    };
    match string_end(rest) {
        Some(behind) => up_to_place(here, here.len().saturating_sub(behind.len())),
        None => "'",
    }
}

// How many bytes the character at the front has.
fn char_len(here: &str) -> usize
    ensures { result ≡ char_len (slice_index here.now 0) }
{
    match here.as_bytes() {
        [] | [0..128, ..] => 1,
        [128..224, ..] => 2,
        [224..240, ..] => 3,
        [_, ..] => 4,
    }
}
