//! What begins or ends a block, read from the front of a text.
ghost use Rattle.std.specs.{Prelude.{◌≡◌, IsTrue}, Option.{option_copied, option_map}};
ghost use Rattle.pm_xact.specs.Reading.{tokens_of, is_keyword, found_in, after_either, after_level, after_other_mode, access_at, mode_at, access_after, access_in, after_noise, after_opening, control_of};

use crate::access::Access;
use crate::asked::Asked;
use crate::tokens::{after_comma, after_semicolons, after_word, is_end};

// What stands after one of two words.
fn after_either<'a>(input: &'a [u8], first: &str, second: &str) -> Option<&'a [u8]>
    requires first { IsTrue (is_keyword first.now) }
    requires second { IsTrue (is_keyword second.now) }
    ensures { option_map tokens_of (option_copied result)
        ≡ after_either first.now second.now (tokens_of input.now) }
{
    match after_word(input, first) {
        Some(rest) => Some(rest),
        None => after_word(input, second),
    }
}

// What stands after an isolation level.
#[tactic(auto, unfolding(crate::specs::Reading::after_level))]
fn after_level(input: &[u8]) -> Option<&[u8]>
    ensures { option_map tokens_of (option_copied result) ≡ after_level (tokens_of input.now) }
{
    if let Some(rest) = after_word(input, "serializable") {
        Some(rest)
    } else if let Some(rest) = after_word(input, "repeatable") {
        after_word(rest, "read")
    } else {
        after_either(after_word(input, "read")?, "committed", "uncommitted")
    }
}

// What stands after a mode that names no access.
#[tactic(auto, unfolding(crate::specs::Reading::after_other_mode))]
fn after_other_mode(input: &[u8]) -> Option<&[u8]>
    ensures { option_map tokens_of (option_copied result) ≡ after_other_mode (tokens_of input.now) }
{
    if let Some(rest) = after_word(input, "isolation") {
        after_level(after_word(rest, "level")?)
    } else if let Some(rest) = after_word(input, "not") {
        after_word(rest, "deferrable")
    } else {
        after_word(input, "deferrable")
    }
}

// The access that a mode names, and what stands after it; after READ.
#[tactic(auto, unfolding(crate::specs::Reading::access_at))]
fn access_at(input: &[u8]) -> Option<(Option<Access>, &[u8])>
    ensures { option_map found_in result ≡ access_at (tokens_of input.now) }
{
    if let Some(rest) = after_word(input, "write") {
        Some((Some(Access::ReadWrite), rest))
    } else {
        Some((Some(Access::ReadOnly), after_word(input, "only")?))
    }
}

// A mode: the access that it names, if any, and what stands after it.
#[tactic(auto, unfolding(crate::specs::Reading::mode_at))]
fn mode_at(input: &[u8]) -> Option<(Option<Access>, &[u8])>
    ensures { option_map found_in result ≡ mode_at (tokens_of input.now) }
{
    if let Some(rest) = after_word(input, "read") {
        access_at(rest)
    } else {
        Some((None, after_other_mode(input)?))
    }
}

// The access after more modes, up to the end, where this one stood before them. Each may have a comma before it.
fn access_after(before: Access, input: &[u8]) -> Option<Access>
    ensures { result ≡ access_after before (tokens_of input.now) }
{
    let mut access = before;
    let mut rest = input;
    while !is_end(rest) {
        let (named, more) = mode_at(after_comma(rest))?;
        access = named.unwrap_or(access);
        rest = more;
    }
    Some(access)
}

// The access of a block with these modes, up to the end.
#[tactic(auto, unfolding(crate::specs::Reading::access_in))]
fn access_in(input: &[u8]) -> Option<Access>
    ensures { result ≡ access_in (tokens_of input.now) }
{
    if is_end(input) {
        return Some(Access::ReadWrite);
    }
    let (named, rest) = mode_at(input)?;
    access_after(named.unwrap_or(Access::ReadWrite), rest)
}

// What stands after WORK or TRANSACTION, where one of them comes next, or else the text.
#[tactic(auto, unfolding(crate::specs::Reading::after_noise))]
fn after_noise(input: &[u8]) -> &[u8]
    ensures { tokens_of result.now ≡ after_noise (tokens_of input.now) }
{
    after_either(input, "work", "transaction").unwrap_or(input)
}

// What stands after START TRANSACTION, or after BEGIN and its noise.
#[tactic(auto, unfolding(crate::specs::Reading::after_opening))]
fn after_opening(input: &[u8]) -> Option<&[u8]>
    ensures { option_map tokens_of (option_copied result) ≡ after_opening (tokens_of input.now) }
{
    if let Some(rest) = after_word(input, "start") {
        after_word(rest, "transaction")
    } else {
        Some(after_noise(after_word(input, "begin")?))
    }
}

/// What a text asks for that begins or ends a block, and nothing where it is no such text.
#[tactic(auto, unfolding(crate::specs::Reading::control_of))]
pub(crate) fn control_of(text: &[u8]) -> Option<Asked>
    ensures { result ≡ control_of (tokens_of text.now) }
{
    let here = after_semicolons(text);
    if let Some(rest) = after_opening(here) {
        Some(Asked::Begin(access_in(rest)?))
    } else if let Some(rest) = after_either(here, "commit", "end") {
        is_end(after_noise(rest)).then_some(Asked::Commit)
    } else if let Some(rest) = after_either(here, "rollback", "abort") {
        is_end(after_noise(rest)).then_some(Asked::Rollback)
    } else {
        None
    }
}
