//! The tokens of a text.
ghost use Rattle.std.specs.{Prelude.{◌≡◌, ◌<◌, ◌≤◌, length, take, drop, min, ◌^◌, ◌-◌, IfOk, IfSome}, List.prefix_len, Option.option_copied};
ghost use Rattle.pm_sql.specs.{Tokens.{skipped, is_letter, is_word_byte, starts_with_letter, word_len, digits_len, digits_value, behind_word, behind_mark, string_in, string_end}, Reading.{Gives, word_at, mark_at, contents_of}};

use crate::fault::{Kind, Stop};
use std::alloc::{AllocError, Global};

/// The text after its white space.
pub(crate) fn skipped(input: &str) -> &str
    ensures { result.now ≡ skipped input.now }
{
    input.trim_ascii_start()
}

fn is_letter(byte: u8) -> bool
    ensures { result ≡ is_letter byte }
{
    byte.is_ascii_alphabetic() || byte == b'_'
}

fn is_word_byte(byte: u8) -> bool
    ensures { result ≡ is_word_byte byte }
{
    byte.is_ascii_alphanumeric() || byte == b'_'
}

/// Whether a letter or `_` stands at the front.
pub(crate) fn starts_with_letter(here: &str) -> bool
    ensures { result ≡ starts_with_letter here.now }
{
    match here.as_bytes() {
        [] => false,
        [byte, ..] => is_letter(*byte),
    }
}

// The length of the word at the front, or 0.
fn word_len(here: &str) -> usize
    ensures { result ≡ word_len here.now }
{
    if starts_with_letter(here) {
        run_len(here)
    } else {
        0
    }
}

// The number of letters, digits and `_` at the front.
fn run_len(here: &str) -> usize
    ensures { result ≡ prefix_len is_word_byte here.now }
{
    here.as_bytes()
        .iter()
        .take_while(|byte| is_word_byte(**byte))
        .count()
}

/// The word at the front, or nothing, and what comes after it.
pub(crate) fn split_word(here: &str) -> (&str, &str)
    ensures word { result.0.now ≡ take (word_len here.now) here.now }
    ensures rest { result.1.now ≡ drop (word_len here.now) here.now }
{
    here.split_at(word_len(here))
}

// The number of digits at the front.
fn digits_len(here: &str) -> usize
    ensures { result ≡ digits_len here.now }
{
    here.as_bytes()
        .iter()
        .take_while(|byte| byte.is_ascii_digit())
        .count()
}

/// The digits at the front, and what comes after them.
pub(crate) fn split_digits(here: &str) -> (&str, &str)
    ensures digits { result.0.now ≡ take (digits_len here.now) here.now }
    ensures rest { result.1.now ≡ drop (digits_len here.now) here.now }
{
    here.split_at(digits_len(here))
}

/// The number that digits spell, or the largest `u64` where it is more.
pub(crate) fn magnitude(digits: &str) -> u64
    ensures { result ≡ min (digits_value digits.now) (2 ^ 64 - 1) }
{
    let mut number: u64 = 0;
    for digit in digits.as_bytes() {
        number = number
            .saturating_mul(10)
            .saturating_add(u64::from(digit.saturating_sub(b'0')));
    }
    number
}

/// What comes after this word, where it is the one at the front.
pub(crate) fn behind_word<'a>(here: &'a str, word: &str) -> Option<&'a str>
    ensures { option_copied result ≡ behind_word word.now here.now }
{
    let (first, rest) = split_word(here);
    if first.eq_ignore_ascii_case(word) {
        Some(rest)
    } else {
        None
    }
}

/// What comes after this character, where it is the one at the front.
pub(crate) fn behind_mark(here: &str, mark: char) -> Option<&str>
    requires { mark < 128 }
    ensures { option_copied result ≡ behind_mark mark here.now }
{
    here.strip_prefix(mark)
}

/// This word comes next: what comes after it.
#[tactic(auto, unfolding(crate::specs::Reading::word_at))]
pub(crate) fn word_at<'a>(input: &'a str, word: &str) -> Result<&'a str, Stop>
    ensures { Gives (λ rest. rest.now) result (word_at word.now input.now) }
{
    let here = skipped(input);
    match behind_word(here, word) {
        Some(rest) => Ok(rest),
        None => Err(Stop::at(Kind::Syntax, here)),
    }
}

/// This character comes next: what comes after it.
#[tactic(auto, unfolding(crate::specs::Reading::mark_at))]
pub(crate) fn mark_at(input: &str, mark: char) -> Result<&str, Stop>
    requires { mark < 128 }
    ensures { Gives (λ rest. rest.now) result (mark_at mark input.now) }
{
    let here = skipped(input);
    match behind_mark(here, mark) {
        Some(rest) => Ok(rest),
        None => Err(Stop::at(Kind::Syntax, here)),
    }
}

/// After its opening quote, a string goes up to its closing one, and two quotes in it stand for one: its content, and
/// what comes after it. `None` where it doesn't end.
pub(crate) fn string_in(alloc: Global, input: &str) -> Result<Option<(String, &str)>, AllocError>
    ensures { IfOk result (λ found. contents_of found ≡ string_in input.now) }
{
    let mut content = String::new(alloc);
    let mut rest = input;
    while let Some((segment, after)) = rest.split_once('\'') {
        content.push_str(segment)?;
        match after.strip_prefix('\'') {
            Some(more) => {
                content.push('\'')?;
                rest = more;
            }
            None => return Ok(Some((content, after))),
        }
    }
    Ok(None)
}

/// What comes after a string, from after its opening quote on. `None` where it doesn't end. It copies nothing.
pub(crate) fn string_end(input: &str) -> Option<&str>
    ensures { option_copied result ≡ string_end (string_in input.now) }
{
    let mut rest = input;
    while let Some((_, after)) = rest.split_once('\'') {
        match after.strip_prefix('\'') {
            Some(more) => rest = more,
            None => return Some(after),
        }
    }
    None
}
