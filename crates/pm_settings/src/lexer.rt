//! How a text is read as lexemes.
ghost use Rattle.std.specs.{Prelude.{◌≡◌, ◌<◌, ◌^◌, ◌-◌, ℕ, List, min, take, drop, IfOk}, Borrow.Bor, List.prefix_len, Option.{option_copied, option_map}};
ghost use Rattle.pm_settings.specs.{pm_sql.Tokens.{skipped, is_letter, is_word_byte, starts_with_letter, word_len, digits_len, digits_value, behind_mark, string_in, quote}, declared.lexeme.Lexeme.Lexeme, Lexing.{AreLexemes, lexeme_at, mark_at, other_at, shown, string_shown, token_at}};

use crate::lexeme::Lexeme;
use pm_rows::Text;
use std::alloc::{AllocError, Global};

// The text after its white space.
fn skipped(input: &str) -> &str
    ensures { result.now ≡ skipped input.now }
{
    input.trim_ascii_start()
}

fn is_letter(byte: u8) -> bool
    ensures { result ≡ is_letter byte }
{
    byte.is_ascii_alphabetic() || byte == b'_'
}

fn is_word_byte(byte: u8) -> bool
    ensures { result ≡ is_word_byte byte }
{
    byte.is_ascii_alphanumeric() || byte == b'_'
}

// Whether a letter or `_` stands at the front.
fn starts_with_letter(here: &str) -> bool
    ensures { result ≡ starts_with_letter here.now }
{
    match here.as_bytes() {
        [] => false,
        [byte, ..] => is_letter(*byte),
    }
}

// The number of letters, digits and `_` at the front.
fn run_len(here: &str) -> usize
    ensures { result ≡ prefix_len is_word_byte here.now }
{
    here.as_bytes()
        .iter()
        .take_while(|byte| is_word_byte(**byte))
        .count()
}

// The length of the word at the front, or 0.
fn word_len(here: &str) -> usize
    ensures { result ≡ word_len here.now }
{
    if starts_with_letter(here) {
        run_len(here)
    } else {
        0
    }
}

// The word at the front, or nothing, and what comes after it.
fn split_word(here: &str) -> (&str, &str)
    ensures word { result.0.now ≡ take (word_len here.now) here.now }
    ensures rest { result.1.now ≡ drop (word_len here.now) here.now }
{
    here.split_at(word_len(here))
}

// The number of digits at the front.
fn digits_len(here: &str) -> usize
    ensures { result ≡ digits_len here.now }
{
    here.as_bytes()
        .iter()
        .take_while(|byte| byte.is_ascii_digit())
        .count()
}

// The digits at the front, and what comes after them.
fn split_digits(here: &str) -> (&str, &str)
    ensures digits { result.0.now ≡ take (digits_len here.now) here.now }
    ensures rest { result.1.now ≡ drop (digits_len here.now) here.now }
{
    here.split_at(digits_len(here))
}

/// The number that digits spell, or the largest `u64` where it is more.
pub(crate) fn magnitude(digits: &str) -> u64
    ensures { result ≡ min (digits_value digits.now) (2 ^ 64 - 1) }
{
    let mut number: u64 = 0;
    for digit in digits.as_bytes() {
        number = number
            .saturating_mul(10)
            .saturating_add(u64::from(digit.saturating_sub(b'0')));
    }
    number
}

// What comes after this character, where it is the one at the front.
fn behind_mark(here: &str, mark: char) -> Option<&str>
    requires { mark < 128 }
    ensures { option_copied result ≡ behind_mark mark here.now }
{
    here.strip_prefix(mark)
}

// After its opening quote, a string goes up to its closing one, and two quotes in it stand for one: its content, and what
// comes after it. `None` where it doesn't end.
fn string_in(alloc: Global, input: &str) -> Result<Option<(String, &str)>, AllocError>
    ensures { IfOk result (λ found. string_shown found ≡ string_in input.now) }
{
    let mut content = String::new(alloc);
    let mut rest = input;
    while let Some((segment, after)) = rest.split_once('\'') {
        content.push_str(segment)?;
        match after.strip_prefix('\'') {
            Some(more) => {
                content.push('\'')?;
                rest = more;
            }
            None => return Ok(Some((content, after))),
        }
    }
    Ok(None)
}

// A character that is a lexeme by itself.
fn mark_at(here: &str) -> Option<(Lexeme, &str)>
    ensures { shown result ≡ lexeme_at (mark_at here.now) }
{
    let byte = match here.as_bytes() {
        [] => return None,
        [byte, ..] => *byte,
    };
    if byte >= 128 {
        return None;
    }
    let rest = behind_mark(here, char::from(byte))?;
    Some((Lexeme::Mark(byte), rest))
}

// The lexeme at the front, where no white space stands before it, and what comes after it.
#[tactic(auto, unfolding(crate::specs::Lexing::token_at))]
fn lexeme_at(alloc: Global, here: &str) -> Result<Option<(Lexeme, &str)>, AllocError>
    ensures { IfOk result (λ found. shown found ≡ lexeme_at (token_at here.now)) }
{
    if starts_with_letter(here) {
        let (word, rest) = split_word(here);
        let letters = word.to_ascii_lowercase(alloc)?;
        let letters = Text::of(alloc, letters.as_str())?;
        return Ok(Some((Lexeme::Word(letters), rest)));
    }
    let (digits, rest) = split_digits(here);
    if digits.is_empty() {
        return other_at(alloc, here);
    }
    if starts_with_letter(rest) {
        return Ok(None);
    }
    let digits = Text::of(alloc, digits)?;
    Ok(Some((Lexeme::Digits(digits), rest)))
}

// A lexeme that is neither word nor digits: a string, or else a character.
fn other_at(alloc: Global, here: &str) -> Result<Option<(Lexeme, &str)>, AllocError>
    ensures { IfOk result (λ found. shown found
        ≡ lexeme_at (other_at here.now (behind_mark quote here.now))) }
{
    let Some(begin) = behind_mark(here, '\'') else {
        return Ok(mark_at(here));
    };
    match string_in(alloc, begin)? {
        Some((content, rest)) => {
            let content = Text::of(alloc, content.as_str())?;
            Ok(Some((Lexeme::Quoted(content), rest)))
        }
        None => Ok(None),
    }
}

/// The lexemes of a text, where it has no others.
pub(crate) fn lexemes_of(alloc: Global, text: &str) -> Result<Option<Vec<Lexeme>>, AllocError>
    ensures { IfOk result (AreLexemes text.now) }
{
    let mut lexemes = Vec::new(alloc);
    let mut rest = text;
    'lexemes: loop {
        let here = skipped(rest);
        if here.is_empty() {
            return Ok(Some(lexemes));
        }
        match lexeme_at(alloc, here)? {
            Some((lexeme, after)) => {
                lexemes.push(lexeme)?;
                rest = after;
            }
            None => return Ok(None),
        }
    }
}
