//! The modes of transactions, read from their lexemes.
ghost use Rattle.std.specs.{Prelude.{◌≡◌, ℕ, Bool, List}, Borrow.Bor, Option.option_map};
ghost use Rattle.pm_settings.specs.Reading.{after_comma, mode_in, modes_in};

use crate::lexeme::{Lexeme, after_words, first_of, is_empty};

// The first mode, whether it is READ ONLY, and what comes after it.
#[tactic(auto, unfolding(crate::specs::Reading::mode_in))]
fn mode_in(lexemes: &[Lexeme]) -> Option<(bool, &[Lexeme])>
    ensures { option_map (λ found. (found.0, found.1.now)) result ≡ mode_in lexemes.now }
{
    if let Some(rest) = after_words(lexemes, "read only") {
        Some((true, rest))
    } else if let Some(rest) = after_words(lexemes, "read write") {
        Some((false, rest))
    } else if let Some(rest) = after_words(lexemes, "isolation level serializable") {
        Some((false, rest))
    } else if let Some(rest) = after_words(lexemes, "isolation level repeatable read") {
        Some((false, rest))
    } else if let Some(rest) = after_words(lexemes, "isolation level read committed") {
        Some((false, rest))
    } else if let Some(rest) = after_words(lexemes, "isolation level read uncommitted") {
        Some((false, rest))
    } else {
        None
    }
}

// What comes after a comma, where one stands.
fn after_comma(lexemes: &[Lexeme]) -> &[Lexeme]
    ensures { result.now ≡ after_comma lexemes.now }
{
    match first_of(lexemes) {
        Some((first, rest)) if first.is_mark(b',') => rest,
        _ => lexemes,
    }
}

/// Whether one of the modes is READ ONLY, where they are all modes.
pub(crate) fn modes_in(lexemes: &[Lexeme]) -> Option<bool>
    ensures { result ≡ modes_in lexemes.now }
{
    let mut is_read_only = false;
    let mut rest = lexemes;
    for _ in 0..lexemes.len() {
        let (flag, after) = mode_in(rest)?;
        is_read_only = is_read_only || flag;
        if is_empty(after) {
            return Some(is_read_only);
        }
        rest = after_comma(after);
    }
    None
}
