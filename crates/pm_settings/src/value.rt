//! The values of a statement, each read from its lexemes.
ghost use Rattle.std.specs.{Prelude.{◌≡◌, IfOk}, List.slice_split, Option.option_map};
ghost use Rattle.pm_settings.specs.{Statements.{is_comma, joined}, Reading.{all_of, plain, signed, value_in, values_in}};

use crate::lexeme::{Lexeme, first_of, is_empty};
use pm_rows::Text;
use std::alloc::{AllocError, Global};

// What a lexeme says by itself.
fn plain(lexeme: &Lexeme) -> Result<Option<Text>, AllocError>
    ensures { IfOk result (λ found. found ≡ plain lexeme.now) }
{
    match lexeme {
        Lexeme::Word(text) | Lexeme::Digits(text) | Lexeme::Quoted(text) => Ok(Some(text.copy()?)),
        Lexeme::Mark(_) => Ok(None),
    }
}

// A number with its sign. It is told without a `+`.
fn signed(alloc: Global, sign: &Lexeme, number: &Lexeme) -> Result<Option<Text>, AllocError>
    ensures { IfOk result (λ found. found ≡ signed sign.now number.now) }
{
    let Lexeme::Digits(digits) = number else {
        return Ok(None);
    };
    if sign.is_mark(b'+') {
        return Ok(Some(digits.copy()?));
    }
    if !sign.is_mark(b'-') {
        return Ok(None);
    }
    let mut text = String::from_str(alloc, "-")?;
    text.push_str(digits.as_str())?;
    Ok(Some(Text::of(alloc, text.as_str())?))
}

/// One value.
pub(crate) fn value_in(alloc: Global, lexemes: &[Lexeme]) -> Result<Option<Text>, AllocError>
    ensures { IfOk result (λ found. found ≡ value_in lexemes.now) }
{
    let Some((first, rest)) = first_of(lexemes) else {
        return Ok(None);
    };
    let Some((second, more)) = first_of(rest) else {
        return plain(first);
    };
    if is_empty(more) {
        signed(alloc, first, second)
    } else {
        Ok(None)
    }
}

// The values with commas between them.
fn values_of(alloc: Global, lexemes: &[Lexeme]) -> Result<Option<Vec<Text>>, AllocError>
    ensures { IfOk result (λ found. option_map (λ values. values.items) found
        ≡ all_of value_in (slice_split is_comma lexemes.now)) }
{
    let mut values = Vec::new(alloc);
    for piece in lexemes.split(|lexeme| lexeme.is_mark(b',')) {
        match value_in(alloc, piece)? {
            Some(value) => values.push(value)?,
            None => return Ok(None),
        }
    }
    Ok(Some(values))
}

// Values as one text.
fn joined(alloc: Global, values: &[Text]) -> Result<Text, AllocError>
    ensures { IfOk result (λ text. text ≡ joined values.now) }
{
    let mut text = String::new(alloc);
    for (at, value) in values.iter().enumerate() {
        if at > 0 {
            text.push_str(", ")?;
        }
        text.push_str(value.as_str())?;
    }
    Text::of(alloc, text.as_str())
}

/// One value or several, with commas between them, as one text.
#[tactic(auto, unfolding(crate::specs::Reading::values_in))]
pub(crate) fn values_in(alloc: Global, lexemes: &[Lexeme]) -> Result<Option<Text>, AllocError>
    ensures { IfOk result (λ found. found ≡ values_in lexemes.now) }
{
    match values_of(alloc, lexemes)? {
        Some(values) => Ok(Some(joined(alloc, &values)?)),
        None => Ok(None),
    }
}
