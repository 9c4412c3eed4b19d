//! The statements, each read from its lexemes.
ghost use Rattle.std.specs.{Prelude.{◌≡◌, IfOk, filter}, Option.option_map, List.slice_split};
ghost use Rattle.pm_settings.specs.{Lexemes.words_in, Reading.{all_in, are_parens, assignment_in, is_call, is_star, is_to, number_in, number_of, one_in, reset_in, reset_of, select_in, set_in, set_to, show_in, statement_in, statements_in, transaction_in, unlisten_in}};

use crate::lexeme::{Lexeme, after_words, are_words, first_of, is_empty, only_word};
use crate::lexer::magnitude;
use crate::modes::modes_in;
use crate::statement::Statement;
use crate::value::{value_in, values_in};
use pm_rows::Text;
use std::alloc::{AllocError, Global};

/// The largest number that `SELECT` shows.
const MAX_NUMBER: u64 = 2_147_483_647;

// The statement that gives a setting this value, or by DEFAULT none.
fn set_to(name: Text, list: &[Lexeme], value: Option<Text>) -> Option<Statement>
    ensures { result ≡ set_to name list.now value }
{
    if are_words(list, "default") {
        return Some(Statement::Set { name, value: None });
    }
    match value {
        Some(text) => Some(Statement::Set {
            name,
            value: Some(text),
        }),
        None => None,
    }
}

// One value, for the setting of this name.
fn one_in(alloc: Global, name: &str, list: &[Lexeme]) -> Result<Option<Statement>, AllocError>
    ensures { IfOk result (λ found. found ≡ one_in name.now list.now) }
{
    let value = value_in(alloc, list)?;
    Ok(set_to(Text::of(alloc, name)?, list, value))
}

// TO or `=`.
fn is_to(lexeme: &Lexeme) -> bool
    ensures { result ≡ is_to lexeme.now }
{
    lexeme.is_word("to") || lexeme.is_mark(b'=')
}

// The name of a setting and its values.
#[tactic(auto, unfolding(crate::specs::Reading::assignment_in))]
fn assignment_in(alloc: Global, lexemes: &[Lexeme]) -> Result<Option<Statement>, AllocError>
    ensures { IfOk result (λ found. found ≡ assignment_in lexemes.now) }
{
    let Some((first, rest)) = first_of(lexemes) else {
        return Ok(None);
    };
    let Some(name) = first.word() else {
        return Ok(None);
    };
    let Some((to, list)) = first_of(rest) else {
        return Ok(None);
    };
    if !is_to(to) {
        return Ok(None);
    }
    let value = values_in(alloc, list)?;
    Ok(set_to(name.copy()?, list, value))
}

fn transaction_in(lexemes: &[Lexeme]) -> Option<Statement>
    ensures { result ≡ transaction_in lexemes.now }
{
    let is_read_only = modes_in(lexemes)?;
    Some(Statement::Transaction { is_read_only })
}

// SET, after this word.
#[tactic(auto, unfolding(crate::specs::Reading::set_in))]
fn set_in(alloc: Global, lexemes: &[Lexeme]) -> Result<Option<Statement>, AllocError>
    ensures { IfOk result (λ found. found ≡ set_in lexemes.now) }
{
    if let Some(found) = assignment_in(alloc, lexemes)? {
        Ok(Some(found))
    } else if let Some(rest) = after_words(lexemes, "time zone") {
        one_in(alloc, "timezone", rest)
    } else if let Some(rest) = after_words(lexemes, "names") {
        one_in(alloc, "client_encoding", rest)
    } else if let Some(rest) = after_words(lexemes, "transaction") {
        Ok(transaction_in(rest))
    } else if let Some(rest) = after_words(lexemes, "session characteristics as transaction") {
        Ok(transaction_in(rest))
    } else if let Some(rest) = after_words(lexemes, "session") {
        assignment_in(alloc, rest)
    } else if let Some(rest) = after_words(lexemes, "local") {
        assignment_in(alloc, rest)
    } else {
        Ok(None)
    }
}

// RESET, after this word.
fn reset_in(lexemes: &[Lexeme]) -> Result<Option<Statement>, AllocError>
    ensures { IfOk result (λ found. found ≡ reset_in lexemes.now) }
{
    match only_word(lexemes) {
        Some(name) => Ok(Some(reset_of(name)?)),
        None => Ok(None),
    }
}

fn reset_of(name: &Text) -> Result<Statement, AllocError>
    ensures { IfOk result (λ statement. statement ≡ reset_of name.now) }
{
    if name.as_str() == "all" {
        Ok(Statement::ResetAll)
    } else {
        Ok(Statement::Reset { name: name.copy()? })
    }
}

// SHOW, after this word.
#[tactic(auto, unfolding(crate::specs::Reading::show_in))]
fn show_in(alloc: Global, lexemes: &[Lexeme]) -> Result<Option<Statement>, AllocError>
    ensures { IfOk result (λ found. found ≡ show_in lexemes.now) }
{
    if let Some(name) = only_word(lexemes) {
        let name = name.copy()?;
        Ok(Some(Statement::Show { name }))
    } else if are_words(lexemes, "time zone") {
        let name = Text::of(alloc, "timezone")?;
        Ok(Some(Statement::Show { name }))
    } else if are_words(lexemes, "transaction isolation level") {
        let name = Text::of(alloc, "transaction_isolation")?;
        Ok(Some(Statement::Show { name }))
    } else {
        Ok(None)
    }
}

// `()`.
fn are_parens(lexemes: &[Lexeme]) -> bool
    ensures { result ≡ are_parens lexemes.now }
{
    let Some((first, after)) = first_of(lexemes) else {
        return false;
    };
    let Some((second, rest)) = first_of(after) else {
        return false;
    };
    first.is_mark(b'(') && second.is_mark(b')') && is_empty(rest)
}

// A call without arguments.
fn is_call(lexemes: &[Lexeme], name: &str) -> bool
    ensures { result ≡ is_call (words_in name.now) lexemes.now }
{
    match after_words(lexemes, name) {
        Some(rest) => are_parens(rest),
        None => false,
    }
}

// The number that digits spell, where it is small enough.
fn number_of(digits: &str) -> Option<u32>
    ensures { result ≡ number_of digits.now }
{
    let number = magnitude(digits);
    if number <= MAX_NUMBER {
        Some(number as u32)
    } else {
        None
    }
}

fn number_in(lexemes: &[Lexeme]) -> Option<u32>
    ensures { result ≡ number_in lexemes.now }
{
    let (first, rest) = first_of(lexemes)?;
    if !is_empty(rest) {
        return None;
    }
    match first {
        Lexeme::Digits(digits) => number_of(digits.as_str()),
        _ => None,
    }
}

// SELECT, after this word.
#[tactic(auto, unfolding(crate::specs::Reading::select_in))]
fn select_in(lexemes: &[Lexeme]) -> Option<Statement>
    ensures { result ≡ select_in lexemes.now }
{
    if is_call(lexemes, "version") {
        return Some(Statement::Version);
    }
    if is_call(lexemes, "pg_advisory_unlock_all") {
        return Some(Statement::UnlockAll);
    }
    let value = number_in(lexemes)?;
    Some(Statement::Number { value })
}

// `*`.
fn is_star(lexemes: &[Lexeme]) -> bool
    ensures { result ≡ is_star lexemes.now }
{
    match first_of(lexemes) {
        Some((first, rest)) => first.is_mark(b'*') && is_empty(rest),
        None => false,
    }
}

// UNLISTEN, after this word.
fn unlisten_in(lexemes: &[Lexeme]) -> Option<Statement>
    ensures { result ≡ unlisten_in lexemes.now }
{
    if is_star(lexemes) {
        Some(Statement::UnlistenAll)
    } else {
        None
    }
}

fn all_in(lexemes: &[Lexeme]) -> Option<Statement>
    ensures { result ≡ all_in lexemes.now }
{
    if are_words(lexemes, "discard all") {
        Some(Statement::DiscardAll)
    } else if are_words(lexemes, "close all") {
        Some(Statement::CloseAll)
    } else {
        None
    }
}

// One statement.
#[tactic(auto, unfolding(crate::specs::Reading::statement_in))]
fn statement_in(alloc: Global, lexemes: &[Lexeme]) -> Result<Option<Statement>, AllocError>
    ensures { IfOk result (λ found. found ≡ statement_in lexemes.now) }
{
    if let Some(rest) = after_words(lexemes, "set") {
        set_in(alloc, rest)
    } else if let Some(rest) = after_words(lexemes, "reset") {
        reset_in(rest)
    } else if let Some(rest) = after_words(lexemes, "show") {
        show_in(alloc, rest)
    } else if let Some(rest) = after_words(lexemes, "select") {
        Ok(select_in(rest))
    } else if let Some(rest) = after_words(lexemes, "unlisten") {
        Ok(unlisten_in(rest))
    } else {
        Ok(all_in(lexemes))
    }
}

/// The statements with semicolons between them, before them and after them.
#[tactic(auto, unfolding(crate::specs::Reading::statements_in))]
pub(crate) fn statements_in(
    alloc: Global,
    lexemes: &[Lexeme],
) -> Result<Option<Vec<Statement>>, AllocError>
    ensures { IfOk result (λ found. option_map (λ statements. statements.items) found
        ≡ statements_in lexemes.now) }
{
    let mut statements = Vec::new(alloc);
    for piece in lexemes.split(|lexeme| lexeme.is_mark(b';')) {
        if is_empty(piece) {
            continue;
        }
        match statement_in(alloc, piece)? {
            Some(statement) => statements.push(statement)?,
            None => return Ok(None),
        }
    }
    Ok(Some(statements))
}
