//! The productions of the grammar, each read from the front of a text.
ghost use Rattle.std.specs.{Prelude.{◌≡◌, ◌≤◌, IsTrue, IfOk, false, length, codes}, Option.{option_copied, SomeIff}};
ghost use Rattle.pm_rows.specs.Limits.{max_value_bytes};
ghost use Rattle.pm_sql.specs.{Tokens.{digits_len, digits_value, behind_mark, behind_word, skipped, string_in}, Limits.{is_writing, HasShortValue}, Reading.Gives, Split.IsSplit, Grammar.{name_at, digits_at, behind_digits, sign_of, fits_bigint, signed, int_at, seconds_at, string_at, key_condition_at, columns_in, insert_at, update_at, delete_at, from_at, condition_in, order_in, rows_at, pairs_at, count_at, sleep_at, select_at}};

use crate::fault::{Kind, Stop};
use crate::stmt::Stmt;
use crate::tokens::{
    behind_mark, behind_word, magnitude, mark_at, skipped, split_digits, split_word,
    starts_with_letter, string_in, word_at,
};
use pm_rows::{MAX_VALUE_BYTES, Text};
use std::alloc::Global;

/// The longest pause, in seconds: a day.
pub const MAX_SLEEP_SECONDS: u32 = 86_400;

// The name of the one table.
#[tactic(auto, unfolding(crate::specs::Grammar::name_at))]
fn name_at(input: &str) -> Result<&str, Stop>
    ensures { Gives (λ rest. rest.now) result (name_at input.now) }
{
    let here = skipped(input);
    let (word, rest) = split_word(here);
    if word.is_empty() {
        return Err(Stop::at(Kind::Syntax, here));
    }
    if !word.eq_ignore_ascii_case("kv") {
        return Err(Stop::at(Kind::Table, here));
    }
    Ok(rest)
}

// A text that begins with digits: the whole, the digits, and what comes after them.
#[derive(Clone, Copy)]
struct Digits<'a> {
    here: &'a str,
    digits: &'a str,
    behind: &'a str,
}

// Digits, where they begin.
#[tactic(auto, unfolding(crate::specs::Grammar::digits_at))]
fn digits_at(input: &str) -> Result<Digits<'_>, Stop>
    ensures read { Gives (λ found. found.here.now) result (digits_at input.now) }
    ensures split { IfOk result IsSplit }
{
    let here = skipped(input);
    let (digits, behind) = split_digits(here);
    if digits.is_empty() {
        return Err(Stop::at(Kind::Syntax, here));
    }
    Ok(Digits {
        here,
        digits,
        behind,
    })
}

// What comes after digits: their number has to be in range, and no word follows at once.
#[tactic(auto, unfolding(crate::specs::Grammar::behind_digits))]
fn behind_digits(found: Digits<'_>, is_in_range: bool) -> Result<&str, Stop>
    requires { IsSplit found }
    ensures { Gives (λ rest. rest.now) result (behind_digits is_in_range found.entry.here.now) }
{
    if !is_in_range {
        return Err(Stop::at(Kind::Range, found.here));
    }
    if starts_with_letter(found.behind) {
        return Err(Stop::at(Kind::Syntax, found.behind));
    }
    Ok(found.behind)
}

// A sign, where one stands: whether it is `-`, and what comes after it.
fn sign_of(here: &str) -> (bool, &str)
    ensures { (result.0, result.1.now) ≡ sign_of here.now }
{
    if let Some(rest) = behind_mark(here, '-') {
        (true, rest)
    } else if let Some(rest) = behind_mark(here, '+') {
        (false, rest)
    } else {
        (false, here)
    }
}

// The number with its sign, where 64 bits hold it.
fn signed(is_negative: bool, number: u64) -> Option<i64>
    ensures { SomeIff result (IsTrue (fits_bigint is_negative number)) (signed is_negative number) }
{
    if is_negative {
        0i64.checked_sub_unsigned(number)
    } else {
        0i64.checked_add_unsigned(number)
    }
}

// An int, with or without a sign.
#[tactic(auto, unfolding(crate::specs::Grammar::int_at))]
fn int_at(input: &str) -> Result<(i64, &str), Stop>
    ensures { Gives (λ found. (found.0, found.1.now)) result (int_at input.now) }
{
    let (is_negative, rest) = sign_of(skipped(input));
    let found = digits_at(rest)?;
    match signed(is_negative, magnitude(found.digits)) {
        Some(value) => Ok((value, behind_digits(found, true)?)),
        None => Err(Stop::at(Kind::Range, found.here)),
    }
}

// The seconds of a pause.
#[tactic(auto, unfolding(crate::specs::Grammar::seconds_at))]
fn seconds_at(input: &str) -> Result<(u32, &str), Stop>
    ensures { Gives (λ found. (found.0, found.1.now)) result (seconds_at input.now) }
{
    let found = digits_at(input)?;
    match u32::try_from(magnitude(found.digits)) {
        Ok(seconds) => {
            let rest = behind_digits(found, seconds <= MAX_SLEEP_SECONDS)?;
            Ok((seconds, rest))
        }
        Err(_) => Err(Stop::at(Kind::Range, found.here)),
    }
}

// A string that is short enough for a value.
#[tactic(auto, unfolding(crate::specs::Grammar::string_at))]
fn string_at(alloc: Global, input: &str) -> Result<(Text, &str), Stop>
    ensures read { Gives (λ found. (found.0, found.1.now)) result (string_at input.now) }
    ensures short { IfOk result (λ found. length found.0 ≤ max_value_bytes) }
{
    let here = skipped(input);
    let begin = mark_at(input, '\'')?;
    let Some((content, rest)) = string_in(alloc, begin)? else {
        return Err(Stop::at(Kind::Syntax, here));
    };
    if content.len() > MAX_VALUE_BYTES {
        return Err(Stop::at(Kind::TooLong, here));
    }
    Ok((Text::of(alloc, content.as_str())?, rest))
}

// `k =` and an int.
#[tactic(auto, unfolding(crate::specs::Grammar::key_condition_at))]
fn key_condition_at(input: &str) -> Result<(i64, &str), Stop>
    ensures { Gives (λ found. (found.0, found.1.now)) result (key_condition_at input.now) }
{
    let rest = word_at(input, "k")?;
    let rest = mark_at(rest, '=')?;
    int_at(rest)
}

// The columns of an INSERT, where they are named.
fn columns_at(input: &str) -> Result<&str, Stop>
    ensures { Gives (λ rest. rest.now) result
        (columns_in input.now (behind_mark 40 (skipped input.now))) }
{
    let Some(rest) = behind_mark(skipped(input), '(') else {
        return Ok(input);
    };
    let rest = word_at(rest, "k")?;
    let rest = mark_at(rest, ',')?;
    let rest = word_at(rest, "v")?;
    mark_at(rest, ')')
}

/// INSERT, after this word.
#[tactic(auto, unfolding(crate::specs::Grammar::insert_at))]
pub(crate) fn insert_at(alloc: Global, input: &str) -> Result<(Stmt, &str), Stop>
    ensures read { Gives (λ found. (found.0, found.1.now)) result (insert_at input.now) }
    ensures short { IfOk result (λ found. HasShortValue found.0) }
{
    let rest = word_at(input, "into")?;
    let rest = name_at(rest)?;
    let rest = columns_at(rest)?;
    let rest = word_at(rest, "values")?;
    let rest = mark_at(rest, '(')?;
    let (key, rest) = int_at(rest)?;
    let rest = mark_at(rest, ',')?;
    let (value, rest) = string_at(alloc, rest)?;
    let rest = mark_at(rest, ')')?;
    Ok((Stmt::Insert { key, value }, rest))
}

/// UPDATE, after this word.
#[tactic(auto, unfolding(crate::specs::Grammar::update_at))]
pub(crate) fn update_at(alloc: Global, input: &str) -> Result<(Stmt, &str), Stop>
    ensures read { Gives (λ found. (found.0, found.1.now)) result (update_at input.now) }
    ensures short { IfOk result (λ found. HasShortValue found.0) }
{
    let rest = name_at(input)?;
    let rest = word_at(rest, "set")?;
    let rest = word_at(rest, "v")?;
    let rest = mark_at(rest, '=')?;
    let (value, rest) = string_at(alloc, rest)?;
    let rest = word_at(rest, "where")?;
    let (key, rest) = key_condition_at(rest)?;
    Ok((Stmt::Update { key, value }, rest))
}

/// DELETE, after this word.
#[tactic(auto, unfolding(crate::specs::Grammar::delete_at))]
pub(crate) fn delete_at(input: &str) -> Result<(Stmt, &str), Stop>
    ensures read { Gives (λ found. (found.0, found.1.now)) result (delete_at input.now) }
    ensures short { IfOk result (λ found. HasShortValue found.0) }
{
    let rest = word_at(input, "from")?;
    let rest = name_at(rest)?;
    let rest = word_at(rest, "where")?;
    let (key, rest) = key_condition_at(rest)?;
    Ok((Stmt::Delete { key }, rest))
}

// FROM and the table.
#[tactic(auto, unfolding(crate::specs::Grammar::from_at))]
fn from_at(input: &str) -> Result<&str, Stop>
    ensures { Gives (λ rest. rest.now) result (from_at input.now) }
{
    let rest = word_at(input, "from")?;
    name_at(rest)
}

// WHERE and a key, where they stand.
fn condition_at(input: &str) -> Result<(Option<i64>, &str), Stop>
    ensures { Gives (λ found. (found.0, found.1.now)) result
        (condition_in input.now (behind_word (codes "where") (skipped input.now))) }
{
    let Some(rest) = behind_word(skipped(input), "where") else {
        return Ok((None, input));
    };
    let (key, rest) = key_condition_at(rest)?;
    Ok((Some(key), rest))
}

// ORDER BY k, where it stands. The order is that of the keys with it and without it.
fn order_at(input: &str) -> Result<&str, Stop>
    ensures { Gives (λ rest. rest.now) result
        (order_in input.now (behind_word (codes "order") (skipped input.now))) }
{
    let Some(rest) = behind_word(skipped(input), "order") else {
        return Ok(input);
    };
    let rest = word_at(rest, "by")?;
    word_at(rest, "k")
}

// A SELECT of rows, after its columns.
#[tactic(auto, unfolding(crate::specs::Grammar::rows_at))]
fn rows_at(input: &str) -> Result<(Stmt, &str), Stop>
    ensures read { Gives (λ found. (found.0, found.1.now)) result (rows_at input.now) }
    ensures reads { IfOk result (λ found. is_writing found.0 ≡ false) }
    ensures short { IfOk result (λ found. HasShortValue found.0) }
{
    let rest = from_at(input)?;
    let (key, rest) = condition_at(rest)?;
    let rest = order_at(rest)?;
    Ok((Stmt::Select { key }, rest))
}

// SELECT k, after this word.
#[tactic(auto, unfolding(crate::specs::Grammar::pairs_at))]
fn pairs_at(input: &str) -> Result<(Stmt, &str), Stop>
    ensures read { Gives (λ found. (found.0, found.1.now)) result (pairs_at input.now) }
    ensures reads { IfOk result (λ found. is_writing found.0 ≡ false) }
    ensures short { IfOk result (λ found. HasShortValue found.0) }
{
    let rest = mark_at(input, ',')?;
    let rest = word_at(rest, "v")?;
    rows_at(rest)
}

// SELECT count, after this word.
#[tactic(auto, unfolding(crate::specs::Grammar::count_at))]
fn count_at(input: &str) -> Result<(Stmt, &str), Stop>
    ensures read { Gives (λ found. (found.0, found.1.now)) result (count_at input.now) }
    ensures reads { IfOk result (λ found. is_writing found.0 ≡ false) }
    ensures short { IfOk result (λ found. HasShortValue found.0) }
{
    let rest = mark_at(input, '(')?;
    let rest = mark_at(rest, '*')?;
    let rest = mark_at(rest, ')')?;
    let rest = from_at(rest)?;
    Ok((Stmt::Count, rest))
}

// SELECT pg_sleep, after this word.
#[tactic(auto, unfolding(crate::specs::Grammar::sleep_at))]
fn sleep_at(input: &str) -> Result<(Stmt, &str), Stop>
    ensures read { Gives (λ found. (found.0, found.1.now)) result (sleep_at input.now) }
    ensures reads { IfOk result (λ found. is_writing found.0 ≡ false) }
    ensures short { IfOk result (λ found. HasShortValue found.0) }
{
    let rest = mark_at(input, '(')?;
    let (seconds, rest) = seconds_at(rest)?;
    let rest = mark_at(rest, ')')?;
    Ok((Stmt::Sleep { seconds }, rest))
}

/// SELECT, after this word.
#[tactic(auto, unfolding(crate::specs::Grammar::select_at))]
pub(crate) fn select_at(input: &str) -> Result<(Stmt, &str), Stop>
    ensures read { Gives (λ found. (found.0, found.1.now)) result (select_at input.now) }
    ensures reads { IfOk result (λ found. is_writing found.0 ≡ false) }
    ensures short { IfOk result (λ found. HasShortValue found.0) }
{
    let here = skipped(input);
    if let Some(rest) = behind_mark(here, '*') {
        rows_at(rest)
    } else if let Some(rest) = behind_word(here, "k") {
        pairs_at(rest)
    } else if let Some(rest) = behind_word(here, "count") {
        count_at(rest)
    } else if let Some(rest) = behind_word(here, "pg_sleep") {
        sleep_at(rest)
    } else {
        Err(Stop::at(Kind::Syntax, here))
    }
}
