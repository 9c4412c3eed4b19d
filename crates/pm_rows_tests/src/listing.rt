//! Scripts, rows and outcomes as the tests write them.

use pm_query::{Item, Outcome, Pairs};
use pm_rows::{Change, Commit, Rows, Text};
use pm_sql::{Script, parse};
use std::alloc::Global;
use std::test::Fail;

// The rows from one key up to another, which have one value.
fn push_run(alloc: Global, text: &mut String, run: (i64, i64, &str)) -> Result<(), Fail> {
    let (first, last, value) = run;
    let told = if first == last {
        format!(in alloc; " {first}={value}")?
    } else {
        format!(in alloc; " {first}..{last}={value}")?
    };
    text.push_str(told.as_str())?;
    Ok(())
}

// Rows in one line. Those of neighbouring keys that have one value are told together.
fn rows_told(alloc: Global, rows: &Pairs) -> Result<String, Fail> {
    let mut text = String::from_str(alloc, "rows")?;
    let mut run = None;
    for (key, value) in rows.pairs() {
        run = match run {
            Some((first, last, same)) if is_next(last, *key) && same == value.as_str() => {
                Some((first, *key, same))
            }
            Some(before) => {
                push_run(alloc, &mut text, before)?;
                Some((*key, *key, value.as_str()))
            }
            None => Some((*key, *key, value.as_str())),
        };
    }
    if let Some(last) = run {
        push_run(alloc, &mut text, last)?;
    }
    Ok(text)
}

fn is_next(key: i64, next: i64) -> bool {
    key.checked_add(1) == Some(next)
}

// An item in one line.
fn shown(alloc: Global, item: &Item) -> Result<String, Fail> {
    let text = match item {
        Item::Empty => format!(in alloc; "empty")?,
        Item::Insert => format!(in alloc; "insert")?,
        Item::Update(count) => format!(in alloc; "update {count}")?,
        Item::Delete(count) => format!(in alloc; "delete {count}")?,
        Item::Rows(pairs) => rows_told(alloc, &pairs.copy()?)?,
        Item::Count(count) => format!(in alloc; "count {count}")?,
        Item::Slept => format!(in alloc; "slept")?,
        Item::Duplicate { key } => format!(in alloc; "duplicate {key}")?,
        Item::TableFull => format!(in alloc; "table full")?,
        Item::RowsTooLarge => format!(in alloc; "rows too large")?,
    };
    Ok(text)
}

// The items and the changes in one line.
pub(crate) fn listed(alloc: Global, outcome: &Outcome) -> Result<String, Fail> {
    let mut text = String::new(alloc);
    for item in outcome.reply.copy()?.items() {
        text.push_str(shown(alloc, item)?.as_str())?;
        text.push_str(if item.is_error() { "! " } else { "; " })?;
    }
    text.push_str("|")?;
    for change in outcome.commit.changes() {
        let line = match change {
            Change::Put { key, value } => format!(in alloc; " {}={}", key, value.as_str())?,
            Change::Del { key } => format!(in alloc; " -{}", key)?,
        };
        text.push_str(line.as_str())?;
    }
    Ok(text)
}

pub(crate) fn script_of(alloc: Global, text: &str) -> Result<Script, Fail> {
    Ok(parse(alloc, text).ok().ok_or("the text is a script")?)
}

fn long_text(alloc: Global, len: usize) -> Result<String, Fail> {
    let mut text = String::new(alloc);
    for _ in 0..len {
        text.push('x')?;
    }
    Ok(text)
}

// Rows with the keys below `count` and values of `len` bytes.
pub(crate) fn many_rows(alloc: Global, count: i64, len: usize) -> Result<Rows, Fail> {
    let value = long_text(alloc, len)?;
    let mut commit = Commit::new(alloc);
    for key in 0..count {
        commit.push(Change::Put {
            key,
            value: Text::of(alloc, value.as_str())?,
        })?;
    }
    let mut rows = Rows::new(alloc);
    rows.apply(&commit)?;
    Ok(rows)
}

// The text with a value of so many bytes in the place of each number in braces.
pub(crate) fn with_long_values(alloc: Global, text: &str) -> Result<String, Fail> {
    let mut long = String::new(alloc);
    for piece in text.split('{') {
        match piece.split_once('}') {
            Some((length, rest)) => {
                let length = length.parse::<usize>().ok().ok_or("a number")?;
                long.push_str(long_text(alloc, length)?.as_str())?;
                long.push_str(rest)?;
            }
            None => long.push_str(piece)?,
        }
    }
    Ok(long)
}
