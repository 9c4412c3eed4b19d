//! Texts as scripts.
ghost use Rattle.std.specs.Prelude.{◌≡◌, ◌+◌, ◌<◌, cond, List, IsTrue, IfOk, IfErr, Ok};
ghost use Rattle.pm_rows.specs.Limits.{max_changes};
ghost use Rattle.pm_sql.specs.{declared.stmt.Stmt.Stmt, Limits.{is_writing, HasShortValue}, Reading.Gives, Statements.IsQueryText, Faults.{IsFaultOf, IsScriptUnlessShort}, Query.{fault_in, script_of, stmt_at, if_room, end_at}};

use crate::fault::{Fault, Kind, Stop};
use crate::grammar::{delete_at, insert_at, select_at, update_at};
use crate::script::Script;
use crate::stmt::Stmt;
use crate::tokens::{behind_mark, behind_word, skipped};
use pm_rows::MAX_CHANGES;
use std::alloc::Global;
use thiserror::Error;

/// Why a text is no script: the first fault from the left, and the place where it stands, in bytes from the start.
#[derive(Clone, Copy, Debug, PartialEq, Eq, Error)]
pub enum SqlFault {
    /// No statement goes on with this token, or the text ends too early.
    #[error("syntax error at byte {at}")]
    Syntax { at: usize },
    /// A table with this name doesn't exist.
    #[error("unknown table at byte {at}")]
    Table { at: usize },
    /// A number is out of range.
    #[error("number out of range at byte {at}")]
    Range { at: usize },
    /// A value is too long.
    #[error("value too long at byte {at}")]
    TooLong { at: usize },
    /// There are too many statements that write.
    #[error("one writing statement too many at byte {at}")]
    TooMany { at: usize },
    /// Memory is short.
    #[error("out of memory")]
    NoMemory,
}

/// The script that a text spells, or its fault. A text that spells a script is refused only where memory is short.
pub fn parse(alloc: Global, text: &str) -> Result<Script, SqlFault>
    ensures script { IfOk result (λ script. IsQueryText text.now script) }
    ensures query { (stmts : List Stmt) → IsQueryText text.now stmts
        → IsScriptUnlessShort result stmts }
    ensures fault { IfErr result (IsFaultOf text.now) }
{
    match script_of(alloc, text) {
        Ok(script) => Ok(script),
        Err(Stop::Fault(fault)) => Err(fault_in(text, fault)),
        Err(Stop::NoMemory) => Err(SqlFault::NoMemory),
    }
}

// What a fault is in the whole text.
fn fault_in(text: &str, fault: Fault) -> SqlFault
    ensures { result ≡ fault_in text.now fault }
{
    let at = text.len().saturating_sub(fault.left);
    match fault.kind {
        Kind::Syntax => SqlFault::Syntax { at },
        Kind::Table => SqlFault::Table { at },
        Kind::Range => SqlFault::Range { at },
        Kind::TooLong => SqlFault::TooLong { at },
        Kind::TooMany => SqlFault::TooMany { at },
    }
}

// Each step takes a `;` or a statement, and so a byte at least.
#[tactic(auto, unfolding(crate::specs::Query::script_of))]
fn script_of(alloc: Global, text: &str) -> Result<Script, Stop>
    ensures { Gives (λ script. script) result (script_of text.now) }
{
    let mut script = Script::new(alloc);
    let mut writing = 0;
    let mut rest = text;
    for _ in 0..text.len() {
        let here = skipped(rest);
        if here.is_empty() {
            break;
        }
        if let Some(behind) = behind_mark(here, ';') {
            rest = behind;
            continue;
        }
        let (stmt, behind) = stmt_at(alloc, writing, here)?;
        rest = end_at(behind)?;
        writing = with_stmt(writing, &stmt);
        script.push(stmt)?;
    }
    Ok(script)
}

// How many statements write, with one more statement.
fn with_stmt(writing: usize, stmt: &Stmt) -> usize
    requires { IsTrue (is_writing stmt.now) → writing < max_changes }
    ensures { result ≡ writing + cond (is_writing stmt.now) 1 0 }
{
    if stmt.is_writing() {
        writing + 1
    } else {
        writing
    }
}

// The statement that begins here, after so many that write.
#[tactic(auto, unfolding(crate::specs::Query::stmt_at))]
fn stmt_at(alloc: Global, writing: usize, here: &str) -> Result<(Stmt, &str), Stop>
    ensures read { Gives (λ found. (found.0, found.1.now)) result (stmt_at writing here.now) }
    ensures room { IfOk result (λ found. IsTrue (is_writing found.0) → writing < max_changes) }
    ensures short { IfOk result (λ found. HasShortValue found.0) }
{
    if let Some(rest) = behind_word(here, "insert") {
        room_for_one(writing, here)?;
        insert_at(alloc, rest)
    } else if let Some(rest) = behind_word(here, "update") {
        room_for_one(writing, here)?;
        update_at(alloc, rest)
    } else if let Some(rest) = behind_word(here, "delete") {
        room_for_one(writing, here)?;
        delete_at(rest)
    } else if let Some(rest) = behind_word(here, "select") {
        select_at(rest)
    } else {
        Err(Stop::at(Kind::Syntax, here))
    }
}

// Whether there is room for one more statement that writes.
fn room_for_one(writing: usize, here: &str) -> Result<(), Stop>
    ensures { Gives (λ _. tt {0}) result (if_room writing here.now (Ok (tt {0}))) }
{
    if writing < MAX_CHANGES {
        Ok(())
    } else {
        Err(Stop::at(Kind::TooMany, here))
    }
}

// A statement ends at a `;` or at the end.
#[tactic(auto, unfolding(crate::specs::Query::end_at))]
fn end_at(input: &str) -> Result<&str, Stop>
    ensures { Gives (λ here. here.now) result (end_at input.now) }
{
    let here = skipped(input);
    match here.as_bytes() {
        [] | [b';', ..] => Ok(here),
        _ => Err(Stop::at(Kind::Syntax, here)),
    }
}
