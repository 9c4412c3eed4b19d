//! How a text is read as session statements.
ghost use Rattle.std.specs.Prelude.{◌≡◌, IfErr, IfOk};
ghost use Rattle.pm_settings.specs.{Refused.IsNoSessionText, Statements.IsSessionText};

use crate::grammar::statements_in;
use crate::lexer::lexemes_of;
use crate::statement::Statement;
use std::alloc::{AllocError, Global};

/// Why a text isn't read as session statements.
#[derive(Clone, Copy, Debug, PartialEq, Eq)]
pub enum ReadNo {
    /// It is no text of session statements.
    Other,
    NoMemory,
}

impl From<AllocError> for ReadNo {
    ghost use Rattle.pm_settings.specs.declared.reading.ReadNo.TheVariants.{NoMemory};

    ghost from_gives = { λ _ no. no ≡ NoMemory };

    fn from(_error: AllocError) -> ReadNo {
        ReadNo::NoMemory
    }
}

/// Reads a text of session statements: one or more, in any case, with semicolons between them, before them and after them.
///
/// ```text
/// SET [ SESSION | LOCAL ] name ( TO | = ) ( value { , value } | DEFAULT )
/// SET TIME ZONE ( value | DEFAULT )
/// SET NAMES ( value | DEFAULT )
/// SET [ SESSION CHARACTERISTICS AS ] TRANSACTION mode { [ , ] mode }
/// RESET ( name | ALL )
/// SHOW ( name | TIME ZONE | TRANSACTION ISOLATION LEVEL )
/// DISCARD ALL
/// CLOSE ALL
/// UNLISTEN *
/// SELECT ( pg_advisory_unlock_all() | version() | digits )
/// ```
///
/// A name is a word, a value a word, a string, or digits with or without a sign. A word is kept in lower case. A mode is an isolation
/// level, READ WRITE or READ ONLY, and the digits of a SELECT are 2147483647 at most. Words, strings and white space are those of
/// statements (`pm_sql`).
pub fn read(alloc: Global, text: &str) -> Result<Vec<Statement>, ReadNo>
    ensures text { IfOk result (λ statements. IsSessionText text.now statements.items) }
    ensures none { IfErr result (IsNoSessionText text.now) }
{
    let Some(lexemes) = lexemes_of(alloc, text)? else {
        return Err(ReadNo::Other);
    };
    let Some(statements) = statements_in(alloc, &lexemes)? else {
        return Err(ReadNo::Other);
    };
    if statements.is_empty() {
        return Err(ReadNo::Other);
    }
    Ok(statements)
}
