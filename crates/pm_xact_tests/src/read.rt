// Texts, and what they ask for.
use bstr::ByteVec;
use pm_xact::{Asked, read};
use std::alloc::Global;
use std::process::Abort;
use std::test::Fail;

/// A text, and after `=>` what it asks for, or its fault as a script. PostgreSQL 15 takes and refuses the same texts, but those of which
/// the comment says so, and its transaction_read_only is the access.
const TEXTS: &str = r#"# libpq, psycopg2, psycopg 3, PDO, ruby-pg, JDBC
BEGIN => Begin(ReadWrite)
COMMIT => Commit
ROLLBACK => Rollback
# DBD::Pg, pgx 4
begin => Begin(ReadWrite)
commit => Commit
begin isolation level serializable => Begin(ReadWrite)
# asyncpg, pgbench, psql
BEGIN; => Begin(ReadWrite)
BEGIN ISOLATION LEVEL SERIALIZABLE; => Begin(ReadWrite)
COMMIT; => Commit
END; => Commit
# psycopg2 with another level, and read only
BEGIN ISOLATION LEVEL SERIALIZABLE => Begin(ReadWrite)
BEGIN ISOLATION LEVEL REPEATABLE READ READ ONLY => Begin(ReadOnly)
# pg8000
begin transaction => Begin(ReadWrite)
# lib/pq
BEGIN READ WRITE => Begin(ReadWrite)
BEGIN ISOLATION LEVEL SERIALIZABLE READ WRITE => Begin(ReadWrite)
# every other word and mode
START TRANSACTION => Begin(ReadWrite)
Start\tTransaction Read Only => Begin(ReadOnly)
BEGIN WORK => Begin(ReadWrite)
begin work READ ONLY => Begin(ReadOnly)
BEGIN TRANSACTION ISOLATION LEVEL READ UNCOMMITTED, NOT DEFERRABLE => Begin(ReadWrite)
BEGIN TRANSACTION READ ONLY, DEFERRABLE ISOLATION LEVEL READ COMMITTED => Begin(ReadOnly)
BEGIN READ\tONLY\x0c,\rDEFERRABLE\n => Begin(ReadOnly)
BEGIN DEFERRABLE NOT DEFERRABLE => Begin(ReadWrite)
END => Commit
END TRANSACTION => Commit
eNd WoRk => Commit
COMMIT WORK => Commit
COMMIT TRANSACTION => Commit
ABORT => Rollback
ABORT WORK => Rollback
ABORT TRANSACTION => Rollback
ROLLBACK WORK => Rollback
rollback transaction => Rollback
# the access that is named last counts
BEGIN READ ONLY, READ WRITE => Begin(ReadWrite)
BEGIN READ WRITE READ ONLY => Begin(ReadOnly)
BEGIN READ ONLY READ ONLY => Begin(ReadOnly)
# semicolons before and after
;;BEGIN; => Begin(ReadWrite)
 ; ;\n; commit ; ;  => Commit
BEGIN TRANSACTION;; => Begin(ReadWrite)
 ROLLBACK ; => Rollback
# scripts, a blank text among them
 => Script([])
; ; => Script([])
INSERT INTO kv VALUES (1, 'BEGIN') => Script([Insert { key: 1, value: Text { content: "BEGIN" } }])
# other texts have their faults
BEGIN READ ONLY, => Syntax { at: 0 }
BEGIN , READ ONLY => Syntax { at: 0 }
BEGIN READ ONLY,, DEFERRABLE => Syntax { at: 0 }
BEGIN WORK TRANSACTION => Syntax { at: 0 }
BEGIN READ => Syntax { at: 0 }
BEGIN NOT READ ONLY => Syntax { at: 0 }
BEGIN ISOLATION SERIALIZABLE => Syntax { at: 0 }
BEGIN ISOLATION LEVEL REPEATABLE => Syntax { at: 0 }
BEGIN ISOLATION LEVEL READ ONLY => Syntax { at: 0 }
BEGIN READ-ONLY => Syntax { at: 0 }
BEGIN 'x' => Syntax { at: 0 }
BEGIN\x0bREAD ONLY => Syntax { at: 0 }
"BEGIN" => Syntax { at: 0 }
BEGINS => Syntax { at: 0 }
BEGIN1 => Syntax { at: 0 }
BEGIN_ => Syntax { at: 0 }
START => Syntax { at: 0 }
START WORK => Syntax { at: 0 }
START TRANSACTION WORK => Syntax { at: 0 }
COMMIT WORK TRANSACTION => Syntax { at: 0 }
ROLLBACK TO x => Syntax { at: 0 }
 ;é => Syntax { at: 2 }
# PostgreSQL takes these, as several statements, with a comment and as other statements of blocks
BEGIN; SELECT count(*) FROM kv => Syntax { at: 0 }
SELECT count(*) FROM kv; COMMIT => Syntax { at: 25 }
BEGIN /* x */ => Syntax { at: 0 }
COMMIT AND NO CHAIN => Syntax { at: 0 }
SAVEPOINT x => Syntax { at: 0 }"#;

fn told(alloc: Global, text: &str) -> Result<String, Fail> {
    match read(alloc, text) {
        Ok(Asked::Script(script)) => Ok(format!(in alloc; "Script({:?})", script.stmts())?),
        Ok(asked) => Ok(format!(in alloc; "{asked:?}")?),
        Err(fault) => Ok(format!(in alloc; "{fault:?}")?),
    }
}

fn check(rt: &impl Abort, alloc: Global, line: &str) -> Result<(), Fail> {
    let (escaped, want) = line.split_once(" => ").ok_or("what is wanted")?;
    let bytes = Vec::unescape_bytes(alloc, escaped)?;
    let text = str::from_utf8(&bytes).ok().ok_or("UTF-8")?;
    assert_eq!(rt; told(alloc, text)?.as_str(), want, "{line}");
    Ok(())
}

#[test]
fn texts_ask_for_what_the_table_says(rt: HostRuntime) -> Result<(), Fail> {
    for line in TEXTS.lines() {
        if !line.starts_with('#') {
            check(&rt, rt.alloc(), line)?;
        }
    }
    Ok(())
}
