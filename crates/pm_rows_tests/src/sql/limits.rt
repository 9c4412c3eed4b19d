//! Texts at the limits of a query, and one past them.
use pm_sql::{SqlFault, Stmt, fault_text, parse};
use std::alloc::Global;
use std::test::Fail;

// What parsing a text gives: the key of its one SELECT, how many statements there are otherwise, or the text of its fault with
// the place.
fn told(alloc: Global, text: &str) -> Result<String, Fail> {
    let fault = match parse(alloc, text) {
        Ok(script) => {
            return match script.stmts() {
                [Stmt::Select { key: Some(key) }] => Ok(format!(in alloc; "SELECT of {}", key)?),
                stmts => Ok(format!(in alloc; "{} statements", stmts.len())?),
            };
        }
        Err(fault) => fault,
    };
    let message = fault_text(alloc, text, &fault)?;
    let at = match fault {
        SqlFault::Syntax { at }
        | SqlFault::Table { at }
        | SqlFault::Range { at }
        | SqlFault::TooLong { at }
        | SqlFault::TooMany { at } => at,
        SqlFault::NoMemory => 0,
    };
    Ok(format!(in alloc; "{} at {at}", message.as_str())?)
}

// This many copies of a text between two others.
fn repeated(
    alloc: Global,
    first: &str,
    piece: &str,
    count: usize,
    last: &str,
) -> Result<String, Fail> {
    let mut text = String::from_str(alloc, first)?;
    for _ in 0..count {
        text.push_str(piece)?;
    }
    text.push_str(last)?;
    Ok(text)
}

#[test]
fn values_and_writing_statements_up_to_their_limits(rt: HostRuntime) -> Result<(), Fail> {
    let alloc = rt.alloc();
    let insert = "INSERT INTO kv VALUES (1, '";
    let delete = "DELETE FROM kv WHERE k=1;";
    // Two quotes are one byte of a value, and a statement that reads doesn't count.
    for (first, piece, count, last, want) in [
        (insert, "v", 8192, "')", "1 statements"),
        (insert, "v", 8193, "')", "value exceeds 8192 bytes at 26"),
        (insert, "''", 8192, "')", "1 statements"),
        (insert, "''", 8193, "')", "value exceeds 8192 bytes at 26"),
        (insert, "é", 4097, "')", "value exceeds 8192 bytes at 26"),
        ("", delete, 1000, "", "1000 statements"),
        (
            "SELECT * FROM kv;",
            delete,
            1000,
            "SELECT * FROM kv",
            "1002 statements",
        ),
        (
            "",
            delete,
            1000,
            "UPDATE nowhere",
            "query exceeds 1000 writing statements at 25000",
        ),
        (
            "",
            delete,
            1001,
            "",
            "query exceeds 1000 writing statements at 25000",
        ),
        ("SELECT pg_sleep(86400)", ";", 0, "", "1 statements"),
        (
            "SELECT pg_sleep(86401)",
            ";",
            0,
            "",
            "bigint out of range at 16",
        ),
    ] {
        let text = repeated(alloc, first, piece, count, last)?;
        assert_eq!(rt;
            told(alloc, text.as_str())?.as_str(),
            want,
            "of {count} times {piece}"
        );
    }
    Ok(())
}

#[test]
fn a_text_of_65536_bytes(rt: HostRuntime) -> Result<(), Fail> {
    let alloc = rt.alloc();
    // 30 bytes, then 65,506 blanks or semicolons.
    let select = "SELECT * FROM kv WHERE k = 777";
    for (piece, count, last, want) in [
        (" ", 65506, "", "SELECT of 777"),
        (";", 65506, "", "SELECT of 777"),
        (" ", 65505, "x", "syntax error at or near \"x\" at 65535"),
        (" ", 65505, "'", "syntax error at or near \"'\" at 65535"),
    ] {
        let text = repeated(alloc, select, piece, count, last)?;
        assert_eq!(rt; text.as_str().len(), 65536);
        assert_eq!(rt;
            told(alloc, text.as_str())?.as_str(),
            want,
            "of {count} times {piece}"
        );
    }
    Ok(())
}

#[test]
fn the_text_of_each_fault(rt: HostRuntime) -> Result<(), Fail> {
    let alloc = rt.alloc();
    let text = "SELECT * FROM Users";
    for (fault, want) in [
        (
            SqlFault::Syntax { at: 14 },
            "syntax error at or near \"Users\"",
        ),
        (SqlFault::Syntax { at: 19 }, "syntax error at end of input"),
        (
            SqlFault::Table { at: 14 },
            "relation \"users\" does not exist",
        ),
        (SqlFault::Range { at: 14 }, "bigint out of range"),
        (SqlFault::TooLong { at: 14 }, "value exceeds 8192 bytes"),
        (
            SqlFault::TooMany { at: 14 },
            "query exceeds 1000 writing statements",
        ),
        (SqlFault::NoMemory, "out of memory"),
    ] {
        assert_eq!(rt; fault_text(alloc, text, &fault)?.as_str(), want);
    }
    Ok(())
}
