//! Texts, and what parsing them gives.
use bstr::ByteVec;
use pm_sql::{fault_text, parse};
use std::alloc::Global;
use std::process::Abort;
use std::test::Fail;

/// A text, and after `=>` its statements, or its fault with the fault's text.
const TEXTS: &str = r#"# statements in every spelling
 => []
; => []
 ; ;\n;  => []
INSERT INTO kv VALUES (7, 'seven') => [Insert { key: 7, value: Text { content: "seven" } }]
SELECT k, v FROM kv WHERE k = 7 => [Select { key: Some(7) }]
insert into KV (k, v) values\n (-3, 'it''s'); => [Insert { key: -3, value: Text { content: "it's" } }]
select * from kv order by k; => [Select { key: None }]
SELECT * FROM kv WHERE k = +1 ORDER BY k => [Select { key: Some(1) }]
SELECT k,v FROM kv => [Select { key: None }]
Select Count(*) From Kv => [Count]
SELECT\tPG_SLEEP\r(\x0c86400 ) ; => [Sleep { seconds: 86400 }]
SELECT pg_sleep(0) => [Sleep { seconds: 0 }]
uPdAtE kv SeT v = '' wHeRe k = - 12 => [Update { key: -12, value: Text { content: "" } }]
DELETE FROM kv WHERE k=007;;DELETE FROM kv WHERE K = 8 => [Delete { key: 7 }, Delete { key: 8 }]
INSERT INTO kv VALUES (9223372036854775807, 'a''''b') => [Insert { key: 9223372036854775807, value: Text { content: "a''b" } }]
INSERT INTO kv VALUES (-9223372036854775808, ';') => [Insert { key: -9223372036854775808, value: Text { content: ";" } }]
UPDATE kv SET v='é €'WHERE k=1 => [Update { key: 1, value: Text { content: "é €" } }]
INSERT\t\n\r\x0c INTO\t\n\r\x0c kv\t\n\r\x0c (\t\n\r\x0c k\t\n\r\x0c ,\t\n\r\x0c v\t\n\r\x0c )\t\n\r\x0c VALUES\t\n\r\x0c (\t\n\r\x0c -\t\n\r\x0c 5\t\n\r\x0c ,\t\n\r\x0c 'x'\t\n\r\x0c )\t\n\r\x0c ; => [Insert { key: -5, value: Text { content: "x" } }]
# faults with their places
SELEC => Syntax { at: 0 }: syntax error at or near "SELEC"
  Drop TABLE kv => Syntax { at: 2 }: syntax error at or near "Drop"
SELECT => Syntax { at: 6 }: syntax error at end of input
SELECT k, v FROM kv WHERE k =  => Syntax { at: 30 }: syntax error at end of input
SELECT k FROM kv => Syntax { at: 9 }: syntax error at or near "FROM"
SELECT * FROM kv kv => Syntax { at: 17 }: syntax error at or near "kv"
SELECT * FROM Users => Table { at: 14 }: relation "users" does not exist
SELECT * FROM 7 => Syntax { at: 14 }: syntax error at or near "7"
INSERT INTO t2 VALUES (x => Table { at: 12 }: relation "t2" does not exist
DELETE FROM kv WHERE k = 12abc => Syntax { at: 27 }: syntax error at or near "abc"
DELETE FROM kv WHERE k = 12_ => Syntax { at: 27 }: syntax error at or near "_"
DELETE FROM kv WHERE k = 9223372036854775808abc => Range { at: 25 }: bigint out of range
DELETE FROM kv WHERE k = 9223372036854775808 => Range { at: 25 }: bigint out of range
DELETE FROM kv WHERE k = - 9223372036854775809 => Range { at: 27 }: bigint out of range
DELETE FROM kv WHERE k = 99999999999999999999999999999999999999 => Range { at: 25 }: bigint out of range
SELECT pg_sleep(86401) => Range { at: 16 }: bigint out of range
SELECT pg_sleep(99999999999999999999) => Range { at: 16 }: bigint out of range
SELECT pg_sleep(-1) => Syntax { at: 16 }: syntax error at or near "-"
INSERT INTO kv VALUES (1, 'abc''def) => Syntax { at: 26 }: syntax error at or near "'"
INSERT INTO kv VALUES (1, 2) => Syntax { at: 26 }: syntax error at or near "2"
INSERT INTO kv VALUES ('it''s', 2) => Syntax { at: 23 }: syntax error at or near "'it''s'"
INSERT INTO kv (k) VALUES (1) => Syntax { at: 17 }: syntax error at or near ")"
INSERT INTO kv VALUES (1, 'a'), (2, 'b') => Syntax { at: 30 }: syntax error at or near ","
SELECT * FROM kv; é => Syntax { at: 18 }: syntax error at or near "é"
SELECT * FROM kv -- all => Syntax { at: 17 }: syntax error at or near "-"
SELECT count(k) FROM kv => Syntax { at: 13 }: syntax error at or near "k"
SELECT * FROM kv ORDER BY v => Syntax { at: 26 }: syntax error at or near "v"
UPDATE kv SET v = 'x' => Syntax { at: 21 }: syntax error at end of input
UPDATE kv SET v = NULL WHERE k = 1 => Syntax { at: 18 }: syntax error at or near "NULL"
DELETE FROM kv => Syntax { at: 14 }: syntax error at end of input
DELETE FROM kv ; => Syntax { at: 15 }: syntax error at or near ";"
SELECT * FROM kv WHERE k = 1ORDER BY k => Syntax { at: 28 }: syntax error at or near "ORDER"
SELECT *, FROM kv => Syntax { at: 8 }: syntax error at or near ",""#;

fn parsed(alloc: Global, text: &str) -> Result<String, Fail> {
    match parse(alloc, text) {
        Ok(script) => Ok(format!(in alloc; "{:?}", script.copy()?.stmts())?),
        Err(fault) => {
            let message = fault_text(alloc, text, &fault)?;
            Ok(format!(in alloc; "{fault:?}: {}", message.as_str())?)
        }
    }
}

fn check(rt: &impl Abort, alloc: Global, line: &str) -> Result<(), Fail> {
    let (escaped, want) = line.split_once(" => ").ok_or("what is wanted")?;
    let bytes = Vec::unescape_bytes(alloc, escaped)?;
    let text = str::from_utf8(&bytes).ok().ok_or("UTF-8")?;
    assert_eq!(rt; parsed(alloc, text)?.as_str(), want, "{line}");
    Ok(())
}

#[test]
fn texts_are_parsed_as_the_table_says(rt: HostRuntime) -> Result<(), Fail> {
    for line in TEXTS.lines() {
        if !line.starts_with('#') {
            check(&rt, rt.alloc(), line)?;
        }
    }
    Ok(())
}
