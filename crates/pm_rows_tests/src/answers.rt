//! Scripts, and what they are answered.

use crate::listing::{listed, many_rows, script_of, with_long_values};
use pm_query::answer;
use pm_rows::Rows;
use std::alloc::Global;
use std::process::Abort;
use std::test::Fail;

/// A script on the rows that those before it left, and its items and changes. `then` puts the changes into the rows, `rows 8 3`
/// makes a table of the keys 0 to 7 with values of three bytes, of which `size` is told, and `{3}` stands for such a value.
const SCRIPTS: &str = "
rows 0 0 => size 0
then  => empty; |
then  ; => empty; |
# a duplicate takes back what the script did before it
then INSERT INTO kv VALUES (1, 'a'); INSERT INTO kv VALUES (1, 'b'); SELECT count(*) FROM kv => insert; duplicate 1! |
then SELECT count(*) FROM kv => count 0; |
then INSERT INTO kv VALUES (9223372036854775807, 'most') => insert; | 9223372036854775807=most
then INSERT INTO kv VALUES (-9223372036854775808, 'least'); INSERT INTO kv VALUES (5, ''); SELECT * FROM kv => insert; insert; rows -9223372036854775808=least 5= 9223372036854775807=most; | -9223372036854775808=least 5=
then UPDATE kv SET v = 'none' WHERE k = 6; SELECT k, v FROM kv WHERE k = 6; SELECT count(*) FROM kv => update 0; rows; count 3; |
then DELETE FROM kv WHERE k = 5; INSERT INTO kv VALUES (5, 'five'); UPDATE kv SET v = 'fünf' WHERE k = 5; SELECT * FROM kv WHERE k = 5 => delete 1; insert; update 1; rows 5=fünf; | -5 5=five 5=fünf
then INSERT INTO kv VALUES (-1, 'x'); INSERT INTO kv VALUES (6, 'y'); DELETE FROM kv WHERE k = 9223372036854775807; DELETE FROM kv WHERE k = 0; SELECT * FROM kv; SELECT count(*) FROM kv => insert; insert; delete 1; delete 0; rows -9223372036854775808=least -1=x 5=fünf 6=y; count 4; | -1=x 6=y -9223372036854775807
then SELECT pg_sleep(60); DELETE FROM kv WHERE k = 6; DELETE FROM kv WHERE k = 6; SELECT * FROM kv WHERE k = 6 => slept; delete 1; delete 0; rows; | -6
# two statements share a list, and one behind a change has its own
on SELECT * FROM kv; INSERT INTO kv VALUES (0, 'z'); SELECT * FROM kv; SELECT * FROM kv => rows -9223372036854775808=least -1=x 5=fünf; insert; rows -9223372036854775808=least -1=x 0=z 5=fünf; rows -9223372036854775808=least -1=x 0=z 5=fünf; | 0=z
# a reply of many rows
rows 1000 3 => size 15000
on SELECT * FROM kv; DELETE FROM kv WHERE k = 500; SELECT * FROM kv; DELETE FROM kv WHERE k = 500; SELECT * FROM kv => rows 0..999=xxx; delete 1; rows 0..499=xxx 501..999=xxx; delete 0; rows 0..499=xxx 501..999=xxx; | -500";

/// The same on tables of as many rows as there may be.
const ROWS: &str = "
# the row that fills the table
rows 99999 0 => size 1199988
on INSERT INTO kv VALUES (-1, 'a'); INSERT INTO kv VALUES (-2, 'b') => insert; table full! |
on INSERT INTO kv VALUES (-1, 'a'); INSERT INTO kv VALUES (-1, 'b') => insert; duplicate -1! |
on INSERT INTO kv VALUES (-1, 'a'); DELETE FROM kv WHERE k = 0; INSERT INTO kv VALUES (-2, 'b'); SELECT count(*) FROM kv => insert; delete 1; insert; count 100000; | -1=a -0 -2=b
then INSERT INTO kv VALUES (99999, 'last') => insert; | 99999=last
on INSERT INTO kv VALUES (-1, 'a') => table full! |
# a table of as many rows as it may have
rows 100000 0 => size 1200000
on INSERT INTO kv VALUES (-1, '') => table full! |
on INSERT INTO kv VALUES (0, '') => duplicate 0! |
on UPDATE kv SET v = 'x' WHERE k = 99999; SELECT * FROM kv WHERE k = 99999; SELECT count(*) FROM kv => update 1; rows 99999=x; count 100000; | 99999=x
on SELECT * FROM kv => rows 0..99999=; |";

/// The same on rows of as many bytes.
const BYTES: &str = "
# rows of as many bytes: 8,192 times 12 and 8,180
rows 8192 8180 => size 67108864
on INSERT INTO kv VALUES (-1, '') => rows too large! |
on DELETE FROM kv WHERE k = 0; INSERT INTO kv VALUES (-1, 'x'); UPDATE kv SET v = '' WHERE k = -1; SELECT count(*) FROM kv => delete 1; insert; update 1; count 8192; | -0 -1=x -1=
on UPDATE kv SET v = 'short' WHERE k = 7; UPDATE kv SET v = '' WHERE k = 8192; INSERT INTO kv VALUES (-1, '0123456789') => update 1; update 0; insert; | 7=short -1=0123456789
on UPDATE kv SET v = '{8180}' WHERE k = 3 => update 1; | 3={8180}
on UPDATE kv SET v = '{8181}' WHERE k = 3 => rows too large! |
# the row that takes the last byte: 8,192 are free
rows 8191 8180 => size 67100672
on INSERT INTO kv VALUES (-1, '{8180}'); SELECT count(*) FROM kv => insert; count 8192; | -1={8180}
on INSERT INTO kv VALUES (-1, '{8181}'); SELECT count(*) FROM kv => rows too large! |";

fn made(alloc: Global, words: &str) -> Result<Rows, Fail> {
    let (count, length) = words.split_once(' ').ok_or("a length")?;
    let count = count.parse::<u32>().ok().ok_or("a number")?;
    let length = length.parse::<usize>().ok().ok_or("a number")?;
    many_rows(alloc, i64::from(count), length)
}

// The answer to a script; with `then` its changes are put into the rows.
fn answered(alloc: Global, rows: &mut Rows, word: &str, text: &str) -> Result<String, Fail> {
    let text = with_long_values(alloc, text)?;
    let script = script_of(alloc, text.as_str())?;
    let outcome = answer(alloc, rows, &script)?;
    if word == "then" {
        rows.apply(&outcome.commit)?;
    }
    listed(alloc, &outcome)
}

fn check(
    rt: &impl Abort,
    alloc: Global,
    rows: &mut Rows,
    asked: &str,
    want: &str,
) -> Result<(), Fail> {
    let (word, text) = asked.split_once(' ').ok_or("what to do")?;
    let told = if word == "rows" {
        *rows = made(alloc, text)?;
        format!(in alloc; "size {}", rows.size())?
    } else {
        answered(alloc, rows, word, text)?
    };
    let want = with_long_values(alloc, want)?;
    assert_eq!(rt; told.as_str(), want.as_str(), "of {asked}");
    Ok(())
}

fn play(rt: &impl Abort, alloc: Global, scripts: &str) -> Result<(), Fail> {
    let mut rows = Rows::new(alloc);
    for line in scripts.lines() {
        if let Some((asked, want)) = line.split_once(" => ") {
            check(rt, alloc, &mut rows, asked, want)?;
        }
    }
    Ok(())
}

#[test]
fn scripts_are_answered_as_the_table_says(rt: HostRuntime) -> Result<(), Fail> {
    play(&rt, rt.alloc(), SCRIPTS)
}

#[test]
fn tables_have_as_many_rows_as_they_may(rt: HostRuntime) -> Result<(), Fail> {
    play(&rt, rt.alloc(), ROWS)
}

#[test]
fn rows_have_as_many_bytes_as_they_may(rt: HostRuntime) -> Result<(), Fail> {
    play(&rt, rt.alloc(), BYTES)
}
