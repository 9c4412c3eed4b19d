// Tables, and the commits that change them: one script.
use pm_rows::{Rows, Text};
use pm_tables::{TableChange, TableCommit, Tables};
use std::alloc::Global;
use std::test::Fail;

/// Calls on tables and on a commit. `new` begins with none of either, and `create`, `drop`, `put` and `del` add to the commit. `apply`
/// makes it and begins the next one, `make` and `cancel` prepare it first, and `given` puts a table with one row. They answer how many
/// tables and rows stand there, their size, and the tables; of many rows how many bytes these take in place of them.
const SCRIPT: &str = "
# a table without rows takes five bytes more than its name has, and kv none; a row takes twelve more than its value
new
apply -> 0 0 0:
create kv
apply -> 1 0 0: kv()
put kv 7 seven
apply -> 1 1 17: kv(7=seven)
create t
apply -> 2 1 23: kv(7=seven) t()
# one commit makes a table and changes another
create u
put u 1 x
put kv 7 siebzehn
put kv -3 it's
apply -> 3 3 61: kv(-3=it's 7=siebzehn) t() u(1=x)
# a table that is dropped and made again has none of its rows
drop u
create u
put u 2 yy
apply -> 3 3 62: kv(-3=it's 7=siebzehn) t() u(2=yy)
# the last change that makes or drops a table decides: made and dropped, and dropped after changes
create v
put v 1 one
drop v
put t 1 one
del u 2
drop t
apply -> 2 2 42: kv(-3=it's 7=siebzehn) u()
# names go by their bytes
create \u{e9}
create kva
create k
apply -> 5 2 63: k() kv(-3=it's 7=siebzehn) kva() u() \u{e9}()
drop kv
drop k
drop \u{e9}
apply -> 2 0 14: kva() u()
# what has no meaning changes nothing: a table is made alone by its own change, and once
put kv 1 one
del kv 1
drop kv
put u 1 one
create u
apply -> 2 1 29: kva() u(1=one)
drop u
put u 2 two
drop u
apply -> 1 0 8: kva()
# the table of its name alone is found
create u
put u 1 one
apply -> 2 1 29: kva() u(1=one)
table u -> 1 rows
table kva -> 0 rows
table kv -> no table
table -> no table
# a table is put in place of another, or beside the others
given u 5 five -> 2 1 30: kva() u(5=five)
given kv 5 five -> 3 2 46: kv(5=five) kva() u(5=five)
# a prepared commit is given up or made: tables are changed, made anew, made and dropped
new
given kv 1 one -> 1 1 15: kv(1=one)
given a 1 one -> 2 2 36: a(1=one) kv(1=one)
given b 1 one -> 3 3 57: a(1=one) b(1=one) kv(1=one)
put kv 2 two
drop a
create a
put a 3 three
drop b
create c
create d
drop d
cancel -> 3 3 57: a(1=one) b(1=one) kv(1=one)
make -> 3 3 59: a(3=three) c() kv(1=one 2=two)
copy -> 8 changes";

fn parted(line: &str) -> (&str, &str) {
    line.split_once(' ').unwrap_or((line, ""))
}

fn number(word: &str) -> Result<i64, Fail> {
    Ok(word.parse::<i64>().ok().ok_or("a number")?)
}

// The same value. It takes only what may go from one thread to another.
fn moved<T: Send>(value: T) -> T {
    value
}

// The rows as `key=value` by rising key, parted by blanks.
fn push_rows(alloc: Global, text: &mut String, rows: &Rows) -> Result<(), Fail> {
    for (at, (key, value)) in rows.iter().enumerate() {
        let blank = if at == 0 { "" } else { " " };
        let row = format!(in alloc; "{}{}={}", blank, key, value.as_str())?;
        text.push_str(row.as_str())?;
    }
    Ok(())
}

// How many tables and rows, their size, and the tables.
fn told(alloc: Global, tables: &Tables) -> Result<String, Fail> {
    let (count, rows, size) = (tables.table_count(), tables.len(), tables.size());
    let mut text = format!(in alloc; "{count} {rows} {size}:")?;
    for (name, rows) in tables.iter() {
        let head = format!(in alloc; " {name}(")?;
        text.push_str(head.as_str())?;
        push_rows(alloc, &mut text, rows)?;
        text.push_str(")")?;
    }
    Ok(text)
}

// The change that a line says.
fn change(alloc: Global, word: &str, rest: &str) -> Result<TableChange, Fail> {
    let (name, rest) = parted(rest);
    let table = Text::of(alloc, name)?;
    if word == "create" {
        return Ok(TableChange::Create { table });
    }
    if word == "drop" {
        return Ok(TableChange::Drop { table });
    }
    let (key, value) = parted(rest);
    let key = number(key)?;
    if word == "del" {
        return Ok(TableChange::Del { table, key });
    }
    let value = Text::of(alloc, value)?;
    Ok(TableChange::Put { table, key, value })
}

// Puts a table with one row.
fn give(alloc: Global, tables: &mut Tables, rest: &str) -> Result<(), Fail> {
    let (name, row) = parted(rest);
    let (key, value) = parted(row);
    let mut rows = Rows::new(alloc);
    rows.put(number(key)?, Text::of(alloc, value)?)?;
    tables.put(name, rows)?;
    Ok(())
}

// What a name has.
fn found(alloc: Global, tables: &Tables, name: &str) -> Result<String, Fail> {
    match tables.table(name) {
        Some(rows) => Ok(format!(in alloc; "{} rows", rows.len())?),
        None => Ok(String::from_str(alloc, "no table")?),
    }
}

// The tables after a commit. Where memory is short they must be as they were.
fn after(alloc: Global, tables: &mut Tables, commit: &TableCommit, word: &str) -> Result<(), Fail> {
    let before = told(alloc, tables)?;
    if word == "apply" {
        if tables.apply(commit).is_ok() {
            return Ok(());
        }
    } else if let Ok(prepared) = tables.prepare(commit) {
        let is_given_up = word == "cancel";
        *tables = if is_given_up {
            prepared.cancel()
        } else {
            prepared.apply()
        };
        return Ok(());
    }
    if told(alloc, tables)?.as_str() != before.as_str() {
        return Err("memory was short, and the tables changed")?;
    }
    Err("memory was short")?
}

// What a call answers.
fn answer(
    alloc: Global,
    tables: &mut Tables,
    commit: &mut TableCommit,
    call: &str,
) -> Result<String, Fail> {
    let (word, rest) = parted(call);
    match word {
        "table" => return found(alloc, tables, rest),
        "copy" => return Ok(format!(in alloc; "{} changes", commit.copy()?.changes().len())?),
        "given" => give(alloc, tables, rest)?,
        _ => after(alloc, tables, &commit.copy()?, word)?,
    }
    if word == "apply" {
        *commit = TableCommit::new(alloc);
    }
    told(alloc, tables)
}

#[test]
fn tables_are_changed_as_the_script_says(rt: HostRuntime) -> Result<(), Fail> {
    let alloc = rt.alloc();
    let mut tables = Tables::new(alloc);
    let mut commit = TableCommit::new(alloc);
    for line in SCRIPT.lines() {
        let (word, rest) = parted(line);
        if let Some((call, want)) = line.split_once(" -> ") {
            let told = answer(alloc, &mut tables, &mut commit, call)?;
            assert_eq!(rt; told.as_str(), want, "{call}");
        } else if word == "new" {
            tables = Tables::new(alloc);
            commit = TableCommit::new(alloc);
        } else if matches!(word, "create" | "drop" | "put" | "del") {
            commit.push(change(alloc, word, rest)?)?;
        }
    }
    let _tables = moved(tables);
    Ok(())
}
