// Rows, and the commits that change them: one script.
use pm_rows::{Change, Commit, MAX_CHANGES, Rows, Text};
use std::alloc::Global;
use std::test::Fail;

/// Calls on rows and on a commit. `new` begins with none of either, and `put` and `del` add to the commit. `apply` makes it and begins
/// the next one, `make` and `cancel` prepare it first, and `of` makes rows of pairs. They answer how many rows stand there, their size, and
/// the rows; of many rows how many bytes these take in place of them.
const SCRIPT: &str = "
# commits insert, overwrite and delete: rows of 12 + 5 and 12 + 0 bytes
new
apply -> 0 0:
put 7 seven
put -9223372036854775808
apply -> 2 29: -9223372036854775808= 7=seven
# one is overwritten by a longer value, one is added in front of it, and one is deleted
put 7 siebzehn
put -3 it's
del -9223372036854775808
apply -> 2 36: -3=it's 7=siebzehn
# the last change of a key counts: put and deleted, deleted and put, and a deletion of an absent key
put 1 gone
del 1
del 7
put 7 x
del 2
apply -> 2 29: -3=it's 7=x
del 7
del -3
apply -> 0 0:
# the value of its key alone is found
new
put 1 one
put 9223372036854775807 most
apply -> 2 31: 1=one 9223372036854775807=most
get 1 -> one
get 9223372036854775807 -> most
get 0 -> no row
get 2 -> no row
get -1 -> no row
# copies are equal
new
put 4 vier
put 6 drei \u{20ac}
del 5
copy -> 3 changes
apply -> 2 36: 4=vier 6=drei \u{20ac}
# a prepared commit is given up or made: a row is overwritten, one is added in front of a deleted one, and one behind it
new
put 1 one
put 3 three
apply -> 2 32: 1=one 3=three
put 1 eins
put 2 zwei
del 3
put 4 vier
cancel -> 2 32: 1=one 3=three
make -> 3 48: 1=eins 2=zwei 4=vier
# of the pairs of one key the last makes the row
of -> 0 0:
of -2=a 0= 7=seven -> 3 42: -2=a 0= 7=seven
of 7=seven -2=a 0= -> 3 42: -2=a 0= 7=seven
of 1=one 1=eins -> 1 16: 1=eins
of 3=x 1=one 3=three 2= 1=i -> 3 42: 1=i 2= 3=three
# the last row fills the table
new
fill 99999 -> 99999 1299987, 788882 bytes
put -1 last
apply -> 100000 1300003, 788890 bytes
get -1 -> last
get 0 -> x
get 99998 -> x
get 99999 -> no row
# a full table is made of pairs
rising 100000 -> 100000 1300000, 788890 bytes
falling 100000 -> 100000 1300000, 788890 bytes
get 0 -> x
get 99999 -> x";

fn parted(line: &str) -> (&str, &str) {
    line.split_once(' ').unwrap_or((line, ""))
}

fn number(word: &str) -> Result<i64, Fail> {
    Ok(word.parse::<i64>().ok().ok_or("a number")?)
}

// The same value. It takes only what may go from one thread to another.
fn moved<T: Send>(value: T) -> T {
    value
}

// The rows as `key=value` by rising key, a blank before each.
fn listed(alloc: Global, rows: &Rows) -> Result<String, Fail> {
    let mut text = String::new(alloc);
    for (key, value) in rows.iter() {
        let row = format!(in alloc; " {}={}", key, value.as_str())?;
        text.push_str(row.as_str())?;
    }
    Ok(text)
}

fn told(alloc: Global, rows: &Rows) -> Result<String, Fail> {
    let listing = listed(alloc, rows)?;
    let (count, size, bytes) = (rows.len(), rows.size(), listing.len());
    if count > 9 {
        return Ok(format!(in alloc; "{count} {size}, {bytes} bytes")?);
    }
    Ok(format!(in alloc; "{count} {size}:{}", listing.as_str())?)
}

// Adds what a line says to the commit.
fn add(alloc: Global, commit: &mut Commit, word: &str, rest: &str) -> Result<(), Fail> {
    let (key, value) = parted(rest);
    let key = number(key)?;
    if word == "del" {
        commit.push(Change::Del { key })?;
        return Ok(());
    }
    let value = Text::of(alloc, value)?;
    commit.push(Change::Put { key, value })?;
    Ok(())
}

// Rows with the value `x` at each key from 0 on, so many, made by commits of as many changes as one may have.
fn filled(alloc: Global, count: i64) -> Result<Rows, Fail> {
    let mut rows = Rows::new(alloc);
    let mut commit = Commit::new(alloc);
    for key in 0..count {
        commit.push(Change::Put {
            key,
            value: Text::of(alloc, "x")?,
        })?;
        if commit.changes().len() == MAX_CHANGES {
            rows.apply(&commit)?;
            commit = Commit::new(alloc);
        }
    }
    rows.apply(&commit)?;
    Ok(rows)
}

// The same, made of pairs.
fn of_keys(alloc: Global, count: i64, are_falling: bool) -> Result<Rows, Fail> {
    let mut pairs = Vec::new(alloc);
    for key in 0..count {
        pairs.push((key, Text::of(alloc, "x")?))?;
    }
    if are_falling {
        pairs.reverse();
    }
    Ok(Rows::of_pairs(alloc, pairs)?)
}

// The rows of these pairs.
fn of_pairs(alloc: Global, words: &str) -> Result<Rows, Fail> {
    let mut pairs = Vec::new(alloc);
    for word in words.split_whitespace() {
        let (key, value) = word.split_once('=').ok_or("a pair")?;
        pairs.push((number(key)?, Text::of(alloc, value)?))?;
    }
    Ok(Rows::of_pairs(alloc, pairs)?)
}

// What a key has.
fn found(alloc: Global, rows: &Rows, key: &str) -> Result<String, Fail> {
    let text = match rows.get(number(key)?) {
        Some(text) => text.as_str(),
        None => "no row",
    };
    Ok(String::from_str(alloc, text)?)
}

// The rows after a commit.
fn behind(rows: &mut Rows, commit: Commit, word: &str) -> Result<(), Fail> {
    match word {
        "cancel" => *rows = rows.prepare(&commit)?.cancel(),
        "make" => *rows = rows.prepare(&commit)?.apply(),
        _ => rows.apply(&moved(commit))?,
    }
    Ok(())
}

// What a call answers.
fn answer(alloc: Global, rows: &mut Rows, commit: &mut Commit, call: &str) -> Result<String, Fail> {
    let (word, rest) = parted(call);
    match word {
        "get" => return found(alloc, rows, rest),
        "copy" => return Ok(format!(in alloc; "{} changes", commit.copy()?.changes().len())?),
        "of" => *rows = of_pairs(alloc, rest)?,
        "fill" => *rows = filled(alloc, number(rest)?)?,
        "rising" => *rows = of_keys(alloc, number(rest)?, false)?,
        "falling" => *rows = of_keys(alloc, number(rest)?, true)?,
        _ => behind(rows, commit.copy()?, word)?,
    }
    if word == "apply" {
        *commit = Commit::new(alloc);
    }
    told(alloc, &moved(rows.copy()?))
}

#[test]
fn rows_are_changed_as_the_script_says(rt: HostRuntime) -> Result<(), Fail> {
    let alloc = rt.alloc();
    let mut rows = Rows::new(alloc);
    let mut commit = Commit::new(alloc);
    for line in SCRIPT.lines() {
        let (word, rest) = parted(line);
        if let Some((call, want)) = line.split_once(" -> ") {
            let told = answer(alloc, &mut rows, &mut commit, call)?;
            assert_eq!(rt; told.as_str(), want, "{call}");
        } else if word == "new" {
            rows = Rows::new(alloc);
            commit = Commit::new(alloc);
        } else if matches!(word, "put" | "del") {
            add(alloc, &mut commit, word, rest)?;
        }
    }
    Ok(())
}
