//! Stores over clusters in memory: one script.

use crate::segment::told::noted;
use crate::segment::visit::visit;
use pm_disk::{Disk, FailingDisk, MemDisk, Which};
use pm_outside::Kept;
use pm_query::BookEntry;
use pm_segment::{Commits, Sole};
use std::alloc::Global;
use std::process::Abort;
use std::test::Fail;

type OnFailing = Sole<FailingDisk<MemDisk>, Kept<BookEntry>>;

/// `store 5 | 7` begins a store on a disk after `initdb` with five commits so far, by six calls, whose seventh call from
/// then on fails, or none at 0, and `staged 5 | 7` one that stages its commits; `again` ends it, and begins the next one on
/// its disk; `renew 9` brings it into its next generation, where 9 was in. `child 2 1 redo / leave` is the visit of child 2 of generation 1. After `->` stands what was
/// answered, or what the store that was ended had noted. A redo takes six calls, and a batch four.
const SCRIPT: &str = r#"
# a later store finds what was committed
store 0 | 0
child 2 1 redo / INSERT INTO kv VALUES (7, 'seven') / SELECT k, v FROM kv WHERE k = 7 / INSERT INTO kv VALUES (7, 'again') / INSERT INTO kv VALUES (8, 'eight'); INSERT INTO kv VALUES (9, '') / SELECT count(*) FROM kv / leave
-> 0 / [Insert] front 1 / [Rows(Pairs { pairs: [(7, Text { content: "seven" })] })] front 1 / [Duplicate { key: 7 }] front 1 / [Insert, Insert] front 2 / [Count(3)] front 2
again
-> opened 1; attached 2; redone 0; answered 1; released 1; answered 1; released 1; answered 1; released 1; answered 2; released 2; answered 2; released 2; detached 2
child 3 1 redo / redo / SELECT count(*) FROM kv
-> 2 / 2 / [Count(3)] front 2
# another generation is over
store 0 | 0
child 4 2 redo
-> Stale { mine: 2, found: 1 }
# no cluster is no log
store none | 0
child 2 1 redo / SELECT count(*) FROM kv
-> Redo(NoCluster) / out of memory
# the numbers of commits are spent
store 18446744073709551615 | 0
child 2 1 redo / INSERT INTO kv VALUES (7, 'seven') / SELECT count(*) FROM kv
-> 18446744073709551615 / the commit log is full: 29 bytes are needed, and there is room for 0 / [Count(0)] front 18446744073709551615
# a clean log takes no further commit
store 0 | 0
child 2 1 redo / INSERT INTO kv VALUES (7, 'seven') / INSERT INTO kv VALUES (8, 'eight') / clean checkpoint / INSERT INTO kv VALUES (9, 'nine') / SELECT count(*) FROM kv / clean checkpoint
-> 0 / [Insert] front 1 / [Insert] front 2 / Done { epoch: 2 } / out of memory / [Count(2)] front 2 / Done { epoch: 3 }
again
child 3 1 redo / INSERT INTO kv VALUES (9, 'nine')
-> 2 / [Insert] front 3
# before redo nothing is checkpointed
store 0 | 0
child 2 1 clean checkpoint / redo / leave
-> Skipped / Redo(NoMemory)
again
-> opened 1; attached 2; checkpoint 0; detached 2
# a short log is not due: a gate, two lengths, and a commit of one change
store 0 | 0
child 2 1 flush / redo / checkpoint / INSERT INTO kv VALUES (7, 'seven') / checkpoint / flush / leave
-> NoMemory / 0 / NotDue { behind: 0 } / [Insert] front 1 / NotDue { behind: 29 } / 1
again
-> opened 1; attached 2; redone 0; answered 1; released 1; detached 2
# a redo that fails is tried again
store 5 | 1
child 2 1 redo / redo
-> Redo(Disk) / 5
store 5 | 2
child 2 1 redo / redo
-> Redo(Disk) / 5
store 5 | 3
child 2 1 redo / redo
-> Redo(Disk) / 5
store 5 | 4
child 2 1 redo / redo
-> Redo(Disk) / 5
store 5 | 5
child 2 1 redo / redo
-> Redo(Disk) / 5
store 5 | 6
child 2 1 redo / redo
-> Redo(Disk) / 5
# a broken log answers nothing more. The commit stands once its gate is open
store 0 | 7
child 2 1 redo / INSERT INTO kv VALUES (7, 'seven') / SELECT count(*) FROM kv
-> 0 / disk fault / the commit log broke at tick 13
again
child 3 1 redo
-> 0
store 0 | 8
child 2 1 redo / INSERT INTO kv VALUES (7, 'seven') / SELECT count(*) FROM kv
-> 0 / disk fault / the commit log broke at tick 14
again
child 3 1 redo
-> 0
store 0 | 9
child 2 1 redo / INSERT INTO kv VALUES (7, 'seven') / SELECT count(*) FROM kv
-> 0 / disk fault / the commit log broke at tick 15
again
child 3 1 redo
-> 0
store 0 | 10
child 2 1 redo / INSERT INTO kv VALUES (7, 'seven') / SELECT count(*) FROM kv
-> 0 / disk fault / the commit log broke at tick 16
again
child 3 1 redo
-> 1
# a broken commit stands or not in the next generation
store 0 | 11
child 1 1 redo / leave
-> 0
child 4 1 INSERT INTO kv VALUES (7, 'seven') / INSERT INTO kv VALUES (8, 'eight')
-> [Insert] front 1 / disk fault
renew 9
child 5 1 leave
-> Stale { mine: 1, found: 2 }
child 6 2 redo / leave
-> 1
child 9 2 SELECT count(*) FROM kv / INSERT INTO kv VALUES (8, 'again') / leave
-> [Count(1)] front 1 / [Insert] front 2
again
-> opened 1; attached 1; redone 0; detached 1; attached 4; answered 1; released 1; answered 2; broke 1; gone 9; gone 4; opened 2; attached 6; redone 1; detached 6; attached 9; answered 1; released 1; answered 2; released 2; detached 9
store 0 | 12
child 1 1 redo / leave
-> 0
child 4 1 INSERT INTO kv VALUES (7, 'seven') / INSERT INTO kv VALUES (8, 'eight')
-> [Insert] front 1 / disk fault
renew 9
child 5 1 leave
-> Stale { mine: 1, found: 2 }
child 6 2 redo / leave
-> 1
child 9 2 SELECT count(*) FROM kv / INSERT INTO kv VALUES (8, 'again') / leave
-> [Count(1)] front 1 / [Insert] front 2
again
-> opened 1; attached 1; redone 0; detached 1; attached 4; answered 1; released 1; answered 2; broke 1; gone 9; gone 4; opened 2; attached 6; redone 1; detached 6; attached 9; answered 1; released 1; answered 2; released 2; detached 9
store 0 | 13
child 1 1 redo / leave
-> 0
child 4 1 INSERT INTO kv VALUES (7, 'seven') / INSERT INTO kv VALUES (8, 'eight')
-> [Insert] front 1 / disk fault
renew 9
child 5 1 leave
-> Stale { mine: 1, found: 2 }
child 6 2 redo / leave
-> 1
child 9 2 SELECT count(*) FROM kv / INSERT INTO kv VALUES (8, 'again') / leave
-> [Count(1)] front 1 / [Insert] front 2
again
-> opened 1; attached 1; redone 0; detached 1; attached 4; answered 1; released 1; answered 2; broke 1; gone 9; gone 4; opened 2; attached 6; redone 1; detached 6; attached 9; answered 1; released 1; answered 2; released 2; detached 9
store 0 | 14
child 1 1 redo / leave
-> 0
child 4 1 INSERT INTO kv VALUES (7, 'seven') / INSERT INTO kv VALUES (8, 'eight')
-> [Insert] front 1 / disk fault
renew 9
child 5 1 leave
-> Stale { mine: 1, found: 2 }
child 6 2 redo / leave
-> 2
child 9 2 SELECT count(*) FROM kv / INSERT INTO kv VALUES (8, 'again') / leave
-> [Count(2)] front 2 / [Duplicate { key: 8 }] front 2
again
-> opened 1; attached 1; redone 0; detached 1; attached 4; answered 1; released 1; answered 2; broke 1; gone 9; gone 4; opened 2; attached 6; redone 2; detached 6; attached 9; answered 2; released 2; answered 2; released 2; detached 9
# a renewed store is checkpointed only behind its redo, and a child that has entered twice is gone once
store 3 | 0
child 1 1 redo
-> 3
child 1 1
renew
child 2 2 clean checkpoint
-> Skipped
renew 2
child 3 3 redo / clean checkpoint / leave
-> 3 / Done { epoch: 2 }
again
-> opened 1; attached 1; redone 3; attached 1; gone 1; opened 2; attached 2; checkpoint 0; gone 2; opened 3; attached 3; redone 3; checkpoint 1; detached 3
# what is staged is answered, and released behind its flush; a read that shows it waits as well
staged 0 | 0
child 2 1 redo / INSERT INTO kv VALUES (7, 'seven') / INSERT INTO kv VALUES (8, 'eight') / SELECT count(*) FROM kv / flush / SELECT count(*) FROM kv / flush / leave
-> 0 / flushed 0 / flushed 0 / flushed 0 / 2 / [Count(2)] front 2 / 2
again
-> opened 1; attached 2; redone 0; answered 1; answered 2; answered 2; answered 2; released 2; detached 2
child 3 1 redo
-> 2
# a row that no staged commit changes is shown at the flushed number, and released at once, unless its child has seen a later one
staged 0 | 0
child 2 1 redo / INSERT INTO kv VALUES (7, 'seven') / flush / SELECT k, v FROM kv WHERE k = 7
-> 0 / flushed 0 / 1 / [Rows(Pairs { pairs: [(7, Text { content: "seven" })] })] front 1
child 3 1 INSERT INTO kv VALUES (8, 'eight') / SELECT k, v FROM kv WHERE k = 7 / leave
-> flushed 1 / flushed 1
child 4 1 SELECT k, v FROM kv WHERE k = 7 / SELECT k, v FROM kv WHERE k = 9 / SELECT k, v FROM kv WHERE k = 8 / SELECT k, v FROM kv WHERE k = 7 / leave
-> [Rows(Pairs { pairs: [(7, Text { content: "seven" })] })] front 1 / [Rows(Pairs { pairs: [] })] front 1 / flushed 1 / flushed 1
child 5 1 SELECT count(*) FROM kv / leave
-> flushed 1
child 6 1 flush / SELECT k, v FROM kv WHERE k = 8 / leave
-> 2 / [Rows(Pairs { pairs: [(8, Text { content: "eight" })] })] front 2
again
-> opened 1; attached 2; redone 0; answered 1; answered 1; released 1; attached 3; answered 2; answered 2; detached 3; attached 4; answered 1; released 1; answered 1; released 1; answered 2; answered 2; detached 4; attached 5; answered 2; detached 5; attached 6; answered 2; released 2; detached 6
# a checkpoint flushes first, and what a child staged that died is flushed by another
staged 0 | 0
child 2 1 redo / INSERT INTO kv VALUES (7, 'seven') / INSERT INTO kv VALUES (8, 'eight')
-> 0 / flushed 0 / flushed 0
child 3 1 flush / INSERT INTO kv VALUES (9, 'nine') / clean checkpoint / SELECT count(*) FROM kv / INSERT INTO kv VALUES (1, 'one') / leave
-> 2 / flushed 2 / Done { epoch: 2 } / [Count(3)] front 3 / out of memory
again
-> opened 1; attached 2; redone 0; answered 1; answered 2; attached 3; answered 3; checkpoint 1; answered 3; released 3; detached 3
child 4 1 redo
-> 3
# a renewal drops what is staged
staged 0 | 0
child 2 1 redo / INSERT INTO kv VALUES (7, 'seven') / flush / INSERT INTO kv VALUES (8, 'eight')
-> 0 / flushed 0 / 1 / flushed 1
renew 2
child 3 2 redo / SELECT count(*) FROM kv / leave
-> 1 / [Count(1)] front 1
# a batch stands as a whole or not at all, and none of it is released
staged 0 | 8
child 2 1 redo / INSERT INTO kv VALUES (7, 'seven') / INSERT INTO kv VALUES (8, 'eight') / INSERT INTO kv VALUES (9, 'nine') / flush / flush / SELECT count(*) FROM kv
-> 0 / flushed 0 / flushed 0 / flushed 0 / Disk / Broken { since: 14 } / the commit log broke at tick 14
again
-> opened 1; attached 2; redone 0; answered 1; answered 2; answered 3; broke 1; broke 1; broke 1
child 3 1 redo
-> 0
staged 0 | 10
child 2 1 redo / INSERT INTO kv VALUES (7, 'seven') / INSERT INTO kv VALUES (8, 'eight') / INSERT INTO kv VALUES (9, 'nine') / flush / flush / SELECT count(*) FROM kv
-> 0 / flushed 0 / flushed 0 / flushed 0 / Disk / Broken { since: 16 } / the commit log broke at tick 16
again
-> opened 1; attached 2; redone 0; answered 1; answered 2; answered 3; broke 1; broke 1; broke 1
child 3 1 redo
-> 3"#;

// The gate, the magic and version, the epoch 1, and the mark of a clean shutdown.
const HEAD: &[u8] = b"\x01PGPMLOG\x01\0\0\0\0\0\0\0\x01\x01";

fn disk_of(alloc: Global, count: &str) -> Result<MemDisk, Fail> {
    let mut disk = MemDisk::new(alloc);
    if let Ok(count) = count.parse::<u64>() {
        disk.write(Which::A, 0, HEAD)?;
        disk.write(Which::A, 18, &count.to_be_bytes())?;
        disk.write(Which::A, 26, &[0; 5])?;
        disk.write(Which::B, 0, &[0])?;
        disk.sync(Which::A)?;
        disk.sync(Which::B)?;
    }
    Ok(disk)
}

fn store_on(
    alloc: Global,
    commits: Commits,
    disk: FailingDisk<MemDisk>,
) -> Result<OnFailing, Fail> {
    let store = Sole::new(alloc, commits, disk, Kept::new(alloc));
    Ok(store.ok().ok_or("there is memory")?)
}

fn commits_of(word: &str) -> Commits {
    if word == "staged" {
        return Commits::Staged;
    }
    Commits::AtOnce
}

fn number(word: &str) -> Result<u32, Fail> {
    Ok(word.parse::<u32>().ok().ok_or("a number")?)
}

fn visited(alloc: Global, store: &mut OnFailing, words: &str) -> Result<String, Fail> {
    let (pid, rest) = words.split_once(' ').ok_or("a generation")?;
    let (generation, calls) = rest.split_once(' ').unwrap_or((rest, ""));
    visit(alloc, store, number(pid)?, number(generation)?, calls)
}

fn renew(alloc: Global, store: &mut OnFailing, words: &str) -> Result<(), Fail> {
    let mut gone = Vec::new(alloc);
    for word in words.split_whitespace() {
        gone.push(number(word)?)?;
    }
    let next = store.generation().checked_add(1).ok_or("a next one")?;
    store.renew(next, &gone)?;
    Ok(())
}

#[test]
fn the_stores_answer_as_the_script_says(rt: HostRuntime) -> Result<(), Fail> {
    let alloc = rt.alloc();
    let disk = FailingDisk::blip(disk_of(alloc, "0")?, 0);
    let mut store = store_on(alloc, Commits::AtOnce, disk)?;
    let mut told = String::new(alloc);
    for line in SCRIPT.lines() {
        let (word, rest) = line.split_once(' ').unwrap_or((line, ""));
        match word {
            "store" | "staged" => {
                let (count, at) = rest.split_once(" | ").ok_or("which call fails")?;
                let disk = FailingDisk::blip(disk_of(alloc, count)?, u64::from(number(at)?));
                store = store_on(alloc, commits_of(word), disk)?;
            }
            "again" => {
                let (disk, book) = store.into_parts();
                told = noted(alloc, &book)?;
                store = store_on(alloc, Commits::AtOnce, disk)?;
            }
            "renew" => renew(alloc, &mut store, rest)?,
            "child" => told = visited(alloc, &mut store, rest)?,
            "->" => assert_eq!(rt; told.as_str(), rest, "{line}"),
            _ => {}
        }
    }
    Ok(())
}
