// Blocks, and the scripts that are added to them: one list of calls.
use pm_sql::Script;
use pm_xact::{Access, Asked, Block, BlockNo, read};
use std::alloc::Global;
use std::test::Fail;

/// Calls on a block. `open` begins another with its access, `add` adds the script of a text, `many` that of so many statements, `fail` lets it
/// fail, and `allows` tells whether it allows a script. The others answer the refusal, if any, and how many statements the block has then.
const CALLS: &str = "
# scripts stand after each other
open ReadWrite
script -> []
add SELECT count(*) FROM kv -> 1
add DELETE FROM kv WHERE k = 1; DELETE FROM kv WHERE k = 2 -> 3
add ; -> 3
add INSERT INTO kv VALUES (3, 'three') -> 4
script -> [Count, Delete { key: 1 }, Delete { key: 2 }, Insert { key: 3, value: Text { content: \"three\" } }]
allows INSERT INTO kv VALUES (1, 'a') -> true
# a thousand statements are enough, and a block that refused one takes none the less what fits
many 995 -> 999
many 2 -> Many 999
add DELETE FROM kv WHERE k = 4 -> 1000
add ; -> 1000
add DELETE FROM kv WHERE k = 5 -> Many 1000
# they may come at once
open ReadWrite
many 1001 -> Many 0
many 1000 -> 1000
many 1 -> Many 1000
# a failed block takes nothing, and tells so first
fail -> Failed
many 1 -> Failed 1000
add ; -> Failed 1000
open ReadWrite
add SELECT count(*) FROM kv -> 1
fail -> Failed
add SELECT count(*) FROM kv -> Failed 1
script -> [Count]
# a block that only reads
open ReadOnly
allows ; -> true
allows SELECT * FROM kv; SELECT pg_sleep(0); SELECT count(*) FROM kv -> true
allows INSERT INTO kv VALUES (1, 'a') -> false
allows SELECT * FROM kv; UPDATE kv SET v = 'b' WHERE k = 1 -> false
allows DELETE FROM kv WHERE k = 1; SELECT * FROM kv -> false
add SELECT * FROM kv -> 1";

fn parted(line: &str) -> (&str, &str) {
    line.split_once(' ').unwrap_or((line, ""))
}

// The script of a text.
fn script_of(alloc: Global, text: &str) -> Result<Script, Fail> {
    match read(alloc, text) {
        Ok(Asked::Script(script)) => Ok(script),
        _ => Err("a script")?,
    }
}

// A script of so many statements.
fn many(alloc: Global, count: &str) -> Result<Script, Fail> {
    let mut text = String::new(alloc);
    for _ in 0..count.parse::<u32>().ok().ok_or("a number")? {
        text.push_str("SELECT count(*) FROM kv;")?;
    }
    script_of(alloc, text.as_str())
}

// How many statements the block has after the call, and before that the refusal. Where memory is short the block must be as it was.
fn added(alloc: Global, block: &mut Block, script: Script) -> Result<String, Fail> {
    let before = block.script().stmts().len();
    let answer = block.add(script);
    let now = block.script().stmts().len();
    if answer != Ok(()) && now != before {
        return Err("a refused block changed")?;
    }
    match answer {
        Ok(()) => Ok(format!(in alloc; "{now}")?),
        Err(BlockNo::NoMemory) => Err("memory was short")?,
        Err(no) => Ok(format!(in alloc; "{no:?} {now}")?),
    }
}

// What a call answers.
fn answer(alloc: Global, block: &mut Block, call: &str) -> Result<String, Fail> {
    let (word, rest) = parted(call);
    if word == "add" {
        return added(alloc, block, script_of(alloc, rest)?);
    }
    if word == "many" {
        return added(alloc, block, many(alloc, rest)?);
    }
    if word == "allows" {
        return Ok(format!(in alloc; "{}", block.allows(&script_of(alloc, rest)?))?);
    }
    if word == "fail" {
        block.fail();
        return Ok(String::from_str(alloc, if block.failed() { "Failed" } else { "" })?);
    }
    Ok(format!(in alloc; "{:?}", block.script().stmts())?)
}

#[test]
fn blocks_answer_as_the_calls_say(rt: HostRuntime) -> Result<(), Fail> {
    let alloc = rt.alloc();
    let mut block = Block::new(alloc, Access::ReadWrite);
    for line in CALLS.lines() {
        let (word, rest) = parted(line);
        if let Some((call, want)) = line.split_once(" -> ") {
            let told = answer(alloc, &mut block, call)?;
            assert_eq!(rt; told.as_str(), want, "{call}");
        } else if word == "open" {
            let access = if rest == "ReadOnly" {
                Access::ReadOnly
            } else {
                Access::ReadWrite
            };
            block = Block::new(alloc, access);
        }
    }
    Ok(())
}
