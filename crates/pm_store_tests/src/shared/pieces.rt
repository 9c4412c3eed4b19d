//! A checkpoint in pieces, between which commits are answered.

use crate::shared::world::{cluster, insert};
use pm_disk::MemDisk;
use pm_outside::Forgotten;
use pm_query::{Seen, Stepping};
use pm_sql::{Script, parse};
use pm_store_shared::{Shared, Token};
use std::alloc::Global;
use std::sync::Wait;
use std::test::Fail;

type Child = Token<MemDisk, Forgotten>;

/// What happens, a word each: commits until the log is due for a checkpoint, one more commit, a step of a checkpoint, or what is
/// made of it is given up. Then what each came to. A step that copies all that was committed since the one before is the last, so
/// a checkpoint ends though something is committed between every two steps.
const CHECKPOINTS: &str = "
step -> not due
fill step row step row step step -> filled, more, kept, more, kept, done 2, not due
fill step drop step row step step -> filled, more, dropped, more, kept, more, done 2";

/// A commit of so many rows of this length needs 57,444 bytes of the log, and a checkpoint is due after 67,108,864.
const ROWS: u32 = 7;

const LENGTH: usize = 8_192;

const COMMITS: usize = 1_169;

// The script that writes these rows anew.
fn large(alloc: Global) -> Result<Script, Fail> {
    let mut value = String::new(alloc);
    for _ in 0..LENGTH {
        value.push('x')?;
    }
    let mut text = String::new(alloc);
    for key in 0..ROWS {
        let row = format!(in alloc;
            "DELETE FROM kv WHERE k = {key}; INSERT INTO kv VALUES ({key}, '{value}'); "
        )?;
        text.push_str(row.as_str())?;
    }
    Ok(parse(alloc, text.as_str())?)
}

// A child commits. Whether its answer may be sent.
fn commit<R: Wait>(rt: &R, child: &mut Child, script: &Script) -> Option<bool> {
    let mut pass = child.enter(rt, 4, 1).ok()?;
    let staged = child.run(rt, &mut pass, script).ok()?;
    child.flush(rt, &mut pass).ok()?;
    let seen = child.seen(rt, &mut pass, staged.front).ok()?;
    child.leave(rt, pass);
    Some(seen == Seen::Released)
}

// The checkpointer makes a step.
fn step<R: Wait>(rt: &R, alloc: Global, child: &mut Child) -> Result<String, Fail> {
    let mut pass = child.enter(rt, 2, 1)?;
    let came = child.checkpoint_step(rt, &mut pass);
    child.leave(rt, pass);
    match came? {
        Stepping::More => Ok(String::from_str(alloc, "more")?),
        Stepping::Done { epoch } => Ok(format!(in alloc; "done {epoch}")?),
        Stepping::Skipped => Ok(String::from_str(alloc, "skipped")?),
        Stepping::NotDue { .. } => Ok(String::from_str(alloc, "not due")?),
    }
}

// It gives up what it has made.
fn give_up<R: Wait>(rt: &R, child: &mut Child) -> Option<()> {
    let pass = child.enter(rt, 2, 1).ok()?;
    child.checkpoint_drop(rt, &pass);
    child.leave(rt, pass);
    Some(())
}

// The log is read first.
fn read_log<R: Wait>(rt: &R, child: &mut Child) -> Option<()> {
    let mut pass = child.enter(rt, 3, 1).ok()?;
    let _read = child.redo(rt, &mut pass);
    child.leave(rt, pass);
    Some(())
}

// What one of these comes to.
fn happen<R: Wait>(
    rt: &R,
    alloc: Global,
    child: &mut Child,
    word: &str,
    key: u32,
) -> Result<String, Fail> {
    let told = match word {
        "fill" => {
            let script = large(alloc)?;
            for _ in 0..COMMITS {
                commit(rt, child, &script).ok_or("a commit")?;
            }
            "filled"
        }
        "row" => {
            let row = insert(alloc, key).ok_or("a script")?;
            if commit(rt, child, &row) == Some(true) {
                "kept"
            } else {
                "waits"
            }
        }
        "drop" => {
            give_up(rt, child).ok_or("a pass")?;
            "dropped"
        }
        _ => return step(rt, alloc, child),
    };
    Ok(String::from_str(alloc, told)?)
}

// What all of them come to, one after the other.
fn all<R: Wait>(rt: &R, alloc: Global, words: &str) -> Result<String, Fail> {
    let (_shared, mut tokens) = Shared::new(alloc, cluster(alloc)?, Forgotten::new(), 1)
        .ok()
        .ok_or("there is memory")?;
    let mut child = tokens.take().ok_or("a token")?;
    read_log(rt, &mut child).ok_or("a pass")?;
    let mut told = String::new(alloc);
    let mut key = 100;
    for word in words.split(' ') {
        if !told.is_empty() {
            told.push_str(", ")?;
        }
        told.push_str(happen(rt, alloc, &mut child, word, key)?.as_str())?;
        key = key.wrapping_add(1);
    }
    Ok(told)
}

#[test]
fn commits_are_answered_between_the_pieces_of_a_checkpoint(rt: HostRuntime) -> Result<(), Fail> {
    let alloc = rt.alloc();
    for line in CHECKPOINTS.lines() {
        let Some((words, wanted)) = line.split_once(" -> ") else {
            continue;
        };
        assert_eq!(rt; all(&rt, alloc, words)?.as_str(), wanted);
    }
    Ok(())
}
