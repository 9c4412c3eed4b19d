//! Whom a store calls for what its children leave.

use crate::shared::world::{Book, cluster, insert};
use pm_disk::MemDisk;
use pm_outside::{Clock, Kept};
use pm_query::Store;
use pm_sql::Script;
use pm_store_shared::{Caller, Shared, TokenStore};
use std::alloc::{AllocError, Global};
use std::sync::atomic::{AtomicU64, Ordering};
use std::sync::{Arc, Wait};
use std::test::Fail;

const CHECKPOINTER: u32 = 1;

const WRITER: u32 = 2;

/// Counts how often it calls the writer.
#[derive(Drop)]
struct CountingClock<R> {
    calls: Arc<AtomicU64, Global>,
    rt: R,
}

impl<R: Wait + Copy + Drop> Clock for CountingClock<R> {
    ghost use Rattle.std.specs.Prelude.{⊤};

    type Runtime = R;

    ghost gives = { λ _ _. ⊤ };

    fn now(&self) -> u64 {
        0
    }

    fn pause(&self) {}

    fn ring(&self) {}

    fn call(&self, slot: u32) {
        if slot == WRITER {
            self.calls.fetch_add(1, Ordering::SeqCst);
        }
    }

    fn another(&self, _slot: u32) -> Result<Self, AllocError> {
        Ok(CountingClock {
            calls: Arc::try_clone(&self.calls)?,
            rt: self.rt,
        })
    }
}

type Counted<R> = TokenStore<R, CountingClock<R>, MemDisk, Book>;

/// What a child does between its coming and its leaving, and how often the writer is called. It stages a row, or stages one
/// and asks whether that may be shown, or flushes.
const VISITS: [(&str, u64); 6] = [
    ("", 0),
    ("stage", 1),
    ("flush", 0),
    ("ask", 1),
    ("stage flush", 0),
    ("flush stage", 1),
];

// What a child does that inserts this row.
fn act<S: Store>(store: &mut S, pass: &mut S::Pass, row: &Script, word: &str) -> Result<(), Fail>
    requires { S.admits store.old pass.old }
    ensures { S.admits store.new pass.new }
{
    if word == "flush" {
        store.flush(pass)?;
        return Ok(());
    }
    let staged = store.run(pass, row)?;
    if word == "ask" {
        store.seen(pass, staged.front)?;
    }
    Ok(())
}

// A child's visit.
fn visit<S: Store>(store: &mut S, pid: u32, row: &Script, words: &str) -> Result<(), Fail> {
    let mut pass = store.enter(pid, 1)?;
    store.redo(&mut pass)?;
    for word in words.split_whitespace() {
        act(store, &mut pass, row, word)?;
    }
    store.leave(pass);
    Ok(())
}

// A store over a new cluster, whose calls are counted here.
fn store_of<R: Wait + Copy + Drop>(
    rt: R,
    alloc: Global,
    calls: &Arc<AtomicU64, Global>,
) -> Result<Counted<R>, Fail> {
    let (_shared, mut tokens) = Shared::new(alloc, cluster(alloc)?, Kept::new(alloc), 1)
        .ok()
        .ok_or("there is memory")?;
    let token = tokens.take().ok_or("a token")?;
    let calls = Arc::try_clone(calls)?;
    let caller = Caller::new(CountingClock { calls, rt }, WRITER, CHECKPOINTER);
    Ok(TokenStore { rt, token, caller })
}

#[test]
fn a_commit_that_is_left_unflushed_calls_the_writer(rt: HostRuntime) -> Result<(), Fail> {
    let alloc = rt.alloc();
    let calls = Arc::new(alloc, AtomicU64::new(0))?;
    let mut store = store_of(rt, alloc, &calls)?;
    let mut pid: u32 = 1;
    for (words, wanted) in VISITS {
        pid = pid.wrapping_add(1);
        let row = insert(alloc, pid).ok_or("a script")?;
        visit(&mut store, pid, &row, words)?;
        assert_eq!(rt; calls.swap(0, Ordering::SeqCst), wanted, "{words}");
    }
    Ok(())
}
