//! The store in memory, as children use it.

use crate::listing::script_of;
use crate::{Fault, GENERATION, MemStore, Tended, ask, tend};
use pm_outside::{Chronicle, Kept};
use pm_query::{BookEntry, Checkpointed, Seen, Store, StoreNo};
use pm_sql::Script;
use std::alloc::Global;
use std::test::Fail;

// The kinds of the entries, by their first letters.
fn kinds(alloc: Global, entries: &[BookEntry]) -> Result<String, Fail> {
    let mut text = String::new(alloc);
    for entry in entries {
        text.push(match entry {
            BookEntry::Attached { .. } => 'A',
            BookEntry::Answered { .. } => 'w',
            BookEntry::Released { .. } => 'r',
            BookEntry::Detached { .. } => 'D',
            BookEntry::Broke { .. } => 'B',
            BookEntry::Redone { .. } => 'R',
            BookEntry::CheckpointEnded { done: true, .. } => 'C',
            BookEntry::CheckpointEnded { done: false, .. } => 'c',
            _ => '?',
        })?;
    }
    Ok(text)
}

#[test]
fn a_reply_waits_for_its_commit(rt: HostRuntime) -> Result<(), Fail> {
    let alloc = rt.alloc();
    let mut store = MemStore::new(alloc, Kept::new(alloc));
    let insert = script_of(alloc, "INSERT INTO kv VALUES (7, 'seven')")?;
    let count = script_of(alloc, "SELECT count(*) FROM kv")?;

    // What was written isn't flushed yet, and neither may be told what reads it.
    assert!(rt; ask(&mut store, 4, GENERATION, &insert)?.is_none());
    assert!(rt; ask(&mut store, 5, GENERATION, &count)?.is_none());
    store.flush_all();
    assert!(rt; ask(&mut store, 6, GENERATION, &count)?.is_some());
    assert_eq!(rt;
        kinds(alloc, store.into_book().entries())?.as_str(),
        "AwDAwDAwrD"
    );
    Ok(())
}

#[test]
fn a_broken_store_tells_its_fault_again(rt: HostRuntime) -> Result<(), Fail> {
    let alloc = rt.alloc();
    let mut store = MemStore::new(alloc, Kept::new(alloc));
    let insert = script_of(alloc, "INSERT INTO kv VALUES (7, 'seven')")?;
    let delete = script_of(alloc, "DELETE FROM kv WHERE k = 7")?;
    let mut pass = store.enter(4, GENERATION)?;
    let first = store.run(&mut pass, &insert)?.front;
    store.flush_all();
    let second = store.run(&mut pass, &delete)?.front;
    let fault = Fault {
        since: 12,
        faults: 3,
    };
    store.fail(fault);

    // What was flushed before may be told, and nothing else is answered.
    assert_eq!(rt; store.seen(&mut pass, first)?, Seen::Released);
    let broken = StoreNo::Broken { since: 12 };
    let unseen = store.seen(&mut pass, second).err().ok_or("it is broken")?;
    assert_eq!(rt; unseen, broken);
    let unread = store.run(&mut pass, &insert).err().ok_or("it is broken")?;
    assert_eq!(rt; unread, broken);
    store.leave(pass);
    let book = store.into_book();
    assert_eq!(rt; kinds(alloc, book.entries())?.as_str(), "AwwrBBD");
    for entry in book.entries() {
        if let BookEntry::Broke { pid, since, faults } = entry {
            assert_eq!(rt; *pid, 4);
            assert_eq!(rt; *since, 12);
            assert_eq!(rt; *faults, 3);
        }
    }
    Ok(())
}

#[test]
fn a_store_of_another_generation_lets_nobody_in(rt: HostRuntime) -> Result<(), Fail> {
    let alloc = rt.alloc();
    let mut store = MemStore::new(alloc, Kept::new(alloc));
    let count = script_of(alloc, "SELECT count(*) FROM kv")?;
    let refusal = ask(&mut store, 4, 2, &count).err().ok_or("it is over")?;
    assert_eq!(rt; refusal, StoreNo::Stale { mine: 2, found: 1 });
    assert!(rt; store.into_book().entries().is_empty());
    Ok(())
}

// The log grows by so many bytes, a child tends it, and another one runs a script.
fn tend_then_ask(
    store: &mut MemStore<Kept<BookEntry>>,
    behind: u64,
    clean: bool,
    script: &Script,
) -> Result<Tended, Fail> {
    store.grow(behind);
    let tended = tend(store, 1, GENERATION, clean)?;
    ask(store, 4, GENERATION, script)?;
    Ok(tended)
}

#[test]
fn a_log_is_read_flushed_and_checkpointed(rt: HostRuntime) -> Result<(), Fail> {
    let alloc = rt.alloc();
    let mut store = MemStore::new(alloc, Kept::new(alloc));
    let insert = script_of(alloc, "INSERT INTO kv VALUES (7, 'seven')")?;
    let delete = script_of(alloc, "DELETE FROM kv WHERE k = 7")?;

    // Before the log was read it has no checkpoint.
    let mut pass = store.enter(2, GENERATION)?;
    assert_eq!(rt; store.checkpoint(&mut pass, true)?, Checkpointed::Skipped);
    store.leave(pass);
    ask(&mut store, 4, GENERATION, &insert)?;
    let rows = [
        (
            67_108_863,
            false,
            &delete,
            1,
            Checkpointed::NotDue { behind: 67_108_863 },
        ),
        (
            67_108_864,
            false,
            &insert,
            2,
            Checkpointed::Done { epoch: 2 },
        ),
        (0, false, &delete, 3, Checkpointed::NotDue { behind: 0 }),
        (0, true, &insert, 4, Checkpointed::Done { epoch: 3 }),
    ];
    for (behind, clean, script, flushed, made) in rows {
        let tended = tend_then_ask(&mut store, behind, clean, script)?;
        assert_eq!(rt;
            (tended.kept, tended.flushed, tended.made),
            (1, flushed, made)
        );
    }
    store.fail(Fault {
        since: 12,
        faults: 3,
    });
    let broken = tend(&mut store, 1, GENERATION, true)
        .err()
        .ok_or("it is broken")?;
    assert_eq!(rt; broken, StoreNo::Broken { since: 12 });
    assert_eq!(rt;
        kinds(alloc, store.into_book().entries())?.as_str(),
        "AcDAwDARDAwDARCDAwDARDAwDARCDAwDARBD"
    );
    Ok(())
}
