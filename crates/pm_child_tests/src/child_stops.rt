//! When a child asks the store, and what it leaves flushed.

use crate::children::{PID, run};
use crate::lives::script_of;
use crate::short_book::ShortBook;
use pm_aux::{AuxDone, startup, writer};
use pm_child_life::{Cancelled, ScriptedLife};
use pm_exit::Status;
use pm_outside::{Kept, MemClock};
use pm_query::Work;
use pm_rows_tests::{GENERATION, MemStore, ask};
use pm_sql::{Script, parse};
use std::alloc::Global;
use std::test::Fail;

// Told at its fourth ask, which comes after the third pause: the store is asked at once, and after each pause.
#[test]
fn the_store_is_asked_after_every_pause(rt: HostRuntime) -> Result<(), Fail> {
    // The entering, so many calls while nothing stands, and those that the signal is for.
    let cases: [(&str, &str, &str, u64); 2] = [
        (
            "writer",
            "3 terminate",
            "Code(0) [AD] None None None",
            1 + 3 + 2,
        ),
        (
            "checkpointer",
            "3 checkpoint",
            "Code(0) [ALD] None None None",
            1 + 3 + 1,
        ),
    ];
    for (child, signals, end, calls) in cases {
        let met = run(&rt, rt.alloc(), child, signals)?;
        assert_eq!(rt; met.end.as_str(), end);
        assert_eq!(rt; met.calls, calls);
        assert_eq!(rt; met.pauses, 3);
    }
    Ok(())
}

fn query(alloc: Global, text: &str) -> Result<Script, Fail> {
    let script = parse(alloc, text).ok().ok_or("it is a script")?;
    Ok(script)
}

// A flush writes 256 commits at most.
#[test]
fn a_writer_that_is_told_to_terminate_flushes_all(rt: HostRuntime) -> Result<(), Fail> {
    let alloc = rt.alloc();
    let store = MemStore::new(alloc, ShortBook::new(Kept::new(alloc), Vec::new(alloc)));
    let mut work = Work {
        life: ScriptedLife::quiet(alloc, 1, GENERATION),
        store,
    };
    assert_eq!(rt; startup(&mut work).kept, Some(0));
    let mut store = work.store;
    for key in 0..600 {
        let text = format!(in alloc; "INSERT INTO kv VALUES ({key}, 'x')")?;
        let insert = query(alloc, text.as_str())?;
        assert!(rt; ask(&mut store, 4, GENERATION, &insert)?.is_none());
    }
    let script = script_of(alloc, "terminate")?;
    let life = ScriptedLife::new(PID, false, script, Ok(GENERATION), Cancelled::NoSuchPid);
    let clock = MemClock::new(alloc, 0, rt)?;
    let mut work = Work { life, store };
    let done = writer(&rt, &mut work, &clock);
    let mut store = work.store;
    let wanted = AuxDone {
        status: Status::Code(0),
        fault: None,
        kept: None,
    };
    assert_eq!(rt; done, wanted);
    let count = query(alloc, "SELECT count(*) FROM kv")?;
    assert!(rt; ask(&mut store, 5, GENERATION, &count)?.is_some());
    Ok(())
}
