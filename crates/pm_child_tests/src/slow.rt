//! Sessions whose client takes nothing for a while, and that are called meanwhile.
ghost use Rattle.std.specs.Prelude.{None};
ghost use Rattle.pm_outside.specs.MemLink.{link_faults, link_number};

use crate::bytes::joined;
use crate::connection::{KEY, PID};
use crate::lives::{gate_of, script_of};
use pm_admit::Cac;
use pm_child_life::{Cancelled, ScriptedLife};
use pm_exit::Status;
use pm_outside::{Forgotten, Got, Link, LinkScript, MemClock, MemLink, Put};
use pm_query::Work;
use pm_rows_tests::MemStore;
use pm_session::{Admission, Done, Means, SessionConf, serve};
use std::alloc::Global;
use std::sync::Wait;
use std::test::Fail;
use std::time;

/// A link whose client takes nothing until its child was called so often. It notes whether that was to end.
#[derive(Drop)]
struct SlowLink {
    link: MemLink,
    calls_left: u64,
    is_hurried: bool,
}

impl Link for SlowLink {
    // Its bytes aren't told.
    ghost traffic = { λ _. None };

    ghost number = { λ slow. link_number slow.link };

    ghost faults = { λ slow. link_faults slow.link };

    ghost patience = { λ slow. slow.calls_left };

    fn read(&mut self, into: &mut [u8]) -> Got {
        self.link.read(into)
    }

    fn write(&mut self, from: &[u8]) -> Put {
        if self.calls_left > 0 {
            self.calls_left -= 1;
            return Put::NotYet;
        }
        self.link.write(from)
    }

    fn hurry(&mut self) {
        self.is_hurried = true;
    }

    fn faults(&self) -> u64 {
        self.link.faults()
    }
}

// Serves a client that is greeted, asks for nothing and ends, and that takes nothing until five calls. This signal comes at
// that ask.
fn serve_slowly<R: Wait + time::Clock + Copy + Drop>(
    rt: &R,
    alloc: Global,
    told: &str,
) -> Result<(Status, SlowLink), Fail> {
    let script = LinkScript {
        incoming: joined(alloc, "PACKET EMPTY TERMINATE")?,
        per_call: 4096,
        failing_reads: Vec::new(alloc),
        failing_writes: Vec::new(alloc),
        holds: Vec::new(alloc),
    };
    let link = SlowLink {
        link: MemLink::new(alloc, 1, script, None),
        calls_left: 5,
        is_hurried: false,
    };
    let gate = gate_of("");
    let life = ScriptedLife::new(
        PID,
        false,
        script_of(alloc, told)?,
        gate,
        Cancelled::NoSuchPid,
    );
    let store = MemStore::new(alloc, Forgotten::new());
    let conf = SessionConf {
        authentication_ms: 60_000,
    };
    let clock = MemClock::still(0, *rt);
    let means = Means {
        rt,
        alloc,
        clock: &clock,
    };
    let admission = Admission {
        decision: Cac::Ok,
        key: KEY,
    };
    let work = Work { life, store };
    let Done { status, link, work } = serve(&means, link, work, admission, &conf);
    drop(work);
    Ok((status, link))
}

#[test]
fn a_slow_client_is_hurried_where_its_session_is_to_end(rt: HostRuntime) -> Result<(), Fail> {
    let alloc = rt.alloc();
    for signal in ["cancel", "terminate", "quit"] {
        let mut hurried: u32 = 0;
        for asks in 0..16 {
            let told = format!(in alloc; "{asks} {signal}")?;
            let (status, link) = serve_slowly(&rt, alloc, told.as_str())?;
            let sent = link.link.sent();
            // Who is told to end before the gate says nothing.
            let is_ended = status != Status::Code(0) && !sent.is_empty();
            assert!(rt; link.is_hurried == is_ended, "{told}: {status:?}");
            hurried = hurried.saturating_add(u32::from(link.is_hurried));
        }
        assert!(rt;
            (hurried > 0) == (signal != "cancel"),
            "{signal}: {hurried}"
        );
    }
    Ok(())
}
