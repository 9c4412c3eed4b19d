//! One connection over memory, and what it came to.
ghost use Rattle.std.specs.Prelude.{◌≡◌, ◌<◌, IfOk};
ghost use Rattle.pm_outside.specs.{MemLink.link_traffic, Traffic.no_traffic};

use crate::bytes::joined;
use crate::lives::{gate_of, script_of};
use pm_admit::Cac;
use pm_child_life::{Cancelled, Life, ScriptedLife};
use pm_exit::Status;
use pm_outside::{Chronicle, Clock, Kept, LinkScript, MemClock, MemLink};
use pm_query::{BookEntry, Store, Work};
use pm_rows_tests::MemStore;
use pm_session::{Admission, Done, Means, SessionConf, serve};
use std::alloc::{AllocError, Global};
use std::process::Abort;
use std::sync::Wait;
use std::test::Fail;
use std::time;

pub const PID: u32 = 4;

pub const KEY: u32 = 0xb819_d2bd;

// What is decided of a connection that meets this.
fn decision_of(word: &str) -> Cac {
    match word {
        "startup" => Cac::Startup,
        "recovery" => Cac::Recovery,
        "shutdown" => Cac::Shutdown,
        "full" => Cac::TooMany,
        _ => Cac::Ok,
    }
}

// A link on which the messages of these names come in, and which moves at most so many bytes a call.
fn link_of(alloc: Global, incoming: &str, per_call: usize) -> Result<MemLink, AllocError>
    requires { 0 < per_call }
    ensures { IfOk result (λ link. link_traffic link ≡ no_traffic) }
{
    let script = LinkScript {
        incoming: joined(alloc, incoming)?,
        per_call,
        failing_reads: Vec::new(alloc),
        failing_writes: Vec::new(alloc),
        holds: Vec::new(alloc),
    };
    Ok(MemLink::new(alloc, 1, script, None))
}

/// What a connection came to: how its child exited, all that went out, the store that it leaves, and what its life and its clock
/// tell then.
#[derive(Drop)]
pub struct Outcome {
    pub status: Status,
    pub sent: Vec<u8>,
    pub store: MemStore<Kept<BookEntry>>,
    pub pid: u32,
    pub attached: Option<u32>,
    pub asked_cancel: Option<(u32, u32)>,
    pub now: u64,
}

/// Serves a connection on a link that moves at most so many bytes a call. It meets a decision, as `startup`, what the gate answers,
/// as `gate crash`, or signals, as `told 4 quit`, and at any other word nothing. What comes in are the messages of these names.
pub fn serve_case<R: Wait, C: Clock>(
    rt: &R,
    alloc: Global,
    meets: &str,
    incoming: &str,
    per_call: usize,
    clock: &C,
) -> Result<Outcome, Fail>
    requires { 0 < per_call }
{
    let link = link_of(alloc, incoming, per_call)?;
    serve_link(rt, alloc, meets, link, 60_000, clock)
}

/// Serves a connection on this link, whose client may take so many milliseconds up to its startup packet. It meets what
/// [`serve_case`] says.
pub fn serve_link<R: Wait, C: Clock>(
    rt: &R,
    alloc: Global,
    meets: &str,
    link: MemLink,
    authentication_ms: u64,
    clock: &C,
) -> Result<Outcome, Fail>
    requires { link_traffic link ≡ no_traffic }
{
    let script = script_of(alloc, meets.strip_prefix("told ").unwrap_or(""))?;
    let gate = gate_of(meets.strip_prefix("gate ").unwrap_or(""));
    let life = ScriptedLife::new(PID, false, script, gate, Cancelled::NoSuchPid);
    let store = MemStore::new(alloc, Kept::<BookEntry>::new(alloc));
    let conf = SessionConf { authentication_ms };
    let means = Means { rt, alloc, clock };
    let admission = Admission {
        decision: decision_of(meets),
        key: KEY,
    };
    let work = Work { life, store };
    let Done { status, link, work } = serve(&means, link, work, admission, &conf);
    let Work { life, store } = work;
    Ok(Outcome {
        status,
        sent: link.sent().to_vec(alloc)?,
        store,
        pid: life.pid(),
        attached: life.attached(),
        asked_cancel: life.asked_cancel(),
        now: clock.now(),
    })
}

/// Whether a connection came to one of these ends, with `or` between two: its status, and then the names of all that went out.
pub fn came_to(alloc: Global, met: &Outcome, ends: &str) -> Result<bool, Fail> {
    let status = format!(in alloc; "{:?}", met.status)?;
    for end in ends.split(" or ") {
        let (wanted, names) = end.split_once(' ').unwrap_or((end, ""));
        let sent = joined(alloc, names)?;
        if status.as_str() == wanted && met.sent.as_slice() == sent.as_slice() {
            return Ok(true);
        }
    }
    Ok(false)
}

/// Serves a connection over a clock that stands still. It must come to one of these ends.
pub fn check<R: Wait + Abort + time::Clock + Copy + Drop>(
    rt: &R,
    alloc: Global,
    meets: &str,
    incoming: &str,
    per_call: usize,
    ends: &str,
) -> Result<(), Fail>
    requires { 0 < per_call }
{
    let clock = MemClock::still(0, *rt);
    let met = serve_case(rt, alloc, meets, incoming, per_call, &clock)?;
    let is_wanted = came_to(alloc, &met, ends)?;
    assert!(rt;
        is_wanted,
        "{meets} | {incoming}: {:?} and {:?}",
        met.status, met.sent
    );
    Ok(())
}
