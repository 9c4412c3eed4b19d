//! A session as psql has it, on links that end or fail at each place.
ghost use Rattle.std.specs.Prelude.{◌<◌};

use crate::bytes::joined;
use crate::connection::{Outcome, PID, serve_link};
use pm_exit::Status;
use pm_outside::{LinkScript, MemClock, MemLink};
use pm_query::Item;
use pm_rows_tests::{GENERATION, ask};
use pm_sql::parse;
use std::alloc::Global;
use std::process::Abort;
use std::sync::Wait;
use std::test::Fail;
use std::time;

/// What psql sends where a row is written and then read, and what each packet is answered.
const PACKETS: [(&str, &str); 5] = [
    ("SSL", "N"),
    ("PSQL", "GREETING"),
    ("INSERT_QUOTE", "INSERTED"),
    ("SELECT_ALL", "COLUMNS QUOTE_ROW"),
    ("TERMINATE", "-"),
];

/// The packets that came in, what they are answered, and whether the INSERT is one of them.
#[derive(Drop)]
struct Session {
    incoming: Vec<u8>,
    answers: Vec<u8>,
    is_written: bool,
}

impl Session {
    // Before the first packet.
    fn new(alloc: Global) -> Session {
        Session {
            incoming: Vec::new(alloc),
            answers: Vec::new(alloc),
            is_written: false,
        }
    }

    // One more packet comes in.
    fn take(&mut self, alloc: Global, packet: &str, answer: &str) -> Result<(), Fail> {
        self.incoming.extend_from_slice(&joined(alloc, packet)?)?;
        self.answers.extend_from_slice(&joined(alloc, answer)?)?;
        self.is_written = self.is_written || packet == "INSERT_QUOTE";
        Ok(())
    }
}

// Serves a link on which these bytes come in, and where the read and the write of these numbers fail. Number 0 is none.
fn serve_psql<R: Wait + time::Clock + Copy + Drop>(
    rt: &R,
    alloc: Global,
    incoming: Vec<u8>,
    per_call: usize,
    failing_read: u64,
    failing_write: u64,
) -> Result<Outcome, Fail>
    requires { 0 < per_call }
{
    let script = LinkScript {
        incoming,
        per_call,
        failing_reads: vec![in alloc; failing_read]?,
        failing_writes: vec![in alloc; failing_write]?,
        holds: Vec::new(alloc),
    };
    let link = MemLink::new(alloc, 1, script, None);
    let clock = MemClock::still(0, *rt);
    serve_link(rt, alloc, "-", link, 60_000, &clock)
}

// Whether another child finds the row of the INSERT, and no other.
fn has_row(alloc: Global, met: &mut Outcome) -> Result<bool, Fail> {
    let select = parse(alloc, "SELECT k, v FROM kv").ok().ok_or("a query")?;
    let reply = ask(&mut met.store, PID + 1, GENERATION, &select)?.ok_or("commits are flushed")?;
    let [Item::Rows(rows)] = reply.items() else {
        return Ok(false);
    };
    match rows.pairs() {
        [(key, value)] => Ok(*key == -3 && value.as_str() == "it's"),
        _ => Ok(false),
    }
}

// After the packets of a session and a part of the next one its link ends, or its next read fails.
fn check_stop<R: Wait + Abort + time::Clock + Copy + Drop>(
    rt: &R,
    alloc: Global,
    session: &Session,
    part: &[u8],
    per_call: usize,
    fails: bool,
) -> Result<(), Fail>
    requires { 0 < per_call }
{
    let mut incoming = session.incoming.to_vec(alloc)?;
    incoming.extend_from_slice(part)?;
    let came = incoming.len();
    let (code, failing_read) = if fails {
        (1, ((came / per_call) as u64).saturating_add(1))
    } else {
        (0, 0)
    };
    let mut met = serve_psql(rt, alloc, incoming, per_call, failing_read, 0)?;
    assert!(rt;
        met.status == Status::Code(code)
            && met.sent.as_slice() == session.answers.as_slice()
            && has_row(alloc, &mut met)? == session.is_written,
        "{came} bytes by {per_call}: {:?} and {:?}",
        met.status,
        met.sent
    );
    Ok(())
}

// A packet stops after each of its bytes.
fn check_parts<R: Wait + Abort + time::Clock + Copy + Drop>(
    rt: &R,
    alloc: Global,
    session: &Session,
    packet: &[u8],
) -> Result<(), Fail> {
    for end in 0..packet.len() {
        let part = &packet[..end];
        check_stop(rt, alloc, session, part, 4096, false)?;
        check_stop(rt, alloc, session, part, 1, true)?;
        if session.incoming.len().saturating_add(end) % 64 == 0 {
            check_stop(rt, alloc, session, part, 64, true)?;
        }
    }
    Ok(())
}

#[test]
fn psql_gets_what_its_whole_packets_deserve(rt: HostRuntime) -> Result<(), Fail> {
    let alloc = rt.alloc();
    let mut session = Session::new(alloc);
    for (packet, answer) in PACKETS {
        check_parts(&rt, alloc, &session, &joined(alloc, packet)?)?;
        session.take(alloc, packet, answer)?;
    }
    check_stop(&rt, alloc, &session, &[], 4096, false)
}

// So many writes go well, and the next fails. The answer is how many bytes went out.
fn check_write<R: Wait + Abort + time::Clock + Copy + Drop>(
    rt: &R,
    alloc: Global,
    session: &Session,
    greeting: &[u8],
    writes: usize,
    per_call: usize,
) -> Result<usize, Fail>
    requires { 0 < per_call }
{
    let incoming = session.incoming.to_vec(alloc)?;
    let failing_write = (writes as u64).saturating_add(1);
    let mut met = serve_psql(rt, alloc, incoming, per_call, 0, failing_write)?;
    let sent = met.sent.len();
    let code = if sent < session.answers.len() { 1 } else { 0 };
    assert!(rt;
        met.status == Status::Code(code)
            && session.answers.starts_with(&met.sent)
            && writes <= sent
            && sent <= writes.saturating_mul(per_call)
            && has_row(alloc, &mut met)? == (greeting.len() <= sent),
        "{writes} writes of {per_call}: {:?} and {:?}",
        met.status,
        met.sent
    );
    Ok(sent)
}

// Each write fails in turn, until all goes out.
fn check_writes<R: Wait + Abort + time::Clock + Copy + Drop>(
    rt: &R,
    alloc: Global,
    session: &Session,
    per_call: usize,
) -> Result<(), Fail>
    requires { 0 < per_call }
{
    let greeting = joined(alloc, "N GREETING")?;
    let whole = session.answers.len();
    for writes in 0..=whole {
        if check_write(rt, alloc, session, &greeting, writes, per_call)? == whole {
            return Ok(());
        }
    }
    Ok(())
}

// The row stands once the client was greeted, whether or not the INSERT's answer went out.
#[test]
fn psql_gets_a_front_of_its_answers(rt: HostRuntime) -> Result<(), Fail> {
    let alloc = rt.alloc();
    let mut session = Session::new(alloc);
    for (packet, answer) in PACKETS {
        session.take(alloc, packet, answer)?;
    }
    check_writes(&rt, alloc, &session, 1)?;
    check_writes(&rt, alloc, &session, 64)
}
