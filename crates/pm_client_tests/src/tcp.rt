// Talks over TCP in one process: a client with a session, and a client over a link that a port has taken.
use crate::bytes::*;
use crate::scripted::talk;
use pm_admit::Cac;
use pm_child_life::ScriptedLife;
use pm_client::Played;
use pm_exit::Status;
use pm_outside::{Accepted, Forgotten, MemClock, MemSink, Port};
use pm_outside_net::{Bells, TcpLink, TcpPort};
use pm_outside_streams::StandardLink;
use pm_query::Work;
use pm_rows_tests::{GENERATION, MemStore};
use pm_session::{Admission, Done, Means, SessionConf, serve};
use std::alloc::Global;
use std::io::{self, Read, Write};
use std::net::{Net, TcpStream};
use std::sync::{Arc, Wait};
use std::test::Fail;
use std::thread;
use std::time::{Clock, Duration};

// The key of pid 4 where the seed is zero.
const ADMISSION: Admission = Admission {
    decision: Cac::Ok,
    key: 0xb819_d2bd,
};

const CONF: SessionConf = SessionConf {
    authentication_ms: 60_000,
};

// A free port of this machine.
fn open<R: Net + Copy + Drop>(rt: &R, alloc: Global) -> Result<TcpPort<R>, Fail> {
    let bells = Arc::new(alloc, Bells::new(alloc, 1)?)?;
    match TcpPort::new(*rt, alloc, bells, 0) {
        Ok(port) => Ok(port),
        Err(_) => Err(Fail::new("no port")),
    }
}

// The next link of a port, which a client takes within a second.
fn accept<R: Net + Clock + Copy + Drop>(rt: &R, port: &mut TcpPort<R>) -> Option<TcpLink> {
    for _ in 0..1000 {
        match port.accept(0) {
            Accepted::Link(link) => return Some(link),
            Accepted::NotYet => thread::sleep(rt, Duration::from_millis(1)),
            Accepted::End | Accepted::Failed => break,
        }
    }
    None
}

// Serves the next link of a port to its end, over a store in memory. It tells how the session ends.
fn serve_one<R: Wait + Net + Clock + Copy + Drop>(
    rt: &R,
    alloc: Global,
    port: &mut TcpPort<R>,
) -> Option<Status> {
    let link = accept(rt, port)?;
    let life = ScriptedLife::quiet(alloc, 4, GENERATION);
    let store = MemStore::new(alloc, Forgotten::new());
    let clock = MemClock::still(0, *rt);
    let means = Means {
        rt,
        alloc,
        clock: &clock,
    };
    let work = Work { life, store };
    let Done { status, link, work } = serve(&means, link, work, ADMISSION, &CONF);
    drop(work);
    port.done(link);
    Some(status)
}

// Asks these queries at this port, as the program `pgtalk` does. It tells how the talk ends, and what is shown.
fn ask<R>(rt: &R, alloc: Global, number: u16, queries: &str) -> Option<(Played, MemSink)>
where
    R: Wait + Net<Stream = TcpStream> + Clock + Copy + Drop,
{
    let stream = TcpStream::connect(rt, ("127.0.0.1", number)).ok()?;
    let mut link = StandardLink::new(&stream, &stream);
    let mut out = MemSink::new(alloc, 4096, Vec::new(alloc));
    let end = talk(rt, alloc, &mut link, queries, &mut out)?;
    Some((end, out))
}

#[test]
fn a_session_answers_a_client_over_tcp(rt: HostRuntime) -> Result<(), Fail> {
    let alloc = rt.alloc();
    let mut port = open(&rt, alloc)?;
    let number = port.number()?;
    let (status, asked) = thread::join(
        &rt,
        || serve_one(&rt, alloc, &mut port),
        || ask(&rt, alloc, number, SEVENS),
    );
    let (end, out) = asked.ok_or("no talk")?;
    assert_eq!(rt; end, Played::Done { link_ended: false });
    assert_eq!(rt; out.bytes(), b"INSERT 0 1\n7|seven\nSELECT 1\n".as_slice());
    assert_eq!(rt; status, Some(Status::Code(0)));
    Ok(())
}

// A server that connects to a port and goes by a script: it reads each request whole, which must be this one, and answers it. It
// tells whether each came so.
fn answer_by<R>(rt: &R, alloc: Global, number: u16, script: &[(&[u8], &[u8])]) -> io::Result<bool>
where
    R: Net<Stream = TcpStream>,
{
    let mut stream = TcpStream::connect(rt, ("127.0.0.1", number))?;
    for (request, answer) in script {
        let mut came = vec![in alloc; 0; request.len()]?;
        stream.read_exact(&mut came)?;
        if came.as_slice() != *request {
            return Ok(false);
        }
        stream.write_all(answer)?;
    }
    Ok(true)
}

// Asks these queries on the next link of a port.
fn ask_on<R: Wait + Net + Clock + Copy + Drop>(
    rt: &R,
    alloc: Global,
    port: &mut TcpPort<R>,
    queries: &str,
) -> Option<(Played, MemSink)> {
    let mut link = accept(rt, port)?;
    let mut out = MemSink::new(alloc, 4096, Vec::new(alloc));
    let end = talk(rt, alloc, &mut link, queries, &mut out)?;
    port.done(link);
    Some((end, out))
}

#[test]
fn a_client_talks_over_a_link_of_a_port(rt: HostRuntime) -> Result<(), Fail> {
    let alloc = rt.alloc();
    let whole: &[(&[u8], &[u8])] = &[
        (PACKET, GREETING),
        (INSERT_SEVEN, INSERTED),
        (SELECT_SEVEN, SEVEN),
        (TERMINATE, b""),
    ];
    let ended: &[(&[u8], &[u8])] = &[(PACKET, GREETING), (INSERT_SEVEN, CRASH_QUIT)];
    let crash =
        "WARNING:  57P02 terminating connection because of crash of another server process\n";
    for (script, link_ended, shown) in [
        (whole, false, "INSERT 0 1\n7|seven\nSELECT 1\n"),
        (ended, true, crash),
    ] {
        let mut port = open(&rt, alloc)?;
        let number = port.number()?;
        let (met, asked) = thread::join(
            &rt,
            || answer_by(&rt, alloc, number, script),
            || ask_on(&rt, alloc, &mut port, SEVENS),
        );
        let (end, out) = asked.ok_or("no talk")?;
        assert_eq!(rt; end, Played::Done { link_ended });
        assert_eq!(rt; out.bytes(), shown.as_bytes());
        assert!(rt; met?);
    }
    Ok(())
}
