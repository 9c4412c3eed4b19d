// A port with its clients.
use pm_outside::{Accepted, Clock as _, Port};
use pm_outside_net::{Bells, ServerClock, TcpLink, TcpPort};
use std::alloc::Global;
use std::fmt::Debug;
use std::net::{Net, TcpStream};
use std::sync::{Arc, Wait};
use std::test::Fail;
use std::thread;
use std::time::{Clock, Duration, Instant};

/// The slot whose child rests.
pub const RESTING: u32 = 0;

/// The slot of the child that the links are for.
pub const CHILD: u32 = 1;

/// That of another child.
pub const OTHER: u32 = 2;

/// A port with its server's clock and a child's, its links, their clients, and a start from which time counts.
#[derive(Drop)]
pub struct World<R> {
    pub rt: R,
    pub port: TcpPort<R>,
    pub bells: Arc<Bells, Global>,
    pub clock: ServerClock<R>,
    pub child: ServerClock<R>,
    pub links: Vec<TcpLink>,
    pub clients: Vec<TcpStream>,
    pub start: Instant,
}

/// A free port of this machine, to which nobody has come.
pub fn open<R: Net + Wait + Clock + Copy + Drop>(rt: R, alloc: Global) -> Result<World<R>, Fail> {
    let bells = Arc::new(alloc, Bells::new(alloc, OTHER + 1)?)?;
    let Ok(port) = TcpPort::new(rt, alloc, Arc::try_clone(&bells)?, 0) else {
        return Err(Fail::new("no port"));
    };
    let clock = ServerClock::new(
        rt,
        &rt,
        alloc,
        Arc::try_clone(&bells)?,
        port.descriptor(),
        RESTING + 1,
    )?;
    let child = clock.another(CHILD)?;
    Ok(World {
        rt,
        port,
        bells,
        clock,
        child,
        links: Vec::new(alloc),
        clients: Vec::new(alloc),
        start: Instant::now(&rt)?,
    })
}

/// A client of a port.
pub fn connect<R>(rt: &R, port: &TcpPort<R>) -> Result<TcpStream, Fail>
where
    R: Net<Stream = TcpStream> + Drop,
{
    Ok(TcpStream::connect(rt, ("127.0.0.1", port.number()?))?)
}

/// The next link of a port, for which a client stands in line.
pub fn accept<R: Net + Clock + Drop>(rt: &R, port: &mut TcpPort<R>) -> Result<TcpLink, Fail> {
    for _ in 0..1000 {
        match port.accept(CHILD) {
            Accepted::Link(link) => return Ok(link),
            Accepted::NotYet => wait_ms(rt, 1),
            Accepted::End | Accepted::Failed => break,
        }
    }
    Err(Fail::new("no link"))
}

/// Lets so many milliseconds pass.
pub fn wait_ms(rt: &impl Clock, ms: u64) {
    thread::sleep(rt, Duration::from_millis(ms));
}

/// How many milliseconds have passed since then.
pub fn since_ms(rt: &impl Clock, start: Instant) -> u64 {
    match start.elapsed(rt) {
        Ok(passed) => u64::try_from(passed.as_millis()).unwrap_or(u64::MAX),
        Err(_) => 0,
    }
}

/// An answer as a text.
pub fn said(alloc: Global, answer: impl Debug + Drop) -> Result<String, Fail> {
    Ok(format!(in alloc; "{answer:?}")?)
}

/// A line's first word, and what comes after it.
pub fn parted(line: &str) -> (&str, &str) {
    line.split_once(' ').unwrap_or((line, ""))
}

pub fn number(word: &str) -> Result<u64, Fail> {
    Ok(word.parse::<u64>().ok().ok_or("a number")?)
}
