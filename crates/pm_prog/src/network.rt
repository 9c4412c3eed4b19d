//! The parts of a server's outside whose waits end one another: its port over TCP, its clock and its console.
use pm_outside_net::{Bells, BindFault, ServerClock, StandardConsole, TcpPort, standard_console};
use std::alloc::{AllocError, Global};
use std::io::{self, Stdin};
use std::net::Net;
use std::sync::{Arc, Wait};
use std::thread::Threads;
use std::time::Clock;
use thiserror::Error;

/// Why the program can't start.
#[derive(Clone, Copy, Debug, Error)]
pub enum StartFault {
    /// The system refused something, or there was no memory.
    #[error("could not start")]
    System,
    #[error("could not start: {0}")]
    Port(BindFault),
}

impl From<io::Error> for StartFault {
    fn from(_error: io::Error) -> StartFault {
        StartFault::System
    }
}

impl From<AllocError> for StartFault {
    fn from(_error: AllocError) -> StartFault {
        StartFault::System
    }
}

impl From<BindFault> for StartFault {
    fn from(fault: BindFault) -> StartFault {
        StartFault::Port(fault)
    }
}

/// What a server of many connections waits for, and the clock by which it does.
#[derive(Drop)]
pub struct Network<R> {
    pub port: TcpPort<R>,
    pub clock: ServerClock<R>,
    pub console: StandardConsole<R>,
}

/// Where clients come in: a port of 127.0.0.1, how long each may take up to its greeting, in milliseconds, how many slots there
/// are for children, and how many of these, the first ones, are for those that rest until they are called.
#[derive(Clone, Copy)]
pub struct Endpoint {
    pub port: u16,
    pub entry_ms: u64,
    pub slots: u32,
    pub resting: u32,
}

/// Listens there, and begins to read the console.
pub fn open<R>(
    rt: R,
    alloc: Global,
    stdin: Stdin,
    endpoint: Endpoint,
) -> Result<Network<R>, StartFault>
where
    R: Threads + Wait + Net + Clock + Copy + Drop + Send + 'static,
{
    let bells = bells(alloc, endpoint.slots)?;
    let mut port = TcpPort::new(rt, alloc, Arc::try_clone(&bells)?, endpoint.port)?;
    port.limit_entry(endpoint.entry_ms);
    let clock = ServerClock::new(
        rt,
        &rt,
        alloc,
        Arc::try_clone(&bells)?,
        port.descriptor(),
        endpoint.resting,
    )?;
    let console = standard_console(rt, alloc, stdin, bells)?;
    Ok(Network {
        port,
        clock,
        console,
    })
}

fn bells(alloc: Global, slots: u32) -> io::Result<Arc<Bells, Global>> {
    Ok(Arc::new(alloc, Bells::new(alloc, slots)?)?)
}
