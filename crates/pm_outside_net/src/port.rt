// A port over TCP.
ghost use Rattle.std.specs.{Prelude.◌≡◌, Option.ForSome};
ghost use Rattle.pm_outside_faults.specs.Faults.{first_of};

use crate::bells::Bells;
use crate::link::TcpLink;
use mio::net::TcpListener;
use pm_outside::{Accepted, Port};
use pm_outside_faults::Faults;
use std::alloc::Global;
use std::io::{self, ErrorKind};
use std::net::{Net, SocketAddr};
use std::os::fd::{AsRawFd, RawFd};
use std::sync::Arc;
use thiserror::Error;

/// How often an accept passes over a client that has gone before it was taken.
const GONE: u32 = 128;

/// A port of this machine can't be listened on.
#[derive(Clone, Copy, Debug, Error)]
#[error("127.0.0.1:{port}: {reason}")]
pub struct BindFault {
    pub port: u16,
    pub reason: io::Error,
}

/// A connection to a port of this machine couldn't be taken.
#[derive(Clone, Copy, Debug, Error)]
#[error("127.0.0.1:{port}: accept: {reason}")]
pub struct AcceptFault {
    pub port: u16,
    pub reason: io::Error,
}

/// A port of this machine, which serves its own address alone.
#[derive(Drop)]
pub struct TcpPort<N> {
    listener: TcpListener,
    asked: u16,
    bells: Arc<Bells, Global>,
    // The limit of time for a client from its coming on, in milliseconds.
    entry_ms: u64,
    given: u64,
    faults: Faults<AcceptFault>,
    alloc: Global,
    net: N,
    ghost named: { ForSome (first_of faults) (λ fault. fault.port ≡ asked) },
}

impl<N: Net + Drop> TcpPort<N> {
    ghost use Rattle.std.specs.Prelude.{◌↔◌, ◌<◌, IfErr, IfOk, IfSome, IsSome};
    ghost use Rattle.pm_outside_net.specs.Counts.{asked_port, entry_limit, first_port_fault, link_limit, link_number, links_given, port_faults};

    /// Listens on this port of 127.0.0.1, or on a free one at 0. A port whose connections were broken off may be taken
    /// again at once. Its clients have no limit of time.
    pub fn new(
        net: N,
        alloc: Global,
        bells: Arc<Bells, Global>,
        port: u16,
    ) -> Result<Self, BindFault>
        ensures given { IfOk result (λ port. links_given port ≡ 0) }
        ensures asked { IfOk result (λ own. asked_port own ≡ port) }
        ensures faults { IfOk result (λ port. port_faults port ≡ 0) }
        ensures refused { IfErr result (λ fault. fault.port ≡ port) }
    {
        let address = SocketAddr::from(([127, 0, 0, 1], port));
        match TcpListener::bind(&net, address) {
            Ok(listener) => Ok(TcpPort {
                listener,
                asked: port,
                bells,
                entry_ms: u64::MAX,
                given: 0,
                faults: Faults::new(),
                alloc,
                net,
            }),
            Err(reason) => Err(BindFault { port, reason }),
        }
    }

    /// The clients that come from now on are to be greeted in so many milliseconds. A read of their links that waits then
    /// comes back, by the moments that the supervisor's clock gives, so that who serves them can end what takes longer.
    pub fn limit_entry(&mut self, entry_ms: u64)
        ensures limit { entry_limit self.new ≡ entry_ms }
        ensures given { links_given self.new ≡ links_given self.old }
        ensures asked { asked_port self.new ≡ asked_port self.old }
        ensures faults { port_faults self.new ≡ port_faults self.old }
    {
        self.entry_ms = entry_ms;
    }

    /// The descriptor that has something new where a connection has come.
    pub fn descriptor(&self) -> RawFd {
        self.listener.as_raw_fd()
    }

    /// The number of the port.
    pub fn number(&self) -> io::Result<u16> {
        Ok(self.listener.local_addr()?.port())
    }

    /// What failed first.
    pub fn first_fault(&self) -> Option<AcceptFault>
        ensures first { result ≡ first_port_fault self.now }
        ensures some { IsSome result ↔ (0 < port_faults self.now) }
        ensures named { IfSome result (λ fault. fault.port ≡ asked_port self.now) }
    {
        self.faults.first()
    }

    // The next connection that is still there, as the link of this number for the child of this slot.
    fn take(&self, slot: u32, number: u64) -> io::Result<TcpLink>
        ensures number { IfOk result (λ link. link_number link ≡ number) }
        ensures limit { IfOk result (λ link. link_limit link ≡ entry_limit self.now) }
    {
        for _ in 0..GONE {
            match self.listener.accept() {
                Ok((stream, _)) => {
                    return TcpLink::new(
                        &self.net,
                        self.alloc,
                        &self.bells,
                        slot,
                        number,
                        self.entry_ms,
                        stream,
                    );
                }
                Err(error) => match error.kind() {
                    ErrorKind::ConnectionAborted | ErrorKind::Interrupted => {}
                    _ => return Err(error),
                },
            }
        }
        Err(io::Error::from(ErrorKind::ConnectionAborted))
    }
}

impl<N: Net + Drop> Port for TcpPort<N> {
    type Link = TcpLink;

    ghost use Rattle.std.specs.Prelude.{None, min, ◌+◌, ◌-◌, ◌^◌};
    ghost use Rattle.pm_outside.specs.{pm_disk.Cause.IsCounted, Visits.IfLink};
    ghost use Rattle.pm_outside_faults.specs.Faults.{StaysFirst};
    ghost use Rattle.pm_outside_net.specs.Counts.{asked_port, first_port_fault, link_number, links_given, port_faults};

    // It doesn't tell its links.
    ghost visits = { λ _. None };

    ghost faults = { port_faults };

    ghost balanced = { λ _. tt };

    fn accept(&mut self, slot: u32) -> Accepted<TcpLink>
        ensures cause { IsCounted (port_faults self.old) (port_faults self.new)
            (result ≡ Accepted.Failed) }
        ensures first { StaysFirst (first_port_fault self.old) (first_port_fault self.new) }
        ensures asked { asked_port self.new ≡ asked_port self.old }
        ensures number { IfLink result (λ link. link_number link ≡ links_given self.new) }
        ensures next { IfLink result (λ link. links_given self.new ≡ min (links_given self.old + 1)
            (2 ^ 64 - 1)) }
    {
        let next = self.given.saturating_add(1);
        match self.take(slot, next) {
            Ok(link) => {
                self.given = next;
                Accepted::Link(link)
            }
            Err(reason) => {
                if reason.kind() == ErrorKind::WouldBlock {
                    return Accepted::NotYet;
                }
                let port = self.asked;
                self.faults.note(AcceptFault { port, reason });
                Accepted::Failed
            }
        }
    }

    fn done(&mut self, link: TcpLink) {
        link.close();
    }

    fn faults(&self) -> u64 {
        self.faults.count()
    }
}
