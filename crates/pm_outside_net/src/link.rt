// A connection over TCP.
use crate::bells::Bells;
use mio::net::TcpStream;
use mio::{Events, Interest, Poll, Token};
use pm_outside::{Got, Link, Put};
use std::alloc::Global;
use std::io::{self, ErrorKind, Read, Write};
use std::net::{Net, Shutdown};
use std::sync::Arc;
use std::time::Duration;

/// The least patience of a read, in milliseconds.
const LEAST_MS: u64 = 100;

/// The most, in milliseconds.
const MOST_MS: u64 = 60_000;

/// How long after its client's limit of time a read has the least patience, in milliseconds. A session goes by a clock of
/// its own, by which the limit may pass a little later.
const NEAR_MS: u64 = 1000;

/// How often a write waits so long for a client that takes nothing: for an hour.
const WRITE_WAITS: u64 = 60;

/// How long the writes of a link wait in all from the moment at which its child is to end, in milliseconds.
const LAST_MS: u64 = 1000;

/// How many reads of 4,096 bytes let go of what a client still sent when its link is closed.
const LAST_READS: u32 = 64;

const SOCKET: Token = Token(0);

const CALL: Token = Token(1);

/// A connection. A read waits for bytes or a call of its slot's child: a minute at most, and up to the client's limit of time,
/// whatever was sent, so that a session can see that its client wasn't greeted in time. The link gives no client up by it.
/// A write waits for a client that takes nothing, or for a call, after which it answers not yet: an hour at most, and a second
/// from the moment at which the child is to end, and then it fails.
#[derive(Drop)]
pub struct TcpLink {
    number: u64,
    stream: TcpStream,
    poll: Poll,
    events: Events,
    bells: Arc<Bells, Global>,
    // Whose calls it hears, and how many it has heard.
    slot: u32,
    heard: u64,
    // How many writes may still answer not yet.
    asks_left: u64,
    // All that came was read, so that more comes with an event.
    is_drained: bool,
    // The client sends no more, so that its end may come with no event of its own.
    has_ended: bool,
    // When it came, and the limit of time for its client from then on, in milliseconds.
    came: u64,
    entry_ms: u64,
    // Until when its writes wait, once its child is to end.
    last: Option<u64>,
    faults: u64,
}

// How a wait ended.
enum Waited {
    /// The socket has something new.
    Socket,
    /// The child was called.
    Called,
    /// The time is up.
    Late,
}

impl TcpLink {
    ghost use Rattle.std.specs.Prelude.{◌≡◌, ◌≤◌, IfOk};
    ghost use Rattle.pm_outside.specs.pm_disk.Cause.{Rose};
    ghost use Rattle.pm_outside_net.specs.Counts.{link_faults, link_limit, link_number, link_patience};

    /// The link of this number, for the child of this slot, over a stream whose calls don't wait. A call from before isn't heard.
    /// Its client is to be greeted in so many milliseconds, and a read that waits then comes back.
    pub(crate) fn new<N: Net>(
        net: &N,
        alloc: Global,
        bells: &Arc<Bells, Global>,
        slot: u32,
        number: u64,
        entry_ms: u64,
        stream: TcpStream,
    ) -> io::Result<TcpLink>
        ensures number { IfOk result (λ link. link_number link ≡ number) }
        ensures faults { IfOk result (λ link. link_faults link ≡ 0) }
        ensures limit { IfOk result (λ link. link_limit link ≡ entry_ms) }
    {
        let mut stream = stream;
        let _ = stream.set_nodelay(true);
        let poll = Poll::new(net)?;
        let both = Interest::READABLE | Interest::WRITABLE;
        poll.registry().register(&mut stream, SOCKET, both)?;
        bells.register(slot, poll.registry(), CALL)?;
        let events = Events::with_capacity(alloc, 2)?;
        let bells = Arc::try_clone(bells)?;
        let heard = bells.calls(slot);
        let came = bells.moment();
        Ok(TcpLink {
            number,
            stream,
            poll,
            events,
            bells,
            slot,
            heard,
            asks_left: u64::MAX,
            is_drained: false,
            has_ended: false,
            came,
            entry_ms,
            last: None,
            faults: 0,
        })
    }

    // How long a read waits where nothing ends its wait: up to the limit of time, and long again from a second after it.
    fn patience(&self) -> u64 {
        let passed = self.bells.moment().saturating_sub(self.came);
        if passed >= self.entry_ms.saturating_add(NEAR_MS) {
            return MOST_MS;
        }
        let left = self.entry_ms.saturating_sub(passed);
        left.max(LEAST_MS).min(MOST_MS)
    }

    // How long a write waits where nothing ends its wait.
    fn write_patience(&self) -> u64 {
        match self.last {
            None => MOST_MS,
            Some(last) => last.saturating_sub(self.bells.moment()),
        }
    }

    // Waits for a change of the socket, for a call, or until the time is up.
    fn wait(&mut self, limit_ms: u64) -> io::Result<Waited>
        ensures faults { self.new.faults ≡ self.old.faults }
        ensures number { self.new.number ≡ self.old.number }
        ensures patience { self.new.asks_left ≡ self.old.asks_left }
    {
        // What stood when the set was made comes as an event too, which may be a call from before.
        for _ in 0..4 {
            let limit = Duration::from_millis(limit_ms);
            self.poll.poll(&mut self.events, Some(limit))?;
            let is_new = self.see();
            let calls = self.bells.calls(self.slot);
            if self.heard != calls {
                self.heard = calls;
                return Ok(Waited::Called);
            }
            if is_new {
                return Ok(Waited::Socket);
            }
            if self.events.is_empty() {
                break;
            }
        }
        Ok(Waited::Late)
    }

    // Takes in what the last wait found of the socket, and tells whether there was any.
    fn see(&mut self) -> bool
        ensures faults { self.new.faults ≡ self.old.faults }
        ensures number { self.new.number ≡ self.old.number }
        ensures patience { self.new.asks_left ≡ self.old.asks_left }
    {
        let mut is_new = false;
        for event in self.events.iter() {
            if event.token() == SOCKET {
                is_new = true;
                self.is_drained = false;
                self.has_ended = self.has_ended || event.is_read_closed() || event.is_error();
            }
        }
        is_new
    }

    // Counts a failure.
    fn count_fault(&mut self)
        ensures number { self.new.number ≡ self.old.number }
        ensures patience { self.new.asks_left ≡ self.old.asks_left }
        ensures later { self.old.faults ≤ self.new.faults }
        ensures rose { Rose self.old.faults self.new.faults }
    {
        self.faults = self.faults.saturating_add(1);
    }

    /// Ends the connection. What the client still sent is let go first: a driver that is told of bytes that nobody took
    /// may stop before it has read the last words.
    pub(crate) fn close(self) {
        let mut link = self;
        let mut rest = [0; 4096];
        let _ = link.stream.shutdown(Shutdown::Write);
        for _ in 0..LAST_READS {
            match link.stream.read(&mut rest) {
                Ok(0) | Err(_) => break,
                Ok(_) => {}
            }
        }
    }
}

impl Link for TcpLink {
    ghost use Rattle.std.specs.Prelude.{None};
    ghost use Rattle.pm_outside_net.specs.Counts.{link_faults, link_number, link_patience};

    // It doesn't tell what passes.
    ghost traffic = { λ _. None };

    ghost number = { link_number };

    ghost faults = { link_faults };

    ghost patience = { link_patience };

    fn read(&mut self, into: &mut [u8]) -> Got {
        for _ in 0..4 {
            if self.is_drained {
                match self.wait(self.patience()) {
                    Ok(Waited::Socket) => {}
                    Ok(Waited::Called | Waited::Late) => return Got::NotYet,
                    Err(_) => {
                        self.count_fault();
                        return Got::Failed;
                    }
                }
            }
            match self.stream.read(into) {
                Ok(0) => return Got::End,
                Ok(count) => {
                    self.is_drained = count < into.len() && !self.has_ended;
                    return Got::Bytes(count);
                }
                Err(error) => match error.kind() {
                    ErrorKind::WouldBlock => self.is_drained = true,
                    ErrorKind::Interrupted => {}
                    _ => {
                        self.count_fault();
                        return Got::Failed;
                    }
                },
            }
        }
        Got::NotYet
    }

    fn write(&mut self, from: &[u8]) -> Put {
        for _ in 0..WRITE_WAITS {
            match self.stream.write(from) {
                Ok(0) => break,
                Ok(count) => return Put::Count(count),
                Err(error) => match error.kind() {
                    ErrorKind::WouldBlock => match self.wait(self.write_patience()) {
                        Ok(Waited::Socket) => {}
                        Ok(Waited::Called) => {
                            if self.asks_left > 0 {
                                self.asks_left -= 1;
                                return Put::NotYet;
                            }
                        }
                        Ok(Waited::Late) => {
                            if self.last.is_some() {
                                break;
                            }
                        }
                        Err(_) => break,
                    },
                    ErrorKind::Interrupted => {}
                    _ => break,
                },
            }
        }
        self.count_fault();
        Put::Failed
    }

    // By the moments that the supervisor's clock gives.
    fn hurry(&mut self) {
        if self.last.is_none() {
            self.last = Some(self.bells.moment().saturating_add(LAST_MS));
        }
    }

    fn faults(&self) -> u64 {
        self.faults
    }
}
