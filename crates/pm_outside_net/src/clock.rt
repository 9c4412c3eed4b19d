// The clock of a server, whose pauses end where there is something to do.
ghost use Rattle.std.specs.Prelude.{⊤};

use crate::bells::Bells;
use mio::unix::SourceFd;
use mio::{Events, Interest, Poll, Token};
use pm_outside::Clock;
use std::alloc::{AllocError, Global};
use std::net::Net;
use std::os::fd::{AsRawFd, RawFd};
use std::sync::atomic::{AtomicU64, Ordering};
use std::sync::{Arc, Mutex, Wait};
use std::time::{self, Duration, Instant};
use std::{io, thread};

/// How long a pause of the supervisor's clock is at most, in milliseconds.
const TICK_MS: u64 = 200;

/// How long a pause of a child's clock is at most, in milliseconds.
const PAUSE_MS: u64 = 10;

/// The same of a child that rests.
const REST_MS: u64 = 60_000;

/// How long a brief pause is at least and at most, in microseconds.
const BRIEF_US: u64 = 1000;

const LONGEST_BRIEF_US: u64 = 50_000;

/// How many brief pauses in a row are as long as the work before them asks for. Those after them are the shortest, so that who makes
/// them comes to an end.
const LONG_BRIEFS: u64 = 64;

const LISTENER: Token = Token(0);

const DOOR: Token = Token(1);

/// The time since a start, in milliseconds, by a clock of the system that never goes back. The supervisor's pauses end by
/// a connection or at the door, and it calls the children. The pauses of a child's, made by `another`, end by a call of the
/// child of its slot, and a ring of it goes to the door. A child that rests, in one of the first slots, has nothing to do until
/// it is called: its pauses are twice as long each time, up to a minute, and short again after a call. A child's brief pause is
/// one and a half times as long as it worked since the one before, so that others get more than half of the time.
#[derive(Drop)]
pub struct ServerClock<R> {
    start: Instant,
    bells: Arc<Bells, Global>,
    // How many slots have children that rest.
    resting: u32,
    side: Side,
    rt: R,
}

// Whose clock it is.
#[derive(Drop)]
enum Side {
    /// The supervisor's: a pause waits for a connection and at the door.
    Supervisor(Mutex<Door>),
    /// A child's: a pause waits for a call of it.
    Child(Pauses),
}

// The pauses of the child of a slot.
#[derive(Drop)]
struct Pauses {
    slot: u32,
    // How many of its calls were heard.
    heard: AtomicU64,
    // How long the next pause is at most, and how long any is, in milliseconds.
    next_ms: AtomicU64,
    longest_ms: u64,
    briefs: Briefs,
}

// The brief pauses of a child since its last pause of another kind.
#[derive(Drop)]
struct Briefs {
    count: AtomicU64,
    // When the last pause of any kind ended, in microseconds since the start.
    ended_us: AtomicU64,
}

impl Briefs {
    fn new() -> Briefs {
        Briefs {
            count: AtomicU64::new(0),
            ended_us: AtomicU64::new(0),
        }
    }

    // A pause of another kind has ended.
    fn begin_anew<R: time::Clock>(&self, rt: &R, start: &Instant) {
        self.count.store(0, Ordering::SeqCst);
        self.ended_us.store(passed_us(rt, start), Ordering::SeqCst);
    }

    fn pause<R: Wait + time::Clock>(&self, rt: &R, start: &Instant) {
        let count = self.count.fetch_add(1, Ordering::SeqCst);
        let worked_us = passed_us(rt, start).saturating_sub(self.ended_us.load(Ordering::SeqCst));
        let us = if count < LONG_BRIEFS {
            (worked_us.saturating_mul(3) / 2).clamp(BRIEF_US, LONGEST_BRIEF_US)
        } else {
            BRIEF_US
        };
        thread::sleep(rt, Duration::from_micros(us));
        self.ended_us.store(passed_us(rt, start), Ordering::SeqCst);
    }
}

// How many microseconds have passed since the start, as far as the clock tells.
fn passed_us<R: time::Clock>(rt: &R, start: &Instant) -> u64 {
    match start.elapsed(rt) {
        Ok(passed) => u64::try_from(passed.as_micros()).unwrap_or(u64::MAX),
        Err(_) => 0,
    }
}

impl Pauses {
    fn new(bells: &Bells, slot: u32, longest_ms: u64) -> Pauses {
        Pauses {
            slot,
            heard: AtomicU64::new(bells.calls(slot)),
            next_ms: AtomicU64::new(PAUSE_MS),
            longest_ms,
            briefs: Briefs::new(),
        }
    }

    // Sleeps, but where there was a call since the pause before.
    fn pause<R: Wait>(&self, rt: &R, bells: &Bells) {
        let calls = bells.calls(self.slot);
        if self.heard.swap(calls, Ordering::SeqCst) != calls {
            self.next_ms.store(PAUSE_MS, Ordering::SeqCst);
            return;
        }
        let ms = self.next_ms.load(Ordering::SeqCst);
        let longer = ms.saturating_mul(2).min(self.longest_ms);
        self.next_ms.store(longer, Ordering::SeqCst);
        bells.wait_for_call(rt, self.slot, calls, Duration::from_millis(ms));
    }
}

#[derive(Drop)]
struct Door {
    poll: Poll,
    events: Events,
}

impl<R: Wait + time::Clock + Copy + Drop> ServerClock<R> {
    /// The clock of a supervisor, which starts now. Its pauses end where this descriptor, a listener's, has something new. The
    /// children of so many slots, the first ones, rest.
    pub fn new<N: Net>(
        rt: R,
        net: &N,
        alloc: Global,
        bells: Arc<Bells, Global>,
        listener: RawFd,
        resting: u32,
    ) -> io::Result<Self> {
        let start = Instant::now(&rt)?;
        let poll = Poll::new(net)?;
        poll.registry()
            .register(&mut SourceFd(&listener), LISTENER, Interest::READABLE)?;
        bells.door.register(poll.registry(), DOOR)?;
        let events = Events::with_capacity(alloc, 2)?;
        Ok(ServerClock {
            start,
            bells,
            resting,
            side: Side::Supervisor(Mutex::new(Door { poll, events })),
            rt,
        })
    }
}

impl<R: Wait + time::Clock + Copy + Drop> Clock for ServerClock<R> {
    type Runtime = R;

    // It may give any moment.
    ghost gives = { λ _ _. ⊤ };

    // Links go by what the supervisor's clock gives, which is asked in each of its turns.
    fn now(&self) -> u64 {
        let moment = match self.start.elapsed(&self.rt) {
            Ok(passed) => u64::try_from(passed.as_millis()).unwrap_or(u64::MAX),
            Err(_) => 0,
        };
        if let Side::Supervisor(_) = &self.side {
            self.bells.show(moment);
        }
        moment
    }

    fn pause(&self) {
        match &self.side {
            Side::Supervisor(door) => {
                let mut door = door.lock(&self.rt);
                let Door { poll, events } = &mut *door;
                let _ = poll.poll(events, Some(Duration::from_millis(TICK_MS)));
            }
            Side::Child(pauses) => {
                pauses.pause(&self.rt, &self.bells);
                pauses.briefs.begin_anew(&self.rt, &self.start);
            }
        }
    }

    // No call ends it, and it doesn't count among the pauses.
    fn pause_briefly(&self) {
        match &self.side {
            Side::Supervisor(_) => thread::sleep(&self.rt, Duration::from_micros(BRIEF_US)),
            Side::Child(pauses) => pauses.briefs.pause(&self.rt, &self.start),
        }
    }

    // The supervisor's clock was made from none.
    fn ring(&self) {
        if let Side::Child(_) = &self.side {
            self.bells.door.ring();
        }
    }

    fn call(&self, slot: u32) {
        self.bells.call(slot);
    }

    fn another(&self, slot: u32) -> Result<Self, AllocError> {
        let longest_ms = if slot < self.resting {
            REST_MS
        } else {
            PAUSE_MS
        };
        Ok(ServerClock {
            start: self.start,
            bells: Arc::try_clone(&self.bells)?,
            resting: self.resting,
            side: Side::Child(Pauses::new(&self.bells, slot, longest_ms)),
            rt: self.rt,
        })
    }
}
