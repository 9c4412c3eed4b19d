// What ends the waits of a server's threads.
use libc::net as c;
use mio::unix::SourceFd;
use mio::{Interest, Registry, Token};
use std::alloc::Global;
use std::io;
use std::sync::Wait;
use std::sync::atomic::{AtomicU64, Ordering};
use std::time::Duration;

/// A counter of the system's. By its change a wait over descriptors ends, in each thread that waits over it.
pub struct Bell {
    fd: i32,
}

impl Bell {
    /// A bell that wasn't rung.
    pub fn new() -> io::Result<Bell> {
        let fd = c::eventfd(0, c::EFD_CLOEXEC | c::EFD_NONBLOCK);
        if fd < 0 {
            return Err(io::Error::from(io::ErrorKind::Other));
        }
        Ok(Bell { fd })
    }

    /// Ends a wait of each set of descriptors that the bell is in: the one under way, or else the next. The counter is
    /// never emptied by those who hear it, since one would take the ring from the others.
    pub fn ring(&self) {
        if libc::write(self.fd, &1u64.to_ne_bytes()) < 0 {
            // The counter is full, which takes 2^64 - 2 rings.
            libc::read(self.fd, &mut [0; 8]);
            libc::write(self.fd, &1u64.to_ne_bytes());
        }
    }

    /// Has the waits over these descriptors end by the bell.
    pub fn register(&self, registry: &Registry, token: Token) -> io::Result<()> {
        registry.register(&mut SourceFd(&self.fd), token, Interest::READABLE)
    }
}

impl Drop for Bell {
    fn drop(self) {
        let Bell { fd } = self;
        libc::close(fd);
    }
}

/// The bell of a slot's child. A call is counted before it rings, so who hears it can tell it from an earlier one.
#[derive(Drop)]
struct Calls {
    bell: Bell,
    // How often the child was called, which its pauses sleep on.
    count: AtomicU64,
}

/// The bells of a server. Its supervisor waits at the door, and the child of each slot at that of its slot.
#[derive(Drop)]
pub struct Bells {
    /// A child has ended, or the console has a line.
    pub door: Bell,
    slots: Vec<Calls>,
    // The last moment that the supervisor's clock gave, in milliseconds.
    moment: AtomicU64,
}

impl Bells {
    /// Bells that weren't rung, for so many slots. The children of others are called by none.
    pub fn new(alloc: Global, slots: u32) -> io::Result<Bells> {
        let mut all = Vec::with_capacity(alloc, slots as usize)?;
        for _ in 0..slots {
            all.push(Calls {
                bell: Bell::new()?,
                count: AtomicU64::new(0),
            })?;
        }
        Ok(Bells {
            door: Bell::new()?,
            slots: all,
            moment: AtomicU64::new(0),
        })
    }

    // What calls the child of this slot.
    fn calls_of(&self, slot: u32) -> Option<&Calls> {
        self.slots.get(slot as usize)
    }

    /// Calls the child of this slot.
    pub fn call(&self, slot: u32) {
        if let Some(calls) = self.calls_of(slot) {
            calls.count.fetch_add(1, Ordering::SeqCst);
            calls.count.wake_all();
            calls.bell.ring();
        }
    }

    /// Has the waits over these descriptors end by a call of the child of this slot.
    pub fn register(&self, slot: u32, registry: &Registry, token: Token) -> io::Result<()> {
        match self.calls_of(slot) {
            Some(calls) => calls.bell.register(registry, token),
            None => Ok(()),
        }
    }

    /// How often the child of this slot was called.
    pub fn calls(&self, slot: u32) -> u64 {
        match self.calls_of(slot) {
            Some(calls) => calls.count.load(Ordering::SeqCst),
            None => 0,
        }
    }

    /// Shows the moment that it is, in milliseconds.
    pub fn show(&self, moment: u64) {
        self.moment.store(moment, Ordering::SeqCst);
    }

    /// The moment that was shown last, in milliseconds; 0 where none was.
    pub fn moment(&self) -> u64 {
        self.moment.load(Ordering::SeqCst)
    }

    /// Waits until the child of this slot was called more often than so, for a time at most.
    pub fn wait_for_call<R: Wait>(&self, rt: &R, slot: u32, count: u64, limit: Duration) {
        if let Some(calls) = self.calls_of(slot) {
            if calls.count.load(Ordering::SeqCst) == count {
                calls.count.park_timeout(rt, low_half(count), limit);
            }
        }
    }
}

// The low 32 bits.
fn low_half(word: u64) -> u32 {
    (word % 4_294_967_296) as u32
}
