//! The bytes that came in and weren't looked at yet, in room that was taken ahead.
ghost use Rattle.std.specs.Prelude.{◌≡◌, ◌+◌, ◌<◌, ◌≤◌, [], IfOk, drop, take, length};
ghost use Rattle.pm_session_exchange.specs.{Exchange.{seen, HoldsReading, Reads}, Room.buffer_bytes};

use pm_outside::{Got, Link};
use std::alloc::{AllocError, Global};
use std::marker::Model;

/// How many bytes a buffer of a session holds, the one for what comes in and the one for what is sent: a query of 65,536
/// bytes with what stands around it, or the longest message that is said, and some more.
pub const BUFFER_BYTES: usize = 66_048;

/// Contracts see it as the list of the bytes that weren't looked at.
#[derive(Drop)]
pub struct Inbox {
    bytes: Vec<u8>,
    start: usize,
    end: usize,
}

impl Model for Inbox {
    ghost use Rattle.std.specs.Prelude.{◌≡◌, ◌≤◌, ℕ, List, drop, take, length};
    ghost use Rattle.pm_session_exchange.specs.Room.{buffer_bytes};

    ghost Value = { List ℕ };

    ghost view = { λ inbox. drop inbox.start (take inbox.end inbox.bytes.items) };

    ghost invariant = { λ inbox. (inbox.start ≤ inbox.end) × (inbox.end ≤ length inbox.bytes.items)
        × (length inbox.bytes.items ≡ buffer_bytes) };
}

impl Inbox {
    /// No bytes, and room for [`BUFFER_BYTES`].
    pub fn new(alloc: Global) -> Result<Inbox, AllocError>
        ensures { IfOk result (λ inbox. inbox ≡ []) }
    {
        let mut bytes = Vec::new(alloc);
        bytes.resize(BUFFER_BYTES, 0)?;
        Ok(Inbox {
            bytes,
            start: 0,
            end: 0,
        })
    }

    /// The bytes that weren't looked at yet.
    pub fn unread(&self) -> &[u8]
        ensures { result.now ≡ self.now }
    {
        &self.bytes[self.start..self.end]
    }

    /// Passes over so many of them.
    pub fn pass(&mut self, count: usize)
        requires { count ≤ length self.old }
        ensures { self.new ≡ drop count self.old }
    {
        self.start += count;
    }

    /// Reads bytes that came in, after those that stand.
    pub fn read_from<L: Link>(&mut self, link: &mut L) -> Got
        requires { length self.old < buffer_bytes }
        ensures reads { Reads result self.old self.new
            (seen L.Link link.old)
            (seen L.Link link.new) }
        ensures holds { HoldsReading result
            (seen L.Link link.old)
            (seen L.Link link.new) }
    {
        let (start, end) = room_behind(&mut self.bytes, self.start, self.end);
        self.start = start;
        self.end = end;
        let got = link.read(&mut self.bytes[end..]);
        if let Got::Bytes(count) = got {
            self.end += count;
        }
        got
    }
}

// Where the bytes from `start` to `end` stand with room after them: they are moved to the front where there is none.
fn room_behind(bytes: &mut [u8], start: usize, end: usize) -> (usize, usize)
    requires order { start ≤ end }
    requires within { end ≤ length bytes.old }
    requires room { end < length bytes.old + start }
    ensures length { length bytes.new ≡ length bytes.old }
    ensures order { result.0 ≤ result.1 }
    ensures room { result.1 < length bytes.old }
    ensures kept { drop result.0 (take result.1 bytes.new) ≡ drop start (take end bytes.old) }
{
    if end < bytes.len() {
        return (start, end);
    }
    bytes.copy_within(start..end, 0);
    (0, end - start)
}
