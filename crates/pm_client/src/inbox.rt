//! The bytes that came in and weren't looked at yet.
ghost use Rattle.std.specs.Prelude.{◌≡◌, ◌<◌, ◌≤◌, [], IfOk, OnErr, drop, length, take};
ghost use Rattle.pm_client.specs.{Hearing.Reads, Sides.link_view};

use crate::played::Played;
use pm_outside::{Got, Link};
use std::alloc::{AllocError, Global};
use std::marker::Model;

/// How many bytes can wait at first. Where more are wanted, the room doubles.
const FIRST_ROOM: usize = 8_192;

/// Contracts see it as the list of the bytes that weren't looked at.
#[derive(Debug, Drop)]
pub(crate) struct Inbox {
    bytes: Vec<u8>,
    start: usize,
    end: usize,
}

impl Model for Inbox {
    ghost use Rattle.std.specs.Prelude.{◌≤◌, ℕ, List, drop, take, length};

    ghost Value = { List ℕ };

    ghost view = { λ inbox. drop inbox.start (take inbox.end inbox.bytes.items) };

    ghost invariant = { λ inbox. (inbox.start ≤ inbox.end) × (inbox.end ≤ length inbox.bytes.items) };
}

impl Inbox {
    /// No bytes, and no room yet.
    pub(crate) fn new(alloc: Global) -> Inbox
        ensures { result ≡ [] }
    {
        Inbox {
            bytes: Vec::new(alloc),
            start: 0,
            end: 0,
        }
    }

    /// The bytes that weren't looked at yet.
    pub(crate) fn unread(&self) -> &[u8]
        ensures { result.now ≡ self.now }
    {
        &self.bytes[self.start..self.end]
    }

    /// Passes over so many of them.
    pub(crate) fn pass(&mut self, count: usize)
        requires { count ≤ length self.old }
        ensures { self.new ≡ drop count self.old }
    {
        self.start += count;
    }

    /// Reads bytes that came in, after those that stand. It tells whether there were any yet.
    pub(crate) fn read_from<L: Link>(&mut self, link: &mut L) -> Result<bool, Played>
        ensures { Reads result self.old self.new (link_view (L.traffic link.old) (L.faults link.old))
            (link_view (L.traffic link.new) (L.faults link.new)) }
    {
        let (start, end) = room_behind(&mut self.bytes, self.start, self.end)?;
        self.start = start;
        self.end = end;
        match link.read(&mut self.bytes[end..]) {
            Got::Bytes(count) => {
                self.end += count;
                Ok(true)
            }
            Got::NotYet => Ok(false),
            Got::End => Err(Played::Done { link_ended: true }),
            Got::Failed => Err(Played::LinkFault),
        }
    }
}

// Where the bytes from `start` to `end` stand with room after them. Where there is none they are moved to the front, or there
// is twice as much. Where memory runs out, nothing is changed.
fn room_behind(bytes: &mut Vec<u8>, start: usize, end: usize) -> Result<(usize, usize), AllocError>
    requires order { start ≤ end }
    requires within { end ≤ length bytes.old.items }
    ensures order { IfOk result (λ r. r.0 ≤ r.1) }
    ensures room { IfOk result (λ r. r.1 < length bytes.new.items) }
    ensures kept { IfOk result (λ r. drop r.0 (take r.1 bytes.new.items) ≡ drop start
        (take end bytes.old.items)) }
    ensures err { OnErr result (bytes.new.items ≡ bytes.old.items) }
{
    let length = bytes.len();
    if end < length {
        return Ok((start, end));
    }
    if start > length / 2 {
        bytes.copy_within(start..end, 0);
        return Ok((0, end - start));
    }
    bytes.resize(length.saturating_mul(2).max(FIRST_ROOM), 0)?;
    Ok((start, end))
}
