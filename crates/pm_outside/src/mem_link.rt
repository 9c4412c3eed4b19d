// A link whose incoming bytes are given beforehand, and which keeps what is sent.
ghost use Rattle.std.specs.Prelude.{◌≤◌, ◌<◌, length};

use crate::failing_calls::FailingCalls;
use crate::holds::Holds;
use crate::link::{Got, Link, Put};
use crate::link_script::LinkScript;
use crate::mem_sink::MemSink;
use crate::scene::Scene;
use crate::sink::Sink;
use std::alloc::Global;

/// Goes by a script: gives its bytes in order and then the end, and keeps what is sent, which it notes on its scene. At
/// a hold whose cue hasn't come it answers that nothing stands there yet, 10,000 times at most in all, and then gives
/// the end in place of the bytes that are left.
#[derive(Drop)]
pub struct MemLink {
    number: u64,
    incoming: Vec<u8>,
    taken: usize,
    per_call: usize,
    ended: bool,
    waits: bool,
    failed: bool,
    went_on: bool,
    holds: Holds,
    reads: FailingCalls,
    outgoing: MemSink,
    ghost in_range: { taken ≤ length incoming.items },
    ghost gives_some: { 0 < per_call },
}

impl MemLink {
    ghost use Rattle.std.specs.Prelude.{◌≡◌};
    ghost use Rattle.pm_outside.specs.{MemLink.{Begins, link_number, link_sink, link_traffic}, MemSink.sink_bytes, Traffic.goes_on_reading};

    /// The link of this number and this script, on which nothing has passed yet. Without a scene no cue comes.
    pub fn new(alloc: Global, number: u64, script: LinkScript, scene: Option<Scene>) -> Self
        ensures number { link_number result ≡ number }
        ensures begins { Begins script result }
    {
        MemLink {
            number,
            incoming: script.incoming,
            taken: 0,
            per_call: script.per_call,
            ended: false,
            waits: false,
            failed: false,
            went_on: false,
            holds: Holds::new(script.holds, scene),
            reads: FailingCalls::new(script.failing_reads),
            outgoing: MemSink::new(alloc, script.per_call, script.failing_writes),
        }
    }

    /// Which of its port's links it is.
    pub fn number(&self) -> u64
        ensures { result ≡ link_number self.now }
    {
        self.number
    }

    // Whether a read would be made after a failed call or after the end.
    fn goes_on(&self) -> bool
        ensures { result ≡ goes_on_reading (link_traffic self.now) }
    {
        self.went_on || self.failed || self.ended
    }

    /// All bytes that went out, in order.
    pub fn sent(&self) -> &[u8]
        ensures { result.now ≡ sink_bytes (link_sink self.now) }
    {
        self.outgoing.bytes()
    }
}

impl Link for MemLink {
    ghost use Rattle.std.specs.Prelude.{◌≡◌, ◌≢◌, ◌↔◌, ◌+◌, ◌-◌, ◌^◌, ◌++◌, length, take, drop, min, IsTrue, Some};
    ghost use Rattle.pm_disk.specs.Cause.{IsCounted};
    ghost use Rattle.pm_outside.specs.{Calls.is_next_listed, MemLink.{bytes_left, link_traffic, link_sink, link_number, link_faults, got_count, read_calls, AnswersBy, CountsRead, ChangesSinkOnly}, MemSink.{sink_bytes, sink_limit, sink_calls, TakesOrFails, CountsWrite}, Traffic.{PutWithin, GotWithin, after_read, after_write, asks_again}};

    ghost traffic = { λ l. Some (link_traffic l) };

    ghost number = { link_number };

    ghost faults = { link_faults };

    // No write answers that nothing was taken yet.
    ghost patience = { λ _. 0 };

    fn read(&mut self, into: &mut [u8]) -> Got
        requires { 0 < length into.old }
        ensures within { GotWithin result (length into.old) }
        ensures traffic { link_traffic self.new ≡ after_read (link_traffic self.old) result
            into.new }
        ensures number { link_number self.new ≡ link_number self.old }
        ensures cause { IsCounted (link_faults self.old) (link_faults self.new)
            (result ≡ Got.Failed) }

        ensures listed { (result ≡ Got.Failed) ↔ IsTrue (is_next_listed (read_calls self.old)) }
        ensures answer { AnswersBy self.old self.new (length into.old) result }
        ensures next_bytes { result ≢ Got.End → bytes_left self.old ≡ take (got_count result)
            into.new ++ bytes_left self.new }
        ensures rest_of_slice { drop (got_count result) into.new ≡ drop (got_count result)
            into.old }
        ensures counts { CountsRead self.old self.new result }
    {
        self.waits = false;
        self.went_on = self.goes_on();
        if self.reads.begin() {
            self.reads.fail();
            self.failed = true;
            return Got::Failed;
        }
        let place = self.holds.next(self.incoming.len());
        let left = &self.incoming[self.taken..];
        let count = place
            .saturating_sub(self.taken)
            .min(into.len())
            .min(self.per_call);
        if count == 0 {
            if self.holds.waits() {
                self.waits = true;
                return Got::NotYet;
            }
            self.incoming.truncate(self.taken); // a hold that was asked too often lets nothing pass any more
            self.ended = true;
            return Got::End;
        }
        into[..count].copy_from_slice(&left[..count]);
        self.taken += count;
        Got::Bytes(count)
    }

    fn write(&mut self, from: &[u8]) -> Put
        requires { 0 < length from.now }
        ensures within { PutWithin result (length from.now) }
        ensures traffic { link_traffic self.new ≡ after_write (link_traffic self.old) result
            from.now }
        ensures number { link_number self.new ≡ link_number self.old }
        ensures cause { IsCounted (link_faults self.old) (link_faults self.new)
            (result ≡ Put.Failed) }
        ensures patience { asks_again result ≡ 0 }

        ensures takes { TakesOrFails result (min (sink_limit (link_sink self.old))
            (length from.now)) }
        ensures listed { IsTrue (is_next_listed (sink_calls (link_sink self.old)))
            → result ≡ Put.Failed }
        ensures counts { CountsWrite (link_sink self.old) (link_sink self.new) result }
        ensures reads_stay { ChangesSinkOnly self.old self.new }
    {
        self.went_on = self.went_on || self.failed;
        let put = self.outgoing.write(from);
        self.failed = put == Put::Failed || self.failed;
        if let (Put::Count(count), Some(scene)) = (put, self.holds.scene()) {
            scene.note_sent(self.number, count);
        }
        put
    }

    // No write waits.
    fn hurry(&mut self) {}

    fn faults(&self) -> u64 {
        self.reads.failed().saturating_add(self.outgoing.faults())
    }
}
