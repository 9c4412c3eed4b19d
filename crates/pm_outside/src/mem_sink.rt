// A sink that keeps what is written.
ghost use Rattle.std.specs.Prelude.{◌<◌};

use crate::failing_calls::FailingCalls;
use crate::link::Put;
use crate::sink::Sink;
use std::alloc::Global;

/// Keeps the bytes that are written. A write takes at most a given number of bytes. It fails where its number is
/// listed, or where there is no memory to keep its bytes.
#[derive(Drop)]
pub struct MemSink {
    bytes: Vec<u8>,
    per_call: usize,
    writes: FailingCalls,
    ghost takes_some: { 0 < per_call },
}

impl MemSink {
    ghost use Rattle.std.specs.Prelude.{◌≡◌, []};
    ghost use Rattle.pm_outside.specs.{Calls.no_calls, MemSink.{sink_bytes, sink_limit, sink_calls}};

    /// An empty sink. A write takes at most `per_call` bytes, and the writes with these numbers, counted from 1, fail.
    pub fn new(alloc: Global, per_call: usize, failing: Vec<u64>) -> Self
        requires { 0 < per_call }
        ensures empty { sink_bytes result ≡ [] }
        ensures limit { sink_limit result ≡ per_call }
        ensures calls { sink_calls result ≡ no_calls failing.items }
    {
        MemSink {
            bytes: Vec::new(alloc),
            per_call,
            writes: FailingCalls::new(failing),
        }
    }

    /// All bytes written, in order.
    pub fn bytes(&self) -> &[u8]
        ensures { result.now ≡ sink_bytes self.now }
    {
        &self.bytes
    }
}

impl Sink for MemSink {
    ghost use Rattle.std.specs.Prelude.{◌≡◌, length, min, IsTrue, Some};
    ghost use Rattle.pm_disk.specs.Cause.{IsCounted};
    ghost use Rattle.pm_outside.specs.{Calls.is_next_listed, MemSink.{sink_bytes, sink_limit, sink_calls, TakesOrFails, CountsWrite}, Traffic.{IsPutDone, PutWithin, put_behind}};

    ghost written = { λ s. Some (sink_bytes s) };

    ghost faults = { λ s. (sink_calls s).failed };

    fn write(&mut self, from: &[u8]) -> Put
        requires { 0 < length from.now }
        ensures within { PutWithin result (length from.now) }
        ensures done { IsPutDone result }
        ensures written { sink_bytes self.new ≡ put_behind (sink_bytes self.old) result from.now }
        ensures cause { IsCounted (sink_calls self.old).failed (sink_calls self.new).failed
            (result ≡ Put.Failed) }

        ensures takes { TakesOrFails result (min (sink_limit self.old) (length from.now)) }
        ensures listed { IsTrue (is_next_listed (sink_calls self.old)) → result ≡ Put.Failed }
        ensures counts { CountsWrite self.old self.new result }
    {
        let count = self.per_call.min(from.len());
        let is_listed = self.writes.begin();
        if is_listed || self.bytes.extend_from_slice(&from[..count]).is_err() {
            self.writes.fail();
            return Put::Failed;
        }
        Put::Count(count)
    }

    fn faults(&self) -> u64 {
        self.writes.failed()
    }
}
