//! Readers and writers as links, a port and a sink.
ghost use Rattle.std.specs.{Prelude.{◌≡◌, ◌<◌, ◌≤◌, None, IfOk, length}, Option.ForSome};
ghost use Rattle.pm_outside_faults.specs.Faults.{first_of};

use pm_outside::{Accepted, Got, Link, Port, Put, Sink};
use pm_outside_faults::Faults;
use std::io::{self, ErrorKind, Read, Write};
use thiserror::Error;

/// A link over a reader and a writer, as standard input and standard output, or the two sides of a connection. A read waits for
/// bytes.
#[derive(Debug, Drop)]
pub struct StandardLink<R, W> {
    reader: R,
    writer: W,
    faults: u64,
}

impl<R: Read, W: Write> StandardLink<R, W> {
    /// The link over this reader and this writer.
    pub fn new(reader: R, writer: W) -> Self {
        StandardLink {
            reader,
            writer,
            faults: 0,
        }
    }
}

impl<R: Read, W: Write> Link for StandardLink<R, W> {
    // It doesn't tell what passes.
    ghost traffic = { λ _. None };

    ghost number = { λ _. 1 };

    ghost faults = { λ link. link.faults };

    // No write answers that nothing was taken yet.
    ghost patience = { λ _. 0 };

    fn read(&mut self, into: &mut [u8]) -> Got {
        match self.reader.read(into) {
            Ok(0) => Got::End,
            Ok(count) => Got::Bytes(count),
            Err(_) => {
                self.faults = self.faults.saturating_add(1);
                Got::Failed
            }
        }
    }

    fn write(&mut self, from: &[u8]) -> Put {
        match written(&mut self.writer, from) {
            Ok(count) => Put::Count(count),
            Err(_) => {
                self.faults = self.faults.saturating_add(1);
                Put::Failed
            }
        }
    }

    // A write waits for its writer alone.
    fn hurry(&mut self) {}

    fn faults(&self) -> u64 {
        self.faults
    }
}

/// A port that gives one link, and then the end.
#[derive(Debug, Drop)]
pub struct StandardPort<R, W> {
    waiting: Option<StandardLink<R, W>>,
}

impl<R: Read, W: Write> StandardPort<R, W> {
    /// The port whose link is over this reader and this writer.
    pub fn new(reader: R, writer: W) -> Self {
        StandardPort {
            waiting: Some(StandardLink::new(reader, writer)),
        }
    }
}

impl<R: Read + Drop, W: Write + Drop> Port for StandardPort<R, W> {
    type Link = StandardLink<R, W>;

    // It doesn't tell its links.
    ghost visits = { λ _. None };

    ghost faults = { λ _. 0 };

    ghost balanced = { λ _. tt };

    fn accept(&mut self, _slot: u32) -> Accepted<StandardLink<R, W>> {
        match self.waiting.take() {
            Some(link) => Accepted::Link(link),
            None => Accepted::End,
        }
    }

    fn done(&mut self, _link: StandardLink<R, W>) {}

    fn faults(&self) -> u64 {
        0
    }
}

/// A write of a sink failed, over this stream, with the system's reason.
#[derive(Clone, Copy, Debug, Error)]
#[error("{stream}: write: {reason}")]
pub struct SinkFault {
    pub stream: &'static str,
    pub reason: io::Error,
}

/// A sink over a writer, as standard error or standard output.
#[derive(Debug, Drop)]
pub struct StandardSink<W> {
    writer: W,
    stream: &'static str,
    faults: Faults<SinkFault>,
    ghost named: { ForSome (first_of faults) (λ fault. fault.stream.now ≡ stream.now) },
}

impl<W: Write> StandardSink<W> {
    ghost use Rattle.std.specs.Prelude.{◌↔◌, IfSome, IsSome};
    ghost use Rattle.pm_outside_streams.specs.Faults.{first_sink_fault, sink_faults, stream_name};

    /// The sink over this writer, of this name.
    pub fn new(writer: W, stream: &'static str) -> Self
        ensures name { stream_name result ≡ stream.now }
        ensures faults { sink_faults result ≡ 0 }
    {
        StandardSink {
            writer,
            stream,
            faults: Faults::new(),
        }
    }

    /// What failed first.
    pub fn first_fault(&self) -> Option<SinkFault>
        ensures first { result ≡ first_sink_fault self.now }
        ensures some { IsSome result ↔ (0 < sink_faults self.now) }
        ensures named { IfSome result (λ fault. fault.stream.now ≡ stream_name self.now) }
    {
        self.faults.first()
    }
}

impl<W: Write> Sink for StandardSink<W> {
    ghost use Rattle.pm_outside.specs.{pm_disk.Cause.IsCounted, Traffic.{IsPutDone, PutWithin}};
    ghost use Rattle.pm_outside_faults.specs.Faults.{StaysFirst};
    ghost use Rattle.pm_outside_streams.specs.Faults.{first_sink_fault, sink_faults, stream_name};

    // It doesn't tell what was written.
    ghost written = { λ _. None };

    ghost faults = { sink_faults };

    fn write(&mut self, from: &[u8]) -> Put
        requires { 0 < length from.now }
        ensures within { PutWithin result (length from.now) }
        ensures done { IsPutDone result }
        ensures cause { IsCounted (sink_faults self.old) (sink_faults self.new)
            (result ≡ Put.Failed) }
        ensures first { StaysFirst (first_sink_fault self.old) (first_sink_fault self.new) }
        ensures name { stream_name self.new ≡ stream_name self.old }
    {
        match written(&mut self.writer, from) {
            Ok(count) => Put::Count(count),
            Err(reason) => {
                let stream = self.stream;
                self.faults.note(SinkFault { stream, reason });
                Put::Failed
            }
        }
    }

    fn faults(&self) -> u64 {
        self.faults.count()
    }
}

// Writes from the front of the slice. A writer that takes nothing has failed.
fn written<W: Write>(writer: &mut W, from: &[u8]) -> io::Result<usize>
    requires { 0 < length from.now }
    ensures some { IfOk result (λ count. 0 < count) }
    ensures within { IfOk result (λ count. count ≤ length from.now) }
{
    match writer.write(from) {
        Ok(0) => Err(io::Error::from(ErrorKind::WriteZero)),
        done => done,
    }
}
