//! A log and a disk that others may wait for.

use pm_disk::{Disk, DiskFault, Which};
use pm_outside::{MemSink, Put, Scene, Sink};
use std::alloc::Global;

/// The number on the scene of the link as which the log is noted, and how many there are.
pub const LOG: u64 = 9;

/// The same of the reads of the disk.
pub const READS: u64 = 10;

/// The same of its writes.
pub const WRITES: u64 = 11;

/// A sink in memory, which notes on its scene how many bytes it has taken, as if they had been sent on a link.
#[derive(Drop)]
pub struct NotedSink {
    sink: MemSink,
    scene: Scene,
}

impl NotedSink {
    /// An empty sink. A write takes at most five bytes, and those with these numbers fail.
    pub fn new(alloc: Global, failing: Vec<u64>, scene: Scene) -> NotedSink {
        NotedSink {
            sink: MemSink::new(alloc, 5, failing),
            scene,
        }
    }

    /// All bytes written, in order.
    pub fn bytes(&self) -> &[u8] {
        self.sink.bytes()
    }
}

impl Sink for NotedSink {
    ghost use Rattle.std.specs.Prelude.{Some};
    ghost use Rattle.pm_outside.specs.MemSink.{sink_bytes, sink_calls};

    ghost written = { λ s. Some (sink_bytes s.sink) };

    ghost faults = { λ s. (sink_calls s.sink).failed };

    fn write(&mut self, from: &[u8]) -> Put {
        let put = self.sink.write(from);
        if let Put::Count(count) = put {
            self.scene.note_sent(LOG, count);
        }
        put
    }

    fn faults(&self) -> u64 {
        self.sink.faults()
    }
}

/// A disk over another one, whose calls are its own. It notes each read and each write on its scene, before it is made.
#[derive(Drop)]
pub struct NotedDisk<D> {
    pub disk: D,
    pub scene: Scene,
}

impl<D: Disk> Disk for NotedDisk<D> {
    ghost seen = { λ noted. D.seen noted.disk };

    ghost ticks = { λ noted. D.ticks noted.disk };

    ghost images = { λ noted. D.images noted.disk };

    ghost faults = { λ noted. D.faults noted.disk };

    ghost reads_as_left = { λ noted. D.reads_as_left noted.disk };

    ghost counted = { λ noted. D.counted noted.disk };

    fn len(&mut self, file: Which) -> Result<u64, DiskFault> {
        self.disk.len(file)
    }

    fn read(&mut self, file: Which, at: u64, into: &mut [u8]) -> Result<(), DiskFault> {
        self.scene.note_sent(READS, 1);
        self.disk.read(file, at, into)
    }

    fn write(&mut self, file: Which, at: u64, bytes: &[u8]) -> Result<(), DiskFault> {
        self.scene.note_sent(WRITES, 1);
        self.disk.write(file, at, bytes)
    }

    fn sync(&mut self, file: Which) -> Result<(), DiskFault> {
        self.disk.sync(file)
    }

    fn ticks(&self) -> u64 {
        self.disk.ticks()
    }

    fn faults(&self) -> u64 {
        self.disk.faults()
    }
}
