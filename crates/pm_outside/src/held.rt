// A disk that waits for what others see.
ghost use Rattle.std.specs.Prelude.{◌≡◌};

use crate::holds::MOST_ASKS;
use crate::scene::{Cue, Scene};
use pm_disk::{Disk, DiskFault, Which};
use std::thread;
use std::time::{self, Duration};

/// Which call of a disk is withheld.
#[derive(Clone, Copy, Debug, PartialEq, Eq)]
pub enum Withheld {
    FirstRead,
    FirstWrite,
}

/// A disk over another one, whose calls are its own. The first read, or the first write, isn't made before a cue has
/// come, or before it was asked for 10,000 times, each a tenth of a millisecond after the other.
#[derive(Drop)]
pub struct Held<D, R> {
    disk: D,
    waits: Option<Withheld>,
    cue: Cue,
    scene: Scene,
    rt: R,
}

impl<D, R: time::Clock + Drop> Held<D, R> {
    ghost use Rattle.pm_outside.specs.Held.{held_disk};

    /// Withholds that call until the scene has seen this.
    pub fn new(disk: D, withheld: Withheld, cue: Cue, scene: Scene, rt: R) -> Self
        ensures { held_disk result ≡ disk }
    {
        Held {
            disk,
            waits: Some(withheld),
            cue,
            scene,
            rt,
        }
    }

    /// The disk within.
    pub fn inner(&self) -> &D
        ensures { result.now ≡ held_disk self.now }
    {
        &self.disk
    }

    /// The disk within, as it stands.
    pub fn into_inner(self) -> D
        ensures { result ≡ held_disk self }
    {
        let Held {
            disk,
            waits: _,
            cue: _,
            scene: _,
            rt: _,
        } = self;
        disk
    }

    // Waits for the cue where this call is the one that is withheld.
    fn wait_before(&mut self, call: Withheld)
        ensures { held_disk self.new ≡ held_disk self.old }
    {
        if self.waits != Some(call) {
            return;
        }
        self.waits = None;
        for _ in 0..MOST_ASKS {
            if self.scene.has_come(self.cue) {
                return;
            }
            thread::sleep(&self.rt, Duration::from_micros(100));
        }
    }
}

impl<D: Disk, R: time::Clock + Drop> Disk for Held<D, R> {
    ghost use Rattle.pm_outside.specs.Held.{held_disk};

    ghost seen = { λ held. D.seen (held_disk held) };

    ghost ticks = { λ held. D.ticks (held_disk held) };

    ghost images = { λ held. D.images (held_disk held) };

    ghost faults = { λ held. D.faults (held_disk held) };

    ghost reads_as_left = { λ held. D.reads_as_left (held_disk held) };

    ghost counted = { λ held. D.counted (held_disk held) };

    fn len(&mut self, file: Which) -> Result<u64, DiskFault> {
        self.disk.len(file)
    }

    fn read(&mut self, file: Which, at: u64, into: &mut [u8]) -> Result<(), DiskFault> {
        self.wait_before(Withheld::FirstRead);
        self.disk.read(file, at, into)
    }

    fn write(&mut self, file: Which, at: u64, bytes: &[u8]) -> Result<(), DiskFault> {
        self.wait_before(Withheld::FirstWrite);
        self.disk.write(file, at, bytes)
    }

    fn sync(&mut self, file: Which) -> Result<(), DiskFault> {
        self.disk.sync(file)
    }

    fn ticks(&self) -> u64 {
        self.disk.ticks()
    }

    fn faults(&self) -> u64 {
        self.disk.faults()
    }
}
