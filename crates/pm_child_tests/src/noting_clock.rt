// A clock by whose pauses the bytes of a link come.
use pm_outside::{Clock, MemClock, Scene};
use std::alloc::{AllocError, Global};
use std::sync::Wait;
use std::test::Fail;
use std::time;

/// Begins at 0, goes on by a millisecond with each pause, and notes each on its scene, as a line of the console.
#[derive(Drop)]
pub struct NotingClock<R> {
    clock: MemClock<R>,
    scene: Scene,
}

impl<R: Wait + time::Clock + Copy + Drop> NotingClock<R> {
    /// A clock that notes its pauses on this scene.
    pub fn new(alloc: Global, scene: Scene, rt: R) -> Result<Self, Fail> {
        Ok(NotingClock {
            clock: MemClock::new(alloc, 0, rt)?,
            scene,
        })
    }
}

impl<R: Wait + time::Clock + Copy + Drop> Clock for NotingClock<R> {
    ghost use Rattle.pm_outside.specs.MemClock.{IsMoment};

    type Runtime = R;

    ghost gives = { λ c. IsMoment c.clock };

    fn now(&self) -> u64 {
        self.clock.now()
    }

    fn pause(&self) {
        self.clock.pause();
        self.scene.note_line();
    }

    fn ring(&self) {}

    fn call(&self, _slot: u32) {}

    fn another(&self, slot: u32) -> Result<Self, AllocError> {
        Ok(NotingClock {
            clock: self.clock.another(slot)?,
            scene: self.scene.another()?,
        })
    }
}
