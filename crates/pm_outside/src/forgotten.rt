// A chronicle that keeps nothing.
use crate::chronicle::Chronicle;
use std::alloc::AllocError;

/// Takes entries of any kind, and neither keeps nor tells them. It takes no memory.
#[derive(Drop)]
pub struct Forgotten {
    room: usize,
}

impl Forgotten {
    ghost use Rattle.std.specs.Prelude.{◌≡◌};
    ghost use Rattle.pm_outside.specs.Kept.{forgotten_room};

    /// No room yet.
    pub fn new() -> Self
        ensures { forgotten_room result ≡ 0 }
    {
        Forgotten { room: 0 }
    }
}

impl<E: Drop> Chronicle<E> for Forgotten {
    ghost use Rattle.std.specs.Prelude.{◌≡◌, ◌+◌, ◌≤◌, max, IsOk, None};
    ghost use Rattle.pm_outside.specs.Kept.{forgotten_room};

    ghost entries = { λ _. None };

    ghost spare = { forgotten_room };

    fn reserve(&mut self, count: usize) -> Result<(), AllocError>
        ensures succeeds { IsOk result }
        ensures room { forgotten_room self.new ≡ max (forgotten_room self.old) count }
    {
        self.room = self.room.max(count);
        Ok(())
    }

    fn note(&mut self, _entry: E)
        requires { 1 ≤ forgotten_room self.old }
        ensures { forgotten_room self.new + 1 ≡ forgotten_room self.old }
    {
        self.room -= 1;
    }
}
