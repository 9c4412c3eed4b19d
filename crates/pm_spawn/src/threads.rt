// The system's threads.
use crate::spawner::Spawner;
use std::sync::Wait;
use std::thread;

/// As many threads as the system makes.
#[derive(Drop)]
pub struct Threads<R> {
    rt: R,
    refused: u64,
}

impl<R> Threads<R> {
    ghost use Rattle.std.specs.Prelude.{◌≡◌};
    ghost use Rattle.pm_spawn.specs.Works.{refused_threads};

    /// None was refused yet.
    pub fn new(rt: R) -> Threads<R>
        ensures { refused_threads result ≡ 0 }
    {
        Threads { rt, refused: 0 }
    }
}

impl<R: thread::Threads + Wait + Copy> Spawner for Threads<R> {
    type Runtime = R;

    ghost use Rattle.std.specs.Prelude.{IsNone, IsSome};
    ghost use Rattle.pm_disk.specs.Cause.{IsCounted};
    ghost use Rattle.pm_spawn.specs.Works.{refused_threads};

    ghost faults = { refused_threads };

    fn leave(&mut self) -> Option<R>
        ensures cause { IsCounted (refused_threads self.old) (refused_threads self.new) (IsNone result) }
        ensures given { IsSome result }
    {
        Some(self.rt)
    }

    fn count(&mut self) {
        self.refused = self.refused.saturating_add(1);
    }

    fn faults(&self) -> u64 {
        self.refused
    }
}

/// The system's threads up to a number of them. Each after these is refused.
#[derive(Drop)]
pub struct FewThreads<R> {
    rt: R,
    left: u64,
    refused: u64,
}

impl<R> FewThreads<R> {
    ghost use Rattle.std.specs.Prelude.{◌≡◌};
    ghost use Rattle.pm_spawn.specs.Works.{threads_left, few_refused};

    /// So many threads may be started, and none was refused yet.
    pub fn new(rt: R, most: u64) -> FewThreads<R>
        ensures left { threads_left result ≡ most }
        ensures refused { few_refused result ≡ 0 }
    {
        FewThreads {
            rt,
            left: most,
            refused: 0,
        }
    }
}

impl<R: thread::Threads + Wait + Copy> Spawner for FewThreads<R> {
    type Runtime = R;

    ghost use Rattle.std.specs.Prelude.{◌≡◌, ◌-◌, ◌↔◌, IsNone};
    ghost use Rattle.pm_disk.specs.Cause.{IsCounted};
    ghost use Rattle.pm_spawn.specs.Works.{threads_left, few_refused};

    ghost faults = { few_refused };

    fn leave(&mut self) -> Option<R>
        ensures cause { IsCounted (few_refused self.old) (few_refused self.new) (IsNone result) }
        ensures refused { IsNone result ↔ (threads_left self.old ≡ 0) }
        ensures left { threads_left self.new ≡ threads_left self.old - 1 }
    {
        if self.left == 0 {
            self.count();
            return None;
        }
        self.left -= 1;
        Some(self.rt)
    }

    fn count(&mut self)
        ensures counted { IsCounted (few_refused self.old) (few_refused self.new) (Unit {0}) }
        ensures left { threads_left self.new ≡ threads_left self.old }
    {
        self.refused = self.refused.saturating_add(1);
    }

    fn faults(&self) -> u64 {
        self.refused
    }
}
