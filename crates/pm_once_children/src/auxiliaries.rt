//! The children that serve no connection, and what they have to do.

ghost use Rattle.std.specs.Prelude.{◌≡◌, true, None};
ghost use Rattle.pm_once_children.specs.Auxiliaries.{IsDue, IsNextDuty, nobody, with_started};

use pm_exit::Kind;

/// The pids of the children that are there, and what they were told.
#[derive(Clone, Copy, Debug, PartialEq, Eq)]
pub struct Auxiliaries {
    pub startup: Option<u32>,
    pub checkpointer: Option<u32>,
    pub writer: Option<u32>,
    /// All are told to end at once.
    pub is_quit: bool,
    /// The writer is told to end.
    pub is_terminated: bool,
    /// The checkpointer is told to write the last checkpoint.
    pub is_asked: bool,
}

/// What a child has to do next.
#[derive(Clone, Copy, Debug, PartialEq, Eq)]
pub enum Duty {
    /// The startup child reads the log.
    Redo { pid: u32 },
    /// The checkpointer writes the last checkpoint.
    Checkpoint { pid: u32 },
    /// The checkpointer or the writer ends at once.
    Quit { pid: u32, kind: Kind },
    /// The writer ends.
    Terminate { pid: u32 },
}

impl Auxiliaries {
    /// Nobody is there.
    pub fn none() -> Auxiliaries
        ensures { result ≡ nobody }
    {
        Auxiliaries {
            startup: None,
            checkpointer: None,
            writer: None,
            is_quit: false,
            is_terminated: false,
            is_asked: false,
        }
    }

    /// A child was started. A startup child begins a generation, in which nobody was told anything.
    pub fn start(&mut self, pid: u32, kind: Kind)
        ensures { self.new ≡ with_started pid kind self.old }
    {
        match kind {
            Kind::Startup => {
                *self = Auxiliaries::none();
                self.startup = Some(pid);
            }
            Kind::Checkpointer => self.checkpointer = Some(pid),
            Kind::Writer => self.writer = Some(pid),
            Kind::Worker | Kind::Backend | Kind::DeadEnd => {}
        }
    }

    /// Takes off the next child that has something to do, if there is one.
    pub fn next(&mut self) -> Option<Duty>
        ensures taken { IsNextDuty result self.old self.new }
        ensures due { IsDue result self.old }
    {
        if let Some(pid) = self.startup.take() {
            return Some(Duty::Redo { pid });
        }
        if self.is_quit {
            return self.next_to_quit();
        }
        if self.is_terminated
            && let Some(pid) = self.writer.take()
        {
            return Some(Duty::Terminate { pid });
        }
        if self.is_asked
            && let Some(pid) = self.checkpointer.take()
        {
            return Some(Duty::Checkpoint { pid });
        }
        None
    }

    // Takes off the next child that is told to end at once.
    fn next_to_quit(&mut self) -> Option<Duty>
        requires read { self.old.startup ≡ None }
        requires quit { self.old.is_quit ≡ true }
        ensures taken { IsNextDuty result self.old self.new }
        ensures due { IsDue result self.old }
    {
        if let Some(pid) = self.checkpointer.take() {
            return Some(Duty::Quit {
                pid,
                kind: Kind::Checkpointer,
            });
        }
        let pid = self.writer.take()?;
        Some(Duty::Quit {
            pid,
            kind: Kind::Writer,
        })
    }
}
