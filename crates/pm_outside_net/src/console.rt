// The console over standard input, which a thread of its own reads.
use crate::bells::Bells;
use crate::input::{ForegroundInput, read_lines};
use crate::mailbox::{Left, Mailbox};
use pm_outside::{Asked, Console};
use pm_outside_faults::Faults;
use std::alloc::Global;
use std::io::{self, ErrorKind, Stdin};
use std::sync::{Arc, Wait};
use std::thread::{self, Threads};
use std::time;
use thiserror::Error;

/// Standard input couldn't be read.
#[derive(Clone, Copy, Debug, Error)]
#[error("standard input: read: {reason}")]
pub struct ConsoleFault {
    pub reason: io::Error,
}

/// The console of a server.
#[derive(Drop)]
pub struct StandardConsole<R> {
    mailbox: Arc<Mailbox, Global>,
    faults: Faults<ConsoleFault>,
    rt: R,
}

impl<R: Wait + Drop> StandardConsole<R> {
    ghost use Rattle.std.specs.Prelude.{◌≡◌};
    ghost use Rattle.pm_outside_net.specs.Counts.{console_faults};

    /// A console over what a reader leaves.
    pub fn new(mailbox: Arc<Mailbox, Global>, rt: R) -> Self
        ensures { console_faults result ≡ 0 }
    {
        StandardConsole {
            mailbox,
            faults: Faults::new(),
            rt,
        }
    }
}

impl<R> StandardConsole<R> {
    ghost use Rattle.std.specs.Prelude.{◌≡◌, ◌↔◌, ◌<◌, IsSome};
    ghost use Rattle.pm_outside_net.specs.Counts.{console_faults, first_console_fault};

    /// What failed first.
    pub fn first_fault(&self) -> Option<ConsoleFault>
        ensures first { result ≡ first_console_fault self.now }
        ensures some { IsSome result ↔ (0 < console_faults self.now) }
    {
        self.faults.first()
    }
}

/// The console over standard input. The thread that reads it isn't joined: it may wait for a line for as long as the
/// program runs.
pub fn standard_console<R: Wait + Threads + time::Clock + Copy + Drop + Send + 'static>(
    rt: R,
    alloc: Global,
    stdin: Stdin,
    bells: Arc<Bells, Global>,
) -> io::Result<StandardConsole<R>> {
    let mailbox = Arc::new(alloc, Mailbox::new())?;
    let console = StandardConsole::new(Arc::try_clone(&mailbox)?, rt);
    let mut input = ForegroundInput { stdin, rt };
    let reader = move || read_lines(&rt, &mut input, &mailbox, &bells);
    match thread::spawn(&rt, reader) {
        Ok(_unjoined) => Ok(console),
        Err(_) => Err(io::Error::from(ErrorKind::OutOfMemory)),
    }
}

impl<R: Wait + Drop> Console for StandardConsole<R> {
    ghost use Rattle.std.specs.Prelude.{◌≡◌, None};
    ghost use Rattle.pm_outside.specs.{pm_disk.Cause.IsCounted, Lines.AskedWithin};
    ghost use Rattle.pm_outside_faults.specs.Faults.{StaysFirst};
    ghost use Rattle.pm_outside_net.specs.Counts.{console_faults, first_console_fault};

    // It doesn't tell its lines.
    ghost lines = { λ _. None };

    ghost faults = { console_faults };

    fn next(&mut self, into: &mut [u8; 64]) -> Asked
        ensures within { AskedWithin result }
        ensures cause { IsCounted (console_faults self.old) (console_faults self.new)
            (result ≡ Asked.Failed) }
        ensures first { StaysFirst (first_console_fault self.old) (first_console_fault self.new) }
    {
        match self.mailbox.take(&self.rt) {
            Left::Nothing => Asked::NotYet,
            Left::Line(line) => {
                let bytes = line.bytes;
                *into = bytes;
                Asked::Line(line.length)
            }
            Left::Fault(reason) => {
                self.faults.note(ConsoleFault { reason });
                Asked::Failed
            }
            Left::End => Asked::End,
        }
    }

    fn faults(&self) -> u64 {
        self.faults.count()
    }
}
