// Lines on their way from who reads them to the console.
ghost use Rattle.std.specs.Prelude.{◌≤◌};

use std::io;
use std::sync::{Condvar, Mutex, Wait};

/// A line without its line feed, cut at 64 bytes.
#[derive(Clone, Copy)]
pub(crate) struct Line {
    pub(crate) bytes: [u8; 64],
    pub(crate) length: usize,
    ghost fits: { length ≤ 64 },
}

impl Line {
    ghost use Rattle.std.specs.Prelude.{◌≡◌, ◌∷◌, ◌++◌, [], take};
    ghost use Rattle.pm_outside_net.specs.Lines.{line_bytes};

    pub(crate) fn empty() -> Line
        ensures { line_bytes result ≡ [] }
    {
        Line {
            bytes: [0; 64],
            length: 0,
        }
    }

    /// The line with a byte after it, where it has room.
    #[tactic(auto, using(crate::proofs::Bytes::full_line, crate::proofs::Bytes::longer_line))]
    pub(crate) fn with(self, byte: u8) -> Line
        ensures { line_bytes result ≡ take 64 (line_bytes self ++ byte ∷ []) }
    {
        if self.length == 64 {
            return self;
        }
        let mut line = self;
        line.bytes[line.length] = byte;
        line.length += 1;
        line
    }
}

/// What the reader left for the console.
#[derive(Clone, Copy)]
pub(crate) enum Left {
    Nothing,
    Line(Line),
    Fault(io::Error),
    End,
}

/// Where the reader leaves one line at a time.
#[derive(Drop)]
pub struct Mailbox {
    left: Mutex<Left>,
    taken: Condvar,
}

impl Mailbox {
    /// Nothing was left yet.
    pub fn new() -> Mailbox {
        Mailbox {
            left: Mutex::new(Left::Nothing),
            taken: Condvar::new(),
        }
    }

    /// Leaves this. Waits until what was left before was taken.
    pub(crate) fn put<R: Wait>(&self, rt: &R, what: Left) {
        let left = self.left.lock(rt);
        let mut left = self
            .taken
            .wait_while(rt, left, |left| !matches!(left, Left::Nothing));
        *left = what;
    }

    /// What was left. The end stays.
    pub(crate) fn take<R: Wait>(&self, rt: &R) -> Left {
        let mut left = self.left.lock(rt);
        let found = *left;
        if !matches!(found, Left::End) {
            *left = Left::Nothing;
            self.taken.notify_one();
        }
        found
    }
}
