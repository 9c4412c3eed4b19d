// The reader of the operator's lines.
use crate::bells::Bells;
use crate::mailbox::{Left, Line, Mailbox};
use libc::net as c;
use libc::types::pollfd;
use std::io::{self, ErrorKind, Read, Stdin};
use std::sync::Wait;
use std::thread;
use std::time::{self, Duration};

/// How long a server in the background waits before it looks again whether it may read from its terminal, in milliseconds.
const BACKGROUND_MS: u64 = 500;

/// Reads lines to the end of the input, and leaves each in the mailbox, cut at 64 bytes. What comes after the last line
/// feed is no line, since it may be the front of another one.
pub fn read_lines<R: Wait, I: Read>(rt: &R, input: &mut I, mailbox: &Mailbox, bells: &Bells) {
    let mut line = Line::empty();
    let mut chunk = [0; 256];
    for _ in rt.forever() {
        match input.read(&mut chunk) {
            Ok(0) => break,
            Ok(count) => line = leave_lines(rt, line, &chunk[..count], mailbox, bells),
            Err(reason) => {
                if reason.kind() != ErrorKind::Interrupted {
                    leave(rt, Left::Fault(reason), mailbox, bells);
                    break;
                }
            }
        }
    }
    leave(rt, Left::End, mailbox, bells);
}

// Leaves each line that ends in these bytes. The first of them began with `line`. Answers what comes after the last.
fn leave_lines<R: Wait>(
    rt: &R,
    line: Line,
    bytes: &[u8],
    mailbox: &Mailbox,
    bells: &Bells,
) -> Line {
    let mut line = line;
    for byte in bytes {
        if *byte == b'\n' {
            leave(rt, Left::Line(line), mailbox, bells);
            line = Line::empty();
        } else {
            line = line.with(*byte);
        }
    }
    line
}

// Leaves this, and rings at the door.
fn leave<R: Wait>(rt: &R, what: Left, mailbox: &Mailbox, bells: &Bells) {
    mailbox.put(rt, what);
    bells.door.ring();
}

/// Standard input, which isn't read while it is a terminal and the server is in the background: the system would stop it.
#[derive(Drop)]
pub struct ForegroundInput<R> {
    pub(crate) stdin: Stdin,
    pub(crate) rt: R,
}

impl<R: time::Clock> Read for ForegroundInput<R> {
    fn read(&mut self, buf: &mut [u8]) -> io::Result<usize> {
        for _ in 0..u64::MAX {
            let mut asked = [pollfd {
                fd: libc::STDIN_FILENO,
                events: c::POLLIN,
                revents: 0,
            }];
            c::poll(&mut asked, -1);
            if may_read() {
                break;
            }
            thread::sleep(&self.rt, Duration::from_millis(BACKGROUND_MS));
        }
        self.stdin.read(buf)
    }
}

// Whether standard input is no terminal, or the server is in front of it.
fn may_read() -> bool {
    let stdin = libc::STDIN_FILENO;
    libc::isatty(stdin) != 1 || libc::tcgetpgrp(stdin) == libc::getpgrp()
}
