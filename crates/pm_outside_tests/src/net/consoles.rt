// Which lines a console gives, by what its reader reads.
use crate::net::world::{open, since_ms, wait_ms};
use pm_outside::{Asked, Clock, Console};
use pm_outside_net::{Bells, Mailbox, StandardConsole, read_lines};
use std::alloc::{AllocError, Global};
use std::fs::File;
use std::io::Read;
use std::sync::{Arc, Wait};
use std::test::Fail;
use std::thread::{self, Threads};
use std::time::{self, Instant};

// What a console gives to its end: each line with a line feed, `!` for a failure, and `.` for the end. After it what failed
// first.
fn heard<R: Wait + time::Clock + Copy + Drop>(
    rt: &R,
    alloc: Global,
    mailbox: Arc<Mailbox, Global>,
) -> Result<Vec<u8>, AllocError> {
    let mut all = Vec::new(alloc);
    let mut console = StandardConsole::new(mailbox, *rt);
    let mut line = [0; 64];
    for _ in 0..10_000 {
        match console.next(&mut line) {
            Asked::Line(count) => {
                all.extend_from_slice(&line[..count])?;
                all.push(b'\n')?;
            }
            Asked::NotYet => wait_ms(rt, 1),
            Asked::Failed => all.push(b'!')?,
            Asked::End => {
                all.push(b'.')?;
                break;
            }
        }
    }
    if let Some(fault) = console.first_fault() {
        all.extend_from_slice(format!(in alloc; "{fault}")?.as_bytes())?;
    }
    Ok(all)
}

// What a console gives whose reader reads this.
fn console_over<R: Wait + Threads + time::Clock + Copy + Drop + Sync, I: Read + Send>(
    rt: &R,
    alloc: Global,
    input: &mut I,
) -> Result<Vec<u8>, Fail> {
    let bells = Bells::new(alloc, 0)?;
    let mailbox = Arc::new(alloc, Mailbox::new())?;
    let theirs = Arc::try_clone(&mailbox)?;
    let (_, all) = thread::join(
        rt,
        || read_lines(rt, input, &mailbox, &bells),
        || heard(rt, alloc, theirs),
    );
    Ok(all?)
}

/// What is read and what is given: bytes, each so many times.
const TEXTS: [(&[(&[u8], usize)], &[(&[u8], usize)]); 2] = [
    (
        &[(b"smart\n\n", 1), (b"x", 65), (b"\nkill 12", 1)],
        &[(b"smart\n\n", 1), (b"x", 64), (b"\n.", 1)],
    ),
    (
        &[(b"x", 1_000_000), (b"\n", 100), (b"fast\n", 1)],
        &[(b"x", 64), (b"\n", 100), (b"fast\n.", 1)],
    ),
];

fn joined(alloc: Global, parts: &[(&[u8], usize)]) -> Result<Vec<u8>, AllocError> {
    let mut all = Vec::new(alloc);
    for (bytes, times) in parts {
        for _ in 0..*times {
            all.extend_from_slice(bytes)?;
        }
    }
    Ok(all)
}

#[test]
fn lines_are_cut_and_long_ones_passed_and_a_piece_is_none(rt: HostRuntime) -> Result<(), Fail> {
    let alloc = rt.alloc();
    for (read, given) in TEXTS {
        let text = joined(alloc, read)?;
        let all = console_over(&rt, alloc, &mut text.as_slice())?;
        assert_eq!(rt; all, joined(alloc, given)?);
    }
    Ok(())
}

#[test]
fn an_empty_input_ends_and_a_folder_fails_once(rt: HostRuntime) -> Result<(), Fail> {
    let alloc = rt.alloc();
    for (path, want) in [
        ("/dev/null", "."),
        ("/", "!.standard input: read: Is a directory (os error 21)"),
    ] {
        let mut file = File::open(&rt, path)?;
        let all = console_over(&rt, alloc, &mut file)?;
        assert_eq!(rt; all.as_slice(), want.as_bytes(), "{path}");
    }
    Ok(())
}

#[test]
fn a_line_ends_a_pause_of_the_supervisor(rt: HostRuntime) -> Result<(), Fail> {
    let alloc = rt.alloc();
    let world = open(rt, alloc)?;
    let (bells, clock) = (&world.bells, &world.clock);
    let mailbox = Arc::new(alloc, Mailbox::new())?;
    let theirs = Arc::try_clone(&mailbox)?;
    let mut text = b"fast\n".as_slice();
    clock.pause();
    let start = Instant::now(&rt)?;
    let (_, all) = thread::join(
        &rt,
        || read_lines(&rt, &mut text, &mailbox, bells),
        || {
            clock.pause();
            let passed = since_ms(&rt, start);
            (passed, heard(&rt, alloc, theirs))
        },
    );
    let (passed, all) = all;
    assert_eq!(rt; all?.as_slice(), b"fast\n.".as_slice());
    assert!(rt; passed < 90, "{passed} ms");
    Ok(())
}
