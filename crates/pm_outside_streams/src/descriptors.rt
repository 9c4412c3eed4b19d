//! The first descriptors of a process.
use std::fs::{File, Files, OpenOptions};
use std::io;
use std::os::fd::{AsRawFd, IntoRawFd};

/// Standard input, standard output and standard error have the first descriptors of the process.
const STANDARD_STREAMS: i32 = 3;

/// Opens the null device in the place of each standard stream that is closed. A file or a socket would get its number otherwise,
/// and what is meant for the stream would be written there.
pub fn fill_standard_streams<R: Files<File = File>>(rt: &R) -> io::Result<()> {
    for _ in 0..STANDARD_STREAMS {
        let null = OpenOptions::new()
            .read(true)
            .write(true)
            .open(rt, "/dev/null")?;
        if null.as_raw_fd() >= STANDARD_STREAMS {
            break;
        }
        let _kept_open = null.into_raw_fd();
    }
    Ok(())
}
