//! What the program tells after a run: what failed first in each part of its outside.
use pm_disk::MemDisk;
use pm_outside::{MemConsole, MemPort};
use pm_outside_files::LogFiles;
use pm_outside_net::{StandardConsole, TcpPort};
use pm_outside_streams::{StandardPort, StandardSink};
use std::fmt::Display;
use std::io::Write;
use std::net::Net;

/// A part of the outside, which may have failed. One in memory has nothing to tell: the system gave it no reason.
pub trait Reports {
    /// Prints what failed first, where something has, as a line on standard error. It takes no memory.
    fn report(&self, rt: &HostRuntime);
}

impl Reports for LogFiles {
    fn report(&self, rt: &HostRuntime) {
        print_first(rt, self.first_fault());
    }
}

impl<N: Net + Drop> Reports for TcpPort<N> {
    fn report(&self, rt: &HostRuntime) {
        print_first(rt, self.first_fault());
    }
}

impl<R> Reports for StandardConsole<R> {
    fn report(&self, rt: &HostRuntime) {
        print_first(rt, self.first_fault());
    }
}

impl<W: Write> Reports for StandardSink<W> {
    fn report(&self, rt: &HostRuntime) {
        print_first(rt, self.first_fault());
    }
}

impl Reports for MemDisk {
    fn report(&self, _rt: &HostRuntime) {}
}

impl Reports for MemPort {
    fn report(&self, _rt: &HostRuntime) {}
}

impl<R, W> Reports for StandardPort<R, W> {
    fn report(&self, _rt: &HostRuntime) {}
}

impl Reports for MemConsole {
    fn report(&self, _rt: &HostRuntime) {}
}

// Standard error may be what has failed, and then nothing is told.
fn print_first<F: Display + Drop>(rt: &HostRuntime, first: Option<F>) {
    if let Some(fault) = first {
        let _ = eprintln!(rt; "{fault}");
    }
}
