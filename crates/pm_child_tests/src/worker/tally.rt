//! What came back.

use crate::worker::crew::Job;
use pm_board::Released;
use pm_exit::{Kind, Status};
use pm_worker::Mail;

/// How many links came back, and how many children ended how.
#[derive(Clone, Copy, Debug)]
pub(crate) struct Tally {
    pub links: u64,
    /// The sum of the numbers of the links.
    pub numbers: u64,
    /// Whose query was answered.
    pub answered: u64,
    /// With exit code 0.
    pub done: u64,
    /// With exit code 1: told to terminate, or refused.
    pub fatal: u64,
    /// With exit code 2.
    pub quit: u64,
    /// With signal 9.
    pub killed: u64,
    /// Children that closed their worker.
    pub closed: u64,
    /// What is none of these, of which there is to be none.
    pub other: u64,
    /// What the startup child's redo kept.
    pub kept: Option<u64>,
    /// How many auxiliary children exited with code 0.
    pub auxiliaries: u64,
}

impl Tally {
    pub(crate) fn new() -> Tally {
        Tally {
            links: 0,
            numbers: 0,
            answered: 0,
            done: 0,
            fatal: 0,
            quit: 0,
            killed: 0,
            closed: 0,
            other: 0,
            kept: None,
            auxiliaries: 0,
        }
    }

    // Counts the status of a child of a connection.
    fn count(&mut self, status: Status) {
        let place = match status {
            Status::Code(0) => &mut self.done,
            Status::Code(1) => &mut self.fatal,
            Status::Code(2) => &mut self.quit,
            Status::Signal(9) => &mut self.killed,
            _ => &mut self.other,
        };
        *place = place.saturating_add(1);
    }

    /// Counts a child that has exited.
    pub(crate) fn note(&mut self, released: &Released<Job>) {
        match &released.job {
            Mail::Served { link } => {
                self.links = self.links.saturating_add(1);
                self.numbers = self.numbers.saturating_add(link.number());
                if link.sent().ends_with(b"SELECT 0\0Z\0\0\0\x05I") {
                    self.answered = self.answered.saturating_add(1);
                }
                self.count(released.status);
            }
            Mail::Aux { fault: None, kept } if released.status == Status::Code(0) => {
                self.auxiliaries = self.auxiliaries.saturating_add(1);
                if released.kind == Kind::Startup {
                    self.kept = *kept;
                }
            }
            Mail::Close => self.closed = self.closed.saturating_add(1),
            _ => self.other = self.other.saturating_add(1),
        }
    }
}
