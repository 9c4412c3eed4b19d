//! What the program gives back.

use crate::status::Top;
use pm_disk::Disk;
use pm_outside::{Chronicle, Clock, Console, Port, Sink};
use pm_query::BookEntry;
use pm_server::Outside;
use pm_state::PmEvent;

/// How a command ended, and what it worked on.
#[derive(Debug, Drop)]
pub struct Ended<
    P: Port,
    K: Console,
    O: Sink,
    D: Disk,
    C: Clock,
    J: Chronicle<PmEvent>,
    B: Chronicle<BookEntry>,
> {
    pub status: Top,
    pub outside: Outside<P, O, D, C, J, B>,
    pub console: K,
}

/// The same of a command that has no console.
#[derive(Debug, Drop)]
pub(crate) struct Worked<
    P: Port,
    O: Sink,
    D: Disk,
    C: Clock,
    J: Chronicle<PmEvent>,
    B: Chronicle<BookEntry>,
> {
    pub(crate) status: Top,
    pub(crate) outside: Outside<P, O, D, C, J, B>,
}
