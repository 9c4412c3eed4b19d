//! How a run of the server ended.

use pm_disk::Disk;
use pm_outside::{Chronicle, Clock, Port, Sink};
use pm_query::BookEntry;
use pm_server::{Outside, ServerEnd};
use pm_state::PmEvent;

/// How a run ended, and what the server worked on, as it stands then.
#[derive(Debug, Drop)]
pub struct Ended<
    P: Port,
    O: Sink,
    D: Disk,
    C: Clock,
    J: Chronicle<PmEvent>,
    B: Chronicle<BookEntry>,
> {
    pub end: ServerEnd,
    pub outside: Outside<P, O, D, C, J, B>,
}
