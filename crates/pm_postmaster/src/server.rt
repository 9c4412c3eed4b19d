//! A supervisor at work, with all that it works on.

ghost use Rattle.std.specs.Prelude.{◌≡◌, ℕ};

use crate::came::LastCame;
use pm_board_acts::Desk;
use pm_disk::Disk;
use pm_outside::{Chronicle, Clock, Console, Link, Port, Sink};
use pm_query::BookEntry;
use pm_server_lines::Log;
use pm_state::PmEvent;
use pm_store_shared::Shared;
use pm_worker::Mail;

/// A supervisor at work: its machine and its side of the board, its side of the store, its log, and where links and lines come
/// from.
#[derive(Drop)]
pub(crate) struct Server<
    L: Link + Drop,
    P: Port<Link = L>,
    K: Console,
    O: Sink,
    D: Disk + Drop,
    C: Clock,
    J: Chronicle<PmEvent>,
    B: Chronicle<BookEntry> + Drop,
> {
    pub(crate) desk: Desk<J, Mail<L>>,
    pub(crate) shared: Shared<D, B>,
    pub(crate) log: Log<O>,
    pub(crate) port: P,
    pub(crate) console: K,
    pub(crate) clock: C,
    // The children of this generation that ended while their slots were active.
    pub(crate) lost: Vec<u32>,
    pub(crate) came: LastCame,
    // Links are asked for: the port's end hasn't come, and the last pid wasn't drawn.
    pub(crate) listens: bool,
    // Lines are asked for: the console's end hasn't come.
    pub(crate) hears: bool,
    // What each part tells is named here, so that a definition reads it from the whole.
    ghost told: { (P.visits port ≡ P.visits port) × (K.lines console ≡ K.lines console)
        × ((at : ℕ) → ∥ C.gives clock at ∥₁ → ∥ C.gives clock at ∥₁) },
}
