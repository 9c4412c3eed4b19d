//! What a server works on.

ghost use Rattle.std.specs.Prelude.{◌≡◌, ℕ};

use pm_disk::Disk;
use pm_outside::{Chronicle, Clock, Port, Sink};
use pm_query::BookEntry;
use pm_state::PmEvent;

/// What a server works on, and gives back at its end.
#[derive(Debug, Drop)]
pub struct Outside<
    P: Port,
    O: Sink,
    D: Disk,
    C: Clock,
    J: Chronicle<PmEvent>,
    B: Chronicle<BookEntry>,
> {
    pub port: P,
    pub sink: O,
    pub disk: D,
    pub clock: C,
    /// The journal of the supervisor.
    pub journal: J,
    /// The book of the store.
    pub book: B,
    pub seed: [u8; 32],
    // What each part tells is named here, so that a definition reads it from the whole.
    ghost told: { (P.visits port ≡ P.visits port) × (O.written sink ≡ O.written sink)
        × (D.seen disk ≡ D.seen disk) × ((at : ℕ) → ∥ C.gives clock at ∥₁ → ∥ C.gives clock at ∥₁)
        × (J.entries journal ≡ J.entries journal) × (B.entries book ≡ B.entries book) },
}
