//! The pool of a server: its board, the store that its workers share, and a thread for each slot, made at once and closed at once.
//!
//! All memory is taken and every work is made before the first thread starts (`making`). Where a thread isn't made, those that were
//! are closed again, and disk and book come back (`refusing`). A pool is closed slot by slot (`closing`): its worker is told to end
//! and joined, its last child is released, and its post and its token are taken back.
#![tactic(auto)]

mod closing;
mod ending;
mod making;
mod plan;
mod pool;
mod refusing;
mod stock;

pub use making::make;
pub use plan::{AUXILIARY_SLOTS, Plan, Terms, board_slots};
pub use pool::{Made, NoPool, Pool, Unmade, Worker};
