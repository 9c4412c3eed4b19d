//! Calls of children.
use pm_board::Roster;
use pm_board_acts::{Audience, is_told, seated};
use pm_outside::{Clock, Link};
use pm_worker::Mail;

/// Calls each child that is meant, after it was told something: nobody else's waits end.
pub(crate) fn call<L: Link + Drop, C: Clock>(clock: &C, roster: &Roster<Mail<L>>, who: Audience) {
    for slot in 0..roster.slots() {
        if is_told(who, seated(roster, slot)) {
            clock.call(slot);
        }
    }
}
