//! The end of a server's children.
ghost use Rattle.std.specs.Prelude.{◌≡◌, ◌+◌, ◌<◌, ℕ, false, IfSome, length, option_map};
ghost use Rattle.pm_board_acts.specs.{Acts.ShowsNow, Board.seats_of, Final.{AreFree, NobodySits}};
ghost use Rattle.pm_postmaster.specs.Clearing.{Clears, MayClear};

use crate::calls::call;
use crate::looking::open_mail;
use pm_board::{Roster, counts_children};
use pm_board_acts::{Audience, Rest, kill_rest, reap_rest};
use pm_outside::{Clock, Link, Port};
use pm_worker::Mail;
use std::sync::Wait;

// Looks at a slot, and takes in what its child leaves, where it has ended. It tells whether the child still runs.
fn clear_slot<L: Link + Drop, P: Port<Link = L>>(
    roster: &mut Roster<Mail<L>>,
    port: &mut P,
    slot: u32,
) -> bool
    requires may { MayClear roster.old.knows (P.visits port.old) }
    requires slot { slot < length (seats_of roster.old.knows) }
    ensures clears { Clears roster.old.table roster.old.knows (P.visits port.old) roster.new.table
        roster.new.knows (P.visits port.new) }
    ensures free { (n : ℕ) → AreFree n roster.old.knows → AreFree n roster.new.knows }
    ensures gone { result ≡ false → AreFree slot roster.old.knows
        → AreFree (slot + 1) roster.new.knows }
{
    counts_children();
    match reap_rest(roster, slot) {
        Rest::Nobody => false,
        Rest::Running => true,
        Rest::Gone(released) => {
            let _fault = open_mail(port, released.job);
            false
        }
    }
}

// The same of every slot. It tells whether a child still runs.
fn clear_once<L: Link + Drop, P: Port<Link = L>>(roster: &mut Roster<Mail<L>>, port: &mut P) -> bool
    requires may { MayClear roster.old.knows (P.visits port.old) }
    ensures clears { Clears roster.old.table roster.old.knows (P.visits port.old) roster.new.table
        roster.new.knows (P.visits port.new) }
    ensures gone { result ≡ false → NobodySits roster.new.knows }
{
    let mut running = false;
    for slot in 0..roster.slots() {
        running |= clear_slot(roster, port, slot);
    }
    running
}

/// Kills every child that is left, after the last entry, and waits until each has ended.
pub(crate) fn clear<R: Wait, L: Link + Drop, P: Port<Link = L>, C: Clock>(
    rt: &R,
    roster: &mut Roster<Mail<L>>,
    port: &mut P,
    clock: &C,
)
    requires may { MayClear roster.old.knows (P.visits port.old) }
    ensures clears { Clears roster.old.table roster.old.knows (P.visits port.old) roster.new.table
        roster.new.knows (P.visits port.new) }
    ensures gone { NobodySits roster.new.knows }
{
    kill_rest(roster);
    call(clock, roster, Audience::Everyone);
    'looks: for _ in rt.forever() {
        if !clear_once(roster, port) {
            return;
        }
        clock.pause();
    }
    unreachable!()
}
