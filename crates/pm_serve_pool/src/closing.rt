//! The workers of a pool are told to end, one after the other, and joined.
ghost use Rattle.std.specs.Prelude.{◌≡◌, ◌+◌, ◌<◌, ◌≤◌, [], length, map};
ghost use Rattle.pm_board.specs.{pm_board_words.declared.views.{Offer.Offer, Sight.TheVariants.Assigned}, Models.HasAssigned, Places.slot_at, pm_exit.declared.child.Kind.TheVariants.DeadEnd};
ghost use Rattle.pm_worker.specs.{pm_spawn.Works.work_of, declared.mail.MailTold.MailTold};
ghost use Rattle.pm_worker.specs.declared.mail.MailTold.TheVariants as told;
ghost use Rattle.pm_serve_pool.specs.{Closing.{AreClosed, HasClosedOne, IsReleased, IsShut, closing_pid}, Plan.{files_of, manner_of}, Works.{EachFrom, IsWorkOf}};

use crate::plan::Terms;
use crate::pool::Worker;
use pm_board::{Look, Roster};
use pm_disk::Disk;
use pm_exit::Kind;
use pm_outside::{Chronicle, Clock, Link};
use pm_query::BookEntry;
use pm_spawn::Running;
use pm_store_shared::{Shared, TokenStore};
use pm_worker::Mail;
use std::collections::VecDeque;
use std::sync::Wait;
use std::thread::Threads;

/// The pid of the child that closes the worker of slot 0. It is above all pids that a supervisor draws.
const FIRST_PID: u32 = 2_147_480_007;

// Tells the worker of a slot to end: its last child is assigned. Nobody else sits anywhere, so that no child has to be looked at.
fn tell<L: Link + Drop>(roster: &mut Roster<Mail<L>>, slot: u32)
    requires shut { IsShut slot roster.old.knows }
    requires slot { slot < length roster.old.knows.slots }
    requires few { length roster.old.knows.slots ≤ 407 }
    ensures table { roster.new.table ≡ roster.old.table }
    ensures assigned { HasAssigned slot (closing_pid slot) DeadEnd told.Close roster.old.knows
        roster.new.knows }
{
    roster.assign(slot, FIRST_PID + slot, Kind::DeadEnd, Mail::Close);
}

// Releases the last child of a worker that was joined. It has exited, so the first look finds that.
fn release<R: Wait, L: Link + Drop>(rt: &R, roster: &mut Roster<Mail<L>>, slot: u32)
    requires slot { slot < length roster.old.knows.slots }
    requires sits { (o : Offer MailTold) × ((slot_at roster.old.knows slot).sight ≡ Assigned o) }
    ensures table { roster.new.table ≡ roster.old.table }
    ensures released { (o : Offer MailTold) → (slot_at roster.old.knows slot).sight ≡ Assigned o
        → IsReleased slot o roster.old.knows roster.new.knows }
{
    for _ in rt.forever() {
        if let Look::Exited { .. } = roster.look(slot) {
            roster.release(slot);
            return;
        }
    }
    unreachable!()
}

// Closes the worker of a slot, and takes in what it leaves. The terms are for the proof alone.
fn close_one<
    R: Threads + Wait + Drop,
    C: Clock + Drop,
    L: Link + Drop,
    D: Disk + Drop,
    B: Chronicle<BookEntry> + Drop,
>(
    rt: &R,
    terms: &Terms<C>,
    worker: Running<R, Worker<R, C, L, D, B>>,
    slot: u32,
    roster: &mut Roster<Mail<L>>,
    shared: &mut Shared<D, B>,
)
    requires shut { IsShut slot roster.old.knows }
    requires slot { slot < length roster.old.knows.slots }
    requires few { length roster.old.knows.slots ≤ 407 }
    requires new { IsWorkOf C.gives terms.now roster.old.table shared.old.table
        shared.old.first slot (work_of worker) }
    requires next { slot ≡ length shared.old.joined }
    ensures table { roster.new.table ≡ roster.old.table }
    ensures closed { HasClosedOne
        (manner_of C.gives terms.now (files_of D.Disk shared.old.first)) slot
        roster.old.knows roster.new.knows shared.old shared.new }
{
    let _terms = terms;
    tell(roster, slot);
    let (post, store) = worker.join();
    release(rt, roster, slot);
    roster.gather(post);
    let TokenStore {
        rt: _,
        token,
        caller: _,
    } = store;
    shared.take_back(token);
}

/// Closes workers, that of slot 0 first, and takes in what they leave. The terms are for the proof alone.
pub(crate) fn close_all<
    R: Threads + Wait + Drop,
    C: Clock + Drop,
    L: Link + Drop,
    D: Disk + Drop,
    B: Chronicle<BookEntry> + Drop,
>(
    rt: &R,
    terms: &Terms<C>,
    workers: VecDeque<Running<R, Worker<R, C, L, D, B>>>,
    roster: &mut Roster<Mail<L>>,
    shared: &mut Shared<D, B>,
)
    requires shut { IsShut 0 roster.old.knows }
    requires slots { length workers.items ≤ length roster.old.knows.slots }
    requires few { length roster.old.knows.slots ≤ 407 }
    requires new { EachFrom (IsWorkOf C.gives terms.now roster.old.table shared.old.table
        shared.old.first) 0 (map work_of workers.items) }
    requires none { shared.old.joined ≡ [] }
    ensures table { roster.new.table ≡ roster.old.table }
    ensures closed { AreClosed (manner_of C.gives terms.now (files_of D.Disk shared.old.first))
        (length workers.items) roster.old.knows roster.new.knows shared.old shared.new }
{
    let mut workers = workers;
    let mut slot = 0;
    while let Some(worker) = workers.pop_front() {
        close_one(rt, terms, worker, slot, roster, shared);
        slot += 1;
    }
}
