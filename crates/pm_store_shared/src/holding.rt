//! A seat takes the store, and gives it back.
//!
//! The table's word is 0 while the store is at home, and else the holder's number and 1. Who finds it out looks again some
//! times, and then sleeps on the word's low half; who gives the store back wakes one, where somebody sleeps. A sleep begins
//! only while the word is as it was looked at, so no wake is lost. Nothing of this is promised.
ghost use Rattle.std.specs.Prelude.{◌≡◌, ◌++◌, [], ◌∷◌, None, Some, List, IfOk};
ghost use Rattle.pm_segment.specs.{pm_query.declared.book.BookEntry.BookEntry, Moment.alone};
ghost use Rattle.pm_store_shared.specs.{Laid.HasDisk, Rule.taken, Stands.{Knows, Stands}, Told.{HasNoneLent, IsFor, IsMine, IsNothing, IsSmall, MayGive, Tells, TookFor, given_back, is_own_of, number_of, passes_of, past_of, resting, with_held}};

use crate::deed::Deed;
use crate::inner::Inner;
use crate::place::Place;
use crate::plays::{Gives, Takes};
use crate::views::{Lent, View};
use atomic_table::Seat;
use pm_disk::Disk;
use pm_outside::Chronicle;
use pm_query::{BookEntry, StoreNo};
use pm_segment::Pass;
use std::alloc::AllocError;
use std::hint::spin_loop;
use std::marker::Brand;
use std::sync::Wait;

pub(crate) type Holder<D, B> = Seat<Option<Place<D, B>>, View<Place<D, B>, D, Lent<D>>>;

/// Takes the store, and waits until it has it.
pub(crate) fn take<R: Wait, D: Disk, B: Chronicle<BookEntry>>(
    rt: &R,
    inner: &Inner<D, B>,
    seat: &mut Holder<D, B>,
    number: u32,
) -> Place<D, B>
    requires table { (seat.old.table_id ≡ inner.now.table.shared.table_id)
        × IsSmall inner.now.table.shared.table_id }
    requires seat { (seat.old.me.1 ≡ []) × (number_of seat.old.me.0 ≡ number)
        × IsMine seat.old.me.0 }
    ensures same { seat.new.table_id ≡ seat.old.table_id }
    ensures taken { (log : List BookEntry)
        × (seat.new.me ≡ (with_held seat.old.me.0 (Some (taken log result)), (0, None) ∷ []))
        × Tells Stands Knows seat.old.me.0 (taken log result) }
{
    for _ in rt.forever() {
        let found = inner
            .table
            .shared
            .compare_exchange::<Takes>(seat, 0, 0, u64::from(number) + 1);
        if found == 0 {
            let place = inner.table.shared.exchange(seat, 0, None);
            return place.unwrap();
        }
        if stays_out(inner) {
            sleep(rt, inner);
        }
    }
    unreachable!()
}

/// Takes the store with its disk. The caller leads, so the disk is there; it would lead anew if it weren't.
pub(crate) fn take_whole<R: Wait, D: Disk, B: Chronicle<BookEntry>>(
    rt: &R,
    inner: &Inner<D, B>,
    seat: &mut Holder<D, B>,
    number: u32,
) -> Place<D, B>
    requires table { (seat.old.table_id ≡ inner.now.table.shared.table_id)
        × IsSmall inner.now.table.shared.table_id }
    requires seat { (seat.old.me.1 ≡ []) × (number_of seat.old.me.0 ≡ number)
        × IsMine seat.old.me.0 × HasNoneLent seat.old.me.0 }
    ensures same { seat.new.table_id ≡ seat.old.table_id }
    ensures taken { (log : List BookEntry)
        × (seat.new.me ≡ (with_held seat.old.me.0 (Some (taken log result)), (0, None) ∷ []))
        × Tells Stands Knows seat.old.me.0 (taken log result) }
    ensures whole { HasDisk result }
{
    for _ in rt.forever() {
        let place = take(rt, inner, seat, number);
        if place.disk.is_some() {
            return place;
        }
        give_unchanged(inner, seat, place);
        inner.joining.end(rt, None);
        inner.joining.lead(rt);
    }
    unreachable!()
}

/// Takes the store for a pass, where it is of the generation that is met. Else the pass is stale, and the store is given back.
pub(crate) fn take_for<R: Wait, D: Disk, B: Chronicle<BookEntry>>(
    rt: &R,
    inner: &Inner<D, B>,
    seat: &mut Holder<D, B>,
    number: u32,
    pass: &Pass,
) -> Result<Place<D, B>, StoreNo>
    requires table { (seat.old.table_id ≡ inner.now.table.shared.table_id)
        × IsSmall inner.now.table.shared.table_id }
    requires seat { (first : D) × (seat.old.me ≡ resting number first (is_own_of seat.old.me.0)
        (passes_of seat.old.me.0) (past_of seat.old.me.0)) }
    ensures same { seat.new.table_id ≡ seat.old.table_id }
    ensures taken { TookFor Stands Knows (λ place. (alone place.apart).generation) pass.now
        seat.old.me result seat.new.me }
{
    let place = take(rt, inner, seat, number);
    for_pass(inner, seat, place, pass)
}

/// The same with the disk, for a caller that leads. Where the pass is stale it leads no longer.
pub(crate) fn take_whole_for<R: Wait, D: Disk, B: Chronicle<BookEntry>>(
    rt: &R,
    inner: &Inner<D, B>,
    seat: &mut Holder<D, B>,
    number: u32,
    pass: &Pass,
) -> Result<Place<D, B>, StoreNo>
    requires table { (seat.old.table_id ≡ inner.now.table.shared.table_id)
        × IsSmall inner.now.table.shared.table_id }
    requires seat { (first : D) × (seat.old.me ≡ resting number first (is_own_of seat.old.me.0)
        (passes_of seat.old.me.0) (past_of seat.old.me.0)) }
    ensures same { seat.new.table_id ≡ seat.old.table_id }
    ensures taken { TookFor Stands Knows (λ place. (alone place.apart).generation) pass.now
        seat.old.me result seat.new.me }
    ensures whole { IfOk result (λ place. HasDisk place) }
{
    let place = take_whole(rt, inner, seat, number);
    let result = for_pass(inner, seat, place, pass);
    if result.is_err() {
        inner.joining.end(rt, None);
    }
    result
}

// The store that was taken, for a pass of its generation. Else it is given back.
fn for_pass<D: Disk, B: Chronicle<BookEntry>>(
    inner: &Inner<D, B>,
    seat: &mut Holder<D, B>,
    place: Place<D, B>,
    pass: &Pass,
) -> Result<Place<D, B>, StoreNo>
    requires table { (seat.old.table_id ≡ inner.now.table.shared.table_id)
        × IsSmall inner.now.table.shared.table_id }
    requires seat { seat.old.me.1 ≡ (0, None) ∷ [] }
    requires may { MayGive Stands Knows IsNothing (passes_of seat.old.me.0) None seat.old.me.0 place }
    ensures same { seat.new.table_id ≡ seat.old.table_id }
    ensures taken { IsFor (λ place. (alone place.apart).generation) pass.now place seat.old.me
        result seat.new.me }
{
    let found = place.apart.generation();
    if found != pass.generation {
        give_unchanged(inner, seat, place);
        return Err(StoreNo::Stale {
            mine: pass.generation,
            found,
        });
    }
    Ok(place)
}

/// How often the word is looked at before a caller sleeps, some 20 microseconds: a script is done meanwhile, a sync isn't, and to
/// be woken takes longer.
const LOOKS: u32 = 400;

// Sleeps until the store may be at home again. It may also return before that.
fn sleep<R: Wait, D: Disk, B: Chronicle<BookEntry>>(rt: &R, inner: &Inner<D, B>)
    requires { IsSmall inner.now.table.shared.table_id }
{
    inner.sleepers.come();
    let found = inner.table.shared.peek(0);
    if found != 0 {
        inner.table.shared.park(rt, 0, low_half(found));
    }
    inner.sleepers.go();
}

// Whether the store was out at each look.
fn stays_out<D: Disk, B: Chronicle<BookEntry>>(inner: &Inner<D, B>) -> bool
    requires { IsSmall inner.now.table.shared.table_id }
{
    for _ in 0..LOOKS {
        if inner.table.shared.peek(0) == 0 {
            return false;
        }
        spin_loop();
    }
    true
}

// The half of a word that a sleep looks at.
fn low_half(word: u64) -> u32 {
    (word % (1 << 32)) as u32
}

/// Gives the store back after a call, and wakes one of those who sleep for it. All but the first three is for the proof alone.
pub(crate) fn give<C: Deed<Lent<D>>, D: Disk, B: Chronicle<BookEntry>, A, T>(
    inner: &Inner<D, B>,
    seat: &mut Holder<D, B>,
    place: Place<D, B>,
    _before: Pass,
    _now: Pass,
    _ask: &A,
    _answer: &T,
)
    requires table { (seat.old.table_id ≡ inner.now.table.shared.table_id)
        × IsSmall inner.now.table.shared.table_id }
    requires seat { seat.old.me.1 ≡ (0, None) ∷ [] }
    requires may { MayGive Stands Knows C.told C.passes C.lent seat.old.me.0 place }
    ensures same { seat.new.table_id ≡ seat.old.table_id }
    ensures given { (entries : List BookEntry) × C.told entries
        × (seat.new.me ≡ (given_back seat.old.me.0 entries C.passes C.lent, [])) }
{
    match inner.table.shared.exchange(seat, 0, Some(place)) {
        None => {}
        Some(_) => unreachable!(),
    }
    inner.table.shared.swap::<Gives<C>>(seat, 0, 0);
    if !inner.sleepers.is_empty() {
        inner.table.shared.wake_one(0);
    }
}

/// Gives the store back as it was taken.
pub(crate) fn give_unchanged<D: Disk, B: Chronicle<BookEntry>>(
    inner: &Inner<D, B>,
    seat: &mut Holder<D, B>,
    place: Place<D, B>,
)
    requires table { (seat.old.table_id ≡ inner.now.table.shared.table_id)
        × IsSmall inner.now.table.shared.table_id }
    requires seat { seat.old.me.1 ≡ (0, None) ∷ [] }
    requires may { MayGive Stands Knows IsNothing (passes_of seat.old.me.0) None seat.old.me.0 place }
    ensures same { seat.new.table_id ≡ seat.old.table_id }
    ensures given { (entries : List BookEntry) × IsNothing entries
        × (seat.new.me ≡ (given_back seat.old.me.0 entries (passes_of seat.old.me.0) None, [])) }
{
    let pass = Pass {
        pid: 0,
        generation: 0,
        front: None,
    };
    give::<Brand, D, B, (), ()>(inner, seat, place, pass, pass, &(), &());
}

/// Gives the store back after a renewal. All but the first three is for the proof alone.
pub(crate) fn give_renewed<C: Deed<Lent<D>>, D: Disk, B: Chronicle<BookEntry>>(
    inner: &Inner<D, B>,
    seat: &mut Holder<D, B>,
    place: Place<D, B>,
    _generation: u32,
    _gone: &[u32],
    _answer: &Result<(), AllocError>,
)
    requires table { (seat.old.table_id ≡ inner.now.table.shared.table_id)
        × IsSmall inner.now.table.shared.table_id }
    requires seat { seat.old.me.1 ≡ (0, None) ∷ [] }
    requires may { MayGive Stands Knows C.told C.passes C.lent seat.old.me.0 place }
    ensures same { seat.new.table_id ≡ seat.old.table_id }
    ensures given { (entries : List BookEntry) × C.told entries
        × (seat.new.me ≡ (given_back seat.old.me.0 entries C.passes C.lent, [])) }
{
    let pass = Pass {
        pid: 0,
        generation: 0,
        front: None,
    };
    give::<C, D, B, (), ()>(inner, seat, place, pass, pass, &(), &());
}
