//! A value is taken from a place of the second part, and given back there. The first part is as before.
ghost use Rattle.std.specs.Prelude.{◌≡◌, Some, slice_get};
ghost use Rattle.pm_halves.specs.{Sitting.Sitting, Places.{told_of_take, told_of_give, MayTake, MayGive, StaysTiedBy, IsInHand, KeepsFirst, HasTaken, HasGiven, turned_by}};

use crate::lot::Lot;
use crate::plays::{Gives, Takes};
use crate::seat::TwoSeat;
use crate::table::TwoTable;
use crate::tie::{Tells, Tie};
use atomic_table::{Play, Seat, TableRule};

/// A place whose slot a seat holds, and how many others it holds: of the first part, and of the second those that it took
/// before this one and after it.
#[derive(Clone, Copy, Debug, PartialEq, Eq)]
pub struct Hand {
    pub place: usize,
    pub firsts: usize,
    pub before: usize,
    pub after: usize,
}

impl<
    X: Drop,
    Y: Drop,
    V,
    W,
    K,
    P: TableRule<X, V, K>,
    Q: TableRule<Y, W, K>,
    T: Tie<V, W>,
> TwoTable<X, Y, V, W, K, P, Q, T> {
    /// Takes the value of a place, whose word becomes `to`, and leaves `empty` in its slot, which the seat holds from then on. None
    /// exactly where the word met wasn't 0.
    pub fn take<M: Play<Y, W>, N: Tells<V, W>>(
        &self,
        seat: &mut TwoSeat<X, Y, V, W, T>,
        place: usize,
        to: u64,
        empty: Y,
    ) -> Option<Y>
        requires table { seat.old.table ≡ self.now.table }
        requires may { MayTake Q.holds T.places self.now.key seat.old.id seat.old.more.0 place to
            (told_of_take M.then T.places place to seat.old.more.0) }
        requires ties { StaysTiedBy P.holds Q.holds T.tied self.now seat.old
            (told_of_take M.then T.places place to seat.old.more.0) (N.tells seat.old.me.0) }
        ensures first { KeepsFirst seat.old seat.new }
        ensures taken { HasTaken (told_of_take M.then T.places place to seat.old.more.0)
            (N.tells seat.old.me.0) place empty result seat.old.more seat.new.more }
    {
        let word = self.table.word_count() - self.places + place;
        let found = self
            .table
            .shared
            .compare_exchange::<Takes<M, N, T>>(&mut seat.seat, word, 0, to);
        if found != 0 {
            return None;
        }
        let slot = self.table.slot_count() - self.places + place;
        let value = match self
            .table
            .shared
            .exchange(&mut seat.seat, slot, Lot::Second(empty))
        {
            Lot::First(_) => unreachable!(),
            Lot::Second(value) => value,
        };
        seat.seat.turn();
        Some(value)
    }

    /// Gives a value back to a place that the seat holds, whose word becomes 0. What lay in the slot is returned.
    pub fn give<M: Play<Y, W>, N: Tells<V, W>>(
        &self,
        seat: &mut TwoSeat<X, Y, V, W, T>,
        hand: Hand,
        value: Y,
    ) -> Y
        requires table { seat.old.table ≡ self.now.table }
        requires held { IsInHand hand seat.old }
        requires may { MayGive Q.holds T.places self.now.key seat.old.id seat.old.more.0
            hand.place value
            (told_of_give M.then T.places hand.place seat.old.more.0 value) }
        requires ties { StaysTiedBy P.holds Q.holds T.tied self.now seat.old
            (told_of_give M.then T.places hand.place seat.old.more.0 value)
            (N.tells seat.old.me.0) }
        ensures old { slice_get seat.old.more.1 hand.before ≡ Some (hand.place, result) }
        ensures first { KeepsFirst seat.old seat.new }
        ensures given { HasGiven (told_of_give M.then T.places hand.place seat.old.more.0 value)
            (N.tells seat.old.me.0) hand.before seat.old.more seat.new.more }
    {
        turn_by(&mut seat.seat, hand.firsts);
        turn_by(&mut seat.seat, hand.before);
        let slot = self.table.slot_count() - self.places + hand.place;
        let old = match self
            .table
            .shared
            .exchange(&mut seat.seat, slot, Lot::Second(value))
        {
            Lot::First(_) => unreachable!(),
            Lot::Second(old) => old,
        };
        let word = self.table.word_count() - self.places + hand.place;
        self.table
            .shared
            .swap::<Gives<M, N, T>>(&mut seat.seat, word, 0);
        turn_by(&mut seat.seat, hand.after);
        old
    }
}

// So many of the slots on top go after the others, one after the other.
fn turn_by<S, V>(seat: &mut Seat<S, V>, times: usize)
    ensures same { (seat.new.table_id ≡ seat.old.table_id) × (seat.new.id ≡ seat.old.id) }
    ensures turned { seat.new.me ≡ (seat.old.me.0, turned_by times seat.old.me.1) }
{
    for _ in 0..times {
        seat.turn();
    }
}
