//! Single steps on a word of the first part, and plain access to a slot of it that a seat holds. The second part is as before.
ghost use Rattle.std.specs.Prelude.{◌≡◌, ℕ, ◌+◌, ◌-◌, ◌%◌, ◌^◌, ◌==◌, ◌∷◌, max, bit_and, bit_or};
ghost use prog.Atomic.{either};
ghost use Rattle.atomic_table.specs.Table.{rest};
ghost use Rattle.pm_halves.specs.Steps.{told_of, MayStep, StaysTied, HasStepped};

use crate::lot::Lot;
use crate::plays::OnFirst;
use crate::seat::TwoSeat;
use crate::table::TwoTable;
use crate::tie::Tie;
use atomic_table::{Play, TableRule};

impl<
    X: Drop,
    Y: Drop,
    V,
    W,
    K,
    P: TableRule<X, V, K>,
    Q: TableRule<Y, W, K>,
    T: Tie<V, W>,
> TwoTable<X, Y, V, W, K, P, Q, T> {
    /// Reads the word.
    pub fn load<M: Play<X, V>>(&self, seat: &mut TwoSeat<X, Y, V, W, T>, word: usize) -> u64
        requires may { MayStep P.holds self.now seat.old word (λ n. n)
            (told_of M.then self.now seat.old word 0 0) }
        requires ties { StaysTied P.holds T.tied self.now seat.old
            (told_of M.then self.now seat.old word 0 0) }
        ensures told { HasStepped (told_of M.then self.now seat.old word 0 0)
            result seat.old seat.new }
        ensures more { seat.new.more ≡ seat.old.more }
    {
        self.table
            .shared
            .load::<OnFirst<M, T>>(&mut seat.seat, word)
    }

    /// Writes the word.
    pub fn store<M: Play<X, V>>(&self, seat: &mut TwoSeat<X, Y, V, W, T>, word: usize, new: u64)
        requires may { MayStep P.holds self.now seat.old word (λ _. new)
            (λ _. told_of M.then self.now seat.old word new 0 new) }
        requires ties { StaysTied P.holds T.tied self.now seat.old
            (λ _. told_of M.then self.now seat.old word new 0 new) }
        ensures told { HasStepped (told_of M.then self.now seat.old word new 0)
            new seat.old seat.new }
        ensures more { seat.new.more ≡ seat.old.more }
    {
        self.table
            .shared
            .store::<OnFirst<M, T>>(&mut seat.seat, word, new)
    }

    /// Writes the word, and returns what it was.
    pub fn swap<M: Play<X, V>>(
        &self,
        seat: &mut TwoSeat<X, Y, V, W, T>,
        word: usize,
        new: u64,
    ) -> u64
        requires may { MayStep P.holds self.now seat.old word (λ _. new)
            (told_of M.then self.now seat.old word new 0) }
        requires ties { StaysTied P.holds T.tied self.now seat.old
            (told_of M.then self.now seat.old word new 0) }
        ensures told { HasStepped (told_of M.then self.now seat.old word new 0)
            result seat.old seat.new }
        ensures more { seat.new.more ≡ seat.old.more }
    {
        self.table
            .shared
            .swap::<OnFirst<M, T>>(&mut seat.seat, word, new)
    }

    pub fn fetch_add<M: Play<X, V>>(
        &self,
        seat: &mut TwoSeat<X, Y, V, W, T>,
        word: usize,
        k: u64,
    ) -> u64
        requires may { MayStep P.holds self.now seat.old word (λ n. (n + k) % 2 ^ 64)
            (told_of M.then self.now seat.old word k 0) }
        requires ties { StaysTied P.holds T.tied self.now seat.old
            (told_of M.then self.now seat.old word k 0) }
        ensures told { HasStepped (told_of M.then self.now seat.old word k 0)
            result seat.old seat.new }
        ensures more { seat.new.more ≡ seat.old.more }
    {
        self.table
            .shared
            .fetch_add::<OnFirst<M, T>>(&mut seat.seat, word, k)
    }

    pub fn fetch_sub<M: Play<X, V>>(
        &self,
        seat: &mut TwoSeat<X, Y, V, W, T>,
        word: usize,
        k: u64,
    ) -> u64
        requires may { MayStep P.holds self.now seat.old word (λ n. (n + (2 ^ 64 - k)) % 2 ^ 64)
            (told_of M.then self.now seat.old word k 0) }
        requires ties { StaysTied P.holds T.tied self.now seat.old
            (told_of M.then self.now seat.old word k 0) }
        ensures told { HasStepped (told_of M.then self.now seat.old word k 0)
            result seat.old seat.new }
        ensures more { seat.new.more ≡ seat.old.more }
    {
        self.table
            .shared
            .fetch_sub::<OnFirst<M, T>>(&mut seat.seat, word, k)
    }

    pub fn fetch_and<M: Play<X, V>>(
        &self,
        seat: &mut TwoSeat<X, Y, V, W, T>,
        word: usize,
        k: u64,
    ) -> u64
        requires may { MayStep P.holds self.now seat.old word (λ n. bit_and n k)
            (told_of M.then self.now seat.old word k 0) }
        requires ties { StaysTied P.holds T.tied self.now seat.old
            (told_of M.then self.now seat.old word k 0) }
        ensures told { HasStepped (told_of M.then self.now seat.old word k 0)
            result seat.old seat.new }
        ensures more { seat.new.more ≡ seat.old.more }
    {
        self.table
            .shared
            .fetch_and::<OnFirst<M, T>>(&mut seat.seat, word, k)
    }

    pub fn fetch_or<M: Play<X, V>>(
        &self,
        seat: &mut TwoSeat<X, Y, V, W, T>,
        word: usize,
        k: u64,
    ) -> u64
        requires may { MayStep P.holds self.now seat.old word (λ n. bit_or n k)
            (told_of M.then self.now seat.old word k 0) }
        requires ties { StaysTied P.holds T.tied self.now seat.old
            (told_of M.then self.now seat.old word k 0) }
        ensures told { HasStepped (told_of M.then self.now seat.old word k 0)
            result seat.old seat.new }
        ensures more { seat.new.more ≡ seat.old.more }
    {
        self.table
            .shared
            .fetch_or::<OnFirst<M, T>>(&mut seat.seat, word, k)
    }

    pub fn fetch_max<M: Play<X, V>>(
        &self,
        seat: &mut TwoSeat<X, Y, V, W, T>,
        word: usize,
        k: u64,
    ) -> u64
        requires may { MayStep P.holds self.now seat.old word (λ n. max n k)
            (told_of M.then self.now seat.old word k 0) }
        requires ties { StaysTied P.holds T.tied self.now seat.old
            (told_of M.then self.now seat.old word k 0) }
        ensures told { HasStepped (told_of M.then self.now seat.old word k 0)
            result seat.old seat.new }
        ensures more { seat.new.more ≡ seat.old.more }
    {
        self.table
            .shared
            .fetch_max::<OnFirst<M, T>>(&mut seat.seat, word, k)
    }

    /// Returns the word as it was, which has become `new` if it was `old`.
    pub fn compare_exchange<M: Play<X, V>>(
        &self,
        seat: &mut TwoSeat<X, Y, V, W, T>,
        word: usize,
        old: u64,
        new: u64,
    ) -> u64
        requires may { MayStep P.holds self.now seat.old word (λ n. either (n == old) new n)
            (told_of M.then self.now seat.old word old new) }
        requires ties { StaysTied P.holds T.tied self.now seat.old
            (told_of M.then self.now seat.old word old new) }
        ensures told { HasStepped (told_of M.then self.now seat.old word old new)
            result seat.old seat.new }
        ensures more { seat.new.more ≡ seat.old.more }
    {
        self.table
            .shared
            .compare_exchange::<OnFirst<M, T>>(&mut seat.seat, word, old, new)
    }

    /// A plain read and write of the slot of the first part that the seat took last.
    pub fn exchange(&self, seat: &mut TwoSeat<X, Y, V, W, T>, slot: usize, new: X) -> X
        requires table { seat.old.table ≡ self.now.table }
        requires last { (old : X) × (seat.old.me.1 ≡ (slot, old) ∷ rest seat.old.me.1) }
        ensures same { (seat.new.table ≡ seat.old.table) × (seat.new.id ≡ seat.old.id) }
        ensures old { seat.old.me.1 ≡ (slot, result) ∷ rest seat.old.me.1 }
        ensures new { seat.new.me ≡ (seat.old.me.0, (slot, new) ∷ rest seat.old.me.1) }
        ensures more { seat.new.more ≡ seat.old.more }
    {
        match self
            .table
            .shared
            .exchange(&mut seat.seat, slot, Lot::First(new))
        {
            Lot::First(old) => old,
            Lot::Second(_) => unreachable!(),
        }
    }
}
