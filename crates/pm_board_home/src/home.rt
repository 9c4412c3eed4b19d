//! A value that may lie at a board's home.
ghost use Rattle.std.specs.Prelude.{◌≡◌, ℕ, ◌+◌, Bool, true, false, [], ◌∷◌, Option, None};
ghost use Rattle.atomic_table.specs.Table.{State, opening};
ghost use Rattle.pm_board_home.specs.Homes.{IsAlone, IsAtHome, IsOut, TakesByRule, GivesByRule, DealsByRule, GathersByRule, FoundsByRule};

/// What lies at a board's home, by what each seat knows of it. The home has a word and a slot. The word is 0 while the value
/// lies there, and else by whom it was taken.
pub trait Home {
    /// What a seat knows of it.
    type Knows;

    /// The rule of word and slot, and of what all seats know.
    ghost rule: { State (Option Self) Self.Knows → Type 0 };

    /// The word of a new board: 0 where a value may be laid there.
    ghost begins: { ℕ };

    /// What the first seat knows of a new board, and once it has the empty slot.
    ghost first: { Self.Knows };

    ghost founding: { Self.Knows };

    /// The seat has the value.
    ghost has: { Self.Knows → Bool };

    /// It is the supervisor's.
    ghost leads: { Self.Knows → Bool };

    /// It is the supervisor's, and the value is at home or with another.
    ghost lends: { Self.Knows → Bool };

    /// It takes the value by this number: the word is one more then.
    ghost numbered: { Self.Knows → ℕ → Type 0 };

    /// The value's generation, as who has it knows it, and the supervisor.
    ghost stamp: { Self.Knows → ℕ };

    /// A value's generation.
    ghost stamp_of: { Self → ℕ };

    /// Who knew this and took this value knows that.
    ghost takes: { Self.Knows → Self → Self.Knows → Type 0 };

    /// Who knows this may give this value back, and knows that then.
    ghost gives: { Self.Knows → Self → Self.Knows → Type 0 };

    /// The supervisor's seat, that knows this, may take in one that knows that.
    ghost joins: { Self.Knows → Self.Knows → Type 0 };

    /// What the supervisor's seat knows once it has made another, and what that one knows.
    ghost dealt: { Self.Knows → Self.Knows };

    ghost next: { Self.Knows → Self.Knows };

    /// What it knows once it has taken in another, and what is left of that one.
    ghost taken_in: { Self.Knows → Self.Knows → Self.Knows };

    ghost spent: { Self.Knows };

    /// The value's generation.
    fn generation(&self) -> u32
        ensures { result ≡ stamp_of self.now };

    // the rule holds of a new board
    ghost opens: { rule (opening (begins ∷ []) (None ∷ []) first) };

    ghost starts: { (leads first ≡ true) × (lends first ≡ false) };

    // a value may be laid there where the board begins so
    ghost founds: { begins ≡ 0 → FoundsByRule rule first founding };

    ghost founded: { begins ≡ 0 → (has founding ≡ true) × (leads founding ≡ true)
        × (lends founding ≡ false) × numbered founding 0 };

    // between any two steps
    ghost alone: { IsAlone rule has leads lends stamp };

    ghost at_home: { IsAtHome rule leads lends stamp stamp_of };

    ghost out: { IsOut rule has leads lends };

    // a take
    ghost take: { TakesByRule rule has numbered takes };

    ghost taken: { (u v : Self.Knows) (x : Self) → takes u x v
        → (has v ≡ true) × (leads v ≡ leads u) × (lends v ≡ false) × (stamp v ≡ stamp_of x) };

    ghost taken_number: { (u v : Self.Knows) (x : Self) (n : ℕ) → takes u x v → numbered u n
        → numbered v n };

    ghost taken_stamp: { (u v : Self.Knows) (x : Self) → takes u x v → lends u ≡ true
        → stamp_of x ≡ stamp u };

    // a give
    ghost give: { GivesByRule rule has gives };

    ghost given: { (u v : Self.Knows) (x : Self) → gives u x v
        → (has v ≡ false) × (leads v ≡ leads u) × (leads u ≡ true → lends v ≡ true) };

    ghost given_number: { (u v : Self.Knows) (x : Self) (n : ℕ) → gives u x v → numbered u n
        → numbered v n };

    ghost given_stamp: { (u v : Self.Knows) (x : Self) → gives u x v → lends v ≡ true
        → stamp v ≡ stamp_of x };

    // a new seat
    ghost deal: { DealsByRule rule has leads dealt next };

    ghost dealt_as: { (u : Self.Knows) → (has (dealt u) ≡ has u) × (leads (dealt u) ≡ leads u)
        × (lends (dealt u) ≡ lends u) × (stamp (dealt u) ≡ stamp u) × (has (next u) ≡ false) };

    ghost dealt_number: { (u : Self.Knows) (n : ℕ) → leads u ≡ true → has u ≡ false → numbered u n
        → numbered (dealt u) (n + 1) × numbered (next u) n };

    // and one that is taken in
    ghost gather: { GathersByRule rule leads joins taken_in spent };

    ghost gathered_as: { (u v : Self.Knows) → (has (taken_in u v) ≡ has u)
        × (leads (taken_in u v) ≡ leads u) × (lends (taken_in u v) ≡ lends u)
        × (stamp (taken_in u v) ≡ stamp u) × (has spent ≡ false) };

    ghost gathered_number: { (u v : Self.Knows) (n : ℕ) → numbered u n → numbered (taken_in u v) n };
}
