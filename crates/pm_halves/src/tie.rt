//! What makes one rule of two.
ghost use Rattle.std.specs.Prelude.{ℕ, List};

use crate::lot::Lot;
use atomic_table::TableRule;
use std::marker::PhantomData;

/// How the two parts of a table are laid, and what ties the views of its seats.
pub trait Tie<V, W> {
    // How many words the first part has, where it has so many slots.
    ghost words: { ℕ → ℕ };

    // How many places the second part has, which are as many words and slots.
    ghost places: { ℕ };

    ghost tied: { List (V × W) → Type 0 };
}

/// What both parts tell together of a step on the second one: by what the seat knows of the first, the number that the step
/// met, and what the seat knows of the second afterwards.
pub trait Tells<V, W> {
    ghost tells: { V → ℕ → W → Type 0 };
}

/// The rule of the whole table.
pub(crate) struct Both<P, Q, T> {
    of: PhantomData<(P, Q, T)>,
}

impl<X, Y, V, W, K, P: TableRule<X, V, K>, Q: TableRule<Y, W, K>, T: Tie<V, W>> TableRule<
    Lot<X, Y>,
    (V, W),
    K,
> for Both<P, Q, T> {
    ghost use Rattle.pm_halves.specs.{Halves.Halves, declared.lot.Lot.TheVariants.{First, Second}};

    ghost holds = { λ k. Halves First Second T.words T.places (P.holds k) (Q.holds k) T.tied };

    ghost first = { λ k. (P.first k, Q.first k) };
}
