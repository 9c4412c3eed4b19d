//! What each step on the whole table tells, by what one on a part does.
use crate::lot::Lot;
use crate::tie::{Tells, Tie};
use atomic_table::{Join, Play, Split};
use std::marker::PhantomData;

/// A step on a word of the first part.
pub(crate) struct OnFirst<M, T> {
    of: PhantomData<(M, T)>,
}

impl<X, Y, V, W, M: Play<X, V>, T: Tie<V, W>> Play<Lot<X, Y>, (V, W)> for OnFirst<M, T> {
    ghost use Rattle.pm_halves.specs.Steps.{TellsFirst};

    ghost then = { TellsFirst T.places M.then };
}

/// A take from a place of the second part.
pub(crate) struct Takes<M, N, T> {
    of: PhantomData<(M, N, T)>,
}

impl<X, Y, V, W, M: Play<Y, W>, N: Tells<V, W>, T: Tie<V, W>> Play<Lot<X, Y>, (V, W)>
    for Takes<M, N, T> {
    ghost use Rattle.pm_halves.specs.Places.{TellsTake};

    ghost then = { TellsTake T.words T.places M.then N.tells };
}

/// A give there.
pub(crate) struct Gives<M, N, T> {
    of: PhantomData<(M, N, T)>,
}

impl<X, Y, V, W, M: Play<Y, W>, N: Tells<V, W>, T: Tie<V, W>> Play<Lot<X, Y>, (V, W)>
    for Gives<M, N, T> {
    ghost use Rattle.pm_halves.specs.Places.{TellsGive};

    ghost then = { TellsGive T.words T.places M.then N.tells };
}

/// A split, or a join, in both parts.
pub(crate) struct Pair<M, N> {
    of: PhantomData<(M, N)>,
}

impl<V, W, M: Split<V>, N: Split<W>> Split<(V, W)> for Pair<M, N> {
    ghost left = { λ z. (M.left z.0, N.left z.1) };

    ghost right = { λ z. (M.right z.0, N.right z.1) };
}

impl<V, W, M: Join<V>, N: Join<W>> Join<(V, W)> for Pair<M, N> {
    ghost both = { λ z y. (M.both z.0 y.0, N.both z.1 y.1) };

    ghost spent = { (M.spent, N.spent) };
}
