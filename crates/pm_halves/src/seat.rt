//! A seat at both parts.
use crate::lot::Lot;
use crate::tie::Tie;
use atomic_table::Seat;
use std::marker::{Model, PhantomData};

/// A seat at both parts of a table. It has no bytes.
#[derive(Drop)]
pub struct TwoSeat<X, Y, V, W, T: Tie<V, W>> {
    pub(crate) seat: Seat<Lot<X, Y>, (V, W)>,
    pub(crate) tie: PhantomData<T>,
}

impl<X, Y, V, W, T: Tie<V, W>> Model for TwoSeat<X, Y, V, W, T> {
    ghost use Rattle.pm_halves.specs.Sitting.{Sitting, sitting, IsWhole};

    ghost Value = { Sitting X Y V W };

    ghost view = { λ s. sitting T.places s.seat.table_id s.seat.id s.seat.me };

    ghost invariant = { λ s. IsWhole T.words T.places s.seat.table_id s.seat.me };
}
