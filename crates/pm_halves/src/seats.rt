//! Two seats of one, and one of two.
ghost use Rattle.std.specs.Prelude.{◌≡◌};
ghost use Rattle.pm_halves.specs.Seats.{MaySplit, MayJoin, Knows, IsNewSeat};

use crate::plays::Pair;
use crate::seat::TwoSeat;
use crate::table::TwoTable;
use crate::tie::Tie;
use atomic_table::{Join, Split, TableRule};
use std::marker::PhantomData;

impl<
    X: Drop,
    Y: Drop,
    V,
    W,
    K,
    P: TableRule<X, V, K>,
    Q: TableRule<Y, W, K>,
    T: Tie<V, W>,
> TwoTable<X, Y, V, W, K, P, Q, T> {
    /// A new seat with a half of what this one knows of either part. This one keeps the other half, and its slots.
    pub fn split_seat<M: Split<V>, N: Split<W>>(
        &self,
        seat: &mut TwoSeat<X, Y, V, W, T>,
    ) -> TwoSeat<X, Y, V, W, T>
        requires { MaySplit P.holds Q.holds T.tied self.now seat.old
            (M.left seat.old.me.0, N.left seat.old.more.0)
            (M.right seat.old.me.0, N.right seat.old.more.0) }
        ensures left { Knows seat.old (M.left seat.old.me.0, N.left seat.old.more.0) seat.new }
        ensures right { IsNewSeat seat.old (M.right seat.old.me.0, N.right seat.old.more.0) result }
    {
        let new = self.table.shared.split_seat::<Pair<M, N>>(&mut seat.seat);
        TwoSeat {
            seat: new,
            tie: PhantomData,
        }
    }

    /// Takes in another seat, which holds no slot, with what it knows of either part.
    pub fn join_seat<M: Join<V>, N: Join<W>>(
        &self,
        seat: &mut TwoSeat<X, Y, V, W, T>,
        other: TwoSeat<X, Y, V, W, T>,
    )
        requires { MayJoin P.holds Q.holds T.tied self.now seat.old other
            (M.both seat.old.me.0 other.me.0, N.both seat.old.more.0 other.more.0)
            (M.spent, N.spent) }
        ensures { Knows seat.old
            (M.both seat.old.me.0 other.me.0, N.both seat.old.more.0 other.more.0) seat.new }
    {
        let TwoSeat {
            seat: other,
            tie: _,
        } = other;
        self.table
            .shared
            .join_seat::<Pair<M, N>>(&mut seat.seat, other);
    }
}
