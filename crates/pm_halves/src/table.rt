//! The table, and how it is made.
ghost use Rattle.std.specs.Prelude.{◌≡◌, ◌<◌, ◌++◌, [], ◌∷◌, None, IfOk, length, map, replicate};
ghost use Rattle.pm_halves.specs.{declared.lot.Lot.TheVariants.{First, Second}, Seats.{OpensVacant, IsNewTable}};

use crate::lot::Lot;
use crate::seat::TwoSeat;
use crate::tie::{Both, Tie};
use atomic_table::{Table, TableRule};
use std::alloc::{AllocError, Global};
use std::marker::{Model, PhantomData};

/// A table of two parts.
#[derive(Drop)]
pub struct TwoTable<
    X: Drop,
    Y: Drop,
    V,
    W,
    K,
    P: TableRule<X, V, K>,
    Q: TableRule<Y, W, K>,
    T: Tie<V, W>,
> {
    pub(crate) table: Table<Lot<X, Y>, (V, W), K, Both<P, Q, T>, Global>,
    /// Those of the second part.
    pub(crate) places: usize,
}

impl<X: Drop, Y: Drop, V, W, K, P: TableRule<X, V, K>, Q: TableRule<Y, W, K>, T: Tie<V, W>> Model
    for TwoTable<X, Y, V, W, K, P, Q, T> {
    ghost use Rattle.pm_halves.specs.Sitting.{Laid, laid, HasPlaces};

    ghost Value = { Laid K };

    ghost view = { λ t. laid T.places t.table.shared.table_id t.table.shared.key };

    ghost invariant = { λ t. HasPlaces T.words T.places t.table.shared.table_id t.places };
}

impl<
    X: Drop,
    Y: Drop,
    V,
    W,
    K,
    P: TableRule<X, V, K>,
    Q: TableRule<Y, W, K>,
    T: Tie<V, W>,
> TwoTable<X, Y, V, W, K, P, Q, T> {
    /// How many words the first part has.
    pub fn word_count(&self) -> usize
        ensures { result ≡ self.now.table.words }
    {
        self.table.word_count() - self.places
    }

    /// How many slots the first part has.
    pub fn slot_count(&self) -> usize
        ensures { result ≡ self.now.table.slots }
    {
        self.table.slot_count() - self.places
    }
}

impl<
    A: Drop,
    B: Drop,
    V,
    W,
    K,
    P: TableRule<Option<A>, V, K>,
    Q: TableRule<Option<B>, W, K>,
    T: Tie<V, W>,
> TwoTable<Option<A>, Option<B>, V, W, K, P, Q, T> {
    /// A table of these words, whose first part has so many slots. Each slot starts as `None`.
    pub fn vacant(
        alloc: Global,
        words: &[u64],
        more: &[u64],
        slots: usize,
        about: &K,
    ) -> Result<
        (
            TwoTable<Option<A>, Option<B>, V, W, K, P, Q, T>,
            TwoSeat<Option<A>, Option<B>, V, W, T>,
        ),
        AllocError,
    >
        requires words { T.words slots ≡ length words.now }
        requires places { (T.places ≡ length more.now) × (0 < T.places) }
        requires first { OpensVacant P.holds about.now words.now slots (P.first about.now) }
        requires second { OpensVacant Q.holds about.now more.now T.places (Q.first about.now) }
        requires tied { T.tied ((P.first about.now, Q.first about.now) ∷ []) }
        ensures { IfOk result (IsNewTable about.now (length words.now) slots
            (P.first about.now, Q.first about.now)) }
    {
        let places = more.len();
        let mut all = Vec::with_capacity(alloc, words.len())?;
        all.extend_from_slice(words)?;
        all.extend_from_slice(more)?;
        let lots = vacant_lots(alloc, slots, places)?;
        let Ok((table, seat)) = Table::new(alloc, all.as_slice(), lots, about) else {
            return Err(AllocError);
        };
        Ok((
            TwoTable { table, places },
            TwoSeat {
                seat,
                tie: PhantomData,
            },
        ))
    }
}

// Empty slots, so many of the first part and then so many of the second.
fn vacant_lots<A: Drop, B: Drop>(
    alloc: Global,
    firsts: usize,
    seconds: usize,
) -> Result<Vec<Lot<Option<A>, Option<B>>>, AllocError>
    ensures { IfOk result (λ lots. lots.items ≡ map First (replicate firsts None)
        ++ map Second (replicate seconds None)) }
{
    let mut lots = Vec::new(alloc);
    for _ in 0..firsts {
        lots.push(Lot::First(None))?;
    }
    for _ in 0..seconds {
        lots.push(Lot::Second(None))?;
    }
    Ok(lots)
}
