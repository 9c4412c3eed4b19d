//! The rule of the table, and what each step tells.
use crate::deed::Deed;
use crate::place::Place;
use crate::views::{Lent, View};
use atomic_table::{Join, Play, Split, Table, TableRule};
use pm_disk::Disk;
use pm_outside::Chronicle;
use pm_query::BookEntry;
use std::alloc::Global;
use std::marker::PhantomData;

pub(crate) struct Law<D, B> {
    of: PhantomData<(D, B)>,
}

impl<D: Disk, B: Chronicle<BookEntry>> TableRule<
    Option<Place<D, B>>,
    View<Place<D, B>, D, Lent<D>>,
    (),
> for Law<D, B> {
    ghost use Rattle.pm_store_shared.specs.{Rule.Kept, Stands.{Knows, Stands}, declared.views.View.TheVariants.Vacant};

    ghost holds = { λ _. Kept Stands Knows };

    ghost first = { λ _. Vacant };
}

pub(crate) type Guarded<D, B> = Table<
    Option<Place<D, B>>,
    View<Place<D, B>, D, Lent<D>>,
    (),
    Law<D, B>,
    Global,
>;

pub(crate) struct Opening;

impl<S, F, L> Play<Option<S>, View<S, F, L>> for Opening {
    ghost use Rattle.pm_store_shared.specs.Told.{Opens};

    ghost then = { Opens };
}

pub(crate) struct Founds;

impl<D: Disk, B: Chronicle<BookEntry>> Play<Option<Place<D, B>>, View<Place<D, B>, D, Lent<D>>>
    for Founds {
    ghost use Rattle.pm_store_shared.specs.Told.{Founded};

    ghost then = { Founded (λ place. place.disk) };
}

pub(crate) struct Takes;

impl<D: Disk, B: Chronicle<BookEntry>> Play<Option<Place<D, B>>, View<Place<D, B>, D, Lent<D>>>
    for Takes {
    ghost use Rattle.pm_store_shared.specs.{Stands.{Knows, Stands}, Told.Took};

    ghost then = { Took Stands Knows };
}

pub(crate) struct TakesAlone;

impl<D: Disk, B: Chronicle<BookEntry>> Play<Option<Place<D, B>>, View<Place<D, B>, D, Lent<D>>>
    for TakesAlone {
    ghost use Rattle.pm_store_shared.specs.{Stands.{Knows, Stands}, Told.TookAlone};

    ghost then = { TookAlone Stands Knows };
}

pub(crate) struct Gives<C> {
    deed: PhantomData<C>,
}

impl<S, F, L, C: Deed<L>> Play<Option<S>, View<S, F, L>> for Gives<C> {
    ghost use Rattle.pm_store_shared.specs.Told.{Gave};

    ghost then = { Gave C.told C.passes C.lent };
}

pub(crate) struct Deals;

impl<S, F, L> Split<View<S, F, L>> for Deals {
    ghost use Rattle.pm_store_shared.specs.Told.{dealt_more, next_hand};

    ghost left = { dealt_more };

    ghost right = { next_hand };
}

pub(crate) struct Gathers;

impl<S, F, L> Join<View<S, F, L>> for Gathers {
    ghost use Rattle.pm_store_shared.specs.{Told.taken_in, declared.views.View.TheVariants.Spent};

    ghost both = { taken_in };

    ghost spent = { Spent };
}
