//! The rule of a home as a board's table has it, and what each step there tells.
ghost use Rattle.std.specs.Prelude.{ℕ};

use crate::home::Home;
use crate::views::HomeView;
use atomic_table::{Join, Play, Split, TableRule};
use std::marker::{Brand, PhantomData};

/// A home's rule.
pub struct AtHome<H> {
    of: PhantomData<H>,
}

impl<H: Home, K> TableRule<Option<H>, HomeView<H::Knows>, K> for AtHome<H> {
    ghost use Rattle.pm_board_home.specs.Views.{KeptBy, no_takes};

    ghost holds = { λ _. KeptBy H.rule };

    ghost first = { λ _. no_takes H.first };
}

/// A take.
pub struct Takes<H> {
    of: PhantomData<H>,
}

impl<H: Home> Play<Option<H>, HomeView<H::Knows>> for Takes<H> {
    ghost use Rattle.pm_board_home.specs.Views.{Took};

    ghost then = { λ st m found now. Took H.takes m.0 found now };
}

/// What a seat says of its give. The words of the table have no room for it.
pub trait Given<K> {
    /// It knows such a thing then.
    ghost then: { K → Type 0 };
}

impl<K> Given<K> for Brand {
    ghost then = { λ _. Unit {0} };
}

/// A give.
pub struct Gives<H, C> {
    of: PhantomData<(H, C)>,
}

impl<H: Home, C: Given<H::Knows>> Play<Option<H>, HomeView<H::Knows>> for Gives<H, C> {
    ghost use Rattle.pm_board_home.specs.Views.{Gave};

    ghost then = { λ st m found now. Gave H.gives C.then m now };
}

/// The first step at the home of a new board.
pub struct Founds<H> {
    of: PhantomData<H>,
}

impl<H: Home> Play<Option<H>, HomeView<H::Knows>> for Founds<H> {
    ghost use Rattle.pm_board_home.specs.Views.{Founded};

    ghost then = { λ st m found now. Founded H.founding m found now };
}

/// A new seat.
pub struct Deals<H> {
    of: PhantomData<H>,
}

impl<H: Home> Split<HomeView<H::Knows>> for Deals<H> {
    ghost use Rattle.pm_board_home.specs.Views.{no_takes, with_knows};

    ghost left = { λ u. with_knows u (H.dealt u.knows) };

    ghost right = { λ u. no_takes (H.next u.knows) };
}

/// One that is taken in.
pub struct Gathers<H> {
    of: PhantomData<H>,
}

impl<H: Home> Join<HomeView<H::Knows>> for Gathers<H> {
    ghost use Rattle.pm_board_home.specs.Views.{no_takes, with_knows};

    ghost both = { λ u v. with_knows u (H.taken_in u.knows v.knows) };

    ghost spent = { no_takes H.spent };
}
