//! The rule of the table, and what each step tells the seat that makes it.
ghost use Rattle.std.specs.Prelude.{ℕ, ◌+◌, ◌*◌, [], Bool, true};
ghost use Rattle.pm_board_words.specs.declared.views.Cancel.{Cancel};

use atomic_table::{Join, Play, Split, TableRule};
use pm_board_home::{AtHome, Home, HomeView};
use pm_board_words::{Letter, SessionLimit, View};
use pm_halves::{Tells, Tie, TwoSeat, TwoTable};
use std::marker::{Brand, PhantomData};

/// How many slots there are, and how many sessions may be attached.
#[derive(Drop)]
pub(crate) struct Limits {
    pub(crate) slots: u64,
    pub(crate) sessions: SessionLimit,
}

pub(crate) struct Slots<J> {
    letter: PhantomData<J>,
}

impl<J: Letter> TableRule<Option<J>, View<J::Told>, Limits> for Slots<J> {
    ghost use Rattle.pm_board.specs.{History.Kept, Told.newcomer};

    ghost holds = { λ k. Kept J.Letter k.sessions };

    ghost first = { λ k. newcomer k.slots k.sessions };
}

/// What ties what seats know of the board to what they know of its home.
pub(crate) struct Ties<J, H> {
    of: PhantomData<(J, H)>,
}

impl<J: Letter, H: Home> Tie<View<J::Told>, HomeView<H::Knows>> for Ties<J, H> {
    ghost use Rattle.pm_board.specs.{Slots.child_slots, Ties.Tied};

    ghost words = { λ n. 3 * child_slots n + 1 };

    ghost places = { 1 };

    ghost tied = { Tied H.Home };
}

/// What board and home tell together of a take.
impl<J: Letter, H: Home> Tells<View<J::Told>, HomeView<H::Knows>> for Ties<J, H> {
    ghost use Rattle.pm_board.specs.Ties.{TellsStamp};

    ghost tells = { TellsStamp H.Home };
}

/// And of a give, which is nothing.
pub(crate) struct Silent;

impl<V, W> Tells<V, W> for Silent {
    ghost tells = { λ _ _ _. Unit {0} };
}

pub(crate) type Words<J, H> = TwoTable<
    Option<J>,
    Option<H>,
    View<<J as Letter>::Told>,
    HomeView<<H as Home>::Knows>,
    Limits,
    Slots<J>,
    AtHome<H>,
    Ties<J, H>,
>;

pub(crate) type Seated<J, H> = TwoSeat<
    Option<J>,
    Option<H>,
    View<<J as Letter>::Told>,
    HomeView<<H as Home>::Knows>,
    Ties<J, H>,
>;

pub(crate) struct Arms;

impl<J, D> Play<Option<J>, View<D>> for Arms {
    ghost use Rattle.pm_board.specs.Told as told;

    ghost then = { told.Arms };
}

pub(crate) struct Clears;

impl<J, D> Play<Option<J>, View<D>> for Clears {
    ghost use Rattle.pm_board.specs.Told as told;

    ghost then = { told.Clears };
}

pub(crate) struct Looks;

impl<J, D> Play<Option<J>, View<D>> for Looks {
    ghost use Rattle.pm_board.specs.Told as told;

    ghost then = { told.Looks };
}

pub(crate) struct Loads;

impl<J, D> Play<Option<J>, View<D>> for Loads {
    ghost use Rattle.pm_board.specs.Told as told;

    ghost then = { told.Loads };
}

pub(crate) struct Compares;

impl<J, D> Play<Option<J>, View<D>> for Compares {
    ghost use Rattle.pm_board.specs.Told as told;

    ghost then = { told.Compares };
}

pub(crate) struct Deals;

impl<D> Split<View<D>> for Deals {
    ghost use Rattle.pm_board.specs.Told.{dealt_more, next_post};

    ghost left = { dealt_more };

    ghost right = { next_post };
}

pub(crate) struct Gathers;

impl<D> Join<View<D>> for Gathers {
    ghost use Rattle.pm_board_words.specs.declared.views.View.TheVariants.{Spent};
    ghost use Rattle.pm_board.specs.Told.{taken_in};

    ghost both = { taken_in };

    ghost spent = { Spent };
}

pub(crate) struct Marks;

impl<J, D> Play<Option<J>, View<D>> for Marks {
    ghost use Rattle.pm_board.specs.Told as told;

    ghost then = { told.Marks };
}

pub(crate) struct Unmarks;

impl<J, D> Play<Option<J>, View<D>> for Unmarks {
    ghost use Rattle.pm_board.specs.Told as told;

    ghost then = { told.Unmarks };
}

/// Whether it is an ordinary child that tries at the gate. The words don't tell it.
pub(crate) trait Comes {
    ghost is_ordinary: { Bool };
}

impl Comes for Brand {
    ghost is_ordinary = { true };
}

pub(crate) struct Tries<C> {
    comes: PhantomData<C>,
}

impl<J, D, C: Comes> Play<Option<J>, View<D>> for Tries<C> {
    ghost use Rattle.pm_board.specs.Told as told;

    ghost then = { told.Tries C.is_ordinary };
}

pub(crate) struct BacksOut;

impl<J, D> Play<Option<J>, View<D>> for BacksOut {
    ghost use Rattle.pm_board.specs.Told as told;

    ghost then = { told.BacksOut };
}

pub(crate) struct Detaches;

impl<J, D> Play<Option<J>, View<D>> for Detaches {
    ghost use Rattle.pm_board.specs.Told as told;

    ghost then = { told.Detaches };
}

pub(crate) struct Quits;

impl<J, D> Play<Option<J>, View<D>> for Quits {
    ghost use Rattle.pm_board.specs.Told as told;

    ghost then = { told.Quits };
}

pub(crate) struct Readies;

impl<J, D> Play<Option<J>, View<D>> for Readies {
    ghost use Rattle.pm_board.specs.Told as told;

    ghost then = { told.Readies };
}

pub(crate) struct Resets;

impl<J, D> Play<Option<J>, View<D>> for Resets {
    ghost use Rattle.pm_board.specs.Told as told;

    ghost then = { told.Resets };
}

pub(crate) struct Sends;

impl<J, D> Play<Option<J>, View<D>> for Sends {
    ghost use Rattle.pm_board.specs.Told as told;

    ghost then = { told.Sends };
}

pub(crate) struct Takes;

impl<J, D> Play<Option<J>, View<D>> for Takes {
    ghost use Rattle.pm_board.specs.Told as told;

    ghost then = { told.Takes };
}

pub(crate) struct Heeds;

impl<J, D> Play<Option<J>, View<D>> for Heeds {
    ghost use Rattle.pm_board.specs.Told as told;

    ghost then = { told.Heeds };
}

pub(crate) struct LooksAtLatch;

impl<J, D> Play<Option<J>, View<D>> for LooksAtLatch {
    ghost use Rattle.pm_board.specs.Told as told;

    ghost then = { told.LooksAtLatch };
}

/// Which cancel a step makes. The words don't tell it, since they have no room for seed and key.
pub(crate) trait Made {
    ghost cancel: { Cancel };
}

impl Made for Brand {
    ghost cancel = { record { slot = 0; pid = 0; seed = []; key = 0 } };
}

pub(crate) struct Cancels<C> {
    cancel: PhantomData<C>,
}

impl<J, D, C: Made> Play<Option<J>, View<D>> for Cancels<C> {
    ghost use Rattle.pm_board.specs.Told as told;

    ghost then = { told.Cancels C.cancel };
}

pub(crate) struct Assigns<J> {
    letter: PhantomData<J>,
}

impl<J: Letter> Play<Option<J>, View<J::Told>> for Assigns<J> {
    ghost use Rattle.pm_board.specs.Told as told;

    ghost then = { told.Assigns J.Letter };
}

pub(crate) struct Starts<J> {
    letter: PhantomData<J>,
}

impl<J: Letter> Play<Option<J>, View<J::Told>> for Starts<J> {
    ghost use Rattle.pm_board.specs.Told as told;

    ghost then = { told.Starts J.Letter };
}

pub(crate) struct Ends<J> {
    letter: PhantomData<J>,
}

impl<J: Letter> Play<Option<J>, View<J::Told>> for Ends<J> {
    ghost use Rattle.pm_board.specs.Told as told;

    ghost then = { told.Ends J.Letter };
}

pub(crate) struct Releases<J> {
    letter: PhantomData<J>,
}

impl<J: Letter> Play<Option<J>, View<J::Told>> for Releases<J> {
    ghost use Rattle.pm_board.specs.Told as told;

    ghost then = { told.Releases J.Letter };
}
