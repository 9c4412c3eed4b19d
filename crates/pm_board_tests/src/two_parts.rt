//! Two counters in a table of two parts, each under a rule of its own. The first is a word, the second a number that lies at a
//! place. What ties them is that the second is never less than the first, and at most one more: so whoever takes the second
//! knows what it may be by what it knows of the first.
ghost use Rattle.std.specs.Prelude.{◌≡◌, ◌<◌, ◌+◌, [], IfOk};
ghost use Rattle.pm_board_tests.specs.TwoCounters.{HasCounted};

use crate::second::Second;
use atomic_table::{Play, TableRule};
use pm_halves::{Hand, Tells, Tie, TwoSeat, TwoTable};
use std::alloc::{AllocError, Global};
use std::test::Fail;

const ROUNDS: u64 = 100;

struct FirstRule;

impl TableRule<Option<u64>, u64, ()> for FirstRule {
    ghost use Rattle.pm_board_tests.specs.TwoCounters.{CountsFirst};

    ghost holds = { λ _. CountsFirst };

    ghost first = { λ _. 0 };
}

struct SecondRule;

impl TableRule<Option<u64>, Second, ()> for SecondRule {
    ghost use Rattle.pm_board_tests.specs.{TwoCounters.CountsSecond, declared.second.Second.TheVariants.Fresh};

    ghost holds = { λ _. CountsSecond };

    ghost first = { λ _. Fresh };
}

struct OneBefore;

impl Tie<u64, Second> for OneBefore {
    ghost use Rattle.pm_board_tests.specs.TwoCounters.{AreTied};

    ghost words = { λ _. 1 };

    ghost places = { 1 };

    ghost tied = { AreTied };
}

impl Tells<u64, Second> for OneBefore {
    ghost use Rattle.pm_board_tests.specs.TwoCounters.{IsOneBefore};

    ghost tells = { λ v _ w. IsOneBefore v w };
}

struct Reads;

impl Play<Option<u64>, u64> for Reads {
    ghost use Rattle.pm_board_tests.specs.TwoCounters as counters;

    ghost then = { counters.Reads };
}

struct Counts;

impl Play<Option<u64>, u64> for Counts {
    ghost use Rattle.pm_board_tests.specs.TwoCounters as counters;

    ghost then = { counters.Counts };
}

struct Takes;

impl Play<Option<u64>, Second> for Takes {
    ghost use Rattle.pm_board_tests.specs.TwoCounters as counters;

    ghost then = { counters.Takes };
}

struct Gives;

impl Play<Option<u64>, Second> for Gives {
    ghost use Rattle.pm_board_tests.specs.TwoCounters as counters;

    ghost then = { counters.Gives };
}

type Counters = TwoTable<
    Option<u64>,
    Option<u64>,
    u64,
    Second,
    (),
    FirstRule,
    SecondRule,
    OneBefore,
>;

type Counter = TwoSeat<Option<u64>, Option<u64>, u64, Second, OneBefore>;

/// The one place, of a seat that holds nothing else.
const PLACE: Hand = Hand {
    place: 0,
    firsts: 0,
    before: 0,
    after: 0,
};

// Both counters at 0.
fn begin(alloc: Global) -> Result<(Counters, Counter), AllocError>
    ensures { IfOk result (λ made. (made.1.table ≡ made.0.table) × (made.0.table.words ≡ 1)
        × HasCounted 0 made.1) }
{
    let (table, mut seat) = Counters::vacant(alloc, &[0], &[0], 0, &())?;
    match table.take::<Takes, OneBefore>(&mut seat, 0, 1, None) {
        None => unreachable!(),
        Some(_) => {}
    }
    table.give::<Gives, OneBefore>(&mut seat, PLACE, Some(0));
    Ok((table, seat))
}

// One more of the second, and then of the first. Returns both as they were.
fn count(table: &Counters, seat: &mut Counter, round: u64) -> (u64, u64)
    requires table { (seat.old.table ≡ table.now.table) × (table.now.table.words ≡ 1) }
    requires counted { HasCounted round seat.old × (round < 1000) }
    ensures table { seat.new.table ≡ seat.old.table }
    ensures counted { HasCounted (round + 1) seat.new }
{
    let first = table.load::<Reads>(seat, 0);
    let second = match table.take::<Takes, OneBefore>(seat, 0, 1, None) {
        None => unreachable!(),
        Some(value) => value.unwrap(),
    };
    table.give::<Gives, OneBefore>(seat, PLACE, Some(second + 1));
    table.store::<Counts>(seat, 0, second + 1);
    (first, second)
}

// Many rounds, and whether the counters were together at each.
fn count_all(table: &Counters, seat: &mut Counter) -> bool
    requires table { (seat.old.table ≡ table.now.table) × (table.now.table.words ≡ 1) }
    requires counted { HasCounted 0 seat.old }
{
    let mut together = true;
    for round in 0..ROUNDS {
        if count(table, seat, round) != (round, round) {
            together = false;
        }
    }
    together
}

#[test]
fn two_counters_stay_together(rt: HostRuntime) -> Result<(), Fail> {
    let (table, mut seat) = begin(rt.alloc())?;
    assert_eq!(rt; (table.word_count(), table.slot_count()), (1, 0));
    assert!(rt; count_all(&table, &mut seat));
    assert_eq!(rt; (table.peek(0), table.peek(1)), (ROUNDS, 0));
    Ok(())
}
