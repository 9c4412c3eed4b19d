//! Many workers at one gate, through a thousand generations.
ghost use Rattle.std.specs.Prelude.{◌≡◌, ◌<◌, ◌+◌, ◌*◌, ◌≤◌, true, false, None};
ghost use Rattle.pm_board.specs.{pm_supervisor.declared.Reason.TheVariants.Crash, pm_board_words.declared.views.RosterStep.TheVariants.{Quit, Ready}, Gate.gate_of, Models.{MayOpen, HasStepped}, Places.{SlotServes, IsAssigned, is_auxiliary, is_connection}};
ghost use Rattle.pm_board_tests.specs.GateChildren.{HasChildren, HasReaped, IsBetween, IsEmpty, shut_gate};

use crate::gate::progress::{Progress, SESSIONS, WORKERS};
use crate::gate::scene::{Ending, FIRST, Newcomer, Note, new_board, offer, task, up_to};
use crate::gate::worker::{DEATH, Worker, new_workers, places, work};
use pm_board::{Look, Released, Roster};
use pm_child_life::GateNo;
use pm_exit::Kind;
use pm_gate::{generation, quit, ready, reset};
use pm_supervisor::Reason;
use std::alloc::{AllocError, Global};
use std::sync::Wait;
use std::test::Fail;
use std::thread;
use std::thread::Threads;

/// They end by a notice. After them comes one that doesn't.
const GENERATIONS: u32 = 1_000;

/// How often each child of the last generation is attached.
const CALM: u32 = 100;

/// How often the roster lets others run while its gate is open.
const PATIENCE: u32 = 20;

/// What the children of some generations told.
#[derive(Clone, Copy)]
struct Tally {
    attaches: u32,
    faults: u32,
}

impl Tally {
    fn add(&mut self, other: Tally) {
        self.attaches = self.attaches.saturating_add(other.attaches);
        self.faults = self.faults.saturating_add(other.faults);
    }

    fn judge(&mut self, is_right: bool) {
        if !is_right {
            self.faults = self.faults.saturating_add(1);
        }
    }
}

const NOTHING: Tally = Tally {
    attaches: 0,
    faults: 0,
};

// One worker's child is a backend.
fn kind_of(place: u32) -> Kind
    ensures session { is_auxiliary result ≡ false }
    ensures serves { place < 8 → SlotServes 15 (3 + place) result }
    ensures first { is_connection result ≡ true → place ≡ 0 }
{
    if place == 0 {
        Kind::Backend
    } else {
        Kind::Worker
    }
}

// In every other generation one child dies attached.
fn ending_of(round: u32, place: u32) -> Ending {
    if round == GENERATIONS {
        Ending::After(CALM)
    } else if round % 2 == 1 && round / 2 % WORKERS == place {
        Ending::Attached
    } else {
        Ending::AtNotice
    }
}

fn child_of(round: u32, place: u32) -> Newcomer
    requires { (round ≤ 1000) × (place < 8) }
    ensures slot { result.slot ≡ 3 + place }
    ensures pid { result.pid ≡ round * 8 + place + 1 }
    ensures session { is_auxiliary result.kind ≡ false }
    ensures serves { SlotServes 15 (3 + place) result.kind }
    ensures first { is_connection result.kind ≡ true → place ≡ 0 }
{
    Newcomer {
        slot: FIRST + place,
        pid: round * WORKERS + place + 1,
        kind: kind_of(place),
    }
}

// Each worker gets a child.
fn fill(roster: &mut Roster<Note>, round: u32)
    requires round { round ≤ 1000 }
    requires between { IsBetween (round + 1) (round * 8) roster.old.knows }
    ensures children { HasChildren 3 11 (round * 8 + 8) roster.new.knows }
    ensures gate { gate_of roster.new.knows ≡ shut_gate (round + 1) }
{
    for place in 0..WORKERS {
        let note = task(round + 1, ending_of(round, place));
        offer(roster, child_of(round, place), note);
    }
}

fn open(roster: &mut Roster<Note>, progress: &Progress)
    requires { MayOpen roster.old.knows }
    ensures { HasStepped (Ready roster.old.knows.generation) roster.old.knows roster.new.knows }
{
    let number = generation(roster);
    progress.begins_to_open(number);
    ready(roster);
    progress.has_opened(number);
}

fn shut(roster: &mut Roster<Note>, progress: &Progress)
    requires { roster.old.knows.noticed ≡ None }
    ensures { HasStepped (Quit Crash roster.old.knows.generation) roster.old.knows
        roster.new.knows }
{
    let number = generation(roster);
    progress.begins_to_shut(number);
    quit(roster, Reason::Crash);
    progress.has_shut(number);
}

fn let_work() {
    for _ in 0..PATIENCE {
        thread::yield_now();
    }
}

// The child of this slot, once it has exited.
fn reap_ended<R: Wait>(rt: &R, roster: &mut Roster<Note>, slot: u32) -> Released<Note>
    requires { IsAssigned roster.old.knows slot }
    ensures { HasReaped slot roster.old.knows roster.new.knows }
{
    for _ in rt.forever() {
        match roster.look(slot) {
            Look::Running => thread::yield_now(),
            Look::Exited { .. } => return roster.release(slot),
        }
    }
    unreachable!()
}

// Whether a child that was released is the one that was given, and is marked exactly where it died attached.
fn is_right(released: &Released<Note>, round: u32, place: u32) -> bool
    requires { (round ≤ 1000) × (place < 8) }
{
    let child = child_of(round, place);
    let died = released.status == DEATH;
    released.pid == child.pid
        && released.kind == child.kind
        && released.was_active == died
        && released.job.generation == round + 1
        && released.job.ending == ending_of(round, place)
        && (!died || released.job.ending == Ending::Attached)
}

// All children of a generation.
fn reap_all<R: Wait>(rt: &R, roster: &mut Roster<Note>, round: u32) -> Tally
    requires round { round ≤ 1000 }
    requires children { HasChildren 3 11 (round * 8 + 8) roster.old.knows }
    ensures empty { IsEmpty (round * 8 + 8) roster.new.knows }
    ensures gate { gate_of roster.new.knows ≡ gate_of roster.old.knows }
{
    let mut tally = NOTHING;
    for place in 0..WORKERS {
        let released = reap_ended(rt, roster, FIRST + place);
        tally.add(Tally {
            attaches: released.job.attaches,
            faults: released.job.faults,
        });
        tally.judge(is_right(&released, round, place));
    }
    tally
}

// A generation from its first assign to the reset after it.
fn one_generation<R: Wait>(
    rt: &R,
    roster: &mut Roster<Note>,
    round: u32,
    progress: &Progress,
) -> Tally
    requires round { round < 1000 }
    requires between { IsBetween (round + 1) (round * 8) roster.old.knows }
    ensures { IsBetween (round + 2) (round * 8 + 8) roster.new.knows }
{
    fill(roster, round);
    open(roster, progress);
    let_work();
    shut(roster, progress);
    let mut tally = reap_all(rt, roster, round);
    tally.judge(progress.attached() == 0 && roster.used() == 0);
    let next = reset(roster);
    tally.judge(next.number == round + 2);
    tally
}

// All of them, and the one that no notice ends.
fn all_generations<R: Wait>(
    rt: &R,
    mut roster: Roster<Note>,
    progress: &Progress,
) -> (Tally, Roster<Note>)
    requires { IsBetween 1 0 roster.knows }
    ensures { IsEmpty 8008 result.1.knows }
{
    let mut tally = NOTHING;
    for round in 0..GENERATIONS {
        tally.add(one_generation(rt, &mut roster, round, progress));
    }
    fill(&mut roster, GENERATIONS);
    open(&mut roster, progress);
    tally.add(reap_all(rt, &mut roster, GENERATIONS));
    tally.judge(progress.attached() == 0 && generation(&roster) == GENERATIONS + 1);
    (tally, roster)
}

fn work_all<R: Threads + Wait + Sync>(
    rt: &R,
    workers: Vec<Worker>,
    progress: &Progress,
) -> Result<Vec<Worker>, AllocError> {
    thread::map_vec(
        rt,
        workers,
        &|worker| work(rt, worker, GENERATIONS + 1, progress),
    )
}

// What the generations told, and the places at the gate after them.
fn run<R: Threads + Wait + Sync>(
    rt: &R,
    alloc: Global,
) -> Result<(Tally, (u32, Option<GateNo>)), AllocError> {
    let (roster, mut posts) = new_board(alloc, up_to(SESSIONS))?;
    let workers = new_workers(alloc, &mut posts)?;
    let progress = Progress::new();
    let ((tally, mut roster), workers) = thread::join(
        rt,
        || all_generations(rt, roster, &progress),
        || work_all(rt, workers, &progress),
    );
    let free = places(&mut roster, workers?, (GENERATIONS + 1) * WORKERS);
    Ok((tally, free))
}

// The places at the gate of a new board.
fn first_places(alloc: Global) -> Result<(u32, Option<GateNo>), AllocError> {
    let (mut roster, mut posts) = new_board(alloc, up_to(SESSIONS))?;
    let workers = new_workers(alloc, &mut posts)?;
    ready(&mut roster);
    Ok(places(&mut roster, workers, 0))
}

#[test]
fn a_thousand_generations(rt: HostRuntime) -> Result<(), Fail> {
    let wanted = (SESSIONS, Some(GateNo::TooMany { count: SESSIONS }));
    assert_eq!(rt; first_places(rt.alloc())?, wanted);
    let (tally, free) = run(&rt, rt.alloc())?;
    assert_eq!(rt; tally.faults, 0);
    assert!(rt; tally.attaches >= WORKERS * CALM);
    assert_eq!(rt; free, wanted);
    Ok(())
}
