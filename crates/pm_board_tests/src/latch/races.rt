//! Ten thousand children on two slots. Each is sent one kind of signal while it comes and goes, and cancels the children of
//! the pids beside its own, where those are to be cancelled at all.
ghost use Rattle.std.specs.Prelude.{◌≡◌, ◌<◌, ◌+◌};
ghost use Rattle.pm_board.specs.pm_board_words.declared.views.Work.TheVariants.{Idle};
ghost use Rattle.pm_board_tests.specs.LatchChildren.{IsNew, IsRunning, TakesTurns};

use crate::latch::children::{assign, exit, make, reap};
use crate::notes::Note;
use pm_board::{Post, Roster, Started};
use pm_child_life::Signals;
use pm_keys::key;
use pm_latch::{Signal, cancel, send, take};
use pm_supervisor::Reason;
use std::sync::Wait;
use std::test::Fail;
use std::thread;
use std::thread::Threads;

const SEED: [u8; 32] = [7; 32];

const CHILDREN: u32 = 10_000;

/// How often a child takes its signals.
const TAKES: u32 = 3;

fn signal_for(pid: u32) -> Signal {
    match pid % 5 {
        0 => Signal::Quit(Reason::Crash),
        1 => Signal::Quit(Reason::Stop),
        2 => Signal::Terminate,
        3 => Signal::Kill,
        _ => Signal::Checkpoint,
    }
}

fn is_cancelled(pid: u32) -> bool {
    pid % 3 == 0
}

// Whether all of this may be given to the child of this pid.
fn is_meant(pid: u32, given: Signals) -> bool {
    let number = pid % 5;
    let quit = match given.quit {
        None => true,
        Some(Reason::Crash) => number == 0,
        Some(Reason::Stop) => number == 1,
    };
    quit && (!given.terminate || number == 2)
        && (!given.kill || number == 3)
        && (!given.checkpoint || number == 4)
        && (!given.cancel || is_cancelled(pid))
}

// Cancels the child of this pid, if it is to be cancelled.
fn ask(post: &mut Post<Note>, pid: u32)
    ensures { post.new.knows.work ≡ post.old.knows.work }
{
    if pid > 0 && is_cancelled(pid) {
        cancel(post, &SEED, pid, key(&SEED, pid));
    }
}

// The life of the child of this pid, and how often it was given what wasn't meant for it.
fn live(post: &mut Post<Note>, pid: u32) -> u32
    requires { IsRunning post.old.knows.work }
    ensures { IsRunning post.new.knows.work }
{
    ask(post, pid.saturating_add(1));
    let mut wrong = 0u32;
    for _ in 0..TAKES {
        let given = take(post);
        if !is_meant(pid, given) {
            wrong = wrong.saturating_add(1);
        }
    }
    ask(post, pid.saturating_sub(1));
    wrong
}

// The worker of a slot, for so many children.
fn work<R: Wait>(rt: &R, mut post: Post<Note>, children: u32) -> u32
    requires { post.knows.work ≡ Idle }
{
    let mut wrong = 0u32;
    let mut done = 0u32;
    for _ in rt.forever() {
        if done == children {
            break;
        }
        match post.start() {
            Started::Idle => thread::yield_now(),
            Started::Job { pid, .. } => {
                wrong = wrong.saturating_add(live(&mut post, pid));
                exit(&mut post);
                done = done.saturating_add(1);
            }
        }
    }
    wrong
}

// Assigns a child to the free slot, sends to both children, and releases that of the busy slot.
fn turn<R: Wait>(rt: &R, roster: &mut Roster<Note>, free: u32, busy: u32, pid: u32)
    requires turns { TakesTurns roster.old.knows free busy pid }
    requires fits { pid < 1000000 }
    ensures { TakesTurns roster.new.knows busy free (pid + 1) }
{
    assign(roster, free, pid);
    send(roster, free, signal_for(pid));
    send(roster, busy, signal_for(pid - 1));
    for _ in rt.forever() {
        if reap(roster, busy) {
            return;
        }
        thread::yield_now();
    }
    unreachable!()
}

// All children, one after the other.
fn supervise<R: Wait>(rt: &R, mut roster: Roster<Note>) -> u32
    requires { IsNew roster.knows }
{
    assign(&mut roster, 4, 1);
    let mut free = 3u32;
    let mut busy = 4u32;
    for pid in 2..CHILDREN + 1 {
        turn(rt, &mut roster, free, busy, pid);
        let next = busy;
        busy = free;
        free = next;
    }
    roster.used()
}

// The workers of both slots.
fn work_both<R: Threads + Wait + Sync>(rt: &R, third: Post<Note>, fourth: Post<Note>) -> (u32, u32)
    requires { (third.knows.work ≡ Idle) × (fourth.knows.work ≡ Idle) }
{
    let half = CHILDREN / 2;
    thread::join(rt, || work(rt, third, half), || work(rt, fourth, half))
}

#[test]
fn no_child_takes_what_is_not_meant_for_it(rt: HostRuntime) -> Result<(), Fail> {
    let made = make(rt.alloc())?;
    let roster = made.roster;
    let third = made.third;
    let fourth = made.fourth;
    let (used, wrong) = thread::join(
        &rt,
        || supervise(&rt, roster),
        || work_both(&rt, third, fourth),
    );
    assert_eq!(rt; used, 1);
    assert_eq!(rt; wrong, (0, 0));
    Ok(())
}
