//! A pool of 47 threads: each kind of mail, 200 sessions of which some are told to end, and the end of every worker.
ghost use Rattle.std.specs.Prelude.{◌≡◌, ◌≤◌, false, All, IfOk, OnOk};
ghost use Rattle.pm_board.specs.{pm_board_words.declared.views.Work.TheVariants.Idle, Posts.AllIdle};
ghost use Rattle.pm_child_tests.specs.Crew.{IsManned, IsFresh};

use crate::worker::clients::{Manner, link_of};
use crate::worker::crew::{
    Job, SLOTS, begin, connect, free_slot, look_at, look_over, tell, wait_for,
};
use crate::worker::tally::Tally;
use pm_admit::Cac;
use pm_board::{Board, Posts, Roster, SessionLimit};
use pm_disk::MemDisk;
use pm_exit::Kind;
use pm_latch::Signal;
use pm_log::init;
use pm_outside::{Kept, MemClock, MemLink};
use pm_query::BookEntry;
use pm_session::SessionConf;
use pm_spawn::{Threads, join_all, start_all};
use pm_store_shared::{Caller, Shared, TokenStore, Tokens};
use pm_supervisor::Reason;
use pm_worker::{Child, Mail, Tools};
use std::alloc::{AllocError, Global};
use std::collections::VecDeque;
use std::process::Abort;
use std::sync::Wait;
use std::test::Fail;
use std::{thread, time};

const SEED: [u8; 32] = [7; 32];

const SESSIONS: u32 = 200;

type Book = Kept<BookEntry>;

type Store<R> = TokenStore<R, MemClock<R>, MemDisk, Book>;

type Worker<R> = Child<R, MemClock<R>, MemLink, Store<R>>;

// A worker for each post and token.
fn workers<R: Wait + Abort + time::Clock + Copy + Drop>(
    rt: R,
    alloc: Global,
    posts: &mut Posts<Job>,
    tokens: &mut Tokens<MemDisk, Book>,
) -> Result<VecDeque<Worker<R>>, AllocError>
    requires { AllIdle posts.old.left.items }
    ensures { IfOk result (λ works. All (λ w. w.post.knows.work ≡ Idle) works.items) }
{
    let mut works = VecDeque::with_capacity(alloc, SLOTS as usize)?;
    for _ in 0..SLOTS {
        let (Some(post), Some(token)) = (posts.take(), tokens.take()) else {
            return Ok(works);
        };
        let tools = Tools {
            rt,
            alloc,
            clock: MemClock::still(0, rt),
            conf: SessionConf {
                authentication_ms: 60_000,
            },
            seed: SEED,
        };
        let caller = Caller::new(MemClock::still(0, rt), 2, 1);
        works.push_back(Child::new(tools, post, TokenStore { rt, token, caller }))?;
    }
    Ok(works)
}

// What the session of this number is told, if it is told to end.
fn ending_of(number: u32) -> Option<Signal> {
    match number % 8 {
        0 => Some(Signal::Kill),
        1 => Some(Signal::Quit(Reason::Crash)),
        2 => Some(Signal::Terminate),
        _ => None,
    }
}

// The startup child, from its assign to its release, and then the gate is opened for checkpointer and writer.
fn start_up<R: Wait>(rt: &R, roster: &mut Roster<Job>, tally: &mut Tally)
    requires { IsFresh roster.old.knows 0 × (roster.old.knows.is_open ≡ false) }
    ensures { IsFresh roster.new.knows 3 }
{
    begin(roster, 0, Kind::Startup, Mail::Startup);
    for _ in rt.forever() {
        if let Some(released) = look_at(roster, 0) {
            tally.note(&released);
            pm_gate::ready(roster);
            begin(roster, 1, Kind::Checkpointer, Mail::Checkpointer);
            begin(roster, 2, Kind::Writer, Mail::Writer);
            return;
        }
        thread::yield_now();
    }
    unreachable!()
}

// Sessions one after the other, side by side as far as there are slots: of 43 slots that may have a child, 40 are for sessions. It
// stops where no slot is free though it has waited for one.
fn serve_all<R: Wait>(
    rt: &R,
    alloc: Global,
    roster: &mut Roster<Job>,
    tally: &mut Tally,
) -> Result<(), AllocError>
    requires { IsManned roster.old.knows × (roster.old.knows.notes.last_pid ≡ 3) }
    ensures { OnOk result (IsManned roster.new.knows × (roster.new.knows.notes.last_pid ≤ 203)) }
{
    for number in 0..SESSIONS {
        let told = ending_of(number);
        let manner = match told {
            Some(_) => Manner::Waits,
            None => Manner::Reads,
        };
        let link = link_of(alloc, u64::from(number) + 1, manner)?;
        wait_for(rt, roster, tally, 41);
        let Some(slot) = free_slot(roster) else {
            return Ok(());
        };
        let decision = Cac::Ok;
        connect(
            roster,
            slot,
            number + 4,
            Kind::Backend,
            Mail::Serve { link, decision },
        );
        if let Some(signal) = told {
            tell(roster, slot, signal);
        }
    }
    Ok(())
}

// A connection that is refused, in the last slot, once the sessions have ended.
fn refuse<R: Wait>(
    rt: &R,
    alloc: Global,
    roster: &mut Roster<Job>,
    tally: &mut Tally,
) -> Result<(), AllocError>
    requires { IsManned roster.old.knows × (roster.old.knows.notes.last_pid ≤ 203) }
    ensures { OnOk result (IsManned roster.new.knows × (roster.new.knows.notes.last_pid ≤ 204)) }
{
    let link = link_of(alloc, u64::from(SESSIONS) + 1, Manner::Reads)?;
    let decision = Cac::TooMany;
    wait_for(rt, roster, tally, 2);
    let slot = SLOTS - 1;
    if roster.child(slot).is_none() {
        connect(
            roster,
            slot,
            204,
            Kind::DeadEnd,
            Mail::Serve { link, decision },
        );
    }
    wait_for(rt, roster, tally, 2);
    Ok(())
}

// Ends every worker, once checkpointer and writer have ended.
fn close_all<R: Wait>(rt: &R, roster: &mut Roster<Job>, tally: &mut Tally)
    requires { IsManned roster.old.knows × (roster.old.knows.notes.last_pid ≤ 204) }
{
    tell(roster, 1, Signal::Checkpoint);
    tell(roster, 2, Signal::Terminate);
    wait_for(rt, roster, tally, 0);
    for slot in 0..SLOTS {
        look_over(roster, tally);
        if roster.child(slot).is_none() {
            connect(roster, slot, slot + 300, Kind::DeadEnd, Mail::Close);
        }
    }
    wait_for(rt, roster, tally, 0);
}

// The whole work of a supervisor over this pool.
fn supervise<R: Wait>(rt: &R, alloc: Global, roster: &mut Roster<Job>) -> Result<Tally, AllocError>
    requires { IsFresh roster.old.knows 0 × (roster.old.knows.is_open ≡ false) }
{
    let mut tally = Tally::new();
    start_up(rt, roster, &mut tally);
    serve_all(rt, alloc, roster, &mut tally)?;
    refuse(rt, alloc, roster, &mut tally)?;
    close_all(rt, roster, &mut tally);
    Ok(tally)
}

// A new board, with its posts.
fn new_board(alloc: Global) -> Result<(Roster<Job>, Posts<Job>), AllocError>
    ensures roster { IfOk result (λ made. IsFresh made.0.knows 0 × (made.0.knows.is_open ≡ false)) }
    ensures posts { IfOk result (λ made. AllIdle made.1.left.items) }
{
    let limit = SessionLimit {
        most: SESSIONS,
        reserved: 0,
    };
    Board::new::<Job>(alloc, SLOTS, limit)
}

// The numbers of the links add up to 201 * 202 / 2.
const WANTED: &str =
    "Tally { links: 201, numbers: 20301, answered: 125, done: 125, fatal: 26, quit: 25, killed: 25, closed: 47, other: 0, kept: Some(0), auxiliaries: 3 }";

#[test]
fn two_hundred_sessions_over_47_threads(rt: HostRuntime) -> Result<(), Fail> {
    let alloc = rt.alloc();
    let mut disk = MemDisk::new(alloc);
    init(&mut disk)?;
    let (shared, mut tokens) = Shared::new(alloc, disk, Kept::new(alloc), SLOTS)
        .ok()
        .ok_or("there is memory")?;
    let (mut roster, mut posts) = new_board(alloc)?;
    let mut works = workers(rt, alloc, &mut posts, &mut tokens)?;
    let mut spawner = Threads::new(rt);
    let running = start_all(&mut spawner, alloc, &mut works)?;
    assert_eq!(rt; running.len(), 47);
    let tally = supervise(&rt, alloc, &mut roster)?;
    let outputs = join_all(alloc, running).ok().ok_or("there is memory")?;
    assert_eq!(rt; outputs.len(), 47);
    drop(shared);
    let told = format!(in alloc; "{tally:?}")?;
    assert_eq!(rt; told.as_str(), WANTED);
    Ok(())
}
