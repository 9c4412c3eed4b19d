//! A worker, whose children go to the gate until their end.
ghost use Rattle.std.specs.Prelude.{◌≡◌, ◌+◌, ◌<◌, ◌≤◌, IfSome, IfNone, IsTrue};
ghost use Rattle.pm_board.specs.{pm_board_words.declared.views.Work.TheVariants.Idle, Posts.AllIdle};
ghost use Rattle.pm_board_tests.specs.GateChildren.{HasChildren, IsAttachedSession, RunsSession, ServesSession};

use crate::gate::progress::{Progress, SESSIONS, WORKERS};
use crate::gate::scene::{Ending, FIRST, Newcomer, Note, begin, take_post, task, try_once};
use pm_board::{Post, Posts, Roster, Started};
use pm_child_life::GateNo;
use pm_exit::{Kind, Status};
use pm_gate::{Attached, attach, detach};
use std::alloc::{AllocError, Global};
use std::sync::Wait;
use std::thread;

/// How a child ends that dies attached.
pub const DEATH: Status = Status::Signal(9);

/// A worker whose post has no child.
#[derive(Drop)]
pub struct Worker {
    post: Post<Note>,
    ghost at_rest: { post.knows.work ≡ Idle },
}

/// The workers of a new board, that of its first slot for sessions first.
pub fn new_workers(alloc: Global, posts: &mut Posts<Note>) -> Result<Vec<Worker>, AllocError>
    requires { AllIdle posts.old.left.items }
{
    let mut workers = Vec::new(alloc);
    for place in 0..WORKERS {
        let skipped = if place == 0 { FIRST } else { 0 };
        let Some(post) = take_post(posts, skipped) else {
            return Err(AllocError);
        };
        workers.push(Worker { post })?;
    }
    Ok(workers)
}

/// Serves so many children, one after the other.
pub fn work<R: Wait>(rt: &R, worker: Worker, children: u32, progress: &Progress) -> Worker {
    let mut post = worker.post;
    let mut served = 0u32;
    for _ in rt.forever() {
        if served == children {
            break;
        }
        match post.start() {
            Started::Idle => thread::yield_now(),
            Started::Job { kind, job, .. } => {
                served = served.saturating_add(1);
                if serves_session(kind) {
                    serve(rt, &mut post, job, progress);
                } else {
                    post.exit(Status::Code(2), job);
                }
            }
        }
    }
    Worker { post }
}

fn serves_session(kind: Kind) -> bool
    ensures { IsTrue result → ServesSession kind }
{
    matches!(kind, Kind::Backend | Kind::Worker)
}

// One child until its end.
fn serve<R: Wait>(rt: &R, post: &mut Post<Note>, mut note: Note, progress: &Progress)
    requires { RunsSession post.old.knows.work }
    ensures { post.new.knows.work ≡ Idle }
{
    for _ in rt.forever() {
        match go_once(post, note, progress) {
            None => return,
            Some(kept) => note = kept,
        }
        if note.is_done() {
            post.exit(Status::Code(0), note);
            return;
        }
        thread::yield_now();
    }
    unreachable!()
}

// A child goes to the gate once. Its note, where it goes on.
fn go_once(post: &mut Post<Note>, mut note: Note, progress: &Progress) -> Option<Note>
    requires { RunsSession post.old.knows.work }
    ensures stays { IfSome result (λ _. RunsSession post.new.knows.work) }
    ensures ends { IfNone result (post.new.knows.work ≡ Idle) }
{
    let before = progress.before(note.generation);
    match attach(post, true) {
        Ok(attached) => {
            note.judge(progress.may_let_in(before, attached.generation));
            stay(post, attached, note, progress)
        }
        Err(refusal) => {
            note.judge(progress.may_refuse(before, refusal));
            let GateNo::Quit { .. } = refusal else {
                return Some(note);
            };
            note.judge(try_once(post) == Err(refusal));
            post.exit(Status::Code(1), note);
            None
        }
    }
}

// A child that is attached lets go again, or dies. Its note, where it goes on.
fn stay(
    post: &mut Post<Note>,
    attached: Attached,
    mut note: Note,
    progress: &Progress,
) -> Option<Note>
    requires { IsAttachedSession attached.generation post.old.knows.work }
    ensures stays { IfSome result (λ _. RunsSession post.new.knows.work) }
    ensures dies { IfNone result (post.new.knows.work ≡ Idle) }
{
    let others = progress.came_in();
    note.judge(others < SESSIONS);
    note.attaches = note.attaches.saturating_add(1);
    thread::yield_now();
    progress.goes_out();
    if note.ending == Ending::Attached {
        post.exit(DEATH, note);
        return None;
    }
    detach(post, attached);
    Some(note)
}

/// A child for this place comes to the gate, an ordinary one or not. What it is told, where it starts. It stays where it is let in.
pub fn come(
    roster: &mut Roster<Note>,
    worker: Worker,
    place: u32,
    last_pid: u32,
    is_ordinary: bool,
) -> Option<Result<u32, GateNo>>
    requires board { HasChildren 3 (3 + place) (last_pid + place) roster.old.knows }
    requires few { (place < 8) × (last_pid ≤ 8008) }
    ensures { HasChildren 3 (3 + (place + 1)) (last_pid + (place + 1)) roster.new.knows }
{
    let mut post = worker.post;
    let child = Newcomer {
        slot: FIRST + place,
        pid: last_pid + place + 1,
        kind: Kind::Worker,
    };
    if !begin(roster, &mut post, child, task(1, Ending::AtNotice)) {
        return None;
    }
    match attach(&mut post, is_ordinary) {
        Ok(attached) => Some(Ok(attached.generation)),
        Err(refusal) => Some(Err(refusal)),
    }
}

/// How many children are let in at an open gate, one after the other, and what the next one is told.
pub fn places(
    roster: &mut Roster<Note>,
    workers: Vec<Worker>,
    last_pid: u32,
) -> (u32, Option<GateNo>)
    requires board { HasChildren 3 3 last_pid roster.old.knows }
    requires pids { last_pid ≤ 8008 }
{
    let mut place = 0u32;
    for worker in workers {
        if place >= WORKERS {
            break;
        }
        match come(roster, worker, place, last_pid, true) {
            None => break,
            Some(Err(refusal)) => return (place, Some(refusal)),
            Some(Ok(_)) => place += 1,
        }
    }
    (place, None)
}
