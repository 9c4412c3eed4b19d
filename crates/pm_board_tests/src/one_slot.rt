//! One slot through a thousand children: each release gives the pid, kind, status and mail that were given, and each of the
//! thousand waits of its worker is ended by an assign.
ghost use Rattle.std.specs.Prelude.{◌≡◌, ◌<◌, ◌≤◌, ◌+◌, false, IfOk};
ghost use Rattle.pm_board.specs.{pm_board_words.{Words.status_number, declared.views.Work.TheVariants.Idle}, Places.is_auxiliary};
ghost use Rattle.pm_board_tests.specs.Drive.{IsFree, ServesFrom};

use crate::notes::Note;
use pm_board::{Board, Look, Post, Released, Roster, SessionLimit, Started};
use pm_exit::{Kind, Status};
use std::alloc::{AllocError, Global};
use std::sync::Wait;
use std::test::Fail;
use std::thread;

/// At least nine.
const SLOTS: u32 = 9;
/// One session may be attached.
const LIMIT: SessionLimit = SessionLimit {
    most: 1,
    reserved: 0,
};
/// A slot that serves sessions.
const SLOT: u32 = 4;

const CHILDREN: u32 = 1_000;

// The kind that the child of this pid is given.
fn kind_for(pid: u32) -> Kind
    ensures serves { ServesFrom 9 4 result }
    ensures session { is_auxiliary result ≡ false }
{
    match pid % 3 {
        0 => Kind::Backend,
        1 => Kind::Worker,
        _ => Kind::DeadEnd,
    }
}

// The status that the child of this pid ends with.
fn status_for(pid: u32) -> Status
    ensures { status_number result < 256 }
{
    let number = (pid % 251) as u8;
    if pid % 2 == 0 {
        Status::Code(number)
    } else {
        Status::Signal(number)
    }
}

// One child from its assign to its release.
fn drive<R: Wait>(rt: &R, roster: &mut Roster<Note>, index: u32) -> Released<Note>
    requires free { IsFree roster.old.knows index }
    requires fits { index < 1000 }
    ensures { IsFree roster.new.knows (index + 1) }
{
    let pid = index + 1;
    let kind = kind_for(pid);
    roster.assign(SLOT, pid, kind, Note(u64::from(pid) * 3));
    for _ in rt.forever() {
        match roster.look(SLOT) {
            Look::Running => thread::yield_now(),
            Look::Exited { .. } => return roster.release(SLOT),
        }
    }
    unreachable!()
}

// All children, one after the other, and how many releases gave what was given.
fn drive_all<R: Wait>(rt: &R, mut roster: Roster<Note>) -> (u32, Roster<Note>)
    requires { IsFree roster.knows 0 }
{
    let mut right = 0u32;
    for index in 0..CHILDREN {
        let released = drive(rt, &mut roster, index);
        let pid = index + 1;
        if released.pid == pid
            && released.kind == kind_for(pid)
            && released.status == status_for(pid)
            && !released.was_active
            && released.job.0 == u64::from(pid) * 3 + 1
        {
            right = right.saturating_add(1);
        }
    }
    (right, roster)
}

// The worker of the slot: it waits for each child, ends it at once, and gives the mail back with one more.
fn work<R: Wait>(rt: &R, mut post: Post<Note>) -> Post<Note>
    requires { post.knows.work ≡ Idle }
    ensures { result.knows.work ≡ Idle }
{
    let mut done = 0u32;
    for _ in rt.forever() {
        if done == CHILDREN {
            break;
        }
        post.wait(rt);
        match post.start() {
            Started::Idle => {}
            Started::Job { pid, kind: _, job } => {
                post.exit(status_for(pid), Note(job.0.wrapping_add(1)));
                done = done.saturating_add(1);
            }
        }
    }
    post
}

// A new board of so many slots, and the post of the driven one.
fn make_board(alloc: Global, slots: u32) -> Result<(Roster<Note>, Post<Note>), AllocError>
    requires { (9 ≤ slots) × (slots ≤ 407) }
    ensures { IfOk result (λ made. IsFree made.0.knows 0 × (made.1.knows.work ≡ Idle)) }
{
    let (roster, mut posts) = Board::new::<Note>(alloc, slots, LIMIT)?;
    for _ in 0..SLOT {
        posts.take();
    }
    let Some(post) = posts.take() else {
        return Err(AllocError);
    };
    Ok((roster, post))
}

#[test]
fn a_thousand_children_of_one_slot(rt: HostRuntime) -> Result<(), Fail> {
    let (roster, post) = make_board(rt.alloc(), SLOTS)?;
    let ((right, roster), post) = thread::join(&rt, || drive_all(&rt, roster), || work(&rt, post));
    drop(post);
    assert_eq!(rt; roster.used(), 0);
    assert_eq!(rt; right, CHILDREN);
    Ok(())
}

#[test]
fn a_board_has_as_many_slots_as_it_may(rt: HostRuntime) -> Result<(), Fail> {
    let limit = SessionLimit {
        most: 200,
        reserved: 199,
    };
    let (roster, mut posts) = Board::new::<Note>(rt.alloc(), 407, limit)?;
    assert_eq!(rt; (roster.slots(), roster.used()), (407, 0));
    for _ in 0..407 {
        assert!(rt; posts.take().is_some());
    }
    assert!(rt; posts.take().is_none());
    Ok(())
}
