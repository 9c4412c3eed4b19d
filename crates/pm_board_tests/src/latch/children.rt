//! One child from its assign to its release.
ghost use Rattle.std.specs.Prelude.{◌≡◌, ◌<◌, true, false, IfOk};
ghost use Rattle.pm_board.specs.pm_board_words.declared.views.Work.TheVariants.{Idle};
ghost use Rattle.pm_board_tests.specs.LatchChildren.{CanBegin, HasBegun, IsBusy, HasStayed, HasFinished, IsRunning, IsNew};

use crate::notes::Note;
use pm_board::{Board, Look, Post, Roster, SessionLimit, Started};
use pm_exit::{Kind, Status};
use std::alloc::{AllocError, Global};

/// Of the tests' boards. Slots 3 and 4 serve sessions.
pub const SLOTS: u32 = 9;

/// Two sessions may be attached.
const LIMIT: SessionLimit = SessionLimit {
    most: 2,
    reserved: 0,
};

/// A new board, with the posts of the slots 3 and 4.
#[derive(Drop)]
pub struct Made {
    pub roster: Roster<Note>,
    pub third: Post<Note>,
    pub fourth: Post<Note>,
}

pub fn make(alloc: Global) -> Result<Made, AllocError>
    ensures { IfOk result (λ made. IsNew made.roster.knows × (made.third.knows.work ≡ Idle)
        × (made.fourth.knows.work ≡ Idle)) }
{
    let (roster, mut posts) = Board::new::<Note>(alloc, SLOTS, LIMIT)?;
    for _ in 0..3u32 {
        posts.take();
    }
    let (Some(third), Some(fourth)) = (posts.take(), posts.take()) else {
        return Err(AllocError);
    };
    Ok(Made {
        roster,
        third,
        fourth,
    })
}

/// Assigns a child to a free slot.
pub fn assign(roster: &mut Roster<Note>, slot: u32, pid: u32)
    requires { CanBegin roster.old.knows slot pid }
    ensures { HasBegun slot pid roster.old.knows roster.new.knows }
{
    roster.assign(slot, pid, Kind::Worker, Note(u64::from(pid)));
}

/// Starts the child that is offered, and answers its pid, or 0.
pub fn start(post: &mut Post<Note>) -> u32
    requires { post.old.knows.work ≡ Idle }
    ensures { 0 < result → IsRunning post.new.knows.work }
{
    match post.start() {
        Started::Idle => 0,
        Started::Job { pid, .. } => pid,
    }
}

/// Ends the child that runs.
pub fn exit(post: &mut Post<Note>)
    requires { IsRunning post.old.knows.work }
    ensures { post.new.knows.work ≡ Idle }
{
    post.exit(Status::Code(0), Note(0));
}

/// Whether the child of a slot has exited. It is released then.
pub fn reap(roster: &mut Roster<Note>, slot: u32) -> bool
    requires { IsBusy roster.old.knows slot }
    ensures busy { (result ≡ false) → HasStayed slot roster.old.knows roster.new.knows }
    ensures finished { (result ≡ true) → HasFinished slot roster.old.knows roster.new.knows }
{
    match roster.look(slot) {
        Look::Running => false,
        Look::Exited { .. } => {
            roster.release(slot);
            true
        }
    }
}
