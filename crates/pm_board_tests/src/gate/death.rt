//! A session that dies attached keeps its place until the next generation, and a reset asks for no count.
ghost use Rattle.std.specs.Prelude.{◌≡◌, IfSome, IsTrue};
ghost use Rattle.pm_board.specs.{pm_exit.declared.child.Kind.TheVariants.{Worker, Backend}, Gate.gate_of, pm_board_words.declared.views.Work.TheVariants.Idle};
ghost use Rattle.pm_board_tests.specs.GateChildren.{HasChildren, IsEmpty, IsUntouched, RunsKind, shut_gate, open_gate};

use crate::gate::scene::{
    Ending, FIRST, Newcomer, Note, begin, new_board, reap, take_post, task, try_once, up_to,
};
use pm_board::{Post, Released, Roster};
use pm_child_life::GateNo;
use pm_exit::{Kind, Status};
use pm_gate::{attach, quit, ready, reset};
use pm_supervisor::Reason;
use std::alloc::{AllocError, Global};
use std::test::Fail;

/// It dies attached.
const DYING: Newcomer = Newcomer {
    slot: FIRST,
    pid: 1,
    kind: Kind::Backend,
};

/// It leaves after a notice.
const LEAVING: Newcomer = Newcomer {
    slot: FIRST + 1,
    pid: 2,
    kind: Kind::Worker,
};

/// It comes in the next generation.
const LATER: Newcomer = Newcomer {
    slot: FIRST + 1,
    pid: 3,
    kind: Kind::Worker,
};

/// What the first two met at a gate that one session may pass.
#[derive(Clone, Copy, Debug, PartialEq, Eq)]
struct Met {
    dying: u32,
    beside_it: Result<u32, GateNo>,
    behind_its_death: Result<u32, GateNo>,
    behind_the_notice: Result<u32, GateNo>,
}

/// Pid, status and mark of a child that was released.
#[derive(Clone, Copy, Debug, PartialEq, Eq)]
struct End {
    pid: u32,
    status: Status,
    was_active: bool,
}

/// Both generations.
#[derive(Clone, Copy, Debug, PartialEq, Eq)]
struct Story {
    met: Met,
    ends: (End, End),
    next_generation: u32,
    later: Result<u32, GateNo>,
}

fn end_of(released: &Released<Note>) -> End {
    End {
        pid: released.pid,
        status: released.status,
        was_active: released.was_active,
    }
}

// Two children begin, and the gate opens.
fn begin_both(roster: &mut Roster<Note>, dying: &mut Post<Note>, leaving: &mut Post<Note>) -> bool
    requires board { IsUntouched roster.old.knows × (gate_of roster.old.knows ≡ shut_gate 1) }
    requires idle { (dying.old.knows.work ≡ Idle) × (leaving.old.knows.work ≡ Idle) }
    ensures board { IsTrue result → HasChildren 3 5 2 roster.new.knows }
    ensures gate { IsTrue result → gate_of roster.new.knows ≡ open_gate 1 }
    ensures dying { IsTrue result → RunsKind Backend dying.new.knows.work }
    ensures leaving { IsTrue result → RunsKind Worker leaving.new.knows.work }
{
    if !begin(roster, dying, DYING, task(1, Ending::Attached)) {
        return false;
    }
    if !begin(roster, leaving, LEAVING, task(1, Ending::AtNotice)) {
        return false;
    }
    ready(roster);
    true
}

// The one dies attached, and the other leaves after a notice.
fn leave_both(
    roster: &mut Roster<Note>,
    dying: &mut Post<Note>,
    leaving: &mut Post<Note>,
) -> Option<Met>
    requires board { HasChildren 3 5 2 roster.old.knows }
    requires gate { gate_of roster.old.knows ≡ open_gate 1 }
    requires dying { RunsKind Backend dying.old.knows.work }
    requires leaving { RunsKind Worker leaving.old.knows.work }
    ensures board { IfSome result (λ _. HasChildren 3 5 2 roster.new.knows) }
    ensures gate { IfSome result (λ _. roster.new.knows.generation ≡ 1) }
    ensures idle { IfSome result (λ _. leaving.new.knows.work ≡ Idle) }
{
    let Ok(attached) = attach(dying, true) else {
        return None;
    };
    let beside_it = try_once(leaving);
    dying.exit(Status::Signal(9), task(1, Ending::Attached));
    let behind_its_death = try_once(leaving);
    quit(roster, Reason::Crash);
    let behind_the_notice = try_once(leaving);
    leaving.exit(Status::Code(1), task(1, Ending::AtNotice));
    Some(Met {
        dying: attached.generation,
        beside_it,
        behind_its_death,
        behind_the_notice,
    })
}

// Both are released, and the next generation begins.
fn release_both(roster: &mut Roster<Note>) -> Option<((End, End), u32)>
    requires board { HasChildren 3 5 2 roster.old.knows }
    requires gate { roster.old.knows.generation ≡ 1 }
    ensures board { IfSome result (λ _. IsEmpty 2 roster.new.knows) }
    ensures gate { IfSome result (λ _. gate_of roster.new.knows ≡ shut_gate 2) }
{
    let first = reap(roster, DYING.slot)?;
    let second = reap(roster, LEAVING.slot)?;
    let next = reset(roster);
    Some(((end_of(&first), end_of(&second)), next.number))
}

fn tell(roster: &mut Roster<Note>, dying: &mut Post<Note>, other: &mut Post<Note>) -> Option<Story>
    requires board { IsUntouched roster.old.knows × (gate_of roster.old.knows ≡ shut_gate 1) }
    requires idle { (dying.old.knows.work ≡ Idle) × (other.old.knows.work ≡ Idle) }
{
    if !begin_both(roster, dying, other) {
        return None;
    }
    let met = leave_both(roster, dying, other)?;
    let (ends, next_generation) = release_both(roster)?;
    if !begin(roster, other, LATER, task(2, Ending::AtNotice)) {
        return None;
    }
    ready(roster);
    Some(Story {
        met,
        ends,
        next_generation,
        later: try_once(other),
    })
}

fn story_of_a_death(alloc: Global) -> Result<Option<Story>, AllocError> {
    let (mut roster, mut posts) = new_board(alloc, up_to(1))?;
    let Some(mut dying) = take_post(&mut posts, FIRST) else {
        return Ok(None);
    };
    let Some(mut other) = take_post(&mut posts, 0) else {
        return Ok(None);
    };
    Ok(tell(&mut roster, &mut dying, &mut other))
}

#[test]
fn a_death_at_the_gate(rt: HostRuntime) -> Result<(), Fail> {
    let met = Met {
        dying: 1,
        beside_it: Err(GateNo::TooMany { count: 1 }),
        behind_its_death: Err(GateNo::TooMany { count: 1 }),
        behind_the_notice: Err(GateNo::Quit {
            generation: 1,
            reason: Reason::Crash,
        }),
    };
    let died = End {
        pid: 1,
        status: Status::Signal(9),
        was_active: true,
    };
    let left = End {
        pid: 2,
        status: Status::Code(1),
        was_active: false,
    };
    let story = story_of_a_death(rt.alloc())?;
    let wanted = Story {
        met,
        ends: (died, left),
        next_generation: 2,
        later: Ok(2),
    };
    assert_eq!(rt; story, Some(wanted));
    Ok(())
}
