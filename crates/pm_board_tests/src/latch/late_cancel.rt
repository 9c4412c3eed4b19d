//! A cancel that comes late: the slot of the pid has its next child by then.
ghost use Rattle.std.specs.Prelude.{◌≡◌};
ghost use Rattle.pm_board.specs.pm_board_words.declared.views.Work.TheVariants.{Idle};
ghost use Rattle.pm_board_tests.specs.LatchChildren.{IsNew};

use crate::latch::children::{assign, exit, make, reap, start};
use crate::latch::given::NONE;
use crate::notes::Note;
use pm_board::{Post, Roster};
use pm_child_life::{Cancelled, Signals};
use pm_latch::{cancel, take};
use std::test::Fail;

const SEED: [u8; 32] = [0; 32];

/// Words 9 and 12 of ChaCha20 at a seed of 32 zero bytes, stream 0.
const KEY_OF_9: u32 = 0x8d48_5751;

const KEY_OF_12: u32 = 0xf4b8_436a;

#[derive(Clone, Copy, Debug, PartialEq, Eq)]
struct Answers {
    while_it_runs: Cancelled,
    to_the_next_child: Signals,
    late: Cancelled,
    to_nobody: Cancelled,
    to_pid_0: Cancelled,
    with_another_key: Cancelled,
    to_the_next: Cancelled,
    heeded: Signals,
}

// Slot 3 has the child 9 and then the child 12, and the child of slot 4 sends the cancels.
fn cancel_late(
    roster: &mut Roster<Note>,
    third: &mut Post<Note>,
    fourth: &mut Post<Note>,
) -> Option<Answers>
    requires roster { IsNew roster.old.knows }
    requires posts { (third.old.knows.work ≡ Idle) × (fourth.old.knows.work ≡ Idle) }
{
    assign(roster, 4, 5);
    assign(roster, 3, 9);
    if start(fourth) != 5 || start(third) != 9 {
        return None;
    }
    let while_it_runs = cancel(fourth, &SEED, 9, KEY_OF_9);
    exit(third);
    if !reap(roster, 3) {
        return None;
    }
    assign(roster, 3, 12);
    if start(third) != 12 {
        return None;
    }
    Some(Answers {
        while_it_runs,
        to_the_next_child: take(third),
        late: cancel(fourth, &SEED, 9, KEY_OF_9),
        to_nobody: cancel(fourth, &SEED, 0, KEY_OF_9),
        to_pid_0: cancel(fourth, &SEED, 0, 0),
        with_another_key: cancel(fourth, &SEED, 12, KEY_OF_9),
        to_the_next: cancel(fourth, &SEED, 12, KEY_OF_12),
        heeded: take(third),
    })
}

#[test]
fn a_late_cancel_hits_nobody(rt: HostRuntime) -> Result<(), Fail> {
    let made = make(rt.alloc())?;
    let mut roster = made.roster;
    let mut third = made.third;
    let mut fourth = made.fourth;
    let answers = cancel_late(&mut roster, &mut third, &mut fourth);
    let wanted = Answers {
        while_it_runs: Cancelled::Sent,
        to_the_next_child: NONE,
        late: Cancelled::NoSuchPid,
        to_nobody: Cancelled::WrongKey,
        to_pid_0: Cancelled::WrongKey,
        with_another_key: Cancelled::WrongKey,
        to_the_next: Cancelled::Sent,
        heeded: Signals {
            cancel: true,
            ..NONE
        },
    };
    assert_eq!(rt; answers, Some(wanted));
    Ok(())
}
