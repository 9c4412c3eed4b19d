//! What a child is given of the signals that were sent to it.
ghost use Rattle.std.specs.Prelude.{◌≡◌, true};
ghost use Rattle.pm_board.specs.pm_board_words.declared.views.Work.TheVariants.{Idle};
ghost use Rattle.pm_board_tests.specs.LatchChildren.{IsBusy, IsNew, IsRunning};

use crate::latch::children::{assign, make, start};
use crate::notes::Note;
use pm_board::{Post, Roster};
use pm_child_life::Signals;
use pm_latch::{Signal, send, take};
use pm_supervisor::Reason;
use std::test::Fail;

/// Nothing.
pub const NONE: Signals = Signals {
    kill: false,
    quit: None,
    terminate: false,
    cancel: false,
    checkpoint: false,
};

// The child of slot 3.
fn begin(roster: &mut Roster<Note>, post: &mut Post<Note>) -> bool
    requires roster { IsNew roster.old.knows }
    requires post { post.old.knows.work ≡ Idle }
    ensures busy { IsBusy roster.new.knows 3 }
    ensures runs { (result ≡ true) → IsRunning post.new.knows.work }
{
    assign(roster, 3, 1);
    start(post) == 1
}

// What the child of slot 3 is given after these sends, and after none.
fn give(roster: &mut Roster<Note>, post: &mut Post<Note>, sent: &[Signal]) -> (Signals, Signals)
    requires busy { IsBusy roster.old.knows 3 }
    requires runs { IsRunning post.old.knows.work }
    ensures busy { IsBusy roster.new.knows 3 }
    ensures runs { IsRunning post.new.knows.work }
{
    for signal in sent {
        send(roster, 3, *signal);
    }
    let given = take(post);
    (given, take(post))
}

// The answers after these sends, one row of them after the other.
fn give_each(roster: &mut Roster<Note>, post: &mut Post<Note>) -> Option<[(Signals, Signals); 5]>
    requires roster { IsNew roster.old.knows }
    requires post { post.old.knows.work ≡ Idle }
{
    if !begin(roster, post) {
        return None;
    }
    let crash = Signal::Quit(Reason::Crash);
    let stop = Signal::Quit(Reason::Stop);
    Some([
        give(roster, post, &[]),
        give(roster, post, &[crash]),
        give(roster, post, &[stop, crash]),
        give(roster, post, &[Signal::Terminate, Signal::Terminate]),
        give(roster, post, &[Signal::Kill, Signal::Checkpoint]),
    ])
}

#[test]
fn what_was_sent_is_given_once(rt: HostRuntime) -> Result<(), Fail> {
    let made = make(rt.alloc())?;
    let mut roster = made.roster;
    let mut post = made.third;
    let given = give_each(&mut roster, &mut post);
    let wanted = [
        NONE,
        Signals {
            quit: Some(Reason::Crash),
            ..NONE
        },
        Signals {
            quit: Some(Reason::Stop),
            ..NONE
        },
        Signals {
            terminate: true,
            ..NONE
        },
        Signals {
            kill: true,
            checkpoint: true,
            ..NONE
        },
    ];
    assert_eq!(rt; given, Some(wanted.map(|signals| (signals, NONE))));
    Ok(())
}
