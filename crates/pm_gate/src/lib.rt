//! The gate: which children may attach to what a generation shares. All of its calls are a constant number of the board's
//! steps: they take no memory, wait for nobody and retry nothing.
#![tactic(auto)]

ghost use Rattle.std.specs.Prelude.{◌≡◌, ◌+◌, false, IfOk, OnErr};
ghost use Rattle.pm_board.specs.{pm_board_words.{declared.views.RosterStep.TheVariants.{Quit, Ready, Reset}, GateWords.MayQuit}, pm_child_life.Life.attempt, Models.{MayAttach, MayOpen, MayReset, HasStepped}};
ghost use Rattle.pm_gate.specs.Attaching.{answer_of, IsAttachedIn, Stays, HasAttached, HasLeft};

mod tokens;

use pm_board::{Letter, Post, Roster};
use pm_board_home::Home;
use pm_child_life::GateNo;
use pm_supervisor::Reason;
pub use tokens::{Attached, Generation};

/// Lets the child in that runs on the post, or says why not, by the gate's word as this call meets it: a notice comes first;
/// a session is besides told that the gate isn't open, or that the limit of sessions is reached, and an ordinary one that the places
/// which are left are reserved. A child that was refused leaves nothing behind: its place at the gate is given back, and its slot
/// isn't active.
pub fn attach<J: Letter + Drop, H: Home + Drop>(
    post: &mut Post<J, H>,
    is_ordinary: bool,
) -> Result<Attached, GateNo>
    requires { MayAttach post.old.knows.work }
    ensures table { post.new.table ≡ post.old.table }
    ensures slot { post.new.slot ≡ post.old.slot }
    ensures home { post.new.home ≡ post.old.home }
    ensures met { HasAttached (attempt is_ordinary (answer_of result)) post.old.knows post.new.knows }
    ensures attached { IfOk result (λ a. IsAttachedIn a.generation post.new.knows.work) }
    ensures refused { OnErr result (Stays post.old.knows post.new.knows) }
{
    post.mark();
    match post.try_gate(is_ordinary) {
        Ok(generation) => Ok(Attached { generation }),
        Err(refusal) => {
            post.back_out();
            post.unmark();
            Err(refusal)
        }
    }
}

/// Lets go of what the child was attached to. The post hasn't what lies at the board's home.
pub fn detach<J: Letter + Drop, H: Home + Drop>(post: &mut Post<J, H>, attached: Attached)
    requires attached { IsAttachedIn attached.generation post.old.knows.work }
    requires free { H.has post.old.home.knows ≡ false }
    ensures table { post.new.table ≡ post.old.table }
    ensures slot { post.new.slot ≡ post.old.slot }
    ensures home { post.new.home ≡ post.old.home }
    ensures knows { HasLeft attached.generation post.old.knows post.new.knows }
{
    drop(attached);
    post.let_go();
    post.unmark();
}

/// Shuts the gate: until the next `ready` or `reset` nobody is let in.
pub fn quit<J: Letter + Drop, H: Home + Drop>(roster: &mut Roster<J, H>, reason: Reason)
    requires { MayQuit roster.old.knows.noticed reason }
    ensures table { roster.new.table ≡ roster.old.table }
    ensures home { roster.new.home ≡ roster.old.home }
    ensures knows { HasStepped (Quit reason roster.old.knows.generation) roster.old.knows
        roster.new.knows }
{
    roster.quit(reason);
}

/// Opens the gate to sessions, once in a generation, and takes a notice back.
pub fn ready<J: Letter + Drop, H: Home + Drop>(roster: &mut Roster<J, H>)
    requires { MayOpen roster.old.knows }
    ensures table { roster.new.table ≡ roster.old.table }
    ensures home { roster.new.home ≡ roster.old.home }
    ensures knows { HasStepped (Ready roster.old.knows.generation) roster.old.knows
        roster.new.knows }
{
    roster.ready();
}

/// Begins the next generation, where no slot has a child and the roster lends what lies at the board's home to nobody. Whatever the gate has counted goes: children that died attached are
/// counted until then.
pub fn reset<J: Letter + Drop, H: Home + Drop>(roster: &mut Roster<J, H>) -> Generation
    requires may { MayReset roster.old.knows }
    requires lends { H.lends roster.old.home.knows ≡ false }
    ensures table { roster.new.table ≡ roster.old.table }
    ensures home { roster.new.home ≡ roster.old.home }
    ensures knows { HasStepped (Reset (roster.old.knows.generation + 1)) roster.old.knows
        roster.new.knows }
    ensures number { result.number ≡ roster.old.knows.generation + 1 }
{
    roster.reset();
    Generation {
        number: roster.generation(),
    }
}

/// The present generation.
pub fn generation<J: Letter + Drop, H: Home + Drop>(roster: &Roster<J, H>) -> u32
    ensures { result ≡ roster.now.knows.generation }
{
    roster.generation()
}
