//! The steps at the gate, one call each. The crate of the gate makes its calls of them, and nobody else uses them.
ghost use Rattle.std.specs.Prelude.{◌≡◌, ◌+◌, false};
ghost use Rattle.pm_board_words.specs.{declared.views.RosterStep.TheVariants.{Quit, Ready, Reset}, GateWords.MayQuit};
ghost use Rattle.pm_board.specs.{pm_child_life.Life.attempt, Models.{MayAttach, MayTry, IsActive, IsRefused, IsAttached, HasMarked, HasUnmarked, HasTried, HasBackedOut, HasDetached, MayOpen, MayReset, HasStepped}};

use crate::plays::{BacksOut, Comes, Detaches, Marks, Quits, Readies, Resets, Tries, Unmarks};
use crate::post::Post;
use crate::roster::Roster;
use pm_board_home::Home;
use pm_board_words::{ACTIVE, Letter, answer_at, new_word, place, quit_adds, ready_adds};
use pm_child_life::GateNo;
use pm_supervisor::Reason;
use std::marker::Brand;

impl<J: Letter + Drop, H: Home + Drop> Post<J, H> {
    /// Marks the slot as active.
    pub fn mark(&mut self)
        requires { MayAttach self.old.knows.work }
        ensures table { self.new.table ≡ self.old.table }
        ensures slot { self.new.slot ≡ self.old.slot }
        ensures home { self.new.home ≡ self.old.home }
        ensures knows { HasMarked self.old.knows self.new.knows }
    {
        self.words
            .fetch_add::<Marks>(&mut self.seat, self.index, ACTIVE);
    }

    /// Takes a place at the gate: the child, an ordinary one or not, is attached, or refused, by the gate's word as this call meets it.
    pub fn try_gate(&mut self, is_ordinary: bool) -> Result<u32, GateNo>
        requires { MayTry self.old.knows.work }
        ensures table { self.new.table ≡ self.old.table }
        ensures slot { self.new.slot ≡ self.old.slot }
        ensures home { self.new.home ≡ self.old.home }
        ensures met { HasTried (attempt is_ordinary result) self.old.knows self.new.knows }
    {
        self.take_place::<Brand>(is_ordinary)
    }

    // The step. Of its word nobody sees whether the child is an ordinary one.
    fn take_place<C: Comes>(&mut self, is_ordinary: bool) -> Result<u32, GateNo>
        requires may { MayTry self.old.knows.work }
        requires comes { C.is_ordinary ≡ is_ordinary }
        ensures table { self.new.table ≡ self.old.table }
        ensures slot { self.new.slot ≡ self.old.slot }
        ensures home { self.new.home ≡ self.old.home }
        ensures met { HasTried (attempt is_ordinary result) self.old.knows self.new.knows }
    {
        let gate = self.words.slot_count();
        let adds = place(self.kind);
        let found = self.words.fetch_add::<Tries<C>>(&mut self.seat, gate, adds);
        answer_at(self.kind, is_ordinary, self.session_limit, found)
    }

    /// Gives the place of a child back that was refused.
    pub fn back_out(&mut self)
        requires { IsRefused self.old.knows.work }
        ensures table { self.new.table ≡ self.old.table }
        ensures slot { self.new.slot ≡ self.old.slot }
        ensures home { self.new.home ≡ self.old.home }
        ensures knows { HasBackedOut self.old.knows self.new.knows }
    {
        let gate = self.words.slot_count();
        let takes = place(self.kind);
        self.words
            .fetch_sub::<BacksOut>(&mut self.seat, gate, takes);
    }

    /// Gives the place of a child back that is attached, and hasn't what lies at the board's home.
    pub fn let_go(&mut self)
        requires attached { IsAttached self.old.knows.work }
        requires free { H.has self.old.home.knows ≡ false }
        ensures table { self.new.table ≡ self.old.table }
        ensures slot { self.new.slot ≡ self.old.slot }
        ensures home { self.new.home ≡ self.old.home }
        ensures knows { HasDetached self.old.knows self.new.knows }
    {
        let gate = self.words.slot_count();
        let takes = place(self.kind);
        self.words
            .fetch_sub::<Detaches>(&mut self.seat, gate, takes);
    }

    /// Marks the slot as no longer active.
    pub fn unmark(&mut self)
        requires { IsActive self.old.knows.work }
        ensures table { self.new.table ≡ self.old.table }
        ensures slot { self.new.slot ≡ self.old.slot }
        ensures home { self.new.home ≡ self.old.home }
        ensures knows { HasUnmarked self.old.knows self.new.knows }
    {
        self.words
            .fetch_sub::<Unmarks>(&mut self.seat, self.index, ACTIVE);
    }
}

impl<J: Letter + Drop, H: Home + Drop> Roster<J, H> {
    /// Gives notice: no child is let in any more.
    pub fn quit(&mut self, why: Reason)
        requires { MayQuit self.old.knows.noticed why }
        ensures table { self.new.table ≡ self.old.table }
        ensures home { self.new.home ≡ self.old.home }
        ensures knows { HasStepped (Quit why self.old.knows.generation) self.old.knows
            self.new.knows }
    {
        let gate = self.words.slot_count();
        let adds = quit_adds(self.noticed, why);
        self.words.fetch_add::<Quits>(&mut self.seat, gate, adds);
        self.noticed = Some(why);
    }

    /// Opens the gate to sessions, and takes the notice back.
    pub fn ready(&mut self)
        requires { MayOpen self.old.knows }
        ensures table { self.new.table ≡ self.old.table }
        ensures home { self.new.home ≡ self.old.home }
        ensures knows { HasStepped (Ready self.old.knows.generation) self.old.knows self.new.knows }
    {
        let gate = self.words.slot_count();
        let adds = ready_adds(self.noticed);
        self.words.fetch_add::<Readies>(&mut self.seat, gate, adds);
        self.noticed = None;
    }

    /// Begins the next generation, whatever the gate has counted. The supervisor has what lies at the board's home, if something
    /// does.
    pub fn reset(&mut self)
        requires may { MayReset self.old.knows }
        requires lends { H.lends self.old.home.knows ≡ false }
        ensures table { self.new.table ≡ self.old.table }
        ensures home { self.new.home ≡ self.old.home }
        ensures knows { HasStepped (Reset (self.old.knows.generation + 1)) self.old.knows
            self.new.knows }
    {
        let gate = self.words.slot_count();
        let generation = self.generation + 1;
        self.words
            .store::<Resets>(&mut self.seat, gate, new_word(generation));
        self.generation = generation;
        self.noticed = None;
    }

    pub fn generation(&self) -> u32
        ensures { result ≡ self.now.knows.generation }
    {
        self.generation
    }
}
