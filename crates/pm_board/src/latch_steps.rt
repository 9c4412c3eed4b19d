//! The steps at latches and cancels, one call each. The crate of the latches makes its calls of them, and nobody else uses them.
ghost use Rattle.std.specs.Prelude.{◌≡◌, ◌<◌};
ghost use Rattle.pm_keys.specs.CancelKey.{cancel_key};
ghost use Rattle.pm_board.specs.{Slots.child_slots, Places.IsAssigned, Models.{RunsChild, HasSent, HasTakenSignals, HasHeeded, HasLookedAtLatch, HasCancelled, cancel_of}};

use crate::plays::{Cancels, Heeds, LooksAtLatch, Made, Sends, Takes};
use crate::post::Post;
use crate::roster::Roster;
use pm_board_home::Home;
use pm_board_words::{Letter, NO_SIGNALS, Signal, armed_for, signal_bit, signals};
use pm_child_life::Signals;
use std::marker::Brand;

impl<J: Letter + Drop, H: Home + Drop> Roster<J, H> {
    /// Lets a signal stand for the child of a slot.
    pub fn send(&mut self, slot: u32, signal: Signal)
        requires { IsAssigned self.old.knows slot }
        ensures table { self.new.table ≡ self.old.table }
        ensures home { self.new.home ≡ self.old.home }
        ensures knows { HasSent slot signal self.old.knows self.new.knows }
    {
        let latch = self.words.slot_count() + 1 + slot as usize;
        self.words
            .fetch_or::<Sends>(&mut self.seat, latch, signal_bit(signal));
    }
}

impl<J: Letter + Drop, H: Home + Drop> Post<J, H> {
    /// How many slots the board has.
    pub fn slots(&self) -> u32
        ensures { result ≡ child_slots self.now.table.slots }
    {
        self.words.slot_count() as u32
    }

    /// Takes the signals that stand for the child that runs, and tells them beside whether its last heed found a cancel.
    pub fn take_signals(&mut self, cancel: bool) -> Signals
        requires runs { RunsChild self.old.knows.work }
        requires cancel { cancel ≡ self.old.knows.notes.now.heeded }
        ensures table { self.new.table ≡ self.old.table }
        ensures slot { self.new.slot ≡ self.old.slot }
        ensures home { self.new.home ≡ self.old.home }
        ensures met { HasTakenSignals result self.old.knows self.new.knows }
    {
        let latch = self.words.slot_count() + 1 + self.index;
        let found = self
            .words
            .fetch_and::<Takes>(&mut self.seat, latch, NO_SIGNALS);
        signals(found, cancel)
    }

    /// Whether a cancel was made for the child that runs. It is no longer there then.
    pub fn heed(&mut self) -> bool
        requires { RunsChild self.old.knows.work }
        ensures table { self.new.table ≡ self.old.table }
        ensures slot { self.new.slot ≡ self.old.slot }
        ensures home { self.new.home ≡ self.old.home }
        ensures met { HasHeeded result self.old.knows self.new.knows }
    {
        let count = self.words.slot_count();
        let place = count + 1 + count + self.index;
        let pid = u64::from(self.pid);
        let found = self
            .words
            .compare_exchange::<Heeds>(&mut self.seat, place, pid, 0);
        found == pid
    }

    /// The pid that the latch of a slot is armed for.
    pub fn look_at_latch(&mut self, slot: u32) -> u32
        requires { slot < child_slots self.old.table.slots }
        ensures table { self.new.table ≡ self.old.table }
        ensures slot { self.new.slot ≡ self.old.slot }
        ensures home { self.new.home ≡ self.old.home }
        ensures met { HasLookedAtLatch slot result self.old.knows self.new.knows }
    {
        let latch = self.words.slot_count() + 1 + slot as usize;
        let found = self.words.load::<LooksAtLatch>(&mut self.seat, latch);
        armed_for(found)
    }

    /// Makes a cancel for a pid on the cancel word of a slot. The key has to be that of the pid under the seed.
    pub fn make_cancel(&mut self, slot: u32, seed: &[u8; 32], pid: u32, key: u32)
        requires slot { slot < child_slots self.old.table.slots }
        requires key { key ≡ cancel_key seed.now pid }
        ensures table { self.new.table ≡ self.old.table }
        ensures slot { self.new.slot ≡ self.old.slot }
        ensures home { self.new.home ≡ self.old.home }
        ensures knows { HasCancelled (cancel_of slot seed.now pid key) self.old.knows
            self.new.knows }
    {
        self.raise::<Brand>(slot, seed, pid, key);
    }

    // The cancel's step. Seed and key are for the proof alone.
    fn raise<C: Made>(&mut self, slot: u32, _seed: &[u8; 32], pid: u32, _key: u32)
        requires place { (slot < child_slots self.old.table.slots) × (C.cancel.slot ≡ slot)
            × (C.cancel.pid ≡ pid) }
        requires key { C.cancel.key ≡ cancel_key C.cancel.seed C.cancel.pid }
        ensures table { self.new.table ≡ self.old.table }
        ensures slot { self.new.slot ≡ self.old.slot }
        ensures home { self.new.home ≡ self.old.home }
        ensures knows { HasCancelled C.cancel self.old.knows self.new.knows }
    {
        let count = self.words.slot_count();
        let place = count + 1 + count + slot as usize;
        self.words
            .fetch_max::<Cancels<C>>(&mut self.seat, place, u64::from(pid));
    }
}
