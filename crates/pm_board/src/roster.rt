//! The supervisor's seat.
ghost use Rattle.std.specs.{Prelude.{◌≡◌, ◌<◌, ◌≤◌, None, Some, false, length, slice_set}, Arc.arc_value};
ghost use Rattle.pm_board_home.specs.Views.{with_knows};
ghost use Rattle.pm_board_words.specs.declared.views.{Sight.TheVariants.Unused, Work.TheVariants.Idle};
ghost use Rattle.pm_board.specs.{Places.{slot_at, used_in, MayAssign, IsAssigned, HasEnded}, Children.{child_seen, children_of}, Heard.HeardAsSent, Told.roster_of, Models.{RosterModel, IsWholeRoster, IsRosterHome, HasAssigned, HasLooked, HasReleased, HasGathered, HasDealt}};

use crate::plays::{
    Arms, Assigns, Clears, Compares, Deals, Gathers, Looks, Releases, Seated, Words,
};
use crate::post::Post;
use pm_board_home::{Deals as HomeDeals, Gathers as HomeGathers, Home, NoHome};
use pm_board_words::{
    EXITED, Letter, NEXT_STAGE, SessionLimit, UNUSED, armed, is_active, kind, offered, pid, stage,
    status,
};
use pm_exit::{Kind, Status};
use pm_supervisor::Reason;
use std::marker::Model;
use std::sync::Arc;

/// What a look finds.
#[derive(Clone, Copy, Debug, PartialEq, Eq)]
pub enum Look {
    Running,
    /// The child has exited, with this status, and its slot was still marked as active or not.
    Exited { status: Status, active: bool },
}

/// A child that was released, with the mail that came back.
#[derive(Drop)]
pub struct Released<J> {
    pub job: J,
    pub pid: u32,
    pub kind: Kind,
    pub status: Status,
    pub was_active: bool,
}

/// The supervisor's seat.
#[derive(Drop)]
pub struct Roster<J: Letter + Drop, H: Home + Drop = NoHome> {
    pub(crate) words: Arc<Words<J, H>>,
    pub(crate) seat: Seated<J, H>,
    pub(crate) used: u32,
    /// Pid and kind of the child of each slot.
    pub(crate) children: Vec<Option<(u32, Kind)>>,
    pub(crate) generation: u32,
    pub(crate) noticed: Option<Reason>,
    /// How many posts it has made.
    pub(crate) dealt: u32,
}

impl<J: Letter + Drop, H: Home + Drop> Model for Roster<J, H> {
    ghost Value = { RosterModel J.Told H.Knows };

    ghost view = { λ r. record {
      table = r.seat.table;
      knows = roster_of r.seat.me.0;
      home = r.seat.more.0;
    } };

    ghost invariant = { λ r. IsWholeRoster (arc_value r.words).table r.seat.table
        r.used r.children.items r.generation r.noticed r.seat.me
        × IsRosterHome H.Home r.dealt r.seat.me r.seat.more };
}

impl<J: Letter + Drop, H: Home + Drop> Roster<J, H> {
    /// Assigns a child to an unused slot, whose latch is armed for it first, and hands its mail over.
    pub fn assign(&mut self, slot: u32, pid: u32, kind: Kind, job: J)
        requires may { MayAssign self.old.knows slot pid kind }
        requires fits { J.fits job kind }
        ensures table { self.new.table ≡ self.old.table }
        ensures home { self.new.home ≡ self.old.home }
        ensures slot { HasAssigned slot pid kind (J.told job) self.old.knows self.new.knows }
        ensures children { children_of self.new.knows.slots
            ≡ slice_set (children_of self.old.knows.slots) slot (Some (pid, kind)) }
    {
        let index = slot as usize;
        let word = offered(pid, kind);
        let latch = self.words.slot_count() + 1 + index;
        self.words.swap::<Arms>(&mut self.seat, latch, armed(pid));
        match self.words.exchange(&mut self.seat, index, Some(job)) {
            None => {}
            Some(_) => unreachable!(),
        }
        self.words.store::<Assigns<J>>(&mut self.seat, index, word);
        self.words.wake_one(index);
        self.used += 1;
        self.children[index] = Some((pid, kind));
    }

    /// Whether the child of a slot has exited: exactly where the slot's word, as this call loads it, is in that stage.
    pub fn look(&mut self, slot: u32) -> Look
        requires { IsAssigned self.old.knows slot }
        ensures table { self.new.table ≡ self.old.table }
        ensures home { self.new.home ≡ self.old.home }
        ensures met { HasLooked slot result self.old.knows self.new.knows }
        ensures children { children_of self.new.knows.slots ≡ children_of self.old.knows.slots }
    {
        let found = self.words.load::<Looks>(&mut self.seat, slot as usize);
        let found_stage = stage(found);
        if found_stage == EXITED {
            Look::Exited {
                status: status(found),
                active: is_active(found),
            }
        } else {
            Look::Running
        }
    }

    /// Takes the mail of a child that a look has found exited. Its slot is unused again.
    pub fn release(&mut self, slot: u32) -> Released<J>
        requires { HasEnded self.old.knows slot }
        ensures table { self.new.table ≡ self.old.table }
        ensures home { self.new.home ≡ self.old.home }
        ensures slot { HasReleased J.Letter slot result self.old.knows self.new.knows }
        ensures children { children_of self.new.knows.slots
            ≡ slice_set (children_of self.old.knows.slots) slot None }
    {
        let index = slot as usize;
        let found = self
            .words
            .fetch_add::<Releases<J>>(&mut self.seat, index, NEXT_STAGE);
        let mail = self.words.exchange(&mut self.seat, index, None);
        let job = mail.unwrap();
        self.words.store::<Clears>(&mut self.seat, index, UNUSED);
        self.used -= 1;
        self.children[index] = None;
        let pid = pid(found);
        let kind = kind(found);
        let status = status(found);
        let was_active = is_active(found);
        Released {
            job,
            pid,
            kind,
            status,
            was_active,
        }
    }

    /// How many slots have a child.
    pub fn used(&self) -> u32
        ensures { result ≡ used_in self.now.knows.slots }
    {
        self.used
    }

    /// How many slots there are.
    pub fn slots(&self) -> u32
        ensures { result ≡ length self.now.knows.slots }
    {
        self.words.slot_count() as u32
    }

    /// Pid and kind of the child of a slot. None exactly where the supervisor sees no child there.
    pub fn child(&self, slot: u32) -> Option<(u32, Kind)>
        requires { slot < length self.now.knows.slots }
        ensures { result ≡ child_seen (slot_at self.now.knows slot).sight }
    {
        self.children[slot as usize]
    }

    /// Takes in a post of this board whose slot is unused and on which no child runs: its children are those that were
    /// released, and what they heard was sent to them.
    pub fn gather(&mut self, post: Post<J, H>)
        requires post { (post.table ≡ self.old.table) × (post.knows.work ≡ Idle) }
        requires home { (H.has post.home.knows ≡ false)
            × H.joins self.old.home.knows post.home.knows }
        requires slot { (slot_at self.old.knows post.slot).sight ≡ Unused }
        ensures table { self.new.table ≡ self.old.table }
        ensures home { self.new.home
            ≡ with_knows self.old.home (H.taken_in self.old.home.knows post.home.knows) }
        ensures same { post.knows.past ≡ (slot_at self.old.knows post.slot).past }
        ensures slot { HasGathered post.slot post.knows self.old.knows self.new.knows }
        ensures heard { HeardAsSent self.new.knows }
        ensures children { children_of self.new.knows.slots ≡ children_of self.old.knows.slots }
    {
        let Post {
            words: _,
            seat,
            index,
            kind: _,
            pid: _,
            session_limit: _,
        } = post;
        self.words
            .join_seat::<Gathers, HomeGathers<H>>(&mut self.seat, seat);
        self.words.load::<Compares>(&mut self.seat, index);
    }

    // One more post, by this hold on the words.
    pub(crate) fn deal(
        &mut self,
        words: Arc<Words<J, H>>,
        session_limit: SessionLimit,
    ) -> Post<J, H>
        requires words { (arc_value words).table ≡ self.old.table }
        requires more { self.old.knows.dealt < length self.old.knows.slots }
        requires limit { session_limit ≡ self.old.knows.session_limit }
        requires free { H.has self.old.home.knows ≡ false }
        ensures table { self.new.table ≡ self.old.table }
        ensures post { HasDealt H.Home self.old.knows.dealt result self.old self.new }
    {
        let index = self.dealt as usize;
        let seat = self.words.split_seat::<Deals, HomeDeals<H>>(&mut self.seat);
        self.dealt += 1;
        Post {
            words,
            seat,
            index,
            kind: Kind::DeadEnd,
            pid: 0,
            session_limit,
        }
    }
}
