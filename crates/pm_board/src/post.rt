//! A worker's seat.
ghost use Rattle.std.specs.{Prelude.{◌≡◌, ◌<◌, false}, Arc.arc_value};
ghost use Rattle.pm_board_words.specs.{declared.views.Work.TheVariants.Idle, Words.status_number};
ghost use Rattle.pm_board.specs.{Told.post_of, Models.{PostOf, IsWholePost, MayExit, GivesBack, HasStarted, HasExited}, Ties.HasHome};

use crate::plays::{Ends, Loads, Seated, Starts, Words};
use pm_board_home::{Home, NoHome};
use pm_board_words::{
    Letter, NEXT_STAGE, OFFERED, SessionLimit, ended, kind, low_half, pid, stage,
};
use pm_exit::{Kind, Status};
use std::marker::Model;
use std::sync::{Arc, Wait};

/// What a post finds on its slot.
#[derive(Drop)]
pub enum Started<J> {
    /// No child is offered.
    Idle,
    /// This child runs on it now.
    Job { pid: u32, kind: Kind, job: J },
}

/// The seat of the worker of one slot.
#[derive(Drop)]
pub struct Post<J: Letter + Drop, H: Home + Drop = NoHome> {
    pub(crate) words: Arc<Words<J, H>>,
    pub(crate) seat: Seated<J, H>,
    pub(crate) index: usize,
    /// Of the child that runs.
    pub(crate) kind: Kind,
    pub(crate) pid: u32,
    pub(crate) session_limit: SessionLimit,
}

impl<J: Letter + Drop, H: Home + Drop> Model for Post<J, H> {
    ghost Value = { PostOf J.Told H.Knows };

    ghost view = { λ r. record {
      table = r.seat.table;
      slot = r.index;
      knows = post_of r.seat.me.0;
      home = r.seat.more.0;
    } };

    ghost invariant = { λ r. IsWholePost (arc_value r.words).table r.seat.table
        r.index r.kind r.pid r.session_limit r.seat.me × HasHome H.Home r.index r.seat.more };
}

impl<J: Letter + Drop, H: Home + Drop> Post<J, H> {
    /// Starts the child that is offered on the post's slot, with its mail. `Idle` exactly where the slot's word, as this
    /// call loads it, offers none. No child may run on the post.
    pub fn start(&mut self) -> Started<J>
        requires { self.old.knows.work ≡ Idle }
        ensures table { self.new.table ≡ self.old.table }
        ensures slot { self.new.slot ≡ self.old.slot }
        ensures home { self.new.home ≡ self.old.home }
        ensures met { HasStarted J.Letter result self.old.knows self.new.knows }
    {
        let found = self.words.load::<Loads>(&mut self.seat, self.index);
        let found_stage = stage(found);
        if found_stage != OFFERED {
            return Started::Idle;
        }
        self.words
            .fetch_add::<Starts<J>>(&mut self.seat, self.index, NEXT_STAGE);
        let mail = self.words.exchange(&mut self.seat, self.index, None);
        let job = mail.unwrap();
        let pid = pid(found);
        let kind = kind(found);
        self.kind = kind;
        self.pid = pid;
        Started::Job { pid, kind, job }
    }

    /// Waits until a child may be offered on the post's slot. It may also return for no reason.
    pub fn wait<R: Wait>(&self, rt: &R) {
        let found = self.words.peek(self.index);
        if stage(found) != OFFERED {
            self.words.park(rt, self.index, low_half(found));
        }
    }

    /// Ends the child that runs on the post, from outside the gate or attached, and gives a mail back. An auxiliary child
    /// that is attached may not end with exit code 0. The post hasn't what lies at the board's home.
    pub fn exit(&mut self, status: Status, job: J)
        requires free { H.has self.old.home.knows ≡ false }
        requires runs { MayExit self.old.knows.work status }
        requires status { status_number status < 256 }
        requires back { GivesBack J.Letter self.old.knows.work status job }
        ensures table { self.new.table ≡ self.old.table }
        ensures slot { self.new.slot ≡ self.old.slot }
        ensures home { self.new.home ≡ self.old.home }
        ensures knows { HasExited status (J.told job) self.old.knows self.new.knows }
    {
        let step = ended(status);
        match self.words.exchange(&mut self.seat, self.index, Some(job)) {
            None => {}
            Some(_) => unreachable!(),
        }
        self.words
            .fetch_add::<Ends<J>>(&mut self.seat, self.index, step);
    }
}
