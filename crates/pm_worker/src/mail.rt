//! What the supervisor and its workers hand each other.
ghost use Rattle.std.specs.{Prelude.◌≡◌, Option.ForSome};
ghost use Rattle.pm_outside.specs.Traffic.{IsFresh, no_traffic};

use pm_admit::Cac;
use pm_board::Letter;
use pm_outside::Link;
use pm_query::StoreNo;
use std::collections::LinkedList;

/// A link on which nothing has passed yet.
#[derive(Drop)]
pub struct NewLink<L: Link> {
    link: L,
    ghost fresh: { ForSome (L.traffic link) (λ t. t ≡ no_traffic) },
}

impl<L: Link> NewLink<L> {
    pub fn new(link: L) -> NewLink<L>
        requires { IsFresh (L.traffic link) }
        ensures { result.link ≡ link }
    {
        NewLink { link }
    }

    /// The link.
    pub fn open(self) -> L
        ensures same { result ≡ self.link }
        ensures fresh { IsFresh (L.traffic result) }
    {
        let NewLink { link } = self;
        link
    }
}

/// A mail. The first five go to a worker; the last two, and `Close`, come back.
#[derive(Drop)]
pub enum Mail<L: Link> {
    /// Serve this connection.
    Serve {
        link: NewLink<L>,
        decision: Cac,
    },
    /// Read the log.
    Startup,
    /// Write checkpoints.
    Checkpointer,
    /// Write commits to the log.
    Writer,
    /// End, with the worker.
    Close,
    /// A connection was served.
    Served {
        link: L,
    },
    /// An auxiliary child has ended: by this refusal of the store, if it was one, and its redo, if it made one, kept so many
    /// commits.
    Aux {
        fault: Option<StoreNo>,
        kept: Option<u64>,
    },
}

/// What has passed on a link. No value of it is made.
pub struct Passed {
    pub came_in: LinkedList<u8>,
    pub went_out: LinkedList<u8>,
    pub ended: bool,
    pub waits: bool,
    pub failed: bool,
    pub went_on: bool,
}

/// A link by what it tells. No value of it is made.
pub struct LinkTold {
    pub number: u64,
    pub faults: u64,
    pub passed: Option<Passed>,
}

/// A mail by its content. No value of it is made.
pub enum MailTold {
    Serve {
        link: LinkTold,
        decision: Cac,
    },
    Startup,
    Checkpointer,
    Writer,
    Close,
    Served {
        link: LinkTold,
    },
    Aux {
        fault: Option<StoreNo>,
        kept: Option<u64>,
    },
}

impl<L: Link> Letter for Mail<L> {
    ghost use Rattle.pm_worker.specs.Mails.{mail_told, IsFor, ComesBack};

    type Told = MailTold;

    ghost told = { mail_told L.Link };

    ghost fits = { λ mail kind. IsFor (mail_told L.Link mail) kind };

    ghost comes_back = { λ mail kind status active. ComesBack (mail_told L.Link mail) kind status };
}
