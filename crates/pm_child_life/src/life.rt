//! What a child's own life gives it: its pid, its signals, and its attachment at the gate.
ghost use Rattle.std.specs.Prelude.{◌≡◌, ℕ, Option, Some, None, option_map, IfOk, IsTrue, OnErr};
ghost use Rattle.pm_child_life.specs.Life.{Told, Child, IsUntried, HasNoCancel, asked_again, met_at_gate, asked_cancel, attached_in, attempt, let_go};

use crate::seat::Seat;
use pm_supervisor::Reason;

/// Why the gate didn't let a child in.
#[derive(Clone, Copy, Debug, PartialEq, Eq)]
pub enum GateNo {
    /// All children of this generation have to end.
    Quit { generation: u32, reason: Reason },
    /// Redo hasn't ended in this generation.
    NotReady { generation: u32 },
    /// So many sessions are attached, and no more may be.
    TooMany { count: u32 },
    /// So many are attached, and the places that are left are reserved.
    Reserved { count: u32 },
}

/// What a child met at the gate: whether it came as an ordinary one, from whom the reserved places are kept, and the answer.
#[derive(Clone, Copy, Debug, PartialEq, Eq)]
pub struct Attempt {
    pub is_ordinary: bool,
    pub answer: Result<u32, GateNo>,
}

/// The signals that stood for a child. It takes them as it is given them.
#[derive(Clone, Copy, Debug, PartialEq, Eq)]
pub struct Signals {
    pub kill: bool,
    pub quit: Option<Reason>,
    pub terminate: bool,
    pub cancel: bool,
    pub checkpoint: bool,
}

/// What became of a cancel request.
#[derive(Clone, Copy, Debug, PartialEq, Eq)]
pub enum Cancelled {
    Sent,
    NoSuchPid,
    WrongKey,
}

/// The life of one child. It goes to the gate once it is needed, and asks for its signals wherever it may be stopped.
pub trait Life: Seat {
    fn pid(&self) -> u32
        ensures { result ≡ (Self.child self.now).pid };

    /// Takes the signals that stand.
    fn signals(&mut self) -> Signals
        ensures told { Self.told self.new ≡ option_map (asked_again result) (Self.told self.old) }
        ensures child { Self.child self.new ≡ Self.child self.old }
        ensures rests { Self.rests self.old self.new };

    /// Goes through the gate, once, and answers the generation that it is attached in. The reserved places are kept from an
    /// ordinary child.
    fn attach(&mut self, is_ordinary: bool) -> Result<u32, GateNo>
        requires free { (Self.child self.old).attached ≡ None }
        requires may { ¬ (IsTrue (Self.child self.old).is_dead_end) }
        requires once { IsUntried (Self.told self.old) }
        ensures ok { IfOk result (λ generation. Self.child self.new ≡ attached_in generation
            (Self.child self.old)) }
        ensures refused { OnErr result (Self.child self.new ≡ Self.child self.old) }
        ensures told { Self.told self.new ≡ option_map (met_at_gate (attempt is_ordinary result))
            (Self.told self.old) }
        ensures rests { Self.rests self.old self.new };

    /// Goes out again.
    fn detach(&mut self)
        requires { (generation : ℕ) × ((Self.child self.old).attached ≡ Some generation) }
        ensures child { Self.child self.new ≡ let_go (Self.child self.old) }
        ensures told { Self.told self.new ≡ Self.told self.old }
        ensures rests { Self.rests self.old self.new };

    /// Asks that the query of another child be cancelled. It is asked for once at most.
    fn cancel(&mut self, pid: u32, key: u32) -> Cancelled
        requires { HasNoCancel (Self.told self.old) }
        ensures told { Self.told self.new ≡ option_map (asked_cancel pid key) (Self.told self.old) }
        ensures child { Self.child self.new ≡ Self.child self.old }
        ensures rests { Self.rests self.old self.new };

    /// Where no call is made, the store is the same.
    ghost stands_still: { (life : Self) → Self.rests life life };

    /// What rests over some calls and over those after them rests over all of them.
    ghost rests_on: { (before between now : Self) → Self.rests before between → Self.rests between now → Self.rests before now };
}
