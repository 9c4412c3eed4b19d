//! By what a session ends, how far it had come, and how its child exits.
ghost use Rattle.std.specs.Prelude.{◌≡◌, true, false};
ghost use Rattle.pm_session_exchange.specs.Ends.{status_by, LetsGo};

use pm_child_life::GateNo;
use pm_exit::Status;
use pm_startup::StartFault;
use pm_supervisor::Reason;

/// Why a client's message is refused.
#[derive(Clone, Copy, Debug, PartialEq, Eq)]
pub enum MessageFault {
    /// Its length is one that no message of its type has.
    BadLength { seen: u32 },
    /// A query whose body is no string that fills it.
    BadForm,
    /// A query of more than 65,536 bytes.
    LongQuery { seen: u32 },
    /// A message of the extended query protocol, of this type.
    Extended(u8),
    /// A message of a type that there isn't.
    UnknownType(u8),
}

/// By what a session ended.
#[derive(Clone, Copy, Debug, PartialEq, Eq)]
pub enum Cause {
    /// A Terminate message.
    Terminated,
    /// The connection asked for another query to be cancelled.
    Cancelling,
    /// The link gave its end.
    LinkEnded,
    LinkFailed,
    /// The client wasn't admitted in time.
    TimedOut,
    PacketRefused(StartFault),
    MessageRefused(MessageFault),
    /// The supervisor's decision was another than Ok.
    DecisionRefused,
    GateRefused(GateNo),
    ShortOfMemory,
    /// The commit log can't be written.
    Panicked,
    ToldToTerminate,
    ToldToQuit(Reason),
    Killed,
    /// The store is in another generation.
    Overtaken,
}

/// How far a session had come.
#[derive(Clone, Copy, Debug, PartialEq, Eq)]
pub enum Stage {
    /// Not through the gate.
    Outside,
    /// Through the gate, and not greeted yet.
    Entering,
    Greeted,
}

impl Cause {
    /// How the child exits.
    pub fn status(self) -> Status
        ensures { result ≡ status_by self }
    {
        match self {
            Cause::Terminated | Cause::Cancelling | Cause::LinkEnded => Status::Code(0),
            Cause::PacketRefused(StartFault::Length { .. }) => Status::Code(0),
            Cause::ToldToQuit(_) => Status::Code(2),
            Cause::Panicked | Cause::Overtaken => Status::Signal(6),
            Cause::Killed => Status::Signal(9),
            Cause::LinkFailed
            | Cause::TimedOut
            | Cause::PacketRefused(_)
            | Cause::MessageRefused(_)
            | Cause::DecisionRefused
            | Cause::GateRefused(_)
            | Cause::ShortOfMemory
            | Cause::ToldToTerminate => Status::Code(1),
        }
    }

    /// Whether the child lets go of the store and of its attachment before it exits.
    pub fn lets_go(self) -> bool
        ensures { LetsGo self (result ≡ true) (result ≡ false) }
    {
        match self {
            Cause::Panicked | Cause::ToldToQuit(_) | Cause::Killed | Cause::Overtaken => false,
            Cause::Terminated
            | Cause::Cancelling
            | Cause::LinkEnded
            | Cause::LinkFailed
            | Cause::TimedOut
            | Cause::PacketRefused(_)
            | Cause::MessageRefused(_)
            | Cause::DecisionRefused
            | Cause::GateRefused(_)
            | Cause::ShortOfMemory
            | Cause::ToldToTerminate => true,
        }
    }
}
