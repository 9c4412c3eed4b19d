//! The end of a connection: what is said last, and as what the child exits.
ghost use Rattle.std.specs.Prelude.{◌≡◌, ◌≤◌, [], ◌∷◌, IfSome};
ghost use Rattle.pm_wire.specs.{Conditions.{fixed_message, told}, Longest.IsGiven};
ghost use Rattle.pm_session_exchange.specs.{Sent.{bytes_of, from_attach, packet_refusal, message_refusal, decision_refusal, gate_refusal, last_of}, Moments.outside, Room.buffer_bytes};
ghost use Rattle.pm_session.specs.Entry.{ClosesBy, IsSaidBy};

use crate::desk::Desk;
use pm_admit::Cac;
use pm_child_life::{GateNo, Life};
use pm_outside::Link;
use pm_session_exchange::{Cause, Line, MessageFault, Stage};
use pm_startup::StartFault;
use pm_supervisor::Reason;
use pm_wire::{Back, Condition, Fixed, Outbox, conditions_can_be_told, fixed};

impl<L: Link, W: Life> Desk<L, W> {
    /// Brings a session to its end for this cause, and answers by what the child exits. A fault of the link is passed over
    /// here, and a signal counts before a client's own end.
    pub(crate) fn close(&mut self, decision: Cac, stage: Stage, cause: Cause) -> Cause
        ensures closes { ClosesBy decision stage cause result
            (outside self.old.link [] self.old.child) (outside self.new.link [] self.new.child) }
        ensures rests { W.rests self.old.work self.new.work }
    {
        let cause = self.line.last_cause(cause);
        put_last(&mut self.outbox, decision, stage, cause);
        self.line.say_last(self.outbox.as_slice());
        self.line.exit_by(cause)
    }
}

/// Brings a session to its end that found no memory for its buffers.
pub(crate) fn close_short_of_memory<L: Link, W: Life>(line: &mut Line<L, W>, decision: Cac) -> Cause
    ensures closes { ClosesBy decision Stage.Outside Cause.ShortOfMemory result
        (outside line.old.link [] line.old.child) (outside line.new.link [] line.new.child) }
    ensures rests { W.rests line.old.work line.new.work }
{
    let cause = line.last_cause(Cause::ShortOfMemory);
    line.say_last(fixed(Fixed::FatalMemory));
    line.exit_by(cause)
}

// Puts what is said last into the outbox, alone.
fn put_last(outbox: &mut Outbox, decision: Cac, stage: Stage, cause: Cause)
    requires { buffer_bytes ≤ outbox.old.capacity }
    ensures bytes { outbox.new.bytes ≡ bytes_of (last_of decision stage cause) }
    ensures room { outbox.old.capacity ≤ outbox.new.capacity }
{
    outbox.clear();
    if let Some(condition) = last_condition(decision, stage, cause) {
        conditions_can_be_told();
        Back::Told(condition).put(outbox);
    }
}

// What is said last.
fn last_condition(decision: Cac, stage: Stage, cause: Cause) -> Option<Condition<'static>>
    ensures says { IsSaidBy (last_of decision stage cause) result }
    ensures given { IfSome result IsGiven }
{
    match cause {
        Cause::Terminated
        | Cause::Cancelling
        | Cause::LinkEnded
        | Cause::LinkFailed
        | Cause::TimedOut
        | Cause::Killed
        | Cause::Overtaken => None,
        Cause::PacketRefused(fault) => packet_condition(fault),
        Cause::MessageRefused(fault) => Some(message_condition(fault)),
        Cause::DecisionRefused => decision_condition(decision),
        Cause::GateRefused(refusal) => Some(Condition::Fixed(gate_fixed(refusal))),
        Cause::ShortOfMemory => Some(Condition::Fixed(Fixed::FatalMemory)),
        Cause::Panicked => Some(Condition::Fixed(Fixed::CouldNotWrite)),
        Cause::ToldToTerminate => from_attach(stage, Fixed::Terminated),
        Cause::ToldToQuit(Reason::Crash) => from_attach(stage, Fixed::CrashQuit),
        Cause::ToldToQuit(Reason::Stop) => from_attach(stage, Fixed::StopQuit),
    }
}

// A child outside says nothing to a signal.
fn from_attach(stage: Stage, words: Fixed) -> Option<Condition<'static>>
    ensures says { IsSaidBy (from_attach stage (fixed_message words ∷ [])) result }
    ensures given { IfSome result IsGiven }
{
    match stage {
        Stage::Outside => None,
        Stage::Entering | Stage::Greeted => Some(Condition::Fixed(words)),
    }
}

fn packet_condition(fault: StartFault) -> Option<Condition<'static>>
    ensures says { IsSaidBy (packet_refusal fault) result }
    ensures given { IfSome result IsGiven }
{
    match fault {
        StartFault::Length { .. } => None,
        StartFault::Version { major, minor } => Some(Condition::Version { major, minor }),
        StartFault::NoUser => Some(Condition::Fixed(Fixed::NoUser)),
        StartFault::Replication => Some(Condition::Fixed(Fixed::Replication)),
        StartFault::Malformed { .. } => Some(Condition::Fixed(Fixed::PacketLayout)),
        StartFault::PqOption => Some(Condition::Fixed(Fixed::ProtocolOption)),
    }
}

fn message_condition(fault: MessageFault) -> Condition<'static>
    ensures says { message_refusal fault ≡ told result ∷ [] }
    ensures given { IsGiven result }
{
    match fault {
        MessageFault::BadLength { .. } => Condition::Fixed(Fixed::MessageLength),
        MessageFault::BadForm => Condition::Fixed(Fixed::MessageFormat),
        MessageFault::LongQuery { .. } => Condition::Fixed(Fixed::LongQuery),
        MessageFault::Extended(_) => Condition::Fixed(Fixed::ExtendedQuery),
        MessageFault::UnknownType(kind) => Condition::UnknownType { kind },
    }
}

fn decision_condition(decision: Cac) -> Option<Condition<'static>>
    ensures says { IsSaidBy (decision_refusal decision) result }
    ensures given { IfSome result IsGiven }
{
    match decision {
        Cac::Ok => None,
        Cac::Startup => Some(Condition::Fixed(Fixed::StartingUp)),
        Cac::Recovery => Some(Condition::Fixed(Fixed::InRecovery)),
        Cac::Shutdown => Some(Condition::Fixed(Fixed::ShuttingDown)),
        Cac::TooMany => Some(Condition::Fixed(Fixed::TooManyClients)),
    }
}

fn gate_fixed(refusal: GateNo) -> Fixed
    ensures { gate_refusal refusal ≡ fixed_message result ∷ [] }
{
    match refusal {
        GateNo::Quit {
            reason: Reason::Crash,
            ..
        }
        | GateNo::NotReady { .. } => Fixed::InRecovery,
        GateNo::Quit {
            reason: Reason::Stop,
            ..
        } => Fixed::ShuttingDown,
        GateNo::TooMany { .. } => Fixed::TooManyClients,
        GateNo::Reserved { .. } => Fixed::ReservedConnections,
    }
}
