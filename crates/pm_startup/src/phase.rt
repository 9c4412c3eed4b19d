ghost use Rattle.std.specs.Prelude.{◌≡◌};
ghost use Rattle.pm_startup.specs.{Grammar.content_of, Phases.step_of};

use crate::packet::{Packet, StartFault};

/// Which encryption requests a connection has made. None at its start.
#[derive(Clone, Copy, Debug, Default, PartialEq, Eq)]
pub struct Phase {
    pub ssl_used: bool,
    pub gss_used: bool,
}

/// What to do with a packet.
#[derive(Clone, Copy, Debug, PartialEq, Eq)]
pub enum Step {
    /// Answer the byte `N` and read the next packet in this phase.
    SayNo(Phase),
    /// Start the session.
    Start,
    /// Serve the cancel request, without a reply.
    Cancel,
    /// Refuse the connection.
    Refuse(StartFault),
}

/// The step for the next packet of a connection.
///
/// SSLRequest and GSSENCRequest are answered once each, in either order. A second one of a kind is an
/// unknown version, 1234.5679 or 1234.5680.
pub fn next(phase: Phase, packet: &Packet) -> Step
    ensures { result ≡ step_of phase (content_of packet.now) }
{
    match packet {
        Packet::Start { .. } => Step::Start,
        Packet::Cancel { .. } => Step::Cancel,
        Packet::Ssl if phase.ssl_used => Step::Refuse(StartFault::Version {
            major: 1234,
            minor: 5679,
        }),
        Packet::Ssl => Step::SayNo(Phase {
            ssl_used: true,
            ..phase
        }),
        Packet::Gss if phase.gss_used => Step::Refuse(StartFault::Version {
            major: 1234,
            minor: 5680,
        }),
        Packet::Gss => Step::SayNo(Phase {
            gss_used: true,
            ..phase
        }),
    }
}
