//! The start of a connection: requests for encryption, each refused by `N`, up to the packet that starts the session.
ghost use Rattle.std.specs.Prelude.{◌≡◌, ℕ, List, [], Ok, IsTrue};
ghost use Rattle.pm_session_exchange.specs.{pm_startup.Grammar.{content_of, FrontDecides}, pm_child_life.Life.HasNoCancel, Moments.outside};
ghost use Rattle.pm_session.specs.{Entry.{AsksFor, Enters}, Session.{IsApart, is_ordinary_user}};

use pm_child_life::Life;
use pm_outside::{Clock, Link};
use pm_session_exchange::{Cause, Inbox, Line, Means};
use pm_startup::{Packet, Phase, Read, StartFault, Step, next, read};
use std::sync::Wait;

/// The answer to a request for encryption.
const NO_ENCRYPTION: &[u8] = b"N";

/// The user who may take the reserved places.
const SUPERUSER: &[u8] = b"postgres";

/// What the bytes that came so far ask for.
#[derive(Clone, Copy)]
enum Ask {
    /// They are too few to tell.
    Nothing,
    /// Encryption, by so many bytes; the connection is in this phase then.
    Encryption { behind: Phase, used: usize },
    /// A session of an ordinary user or of the superuser, by so many bytes.
    Start { used: usize, is_ordinary: bool },
    /// That another query be cancelled.
    Cancel { pid: u32, key: u32 },
    /// Nothing that is served.
    Refused(StartFault),
}

/// Reads packets until one starts the session, and tells whether its user is an ordinary one. Any other end of it is an error.
/// After each read that leaves the packet unfinished, whether or not bytes came, it looks at its clock: at the limit of time, in
/// milliseconds since the session began, it gives the client up. A packet that is whole starts the session, however late.
pub(crate) fn startup<R: Wait, L: Link, C: Clock, W: Life>(
    line: &mut Line<L, W>,
    means: &Means<'_, R, C>,
    inbox: &mut Inbox,
    began: u64,
    limit: u64,
) -> Result<bool, Cause>
    requires empty { inbox.old ≡ [] }
    requires none { HasNoCancel line.old.child.told }
    requires began { C.gives means.now.clock.now began }
    ensures enters { Enters (C.gives means.now.clock.now) limit result
        (outside line.old.link inbox.old line.old.child)
        (outside line.new.link inbox.new line.new.child) }
    ensures rests { W.rests line.old.work line.new.work }
{
    let mut phase = Phase {
        ssl_used: false,
        gss_used: false,
    };
    let mut came = line.look(inbox)?;
    for _ in means.rt.forever() {
        match asked_by(phase, inbox.unread()) {
            Ask::Nothing => {
                if has_passed(means.clock, began, limit) {
                    return Err(Cause::TimedOut);
                }
                if !came {
                    means.clock.pause();
                }
                came = line.look(inbox)?;
            }
            Ask::Encryption { behind, used } => {
                inbox.pass(used);
                phase = behind;
                line.send(NO_ENCRYPTION)?;
            }
            Ask::Start { used, is_ordinary } => {
                inbox.pass(used);
                return Ok(is_ordinary);
            }
            Ask::Cancel { pid, key } => {
                line.cancel(pid, key);
                return Err(Cause::Cancelling);
            }
            Ask::Refused(fault) => return Err(Cause::PacketRefused(fault)),
        }
    }
    unreachable!()
}

// Whether so many milliseconds have passed since that moment.
fn has_passed<C: Clock>(clock: &C, began: u64, limit: u64) -> bool
    requires { C.gives clock.now began }
    ensures { IsTrue result → IsApart (C.gives clock.now) limit }
{
    clock.now().saturating_sub(began) >= limit
}

// What the bytes ask for in this phase.
fn asked_by(phase: Phase, bytes: &[u8]) -> Ask
    ensures { AsksFor phase bytes.now result }
{
    match read(bytes) {
        Read::Whole { packet, used } => asked_by_packet(phase, &packet, used),
        Read::Short => Ask::Nothing,
        Read::Bad(fault) => Ask::Refused(fault),
    }
}

// What a packet of so many bytes asks for.
fn asked_by_packet(phase: Phase, packet: &Packet, used: usize) -> Ask
    ensures { (bytes : List ℕ) → FrontDecides bytes used (Ok (content_of packet.now))
        → AsksFor phase bytes result }
{
    match next(phase, packet) {
        Step::SayNo(behind) => Ask::Encryption { behind, used },
        Step::Start => match *packet {
            Packet::Start { user } => Ask::Start {
                used,
                is_ordinary: is_ordinary_user(user),
            },
            _ => unreachable!(),
        },
        Step::Refuse(fault) => Ask::Refused(fault),
        Step::Cancel => match *packet {
            Packet::Cancel { pid, key } => Ask::Cancel { pid, key },
            _ => unreachable!(),
        },
    }
}

// Whether the reserved places are kept from this user. A name counts byte by byte.
fn is_ordinary_user(user: &[u8]) -> bool
    ensures { result ≡ is_ordinary_user user.now }
{
    user != SUPERUSER
}
