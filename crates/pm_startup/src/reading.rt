//! Packets from bytes.

ghost use Rattle.std.specs.Prelude.{◌≡◌, ℕ, ◌+◌, ◌≤◌, ◌↔◌, ◌++◌, List, length, Result, Ok, Err};
ghost use Rattle.pm_startup.specs.{declared.packet.StartFault.StartFault, Grammar.{Content, Says, CancelSays, StartupSays, kind_of, contents, max_length, Decides, FrontDecides, IsUndecided, IsIncomplete, IsWhole}};

use crate::packet::{Packet, Read, StartFault};
use crate::parameters::settings_of;
use byteorder::{BigEndian, ByteOrder};

/// The bytes of a packet's length.
const LENGTH_BYTES: usize = 4;

/// The bytes of its length and its code.
const HEADER_BYTES: usize = 8;

/// The least length of a packet, which counts all of its bytes.
const MIN_LENGTH: u32 = 8;

/// The greatest one.
const MAX_LENGTH: u32 = 10_004;

/// The codes 1234.5678, 1234.5679 and 1234.5680 of requests, and protocol version 3.0.
const CANCEL_REQUEST: u32 = 80_877_102;

const SSL_REQUEST: u32 = 80_877_103;

const GSSENC_REQUEST: u32 = 80_877_104;

const VERSION_3_0: u32 = 196_608;

/// The bytes of a CancelRequest's pid and key.
const CANCEL_BYTES: usize = 8;

/// What stands at the front of a connection's bytes.
///
/// It is told once a packet is whole, or once four bytes are a length that no packet has, and then it
/// stays, whatever comes after. Of a packet that isn't whole only the first four bytes are looked at, so
/// a caller may ask again after each byte that comes.
pub fn read(bytes: &[u8]) -> Read<'_>
    ensures whole { (content : Content) (n : ℕ) → IsWhole result content n
        ↔ FrontDecides bytes.now n (Ok content) }
    ensures short { (result ≡ Read.Short) ↔ IsUndecided bytes.now }
    ensures incomplete { (result ≡ Read.Short) ↔ IsIncomplete bytes.now }
    ensures bad { (fault : StartFault) → (result ≡ Read.Bad fault)
        ↔ ((n : ℕ) × FrontDecides bytes.now n (Err fault)) }
{
    if bytes.len() < LENGTH_BYTES {
        return Read::Short;
    }
    let length = BigEndian::read_u32(bytes);
    if length < MIN_LENGTH || length > MAX_LENGTH {
        return Read::Bad(StartFault::Length { seen: length });
    }
    let used = length as usize;
    if bytes.len() < used {
        return Read::Short;
    }
    let code = BigEndian::read_u32(&bytes[LENGTH_BYTES..]);
    match packet_of(code, &bytes[HEADER_BYTES..used]) {
        Ok(packet) => Read::Whole { packet, used },
        Err(fault) => Read::Bad(fault),
    }
}

/// Startup packets are prefix-free: none is the front of another one, whether accepted or refused.
/// Where two fronts of the same bytes decide, they are the same front and decide the same.
pub fn prefix_free()
    ensures { (a b x y : List ℕ) (v w : Result Content StartFault) → Decides a v → Decides b w
        → a ++ x ≡ b ++ y → (a ≡ b) × (v ≡ w) }
{}

/// The packet of this code and body.
fn packet_of(code: u32, body: &[u8]) -> Result<Packet<'_>, StartFault>
    requires { 8 + length body.now ≤ max_length }
    ensures { Says (kind_of code) code body.now (contents result) }
{
    match code {
        SSL_REQUEST => Ok(Packet::Ssl),
        GSSENC_REQUEST => Ok(Packet::Gss),
        CANCEL_REQUEST => cancel_of(body),
        VERSION_3_0 => start_of(body),
        _ => Err(StartFault::Version {
            major: (code >> 16) as u16,
            minor: (code & 0xffff) as u16,
        }),
    }
}

/// The CancelRequest of this body.
fn cancel_of(body: &[u8]) -> Result<Packet<'_>, StartFault>
    requires { 8 + length body.now ≤ max_length }
    ensures { CancelSays body.now (contents result) }
{
    if body.len() != CANCEL_BYTES {
        return Err(StartFault::Length {
            seen: (HEADER_BYTES + body.len()) as u32,
        });
    }
    let pid = BigEndian::read_u32(body);
    let key = BigEndian::read_u32(&body[4..]);
    Ok(Packet::Cancel { pid, key })
}

/// The StartupMessage of this body: its layout first, then the checks of its pairs.
fn start_of(body: &[u8]) -> Result<Packet<'_>, StartFault>
    requires { 8 + length body.now ≤ max_length }
    ensures { StartupSays body.now (contents result) }
{
    let settings = match settings_of(body) {
        Ok(settings) => settings,
        Err(at) => return Err(StartFault::Malformed {
            at: HEADER_BYTES + at,
        }),
    };
    match settings.user {
        None | Some([]) => Err(StartFault::NoUser),
        Some(_) if settings.asks_option => Err(StartFault::PqOption),
        Some(_) if settings.asks_replication => Err(StartFault::Replication),
        Some(user) => Ok(Packet::Start { user }),
    }
}
