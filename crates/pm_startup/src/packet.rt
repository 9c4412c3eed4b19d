use thiserror::Error;

/// A startup packet: what a frontend sends before its session begins.
#[derive(Clone, Copy, Debug, PartialEq, Eq)]
pub enum Packet<'a> {
    /// StartupMessage of protocol 3.0 with the user whom it names, never empty.
    Start { user: &'a [u8] },
    /// SSLRequest.
    Ssl,
    /// GSSENCRequest.
    Gss,
    /// CancelRequest: the pid and the key that a session was told at its start.
    Cancel { pid: u32, key: u32 },
}

/// Why a startup packet is refused. After a `Length` the frontend gets no reply.
#[derive(Clone, Copy, Debug, PartialEq, Eq, Error)]
pub enum StartFault {
    /// The length is below 8 or above 10004, or is not the 16 of a CancelRequest.
    #[error("invalid length of startup packet: {seen}")]
    Length { seen: u32 },
    /// The code is no request and no version 3.0.
    #[error("unsupported frontend protocol {major}.{minor}: server supports 3.0 to 3.0")]
    Version { major: u16, minor: u16 },
    /// No `user` is named, or an empty one.
    #[error("no PostgreSQL user name specified in startup packet")]
    NoUser,
    /// A replication connection is asked for.
    #[error("replication connections are not supported")]
    Replication,
    /// The body is no list of pairs with one zero byte after it. `at` counts from the packet's first byte:
    /// where the string begins that doesn't end, or the byte after an empty name that is not the last.
    #[error("invalid startup packet layout: expected terminator as last byte")]
    Malformed { at: usize },
    /// A name begins with `_pq_.`: a protocol option is asked for.
    #[error("protocol options are not supported")]
    PqOption,
}

/// What stands at the front of the bytes that came so far.
#[derive(Clone, Copy, Debug, PartialEq, Eq)]
pub enum Read<'a> {
    /// A whole packet, in the first `used` bytes.
    Whole { packet: Packet<'a>, used: usize },
    /// Not enough bytes to tell.
    Short,
    /// A packet that is refused, or a length that no packet has.
    Bad(StartFault),
}
