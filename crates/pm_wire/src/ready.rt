//! Messages that are sent where no memory may be taken.

ghost use Rattle.std.specs.Prelude.{◌≡◌};
ghost use Rattle.pm_wire.specs.{Conditions.fixed_message, Backend.spelling};

use crate::condition::Fixed;

/// The bytes of a message that stands ready.
#[tactic(auto, unfolding(crate::specs::Pieces::int32, crate::specs::Backend::fields))]
pub fn fixed(f: Fixed) -> &'static [u8]
    ensures { result.now ≡ spelling (fixed_message f) }
{
    match f {
        Fixed::StartingUp =>
            b"E\0\0\0\x3eSFATAL\0VFATAL\0C57P03\0Mthe database system is starting up\0\0",
        Fixed::ShuttingDown =>
            b"E\0\0\0\x40SFATAL\0VFATAL\0C57P03\0Mthe database system is shutting down\0\0",
        Fixed::InRecovery =>
            b"E\0\0\0\x43SFATAL\0VFATAL\0C57P03\0Mthe database system is in recovery mode\0\0",
        Fixed::TooManyClients =>
            b"E\0\0\0\x3bSFATAL\0VFATAL\0C53300\0Msorry, too many clients already\0\0",
        Fixed::ReservedConnections =>
            b"E\0\0\0\x55SFATAL\0VFATAL\0C53300\0Mremaining connection slots are reserved for user postgres\0\0",
        Fixed::ProtocolOption =>
            b"E\0\0\0\x3eSFATAL\0VFATAL\0C0A000\0Mprotocol options are not supported\0\0",
        Fixed::Replication =>
            b"E\0\0\0\x45SFATAL\0VFATAL\0C0A000\0Mreplication connections are not supported\0\0",
        Fixed::PacketLayout =>
            b"E\0\0\0\x5bSFATAL\0VFATAL\0C08P01\0Minvalid startup packet layout: expected terminator as last byte\0\0",
        Fixed::NoUser =>
            b"E\0\0\0\x4fSFATAL\0VFATAL\0C28000\0Mno PostgreSQL user name specified in startup packet\0\0",
        Fixed::MessageLength => b"E\0\0\0\x32SFATAL\0VFATAL\0C08P01\0Minvalid message length\0\0",
        Fixed::MessageFormat => b"E\0\0\0\x32SFATAL\0VFATAL\0C08P01\0Minvalid message format\0\0",
        Fixed::ExtendedQuery =>
            b"E\0\0\0\x44SFATAL\0VFATAL\0C0A000\0Mextended query protocol is not supported\0\0",
        Fixed::LongQuery => b"E\0\0\0\x35SFATAL\0VFATAL\0C54000\0Mquery exceeds 65536 bytes\0\0",
        Fixed::NotUtf8 =>
            b"E\0\0\0\x45SERROR\0VERROR\0C22021\0Minvalid byte sequence for encoding \"UTF8\"\0\0",
        Fixed::TableFull => b"E\0\0\0\x35SERROR\0VERROR\0C54000\0Mtable exceeds 100000 rows\0\0",
        Fixed::RowsTooLarge =>
            b"E\0\0\0\x36SERROR\0VERROR\0C54000\0Mrows exceed 67108864 bytes\0\0",
        Fixed::LogFull => b"E\0\0\0\x32SERROR\0VERROR\0C54000\0Mthe commit log is full\0\0",
        Fixed::Canceled =>
            b"E\0\0\0\x43SERROR\0VERROR\0C57014\0Mcanceling statement due to user request\0\0",
        Fixed::Terminated =>
            b"E\0\0\0\x4fSFATAL\0VFATAL\0C57P01\0Mterminating connection due to administrator command\0\0",
        Fixed::CrashQuit =>
            b"N\0\0\0\x61SWARNING\0VWARNING\0C57P02\0Mterminating connection because of crash of another server process\0\0",
        Fixed::StopQuit =>
            b"N\0\0\0\x58SWARNING\0VWARNING\0C57P01\0Mterminating connection due to immediate shutdown command\0\0",
        Fixed::ErrorMemory => b"E\0\0\0\x29SERROR\0VERROR\0C53200\0Mout of memory\0\0",
        Fixed::FatalMemory => b"E\0\0\0\x29SFATAL\0VFATAL\0C53200\0Mout of memory\0\0",
        Fixed::CouldNotWrite =>
            b"E\0\0\0\x3dSPANIC\0VPANIC\0C58030\0Mcould not write to the commit log\0\0",
    }
}
