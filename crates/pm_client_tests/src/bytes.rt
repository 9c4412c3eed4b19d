// What client and server send, by the document of the protocol.

/// A startup packet with the user `ann`.
pub const PACKET: &[u8] = b"\0\0\0\x12\0\x03\0\0user\0ann\0\0";

pub const TERMINATE: &[u8] = b"X\0\0\0\x04";

/// Two queries, one a line, and how they are sent.
pub const SEVENS: &str = "INSERT INTO kv VALUES (7, 'seven')\nSELECT k, v FROM kv WHERE k = 7\n";

pub const INSERT_SEVEN: &[u8] = b"Q\0\0\0\x27INSERT INTO kv VALUES (7, 'seven')\0";

pub const SELECT_SEVEN: &[u8] = b"Q\0\0\0\x24SELECT k, v FROM kv WHERE k = 7\0";

/// A query without a statement.
pub const EMPTY: &[u8] = b"Q\0\0\0\x06;\0";

/// The greeting of the session with pid 4 and the key 0xb819d2bd.
pub const GREETING: &[u8] = b"R\0\0\0\x08\0\0\0\0\
    S\0\0\0\x18server_version\x0016.0\0\
    S\0\0\0\x19server_encoding\0UTF8\0\
    S\0\0\0\x19client_encoding\0UTF8\0\
    S\0\0\0\x17DateStyle\0ISO, MDY\0\
    S\0\0\0\x19integer_datetimes\0on\0\
    S\0\0\0\x23standard_conforming_strings\0on\0\
    K\0\0\0\x0c\0\0\0\x04\xb8\x19\xd2\xbd\
    Z\0\0\0\x05I";

pub const READY: &[u8] = b"Z\0\0\0\x05I";

/// Whole answers.
pub const INSERTED: &[u8] = b"C\0\0\0\x0fINSERT 0 1\0Z\0\0\0\x05I";

pub const SEVEN: &[u8] = b"T\0\0\0\x2e\0\x02\
    k\0\0\0\0\0\0\0\0\0\0\x14\0\x08\xff\xff\xff\xff\0\0\
    v\0\0\0\0\0\0\0\0\0\0\x19\xff\xff\xff\xff\xff\xff\0\0\
    D\0\0\0\x14\0\x02\0\0\0\x017\0\0\0\x05seven\
    C\0\0\0\x0dSELECT 1\0Z\0\0\0\x05I";

pub const COUNTED: &[u8] =
    b"T\0\0\0\x1e\0\x01count\0\0\0\0\0\0\0\0\0\0\x14\0\x08\xff\xff\xff\xff\0\0\
    D\0\0\0\x0b\0\x01\0\0\0\x010\
    C\0\0\0\x0dSELECT 1\0Z\0\0\0\x05I";

pub const NOTHING: &[u8] = b"I\0\0\0\x04Z\0\0\0\x05I";

/// Messages within an answer.
pub const UPDATED: &[u8] = b"C\0\0\0\x0dUPDATE 0\0";

pub const DELETED: &[u8] = b"C\0\0\0\x0eDELETE 10\0";

pub const INSERT_TAG: &[u8] = b"C\0\0\0\x0fINSERT 0 1\0";

pub const LEAST_KEY: &[u8] = b"D\0\0\0\x22\0\x02\0\0\0\x14-9223372036854775808\0\0\0\0";

pub const EURO: &[u8] = b"D\0\0\0\x13\0\x02\0\0\0\x02-3\0\0\0\x03\xe2\x82\xac";

pub const NO_TEXT: &[u8] = b"D\0\0\0\x0a\0\x01\0\0\0\0";

pub const DUPLICATE: &[u8] = b"E\0\0\0qSERROR\0VERROR\0C23505\0\
    Mduplicate key value violates unique constraint \"kv_pkey\"\0\
    DKey (k)=(1) already exists.\0\0";

pub const CRASH_QUIT: &[u8] = b"N\0\0\0\x61SWARNING\0VWARNING\0C57P02\0\
    Mterminating connection because of crash of another server process\0\0";

pub const LOG_BROKEN: &[u8] = b"E\0\0\0\x3dSPANIC\0VPANIC\0C58030\0\
    Mcould not write to the commit log\0\0";

pub const TOO_MANY: &[u8] = b"E\0\0\0\x3bSFATAL\0VFATAL\0C53300\0\
    Msorry, too many clients already\0\0";

/// A key that fits no 64 bits.
pub const LARGE_KEY: &[u8] = b"D\0\0\0\x21\0\x02\0\0\0\x139223372036854775808\0\0\0\0";

pub const LONG_AUTH: &[u8] = b"R\0\0\0\x09";

/// A part of a message.
pub const PART: &[u8] = b"Z\0\0\0";

/// The message of this name.
pub fn named(name: &str) -> &'static [u8] {
    match name {
        "-" => b"",
        "GREETING" => GREETING,
        "READY" => READY,
        "INSERTED" => INSERTED,
        "SEVEN" => SEVEN,
        "COUNTED" => COUNTED,
        "NOTHING" => NOTHING,
        "UPDATED" => UPDATED,
        "DELETED" => DELETED,
        "INSERT_TAG" => INSERT_TAG,
        "LEAST_KEY" => LEAST_KEY,
        "EURO" => EURO,
        "NO_TEXT" => NO_TEXT,
        "DUPLICATE" => DUPLICATE,
        "CRASH_QUIT" => CRASH_QUIT,
        "LOG_BROKEN" => LOG_BROKEN,
        "TOO_MANY" => TOO_MANY,
        "LARGE_KEY" => LARGE_KEY,
        "LONG_AUTH" => LONG_AUTH,
        "PACKET" => PACKET,
        "TERMINATE" => TERMINATE,
        "INSERT_SEVEN" => INSERT_SEVEN,
        "SELECT_SEVEN" => SELECT_SEVEN,
        "EMPTY" => EMPTY,
        _ => PART,
    }
}
