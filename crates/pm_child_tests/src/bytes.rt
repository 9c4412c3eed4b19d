//! What is sent, by the document of the protocol.
use bstr::ByteVec;
use std::alloc::{AllocError, Global};

/// `NAME = bytes`, in which escapes stand for theirs.
const NAMES: &str =
    r#"# startup packets, with the user `ann` and as psql 15 sends it, requests for encryption, and packets that are refused
PACKET = \0\0\0\x12\0\x03\0\0user\0ann\0\0
PSQL = \0\0\0\x54\0\x03\0\0user\0postgres\0database\0postgres\0application_name\0psql\0client_encoding\0UTF8\0\0
SSL = \0\0\0\x08\x04\xd2\x16\x2f
GSS = \0\0\0\x08\x04\xd2\x16\x30
NO_USER = \0\0\0\x09\0\x03\0\0\0
REPLICATION = \0\0\0\x23\0\x03\0\0user\0ann\0replication\0true\0\0
# that the query of pid 4 be cancelled, with its key
CANCEL = \0\0\0\x10\x04\xd2\x16\x2e\0\0\0\x04\xb8\x19\xd2\xbd
# the greeting of the session with pid 4 and the key 0xb819d2bd
GREETING = R\0\0\0\x08\0\0\0\0S\0\0\0\x18server_version\x0016.0\0S\0\0\0\x19server_encoding\0UTF8\0S\0\0\0\x19client_encoding\0UTF8\0S\0\0\0\x17DateStyle\0ISO, MDY\0S\0\0\0\x19integer_datetimes\0on\0S\0\0\0\x23standard_conforming_strings\0on\0K\0\0\0\x0c\0\0\0\x04\xb8\x19\xd2\xbdZ\0\0\0\x05I
# the end of a session by its client
TERMINATE = X\0\0\0\x04
# other ends, by severity, code and text
NO_USER_NAMED = E\0\0\0\x4fSFATAL\0VFATAL\0C28000\0Mno PostgreSQL user name specified in startup packet\0\0
NO_REPLICATION = E\0\0\0\x45SFATAL\0VFATAL\0C0A000\0Mreplication connections are not supported\0\0
BAD_LAYOUT = E\0\0\0\x5bSFATAL\0VFATAL\0C08P01\0Minvalid startup packet layout: expected terminator as last byte\0\0
SECOND_SSL = E\0\0\0\x5fSFATAL\0VFATAL\0C0A000\0Munsupported frontend protocol 1234.5679: server supports 3.0 to 3.0\0\0
STARTING_UP = E\0\0\0\x3eSFATAL\0VFATAL\0C57P03\0Mthe database system is starting up\0\0
SHUTTING_DOWN = E\0\0\0\x40SFATAL\0VFATAL\0C57P03\0Mthe database system is shutting down\0\0
IN_RECOVERY = E\0\0\0\x43SFATAL\0VFATAL\0C57P03\0Mthe database system is in recovery mode\0\0
TOO_MANY = E\0\0\0\x3bSFATAL\0VFATAL\0C53300\0Msorry, too many clients already\0\0
RESERVED = E\0\0\0\x55SFATAL\0VFATAL\0C53300\0Mremaining connection slots are reserved for user postgres\0\0
TERMINATED = E\0\0\0\x4fSFATAL\0VFATAL\0C57P01\0Mterminating connection due to administrator command\0\0
CRASH_QUIT = N\0\0\0\x61SWARNING\0VWARNING\0C57P02\0Mterminating connection because of crash of another server process\0\0
UNKNOWN_TYPE = E\0\0\0\x3cSFATAL\0VFATAL\0C08P01\0Minvalid frontend message type 63\0\0
EXTENDED = E\0\0\0\x44SFATAL\0VFATAL\0C0A000\0Mextended query protocol is not supported\0\0
LONG_QUERY = E\0\0\0\x35SFATAL\0VFATAL\0C54000\0Mquery exceeds 65536 bytes\0\0
BAD_LENGTH = E\0\0\0\x32SFATAL\0VFATAL\0C08P01\0Minvalid message length\0\0
BAD_FORM = E\0\0\0\x32SFATAL\0VFATAL\0C08P01\0Minvalid message format\0\0
# a query, and its answer where the table has no rows
SELECT_SEVEN = Q\0\0\0\x24SELECT k, v FROM kv WHERE k = 7\0
COLUMNS = T\0\0\0\x2e\0\x02k\0\0\0\0\0\0\0\0\0\0\x14\0\x08\xff\xff\xff\xff\0\0v\0\0\0\0\0\0\0\0\0\0\x19\xff\xff\xff\xff\xff\xff\0\0
NO_ROW = C\0\0\0\x0dSELECT 0\0Z\0\0\0\x05I
# a query whose bytes are no UTF-8, one that is no script, and one without statements
NO_TEXT = Q\0\0\0\x06\xff\0
NOT_UTF8 = E\0\0\0\x45SERROR\0VERROR\0C22021\0Minvalid byte sequence for encoding "UTF8"\0\0Z\0\0\0\x05I
NO_SCRIPT = Q\0\0\0\x0bselect\0
SYNTAX_ERROR = E\0\0\0\x38SERROR\0VERROR\0C42601\0Msyntax error at end of input\0\0Z\0\0\0\x05I
EMPTY = Q\0\0\0\x05\0
EMPTY_ANSWER = I\0\0\0\x04Z\0\0\0\x05I
# one whose commit waits until it is flushed
INSERT_SEVEN = Q\0\0\0\x27INSERT INTO kv VALUES (7, 'seven')\0
INSERTED = C\0\0\0\x0fINSERT 0 1\0Z\0\0\0\x05I
# what psql sends where a row is written and then read, and that row
INSERT_QUOTE = Q\0\0\0\x31insert into KV (k, v) values\n (-3, 'it''s');\0
SELECT_ALL = Q\0\0\0\x21select * from kv order by k;\0
QUOTE_ROW = D\0\0\0\x14\0\x02\0\0\0\x02-3\0\0\0\x04it'sC\0\0\0\x0dSELECT 1\0Z\0\0\0\x05I
# one that sleeps for a second, its answer, and that to one which was cancelled
SLEEP = Q\0\0\0\x17SELECT pg_sleep(1)\0
SLEPT = T\0\0\0\x21\0\x01pg_sleep\0\0\0\0\0\0\0\0\0\0\x19\xff\xff\xff\xff\xff\xff\0\0D\0\0\0\x0a\0\x01\0\0\0\0C\0\0\0\x0dSELECT 1\0Z\0\0\0\x05I
CANCELED = E\0\0\0\x43SERROR\0VERROR\0C57014\0Mcanceling statement due to user request\0\0Z\0\0\0\x05I
# messages that are refused by their type and by their form
QUESTION = ?
PARSE = P
QUERY_WITHOUT_END = Q\0\0\0\x06a\x01"#;

// What a name stands for, or the word itself.
fn meaning(word: &str) -> &str {
    for line in NAMES.lines() {
        if let Some(rest) = line.strip_prefix(word)
            && let Some(bytes) = rest.strip_prefix(" = ")
        {
            return bytes;
        }
    }
    word
}

/// The messages of these names, one after the other. A word that is no name stands for itself, `-` for nothing, and `word*7` for
/// seven of that word.
pub fn joined(alloc: Global, names: &str) -> Result<Vec<u8>, AllocError> {
    let mut all = Vec::new(alloc);
    for name in names.split_whitespace() {
        if name != "-" {
            let (word, times) = name.split_once('*').unwrap_or((name, "1"));
            let message = Vec::unescape_bytes(alloc, meaning(word))?;
            let times = times.parse::<usize>().unwrap_or(0);
            all.extend_from_slice(&message.repeat(alloc, times)?)?;
        }
    }
    Ok(all)
}
