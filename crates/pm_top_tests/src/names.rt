//! What words of the scenes stand for: what is sent and stored, by the documents of their formats, and what is told.
use bstr::ByteVec;
use pm_disk::{Disk, MemDisk, Which};
use std::alloc::Global;
use std::test::Fail;

/// The seed of the cancel keys. It isn't zeros, by which a body may judge that was handed none.
pub const SEED: [u8; 32] = [
    0, 0, 0, 0, 0, 0, 0, 0, 0, 0, 0, 0, 0, 0, 0, 0, 0, 0, 0, 0, 0, 0, 0, 0, 0, 0, 0, 0, 0, 0, 0, 1,
];

/// Names of more than one word.
const LISTS: &str =
    r"# file A behind `initdb`, behind a commit, and behind a checkpoint; file B behind one of no row, and of one
NEW = OPEN HEADER CLOSED
ONE_ROW = OPEN HEADER OPEN PUT_SEVEN CLOSED
ONE_ROW_CLOSED = CLOSED HEADER OPEN PUT_SEVEN CLOSED
BASE_OF_NONE = OPEN SECOND_HEADER NO_COMMIT CLOSED
BASE_OF_ONE = OPEN SECOND_HEADER ONE_COMMIT ROW_SEVEN CLOSED
# logs of a server
PLAIN = READY SMART DOWN
CRASH_CYCLE = READY FAILED_4 TERMINATING REINITIALIZING READY SMART DOWN
NEXT = TERMINATING REINITIALIZING READY
# entries of a book
STARTED = OPENED REDO_ATTACHED REDONE REDO_DETACHED
CLOSE = CLOSE_ATTACHED CHECKPOINTED CLOSE_DETACHED";

/// `NAME = bytes`, in which escapes stand for theirs.
const NAMES: &str = r#"# a startup packet with the user `ann`
PACKET = \0\0\0\x12\0\x03\0\0user\0ann\0\0
# one without a user
NOBODY = \0\0\0\x09\0\x03\0\0\0
# queries
INSERT_SEVEN = Q\0\0\0\x27INSERT INTO kv VALUES (7, 'seven')\0
INSERT_EIGHT = Q\0\0\0\x27INSERT INTO kv VALUES (8, 'eight')\0
INSERT_NINE = Q\0\0\0\x26INSERT INTO kv VALUES (9, 'nine')\0
SELECT_SEVEN = Q\0\0\0\x24SELECT k, v FROM kv WHERE k = 7\0
SELECT_EIGHT = Q\0\0\0\x24SELECT k, v FROM kv WHERE k = 8\0
INSERT_OTHER = Q\0\0\0\x27INSERT INTO kv VALUES (7, 'other')\0
COUNT = Q\0\0\0\x1cSELECT count(*) FROM kv\0
SLEEP_ON = Q\0\0\0\x17SELECT pg_sleep(2)\0
SLEEP = Q\0\0\0\x18SELECT pg_sleep(60)\0
# two statements of one query: the second one's key is there already
INSERT_TWICE = Q\0\0\0CINSERT INTO kv VALUES (1, 'a'); INSERT INTO kv VALUES (1, 'b')\0
# the greatest key, one above it, and the least
INSERT_GREATEST = Q\0\0\x005INSERT INTO kv VALUES (9223372036854775807, 'a')\0
INSERT_BEYOND = Q\0\0\x005INSERT INTO kv VALUES (9223372036854775808, 'a')\0
INSERT_LEAST = Q\0\0\x006INSERT INTO kv VALUES (-9223372036854775808, 'a')\0
# a query of one empty statement, and one of none
SEMICOLON = Q\0\0\0\x06;\0
NOTHING = Q\0\0\0\x05\0
# the end of a session by its client
TERMINATE = X\0\0\0\x04
# cancels of the session with pid 4, the first by the key that it would have if SEED were zeros
CANCEL_BY_ZEROS = \0\0\0\x10\x04\xd2\x16\x2e\0\0\0\x04\xb8\x19\xd2\xbd
CANCEL_OF_4 = \0\0\0\x10\x04\xd2\x16\x2e\0\0\0\x04\x83\xe1\x4f\xeb
# the startup packet of psql, and two statements as it sends them
PSQL_PACKET = \0\0\0\x54\0\x03\0\0user\0postgres\0database\0postgres\0application_name\0psql\0client_encoding\0UTF8\0\0
PSQL_INSERT = Q\0\0\x001insert into KV (k, v) values\n (-3, 'it''s');\0
PSQL_SELECT = Q\0\0\0\x21select * from kv order by k;\0
# requests for encryption, and how each is answered
SSL_REQUEST = \0\0\0\x08\x04\xd2\x16\x2f
GSS_REQUEST = \0\0\0\x08\x04\xd2\x16\x30
NO_ENCRYPTION = N
# the greeting of a session up to its cancel key
GREETING = R\0\0\0\x08\0\0\0\0S\0\0\0\x18server_version\x0016.0\0S\0\0\0\x19server_encoding\0UTF8\0S\0\0\0\x19client_encoding\0UTF8\0S\0\0\0\x17DateStyle\0ISO, MDY\0S\0\0\0\x19integer_datetimes\0on\0S\0\0\0\x23standard_conforming_strings\0on\0
# the rest of it for the sessions with these pids: the key of pid 4 is word 4, from 0, of the key stream of ChaCha20 at SEED, and so on,
# as draft-agl-tls-chacha20poly1305 has that stream among its test vectors
KEY_OF_4 = K\0\0\0\x0c\0\0\0\x04\x83\xe1\x4f\xebZ\0\0\0\x05I
KEY_OF_5 = K\0\0\0\x0c\0\0\0\x05\x60\xd2\x88\x46Z\0\0\0\x05I
KEY_OF_6 = K\0\0\0\x0c\0\0\0\x06\x52\x09\x45\x4fZ\0\0\0\x05I
KEY_OF_8 = K\0\0\0\x0c\0\0\0\x08\xb6\xa0\xe2\xbbZ\0\0\0\x05I
KEY_OF_9 = K\0\0\0\x0c\0\0\0\x09\xd2\x66\x75\xeaZ\0\0\0\x05I
KEY_OF_10 = K\0\0\0\x0c\0\0\0\x0a\xe2\xe7\xd1\xa5Z\0\0\0\x05I
KEY_OF_14 = K\0\0\0\x0c\0\0\0\x0e\x75\xd2\x9a\x7eZ\0\0\0\x05I
# answers
INSERTED = C\0\0\0\x0fINSERT 0 1\0Z\0\0\0\x05I
COLUMNS = T\0\0\0\x2e\0\x02k\0\0\0\0\0\0\0\0\0\0\x14\0\x08\xff\xff\xff\xff\0\0v\0\0\0\0\0\0\0\0\0\0\x19\xff\xff\xff\xff\xff\xff\0\0
SEVEN = D\0\0\0\x14\0\x02\0\0\0\x017\0\0\0\x05seven
EIGHT = D\0\0\0\x14\0\x02\0\0\0\x018\0\0\0\x05eight
NINE = D\0\0\0\x13\0\x02\0\0\0\x019\0\0\0\x04nine
ITS = D\0\0\0\x14\0\x02\0\0\0\x02-3\0\0\0\x04it's
FOUND = C\0\0\0\x0dSELECT 1\0Z\0\0\0\x05I
FOUND_2 = C\0\0\0\x0dSELECT 2\0Z\0\0\0\x05I
FOUND_3 = C\0\0\0\x0dSELECT 3\0Z\0\0\0\x05I
ABSENT = C\0\0\0\x0dSELECT 0\0Z\0\0\0\x05I
NO_ROWS = T\0\0\0\x1e\0\x01count\0\0\0\0\0\0\0\0\0\0\x14\0\x08\xff\xff\xff\xff\0\0D\0\0\0\x0b\0\x01\0\0\0\x010C\0\0\0\x0dSELECT 1\0Z\0\0\0\x05I
SLEPT = T\0\0\0\x21\0\x01pg_sleep\0\0\0\0\0\0\0\0\0\0\x19\xff\xff\xff\xff\xff\xff\0\0D\0\0\0\x0a\0\x01\0\0\0\0C\0\0\0\x0dSELECT 1\0Z\0\0\0\x05I
CANCELED = E\0\0\0\x43SERROR\0VERROR\0C57014\0Mcanceling statement due to user request\0\0Z\0\0\0\x05I
EMPTY = I\0\0\0\x04Z\0\0\0\x05I
# one row was inserted, and its key was there for the next one
INSERTED_ONCE = C\0\0\0\x0fINSERT 0 1\0E\0\0\0\x71SERROR\0VERROR\0C23505\0Mduplicate key value violates unique constraint "kv_pkey"\0DKey (k)=(1) already exists.\0\0Z\0\0\0\x05I
DUPLICATE = E\0\0\0\x71SERROR\0VERROR\0C23505\0Mduplicate key value violates unique constraint "kv_pkey"\0DKey (k)=(7) already exists.\0\0Z\0\0\0\x05I
OUT_OF_RANGE = E\0\0\0\x2fSERROR\0VERROR\0C22003\0Mbigint out of range\0\0Z\0\0\0\x05I
# the end of a session that met a fault of the disk
PANIC = E\0\0\0\x3dSPANIC\0VPANIC\0C58030\0Mcould not write to the commit log\0\0
# the refusals of a packet: a second request for encryption of one kind, no user, and a body that isn't pairs
ASKED_TWICE = E\0\0\0\x5fSFATAL\0VFATAL\0C0A000\0Munsupported frontend protocol 1234.5679: server supports 3.0 to 3.0\0\0
NO_USER = E\0\0\0\x4fSFATAL\0VFATAL\0C28000\0Mno PostgreSQL user name specified in startup packet\0\0
BAD_LAYOUT = E\0\0\0\x5bSFATAL\0VFATAL\0C08P01\0Minvalid startup packet layout: expected terminator as last byte\0\0
# those of a message
LONG_QUERY = E\0\0\x005SFATAL\0VFATAL\0C54000\0Mquery exceeds 65536 bytes\0\0
EXTENDED = E\0\0\0\x44SFATAL\0VFATAL\0C0A000\0Mextended query protocol is not supported\0\0
UNKNOWN_TYPE = E\0\0\0\x3dSFATAL\0VFATAL\0C08P01\0Minvalid frontend message type 122\0\0
# other refusals and ends of sessions
TOO_MANY = E\0\0\0\x3bSFATAL\0VFATAL\0C53300\0Msorry, too many clients already\0\0
STARTING = E\0\0\0\x3eSFATAL\0VFATAL\0C57P03\0Mthe database system is starting up\0\0
RECOVERING = E\0\0\0\x43SFATAL\0VFATAL\0C57P03\0Mthe database system is in recovery mode\0\0
STOPPING = E\0\0\0\x40SFATAL\0VFATAL\0C57P03\0Mthe database system is shutting down\0\0
TERMINATED = E\0\0\0\x4fSFATAL\0VFATAL\0C57P01\0Mterminating connection due to administrator command\0\0
CRASHED = N\0\0\0\x61SWARNING\0VWARNING\0C57P02\0Mterminating connection because of crash of another server process\0\0
STOPPED = N\0\0\0\x58SWARNING\0VWARNING\0C57P01\0Mterminating connection due to immediate shutdown command\0\0
# the gates of a file, or of what is written behind it
CLOSED = \0
OPEN = \x01
# magic, version, epoch, clean, the commits in the base and its rows; and of the second epoch without the last two
HEADER = PGPMLOG\x01\0\0\0\0\0\0\0\x01\x01\0\0\0\0\0\0\0\0\0\0\0\0
SECOND_HEADER = PGPMLOG\x01\0\0\0\0\0\0\0\x02\x01
NO_COMMIT = \0\0\0\0\0\0\0\0\0\0\0\0
ONE_COMMIT = \0\0\0\0\0\0\0\x01\0\0\0\x01
TWO_COMMITS = \0\0\0\0\0\0\0\x02\0\0\0\x02
# rows of a base
ROW_SEVEN = \0\0\0\0\0\0\0\x07\0\0\0\x05seven
ROW_EIGHT = \0\0\0\0\0\0\0\x08\0\0\0\x05eight
# the length and the body of a commit that puts a row
PUT_SEVEN = \0\0\0\x18\0\0\0\x01\0\x01\x01\0\0\0\0\0\0\0\x07\0\0\0\x05seven
PUT_EIGHT = \0\0\0\x18\0\0\0\x01\0\x01\x01\0\0\0\0\0\0\0\x08\0\0\0\x05eight
# lines of the server's log
READY = LOG:  database system is ready to accept connections\n
SMART = LOG:  received smart shutdown request\n
FAST = LOG:  received fast shutdown request\n
IMMEDIATE = LOG:  received immediate shutdown request\n
ABORTING_SESSIONS = LOG:  aborting any active transactions\n
DOWN = LOG:  database system is shut down\n
FAILED_2 = LOG:  child 2 (checkpointer) was terminated by signal 6\n
FAILED_3 = LOG:  child 3 (writer) was terminated by signal 6\n
FAILED_4 = LOG:  child 4 (backend) was terminated by signal 6\n
FAILED_5 = LOG:  child 5 (backend) was terminated by signal 6\n
FAILED_6 = LOG:  child 6 (backend) was terminated by signal 6\n
KILLED_2 = LOG:  child 2 (dead-end) was terminated by signal 9\n
KILLED_4 = LOG:  child 4 (backend) was terminated by signal 9\n
CHECKPOINTER_KILLED = LOG:  child 2 (checkpointer) was terminated by signal 9\n
TERMINATING = LOG:  terminating any other active server processes\n
REINITIALIZING = LOG:  all server processes terminated; reinitializing\n
RESTART_OFF = LOG:  shutting down because restart_after_crash is off\n
ABNORMAL = LOG:  abnormal database system shutdown\n
STARTUP_FAILED = LOG:  child 1 (startup) exited with exit code 1\n
STARTUP_KILLED = LOG:  child 1 (startup) was terminated by signal 9\n
ABORTING = LOG:  aborting startup due to startup process failure\n
NO_CLUSTER = no readable cluster\n
# what commands say
USAGE = usage: initdb --data D | controldata --data D | workload --number N\n       once --data D [OPTIONS] | serve --data D --port P [OPTIONS]\noptions: --max-connections 1..200, --superuser-reserved 0..max-connections-1,\n         --restart-after-crash on|off, --authentication-timeout 1..600\n
DISK_FAULT = disk fault\n
NO_THREAD = no thread\n
WAS_KILLED = startup was killed\n
OF_NEW = file: A\nepoch: 1\nclean: yes\ncommits: 0\nrows: 0\nbatches: 0\n
OF_ONE_ROW = file: A\nepoch: 1\nclean: no\ncommits: 1\nrows: 1\nbatches: 1\n
OF_CHECKPOINT = file: B\nepoch: 2\nclean: yes\ncommits: 1\nrows: 1\nbatches: 0\n
# entries of the book: a disk is made by four calls, its two files are read at ticks 5 to 10, and a commit takes four ticks
OPENED = Opened { generation: 1 }\n
REDO_ATTACHED = Attached { pid: 1, generation: 1 }\n
REDONE = Redone { pid: 1, generation: 1, kept: 0 }\n
REDO_DETACHED = Detached { pid: 1 }\n
CLOSE_ATTACHED = Attached { pid: 2, generation: 1 }\n
CHECKPOINTED = CheckpointEnded { pid: 2, done: true, clean: true }\n
CLOSE_DETACHED = Detached { pid: 2 }\n
ATTACHED = Attached { pid: 4, generation: 1 }\n
DETACHED = Detached { pid: 4 }\n
NEXT_ATTACHED = Attached { pid: 5, generation: 1 }\n
NEXT_DETACHED = Detached { pid: 5 }\n
PUTS_SEVEN = Answered { pid: 4, script: Script { stmts: [Insert { key: 7, value: Text { content: "seven" } }] }, reply: Reply { items: [Insert] }, commit: Commit { changes: [Put { key: 7, value: Text { content: "seven" } }] }, front: 1, tick: 10 }\n
PUTS_EIGHT = Answered { pid: 4, script: Script { stmts: [Insert { key: 8, value: Text { content: "eight" } }] }, reply: Reply { items: [Insert] }, commit: Commit { changes: [Put { key: 8, value: Text { content: "eight" } }] }, front: 2, tick: 14 }\n
NEXT_PUTS_EIGHT = Answered { pid: 5, script: Script { stmts: [Insert { key: 8, value: Text { content: "eight" } }] }, reply: Reply { items: [Insert] }, commit: Commit { changes: [Put { key: 8, value: Text { content: "eight" } }] }, front: 2, tick: 14 }\n
REFUSES_OTHER = Answered { pid: 4, script: Script { stmts: [Insert { key: 7, value: Text { content: "other" } }] }, reply: Reply { items: [Duplicate { key: 7 }] }, commit: Commit { changes: [] }, front: 1, tick: 14 }\n
FINDS_SEVEN = Answered { pid: 4, script: Script { stmts: [Select { key: Some(7) }] }, reply: Reply { items: [Rows(Pairs { pairs: [(7, Text { content: "seven" })] })] }, commit: Commit { changes: [] }, front: 1, tick: 14 }\n
FINDS_NO_EIGHT = Answered { pid: 4, script: Script { stmts: [Select { key: Some(8) }] }, reply: Reply { items: [Rows(Pairs { pairs: [] })] }, commit: Commit { changes: [] }, front: 0, tick: 10 }\n
RELEASED_AT_10 = Released { pid: 4, front: 0, tick: 10 }\n
RELEASED_AT_14 = Released { pid: 4, front: 1, tick: 14 }\n
NEXT_RELEASED_AT_18 = Released { pid: 5, front: 2, tick: 18 }\n
# the log broke at this tick, while one of these pids was at it
BROKE_1_AT_7 = Broke { pid: 1, since: 7, faults: 1 }\n
BROKE_2_AT_18 = Broke { pid: 2, since: 18, faults: 1 }\n
BROKE_4_AT_12 = Broke { pid: 4, since: 12, faults: 1 }\n
BROKE_4_AT_14 = Broke { pid: 4, since: 14, faults: 1 }\n
BROKE_4_AT_18 = Broke { pid: 4, since: 18, faults: 1 }\n
# the next generation behind a fault at tick 14: its redo takes six calls more
NEXT_GENERATION = Gone { pid: 4 }\nOpened { generation: 2 }\nAttached { pid: 5, generation: 2 }\nRedone { pid: 5, generation: 2, kept: 1 }\nDetached { pid: 5 }\nAttached { pid: 8, generation: 2 }\nAnswered { pid: 8, script: Script { stmts: [Select { key: Some(7) }] }, reply: Reply { items: [Rows(Pairs { pairs: [(7, Text { content: "seven" })] })] }, commit: Commit { changes: [] }, front: 1, tick: 20 }\nReleased { pid: 8, front: 1, tick: 20 }\nDetached { pid: 8 }\nAttached { pid: 6, generation: 2 }\nCheckpointEnded { pid: 6, done: true, clean: true }\nDetached { pid: 6 }\n"#;

// What a word stands for by these names, or the word itself.
fn meaning<'a>(names: &'a str, word: &'a str) -> &'a str {
    for line in names.lines() {
        if let Some(rest) = line.strip_prefix(word)
            && let Some(meaning) = rest.strip_prefix(" = ")
        {
            return meaning;
        }
    }
    word
}

pub fn number(text: &str) -> Result<usize, Fail> {
    Ok(text.parse::<usize>().ok().ok_or("a number")?)
}

// Puts what a word stands for after the bytes. `v*3` stands for it three times, and `..60` cuts there.
fn put(alloc: Global, bytes: &mut Vec<u8>, word: &str) -> Result<(), Fail> {
    if let Some(length) = word.strip_prefix("..") {
        bytes.truncate(number(length)?);
        return Ok(());
    }
    let (unit, times) = word.split_once('*').unwrap_or((word, "1"));
    let part = Vec::unescape_bytes(alloc, meaning(NAMES, unit))?;
    for _ in 0..number(times)? {
        bytes.extend_from_slice(&part)?;
    }
    Ok(())
}

/// The bytes that words stand for, one after the other. Between two stands a space or a comma.
pub fn spelled(alloc: Global, words: &str) -> Result<Vec<u8>, Fail> {
    let mut bytes = Vec::new(alloc);
    for word in words.split([' ', ',']) {
        for part in meaning(LISTS, word).split_whitespace() {
            put(alloc, &mut bytes, part)?;
        }
    }
    Ok(bytes)
}

/// A disk with these two files, made by four calls.
pub fn disk_of(alloc: Global, a: &str, b: &str) -> Result<MemDisk, Fail> {
    let mut disk = MemDisk::new(alloc);
    disk.write(Which::A, 0, &spelled(alloc, a)?)?;
    disk.sync(Which::A)?;
    disk.write(Which::B, 0, &spelled(alloc, b)?)?;
    disk.sync(Which::B)?;
    Ok(disk)
}
