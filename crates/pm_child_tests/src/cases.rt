//! Connections that end so however their bytes are cut: packets, sessions that aren't let in, queries, and refused messages.
use crate::connection::check;
use std::alloc::Global;
use std::process::Abort;
use std::sync::Wait;
use std::test::Fail;
use std::time;

/// What a connection is, what it meets, what comes in, how it exits, and then what goes out.
const TABLE: &str = r"
nothing | - | - | Code(0)
a cancel | - | CANCEL | Code(0)
no user | - | NO_USER | Code(1) NO_USER_NAMED
replication | - | REPLICATION | Code(1) NO_REPLICATION
encryption and a cancel | - | GSS SSL CANCEL | Code(0) NN
a second request | - | SSL SSL | Code(1) N SECOND_SSL
both requests and a session | - | SSL GSS PACKET TERMINATE | Code(0) NN GREETING
a session whose client goes | - | PACKET | Code(0) GREETING
queries, answered in order | - | PACKET EMPTY SELECT_SEVEN NO_TEXT NO_SCRIPT TERMINATE EMPTY | Code(0) GREETING EMPTY_ANSWER COLUMNS NO_ROW NOT_UTF8 SYNTAX_ERROR
an unknown type | - | PACKET EMPTY QUESTION EMPTY | Code(1) GREETING EMPTY_ANSWER UNKNOWN_TYPE
the extended protocol | - | PACKET EMPTY PARSE EMPTY | Code(1) GREETING EMPTY_ANSWER EXTENDED
a query of length 0 | - | PACKET EMPTY Q\0\0\0\0 EMPTY | Code(1) GREETING EMPTY_ANSWER BAD_LENGTH
a query of length 3 | - | PACKET EMPTY Q\0\0\0\x03 EMPTY | Code(1) GREETING EMPTY_ANSWER BAD_LENGTH
a query of length 4 | - | PACKET EMPTY Q\0\0\0\x04 EMPTY | Code(1) GREETING EMPTY_ANSWER BAD_FORM
a query of length 65541 | - | PACKET Q\0\x01\0\x05 \x20*65536 \0 TERMINATE | Code(0) GREETING EMPTY_ANSWER
a query of length 65542 | - | PACKET EMPTY Q\0\x01\0\x06 EMPTY | Code(1) GREETING EMPTY_ANSWER LONG_QUERY
a query of length 4294967295 | - | PACKET EMPTY Q\xff\xff\xff\xff EMPTY | Code(1) GREETING EMPTY_ANSWER LONG_QUERY
a Terminate of length 0 | - | PACKET EMPTY X\0\0\0\0 EMPTY | Code(1) GREETING EMPTY_ANSWER BAD_LENGTH
a Terminate of length 3 | - | PACKET EMPTY X\0\0\0\x03 EMPTY | Code(1) GREETING EMPTY_ANSWER BAD_LENGTH
a Terminate of length 4 | - | PACKET EMPTY X\0\0\0\x04 EMPTY | Code(0) GREETING EMPTY_ANSWER
a Terminate of length 5 | - | PACKET EMPTY X\0\0\0\x05 EMPTY | Code(1) GREETING EMPTY_ANSWER BAD_LENGTH
a Terminate of length 65541 | - | PACKET EMPTY X\0\x01\0\x05 EMPTY | Code(1) GREETING EMPTY_ANSWER BAD_LENGTH
a Terminate of length 65542 | - | PACKET EMPTY X\0\x01\0\x06 EMPTY | Code(1) GREETING EMPTY_ANSWER BAD_LENGTH
a Terminate of length 4294967295 | - | PACKET EMPTY X\xff\xff\xff\xff EMPTY | Code(1) GREETING EMPTY_ANSWER BAD_LENGTH
a query without its end | - | PACKET EMPTY QUERY_WITHOUT_END EMPTY | Code(1) GREETING EMPTY_ANSWER BAD_FORM
while the server starts | startup | PACKET TERMINATE | Code(1) STARTING_UP
in recovery | recovery | PACKET TERMINATE | Code(1) IN_RECOVERY
while it shuts down | shutdown | PACKET TERMINATE | Code(1) SHUTTING_DOWN
too many | full | PACKET TERMINATE | Code(1) TOO_MANY
at the gate behind a crash | gate crash | PACKET TERMINATE | Code(1) IN_RECOVERY
at the gate of a stop | gate stop | PACKET TERMINATE | Code(1) SHUTTING_DOWN
at a gate that isn't ready | gate unready | PACKET TERMINATE | Code(1) IN_RECOVERY
too many at the gate | gate full | PACKET TERMINATE | Code(1) TOO_MANY
the last places at the gate are reserved | gate reserved | PACKET TERMINATE | Code(1) RESERVED
a cancel while the server starts | startup | CANCEL | Code(0)
another generation, left without a word | gate 2 | PACKET TERMINATE | Signal(6)
killed outside | told kill | - | Signal(9)
told to quit outside | told quit | - | Code(2)
told to terminate outside | told terminate | - | Code(1)
all at once outside | told kill+stop+terminate | - | Signal(9)
an insert, whose commit its session flushes itself | - | PACKET INSERT_SEVEN TERMINATE | Code(0) GREETING INSERTED";

fn check_line<R: Wait + Abort + time::Clock + Copy + Drop>(
    rt: &R,
    alloc: Global,
    line: &str,
) -> Result<(), Fail> {
    let (_, rest) = line.split_once(" | ").ok_or("what it meets")?;
    let (meets, rest) = rest.split_once(" | ").ok_or("what comes in")?;
    let (incoming, end) = rest.split_once(" | ").ok_or("how it ends")?;
    for per_call in [1, 5, 4096] {
        check(rt, alloc, meets, incoming, per_call, end)?;
    }
    Ok(())
}

#[test]
fn connections_end_as_the_table_says(rt: HostRuntime) -> Result<(), Fail> {
    for line in TABLE.lines() {
        if !line.is_empty() {
            check_line(&rt, rt.alloc(), line)?;
        }
    }
    Ok(())
}
