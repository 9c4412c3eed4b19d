// Talks with a server that goes by a script, played to their end or to what ends them before.
use crate::bytes::SEVENS;
use crate::scripted::{Case, PLAIN, check};
use std::test::Fail;

/// After `# ` what a talk is, how many bytes a call moves at most, which call of the link or of what is shown fails, what is asked, what comes
/// in, how the talk ends, and what goes out. What comes after that line is all that is shown.
const TALKS: &str = "
# a row | any | - | SEVENS | GREETING INSERTED SEVEN | Done { link_ended: false } | PACKET INSERT_SEVEN SELECT_SEVEN TERMINATE
INSERT 0 1
7|seven
SELECT 1
# no query | any | - | - | GREETING | Done { link_ended: false } | PACKET TERMINATE
# no statement | any | - | ; | GREETING NOTHING | Done { link_ended: false } | PACKET EMPTY TERMINATE
# a count | any | - | ; | GREETING COUNTED | Done { link_ended: false } | PACKET EMPTY TERMINATE
0
SELECT 1
# an update and a deletion | any | - | ; | GREETING UPDATED DELETED READY | Done { link_ended: false } | PACKET EMPTY TERMINATE
UPDATE 0
DELETE 10
# the least key, and a letter of three bytes | any | - | ; | GREETING LEAST_KEY EURO READY | Done { link_ended: false } | PACKET EMPTY TERMINATE
-9223372036854775808|
-3|\u{20ac}
# an empty text | any | - | ; | GREETING NO_TEXT READY | Done { link_ended: false } | PACKET EMPTY TERMINATE

# an error | any | - | ; | GREETING INSERT_TAG DUPLICATE READY | Done { link_ended: false } | PACKET EMPTY TERMINATE
INSERT 0 1
ERROR:  23505 duplicate key value violates unique constraint \"kv_pkey\"
# a broken log | any | - | ; | GREETING LOG_BROKEN READY | Done { link_ended: false } | PACKET EMPTY TERMINATE
PANIC:  58030 could not write to the commit log
# an end before the greeting | any | - | SEVENS | - | Done { link_ended: true } | PACKET
# a refusal | any | - | SEVENS | TOO_MANY | Done { link_ended: true } | PACKET
FATAL:  53300 sorry, too many clients already
# an end before an answer | any | - | SEVENS | GREETING | Done { link_ended: true } | PACKET INSERT_SEVEN
# a crash between two answers | any | - | SEVENS | GREETING INSERTED CRASH_QUIT | Done { link_ended: true } | PACKET INSERT_SEVEN SELECT_SEVEN
INSERT 0 1
WARNING:  57P02 terminating connection because of crash of another server process
# an end within a message | any | - | SEVENS | GREETING INSERT_TAG PART | Done { link_ended: true } | PACKET INSERT_SEVEN
INSERT 0 1
# a client's message | any | - | SEVENS | GREETING INSERT_TAG EMPTY READY | BadReply(BadForm { at: 0 }) | PACKET INSERT_SEVEN
INSERT 0 1
# another length | any | - | SEVENS | GREETING INSERT_TAG LONG_AUTH READY | BadReply(BadLength { seen: 9 }) | PACKET INSERT_SEVEN
INSERT 0 1
# a key that is too large | any | - | SEVENS | GREETING INSERT_TAG LARGE_KEY READY | BadReply(BadForm { at: 29 }) | PACKET INSERT_SEVEN
INSERT 0 1
# the first read fails | any | read 1 | SEVENS | GREETING INSERTED SEVEN | LinkFault | PACKET
# the first write fails | any | write 1 | SEVENS | GREETING INSERTED SEVEN | LinkFault | -
# the third write fails | 4096 | write 3 | SEVENS | GREETING INSERTED SEVEN | LinkFault | PACKET INSERT_SEVEN
INSERT 0 1
# the last write fails | 4096 | write 4 | SEVENS | GREETING INSERTED SEVEN | LinkFault | PACKET INSERT_SEVEN SELECT_SEVEN
INSERT 0 1
7|seven
SELECT 1
# the first line isn't shown | any | show 1 | SEVENS | GREETING INSERTED SEVEN | OutFault | PACKET INSERT_SEVEN
# the fourth byte isn't shown | 1 | show 4 | SEVENS | GREETING INSERTED SEVEN | OutFault | PACKET INSERT_SEVEN
INS";

// A talk of these queries where this call fails: `write 3`.
fn failing(queries: &'static str, words: &str) -> Result<Case<'static>, Fail> {
    let mut case = Case { queries, ..PLAIN };
    if let Some((what, number)) = words.split_once(' ') {
        let number = number.parse::<u64>().ok().ok_or("a number")?;
        match what {
            "read" => case.failing_read = number,
            "write" => case.failing_write = number,
            _ => case.failing_show = number,
        }
    }
    Ok(case)
}

fn queries_of(word: &str) -> &'static str {
    match word {
        "SEVENS" => SEVENS,
        "-" => "",
        _ => ";",
    }
}

// The case of a talk, and how many bytes a call moves at most, if that isn't any number.
fn case_of(talk: &'static str) -> Result<(Case<'static>, Option<usize>), Fail> {
    let (line, shown) = talk.split_once('\n').ok_or("what is shown")?;
    let (name, rest) = line.split_once(" | ").ok_or("how it is cut")?;
    let (most, rest) = rest.split_once(" | ").ok_or("what fails")?;
    let (fails, rest) = rest.split_once(" | ").ok_or("what is asked")?;
    let (queries, rest) = rest.split_once(" | ").ok_or("what comes in")?;
    let (incoming, rest) = rest.split_once(" | ").ok_or("an end")?;
    let (end, sent) = rest.split_once(" | ").ok_or("what goes out")?;
    let case = Case {
        name,
        incoming,
        end,
        sent,
        shown,
        ..failing(queries_of(queries), fails)?
    };
    Ok((case, most.parse::<usize>().ok()))
}

#[test]
fn talks_show_what_the_table_says_and_end_so(rt: HostRuntime) -> Result<(), Fail> {
    let (_, talks) = TALKS.split_once("# ").ok_or("a talk")?;
    for talk in talks.split("# ") {
        let (case, most) = case_of(talk)?;
        for per_call in [1, 5, 4096] {
            if most == None || most == Some(per_call) {
                assert!(rt; 0 < per_call);
                check(&rt, rt.alloc(), &case, per_call)?;
            }
        }
    }
    Ok(())
}
