//! Sessions that are told to end, or to give up their query.
use crate::connection::{KEY, PID, came_to, check, serve_case};
use pm_outside::MemClock;
use pm_rows_tests::GENERATION;
use std::test::Fail;

/// A signal that comes at each ask of a session in turn, what comes in, and how the session ends then.
const AT_EACH_ASK: &str = "
terminate | PACKET EMPTY TERMINATE | Code(0) GREETING EMPTY_ANSWER or Code(1) or Code(1) TERMINATED or Code(1) GREETING TERMINATED or Code(1) GREETING EMPTY_ANSWER TERMINATED
quit | PACKET EMPTY TERMINATE | Code(0) GREETING EMPTY_ANSWER or Code(2) or Code(2) CRASH_QUIT or Code(2) GREETING CRASH_QUIT or Code(2) GREETING EMPTY_ANSWER CRASH_QUIT
kill | PACKET EMPTY TERMINATE | Code(0) GREETING EMPTY_ANSWER or Signal(9) or Signal(9) GREETING or Signal(9) GREETING EMPTY_ANSWER
quit | PACKET INSERT_SEVEN TERMINATE | Code(0) GREETING INSERTED or Code(2) or Code(2) CRASH_QUIT or Code(2) GREETING CRASH_QUIT or Code(2) GREETING INSERTED CRASH_QUIT";

#[test]
fn a_signal_counts_at_each_ask(rt: HostRuntime) -> Result<(), Fail> {
    let alloc = rt.alloc();
    for line in AT_EACH_ASK.lines() {
        if let Some((signal, rest)) = line.split_once(" | ") {
            let (incoming, ends) = rest.split_once(" | ").ok_or("how it ends")?;
            for asks in 0..16 {
                let meets = format!(in alloc; "told {asks} {signal}")?;
                check(&rt, alloc, meets.as_str(), incoming, 4096, ends)?;
            }
        }
    }
    Ok(())
}

// A cancel ends a query that sleeps, and none where it comes between queries.
#[test]
fn a_cancel_ends_the_query_in_progress(rt: HostRuntime) -> Result<(), Fail> {
    let alloc = rt.alloc();
    let mut ended: u32 = 0;
    for asks in 0..10 {
        let meets = format!(in alloc; "told {asks} cancel")?;
        let clock = MemClock::new(alloc, 0, rt)?;
        let incoming = "PACKET SLEEP TERMINATE";
        let met = serve_case(&rt, alloc, meets.as_str(), incoming, 4096, &clock)?;
        if came_to(alloc, &met, "Code(0) GREETING CANCELED")? {
            ended = ended.saturating_add(1);
            assert!(rt; met.now < 1000);
        } else {
            assert!(rt; came_to(alloc, &met, "Code(0) GREETING SLEPT")?);
            assert!(rt; 1000 <= met.now);
        }
    }
    // The sixth ask is the first of the query's sleep: before it are four up to the greeting and one for the message.
    assert_eq!(rt; ended, 5);
    Ok(())
}

// What the life tells after its session.
#[test]
fn a_life_tells_what_its_session_did(rt: HostRuntime) -> Result<(), Fail> {
    let cases: [(&str, &str, Option<u32>, Option<(u32, u32)>); 4] = [
        ("-", "CANCEL", None, Some((PID, KEY))),
        ("-", "GSS SSL CANCEL", None, Some((PID, KEY))),
        ("-", "PACKET EMPTY TERMINATE", None, None),
        ("told 4 quit", "PACKET", Some(GENERATION), None),
    ];
    for (meets, incoming, attached, asked_cancel) in cases {
        let clock = MemClock::still(0, rt);
        let met = serve_case(&rt, rt.alloc(), meets, incoming, 4096, &clock)?;
        assert_eq!(rt; met.pid, PID);
        assert_eq!(rt; met.attached, attached);
        assert!(rt; met.asked_cancel == asked_cancel);
    }
    Ok(())
}
