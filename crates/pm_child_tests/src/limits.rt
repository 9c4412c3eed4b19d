//! Sessions whose client takes its time up to its startup packet, where it may take a second, unless it gives a length that no packet
//! has.
ghost use Rattle.std.specs.Prelude.{◌≡◌, IfOk};
ghost use Rattle.pm_outside.specs.{MemLink.link_traffic, Traffic.no_traffic};

use crate::bytes::joined;
use crate::connection::{came_to, serve_link};
use crate::noting_clock::NotingClock;
use pm_outside::{Cue, Hold, LinkScript, MemLink, Scene};
use std::alloc::Global;
use std::process::Abort;
use std::sync::Wait;
use std::test::Fail;
use std::time;

const LIMIT_MS: u64 = 1000;

/// What a connection meets, what comes in, from which byte on only after how many milliseconds, how it ends, and after how
/// many milliseconds.
const TABLE: &str = r"
four bytes and then nothing | - | PACKET | 4@9000 | Code(1) | 1000
no byte at all | - | PACKET | 0@9000 | Code(1) | 1000
a packet that is whole in time | - | PACKET TERMINATE | 4@999 | Code(0) GREETING | 999
a packet that is whole at the limit | - | PACKET TERMINATE | 4@1000 | Code(0) GREETING | 1000
a packet that comes too late | - | PACKET TERMINATE | 4@1001 | Code(1) | 1000
a byte every 100 ms | - | PACKET | 1@100 2@200 3@300 4@400 5@500 6@600 7@700 8@800 9@900 10@1000 11@1100 12@1200 | Code(1) | 1000
the same after a request for encryption | - | SSL PACKET | 9@100 10@200 11@300 12@400 13@500 14@600 15@700 16@800 17@900 18@1000 19@1100 | Code(1) N | 1000
where it would be refused | full | PACKET | 4@9000 | Code(1) | 1000
length 0 | - | \0\0\0\0 | 4@9000 | Code(0) | 0
length 7 | - | \0\0\0\x07 | 4@9000 | Code(0) | 0
length 8 | - | \0\0\0\x08\0\x03\0\0 | 4@5 | Code(1) BAD_LAYOUT | 5
length 10004 | - | \0\0\x27\x14\0\x03\0\0user\0ann\0options\0 x*9977 \0\0 TERMINATE | 4@5 | Code(0) GREETING | 5
length 10005 | - | \0\0\x27\x15 | 4@9000 | Code(0) | 0
length 4294967295 | - | \xff\xff\xff\xff | 4@9000 | Code(0) | 0
a query that comes later than that | - | PACKET EMPTY TERMINATE | 18@2500 | Code(0) GREETING EMPTY_ANSWER | 2500";

// From which byte on a link gives nothing up to which millisecond, as `4@999`.
fn holds_of(alloc: Global, words: &str) -> Result<Vec<Hold>, Fail> {
    let mut holds = Vec::new(alloc);
    for word in words.split_whitespace() {
        let (at, ms) = word.split_once('@').ok_or("a place and a moment")?;
        let at = at.parse::<usize>().ok().ok_or("a place")?;
        let ms = ms.parse::<u64>().ok().ok_or("a moment")?;
        let cue = Cue::Lines(ms);
        holds.push(Hold { at, cue })?;
    }
    Ok(holds)
}

// A link on which these messages come in at these moments of the scene's.
fn link_of(alloc: Global, incoming: &str, holds: &str, scene: Scene) -> Result<MemLink, Fail>
    ensures { IfOk result (λ link. link_traffic link ≡ no_traffic) }
{
    let script = LinkScript {
        incoming: joined(alloc, incoming)?,
        per_call: 4096,
        failing_reads: Vec::new(alloc),
        failing_writes: Vec::new(alloc),
        holds: holds_of(alloc, holds)?,
    };
    Ok(MemLink::new(alloc, 1, script, Some(scene)))
}

fn check_line<R: Wait + Abort + time::Clock + Copy + Drop>(
    rt: &R,
    alloc: Global,
    line: &str,
) -> Result<(), Fail> {
    let (name, rest) = line.split_once(" | ").ok_or("what it meets")?;
    let (meets, rest) = rest.split_once(" | ").ok_or("what comes in")?;
    let (incoming, rest) = rest.split_once(" | ").ok_or("when it comes")?;
    let (holds, rest) = rest.split_once(" | ").ok_or("how it ends")?;
    let (end, ms) = rest.split_once(" | ").ok_or("when it ends")?;
    let ms = ms.parse::<u64>().ok().ok_or("a moment")?;
    let scene = Scene::new(alloc, 1)?;
    let link = link_of(alloc, incoming, holds, scene.another()?)?;
    let clock = NotingClock::new(alloc, scene, *rt)?;
    let met = serve_link(rt, alloc, meets, link, LIMIT_MS, &clock)?;
    let is_wanted = came_to(alloc, &met, end)?;
    assert!(rt;
        is_wanted && met.now == ms,
        "{name}: {:?} and {:?} after {} ms",
        met.status,
        met.sent,
        met.now
    );
    Ok(())
}

#[test]
fn a_client_is_given_up_at_the_limit(rt: HostRuntime) -> Result<(), Fail> {
    for line in TABLE.lines() {
        if !line.is_empty() {
            check_line(&rt, rt.alloc(), line)?;
        }
    }
    Ok(())
}
