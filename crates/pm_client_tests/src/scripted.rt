// A client's talk with a server that goes by a script, and what it came to.
ghost use Rattle.std.specs.Prelude.{◌<◌, All, IfSome};
ghost use Rattle.pm_wire_front.specs.Requests.{IsSayable};

use crate::bytes::named;
use pm_client::{Means, Played, play};
use pm_outside::{Hold, Link, LinkScript, MemClock, MemLink, MemSink, Sink};
use pm_rows::Text;
use pm_wire_front::can_say;
use std::alloc::{AllocError, Global};
use std::process::Abort;
use std::sync::Wait;
use std::test::Fail;
use std::time::Clock;

/// What a client meets, and what it comes to.
#[derive(Clone, Copy)]
pub struct Case<'a> {
    pub name: &'a str,
    /// Its queries, one a line.
    pub queries: &'a str,
    /// All that comes in, by the names of its messages.
    pub incoming: &'a str,
    /// The number of the call that fails, counted from 1: a read or a write of the link, or a write of what is shown. At 0 none does.
    pub failing_read: u64,
    pub failing_write: u64,
    pub failing_show: u64,
    /// How it prints what the talk came to.
    pub end: &'a str,
    /// All that goes out, by its names, and all that is shown.
    pub sent: &'a str,
    pub shown: &'a str,
}

/// A talk without a query that nothing hinders.
pub const PLAIN: Case<'static> = Case {
    name: "plain",
    queries: "",
    incoming: "",
    failing_read: 0,
    failing_write: 0,
    failing_show: 0,
    end: "Done { link_ended: false }",
    sent: "",
    shown: "",
};

// The messages of these names, one after the other.
fn joined(alloc: Global, names: &str) -> Result<Vec<u8>, AllocError> {
    let mut all = Vec::new(alloc);
    for name in names.split_whitespace() {
        all.extend_from_slice(named(name))?;
    }
    Ok(all)
}

// The lines of these queries, where a message can hold each.
fn texts_of(alloc: Global, queries: &str) -> Option<Vec<Text>>
    ensures { IfSome result (λ texts. All IsSayable texts.items) }
{
    let mut texts = Vec::new(alloc);
    for line in queries.lines() {
        if !can_say(line) {
            return None;
        }
        let Ok(text) = Text::of(alloc, line) else {
            return None;
        };
        if texts.push(text).is_err() {
            return None;
        }
    }
    Some(texts)
}

/// Asks these queries on a link, one a line, as the user `ann`. It answers nothing where a line is no query, or for want of memory.
pub fn talk<R: Wait + Clock + Copy + Drop, L: Link, O: Sink>(
    rt: &R,
    alloc: Global,
    link: &mut L,
    queries: &str,
    out: &mut O,
) -> Option<Played> {
    let texts = texts_of(alloc, queries)?;
    let clock = MemClock::still(0, *rt);
    let means = Means {
        rt,
        alloc,
        clock: &clock,
    };
    Some(play(&means, link, "ann", &texts, out))
}

/// The script of a case, on a link that moves at most so many bytes a call.
pub fn script_of(
    alloc: Global,
    case: &Case,
    per_call: usize,
    holds: Vec<Hold>,
) -> Result<LinkScript, AllocError>
    requires { 0 < per_call }
{
    Ok(LinkScript {
        incoming: joined(alloc, case.incoming)?,
        per_call,
        failing_reads: vec![in alloc; case.failing_read]?,
        failing_writes: vec![in alloc; case.failing_write]?,
        holds,
    })
}

/// Plays a case on a link and to a sink that move at most so many bytes a call. It must come to what the case says.
pub fn check<R: Wait + Abort + Clock + Copy + Drop>(
    rt: &R,
    alloc: Global,
    case: &Case,
    per_call: usize,
) -> Result<(), Fail>
    requires { 0 < per_call }
{
    let script = script_of(alloc, case, per_call, Vec::new(alloc))?;
    let mut link = MemLink::new(alloc, 1, script, None);
    let mut out = MemSink::new(alloc, per_call, vec![in alloc; case.failing_show]?);
    let end = talk(rt, alloc, &mut link, case.queries, &mut out).ok_or("no talk")?;
    let wanted = joined(alloc, case.sent)?;
    let end = format!(in alloc; "{end:?}")?;
    assert_eq!(rt; end.as_str(), case.end, "{}", case.name);
    assert_eq!(rt; out.bytes(), case.shown.as_bytes(), "{}", case.name);
    assert_eq!(rt; link.sent(), wanted.as_slice(), "{}", case.name);
    Ok(())
}
