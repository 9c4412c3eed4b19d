//! Reading an answer of the server, and showing it.
ghost use Rattle.std.specs.Prelude.{◌≡◌, [], length};
ghost use Rattle.pm_client.specs.{Hearing.{Asks, Awaits, Hears, Receives}, Sides.{link_view, sides, sink_view}};

use crate::exchange::{send, show};
use crate::inbox::Inbox;
use crate::line::{ends_answer, put_line};
use crate::means::Means;
use crate::played::Played;
use pm_outside::{Clock, Link, Sink};
use pm_wire::Take;
use pm_wire_back::read_back;
use std::sync::Wait;

/// Sends a request, and reads and shows its answer.
pub(crate) fn ask<R: Wait, C: Clock, L: Link, O: Sink>(
    means: &Means<'_, R, C>,
    link: &mut L,
    inbox: &mut Inbox,
    out: &mut O,
    request: &[u8],
) -> Result<(), Played>
    ensures { Asks result request.now inbox.old inbox.new
        (sides (link_view (L.traffic link.old) (L.faults link.old)) (sink_view (O.written out.old) (O.faults out.old)))
        (sides (link_view (L.traffic link.new) (L.faults link.new)) (sink_view (O.written out.new) (O.faults out.new))) }
{
    send(link, request)?;
    hear(means, link, inbox, out)
}

// Reads messages up to the end of an answer, and shows them. Their lines stand on a page until nothing more has come.
fn hear<R: Wait, C: Clock, L: Link, O: Sink>(
    means: &Means<'_, R, C>,
    link: &mut L,
    inbox: &mut Inbox,
    out: &mut O,
) -> Result<(), Played>
    ensures { Hears result inbox.old inbox.new
        (sides (link_view (L.traffic link.old) (L.faults link.old)) (sink_view (O.written out.old) (O.faults out.old)))
        (sides (link_view (L.traffic link.new) (L.faults link.new)) (sink_view (O.written out.new) (O.faults out.new))) }
{
    let mut page = Vec::new(means.alloc);
    for _ in means.rt.forever() {
        match read_back(inbox.unread()) {
            Take::Whole { value, used } => {
                put_line(&mut page, &value)?;
                let is_last = ends_answer(&value);
                inbox.pass(used);
                if is_last {
                    return show(out, &page);
                }
            }
            Take::Short { wanted } => {
                show(out, &page)?;
                page.clear();
                await_bytes(means, link, inbox, wanted)?;
            }
            Take::Bad(fault) => {
                show(out, &page)?;
                return Err(Played::BadReply(fault));
            }
        }
    }
    unreachable!()
}

// Waits until so many bytes stand.
fn await_bytes<R: Wait, C: Clock, L: Link>(
    means: &Means<'_, R, C>,
    link: &mut L,
    inbox: &mut Inbox,
    wanted: usize,
) -> Result<(), Played>
    ensures { Awaits wanted result inbox.old inbox.new
        (link_view (L.traffic link.old) (L.faults link.old))
        (link_view (L.traffic link.new) (L.faults link.new)) }
{
    while inbox.unread().len() < wanted {
        receive(means, link, inbox)?;
    }
    Ok(())
}

// Waits for bytes, and takes those that came, one or more.
fn receive<R: Wait, C: Clock, L: Link>(
    means: &Means<'_, R, C>,
    link: &mut L,
    inbox: &mut Inbox,
) -> Result<(), Played>
    ensures { Receives result inbox.old inbox.new
        (link_view (L.traffic link.old) (L.faults link.old))
        (link_view (L.traffic link.new) (L.faults link.new)) }
{
    for _ in means.rt.forever() {
        if inbox.read_from(link)? {
            return Ok(());
        }
        means.clock.pause();
    }
    unreachable!()
}
