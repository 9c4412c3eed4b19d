//! Sending all of some bytes, and showing all of a text.
ghost use Rattle.pm_client.specs.Sides.{Sends, Shows, link_view, sink_view};

use crate::played::Played;
use pm_outside::{Link, Put, Sink};

/// Sends all the bytes, or a front of them until the link fails.
pub(crate) fn send<L: Link>(link: &mut L, bytes: &[u8]) -> Result<(), Played>
    ensures { Sends result bytes.now (link_view (L.traffic link.old) (L.faults link.old))
        (link_view (L.traffic link.new) (L.faults link.new)) }
{
    let mut rest = bytes;
    while !rest.is_empty() {
        match link.write(rest) {
            Put::Count(count) => rest = &rest[count..],
            Put::NotYet => {}
            Put::Failed => return Err(Played::LinkFault),
        }
    }
    Ok(())
}

/// Writes all of the text, or a front of it until the sink fails.
pub(crate) fn show<O: Sink>(sink: &mut O, text: &[u8]) -> Result<(), Played>
    ensures { Shows result text.now (sink_view (O.written sink.old) (O.faults sink.old))
        (sink_view (O.written sink.new) (O.faults sink.new)) }
{
    let mut rest = text;
    while !rest.is_empty() {
        match sink.write(rest) {
            Put::Count(count) => rest = &rest[count..],
            Put::NotYet => unreachable!(),
            Put::Failed => return Err(Played::OutFault),
        }
    }
    Ok(())
}
