//! A whole talk.
ghost use Rattle.std.specs.Prelude.{◌≡◌, All};
ghost use Rattle.pm_wire_front.specs.Requests.{IsSayable};
ghost use Rattle.pm_client.specs.{Sides.{link_view, sides, sink_view}, Talk.{HasPlayed, played_of}};

use crate::exchange::send;
use crate::hearing::ask;
use crate::inbox::Inbox;
use crate::means::Means;
use crate::played::Played;
use pm_outside::{Clock, Link, Sink};
use pm_rows::Text;
use pm_wire_front::{put_query, put_start, terminate};
use std::sync::Wait;

/// Begins a session of this user, asks each text as a query once the one before is answered, shows the answers, and ends the session.
/// An answer is all that comes up to a ReadyForQuery. `pm_wire_front::can_say` tells whether a text may stand here.
///
/// A link that has nothing yet is asked again after a pause of the clock.
pub fn play<R: Wait, C: Clock, L: Link, O: Sink>(
    means: &Means<'_, R, C>,
    link: &mut L,
    user: &str,
    texts: &[Text],
    out: &mut O,
) -> Played
    requires user { IsSayable user.now }
    requires texts { All IsSayable texts.now }
    ensures { HasPlayed user.now texts.now result
        (sides (link_view (L.traffic link.old) (L.faults link.old)) (sink_view (O.written out.old) (O.faults out.old)))
        (sides (link_view (L.traffic link.new) (L.faults link.new)) (sink_view (O.written out.new) (O.faults out.new))) }
{
    match ask_all(means, link, user, texts, out) {
        Ok(()) => Played::Done { link_ended: false },
        Err(played) => played,
    }
}

fn ask_all<R: Wait, C: Clock, L: Link, O: Sink>(
    means: &Means<'_, R, C>,
    link: &mut L,
    user: &str,
    texts: &[Text],
    out: &mut O,
) -> Result<(), Played>
    requires user { IsSayable user.now }
    requires texts { All IsSayable texts.now }
    ensures { HasPlayed user.now texts.now (played_of result)
        (sides (link_view (L.traffic link.old) (L.faults link.old)) (sink_view (O.written out.old) (O.faults out.old)))
        (sides (link_view (L.traffic link.new) (L.faults link.new)) (sink_view (O.written out.new) (O.faults out.new))) }
{
    let mut inbox = Inbox::new(means.alloc);
    let mut request = Vec::new(means.alloc);
    put_start(&mut request, user)?;
    ask(means, link, &mut inbox, out, &request)?;
    for text in texts {
        request.clear();
        put_query(&mut request, text.as_str())?;
        ask(means, link, &mut inbox, out, &request)?;
    }
    send(link, terminate())
}
