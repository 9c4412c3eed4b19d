//! The laws of histories that the calls of a store go by.

ghost use Rattle.pm_query.specs.{BookLaws.AckedNeverFalls, TickLaws.{PastStays, PresentIsWhole}};

use pm_query::{acked_never_falls, past_stays, present_is_whole};

/// The laws of histories, by which an entry keeps a run.
pub fn history_laws()
    ensures past { PastStays }
    ensures present { PresentIsWhole }
    ensures acked { AckedNeverFalls }
{
    past_stays();
    present_is_whole();
    acked_never_falls();
}
