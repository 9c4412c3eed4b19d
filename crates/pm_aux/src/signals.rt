//! What signals end a child at once.
ghost use Rattle.std.specs.Prelude.{◌≡◌};
ghost use Rattle.pm_aux.specs.Signals.{ends_of};

use crate::cause::AuxiliaryEnd;
use pm_child_life::Standing;

/// By what a child has to end at once, if it has to: by a Kill before a Quit.
pub(crate) fn ends(standing: Standing) -> Option<AuxiliaryEnd>
    ensures { result ≡ ends_of standing }
{
    match (standing.kill, standing.quit) {
        (true, _) => Some(AuxiliaryEnd::Killed),
        (false, Some(reason)) => Some(AuxiliaryEnd::ToldToQuit(reason)),
        (false, None) => None,
    }
}
