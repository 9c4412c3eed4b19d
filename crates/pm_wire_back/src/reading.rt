//! Messages of the server, read by a client.

ghost use Rattle.std.specs.Prelude.{◌≡◌, ℕ, ◌≤◌, ◌++◌, ◌↔◌, List, length, take};
ghost use Rattle.pm_wire.specs.{Backend.{BackMessage, IsBack, back_message}, Reading.seen_by, Taking.IfWhole};
ghost use Rattle.pm_wire_back.specs.{Received.{IsPartial, IsWholeAt, HasNoSuchLength, DepartsHere}, Plain.IsPlain};

use crate::message::back_of;
use pm_wire::{Back, Take, WireFault};

/// Reads the message that the bytes begin with. Nothing is copied: its texts lie in the bytes.
///
/// A length is told when it is whole, and any other byte as soon as it stands where no message has it. A caller
/// that reads again only when the wanted bytes are there reads each message at most three times; one that
/// reads at each byte, to meet a fault early, reads the front of the message each time. An error or a notice of the
/// table is read by its fields, and never as `Told`.
pub fn read_back(bytes: &[u8]) -> Take<Back<'_>>
    // What is read stands there, and every message that stands there is read.
    ensures whole { IfWhole result (λ value used. (used ≤ length bytes.now)
        × IsBack (take used bytes.now) (back_message value)) }
    ensures every { (spelled rest : List ℕ) (m : BackMessage) → IsBack spelled m
        → bytes.now ≡ spelled ++ rest → seen_by back_message result ≡ Take.Whole m
        (length spelled) }
    ensures plain { IfWhole result (λ value used. IsPlain value) }

    // Why nothing is read.
    ensures short { (wanted : ℕ) → (result ≡ Take.Short wanted)
        ↔ (IsPartial bytes.now × IsWholeAt bytes.now wanted) }
    ensures partial { IsPartial bytes.now ↔ ((wanted : ℕ) × (result ≡ Take.Short wanted)) }
    ensures bad_length { (seen : ℕ) → (result ≡ Take.Bad (WireFault.BadLength seen))
        ↔ HasNoSuchLength bytes.now seen }
    ensures bad_form { (at : ℕ) → (result ≡ Take.Bad (WireFault.BadForm at))
        ↔ DepartsHere bytes.now at }
{
    back_of(bytes)
}
