//! What holds of every client's stream of messages, and of what is written. The functions do nothing: each stands for the
//! law in its contract, over the definitions that `Front::read` and `Back::write` cite.

ghost use Rattle.std.specs.Prelude.{◌≡◌, ◌↔◌, ◌+◌, ◌<◌, ◌≤◌, ◌^◌, List, ℕ, [], ◌++◌, length};
ghost use Rattle.pm_wire.specs.{Frontend.IsFront, Backend.{BackMessage, body, spelling, IsShort, IsWritable, HasCount}, declared.condition.Condition.Condition, Conditions.told, Longest.{longest, HasSizes, IsGiven, longest_told}, Stream.{StandApart, SplitOneWay, SplitInPieces, FailsOnce, FailsForGood, FailsInPieces}, Failing.{FrontFails, place_of}};

/// No message of a client begins another one, and no bytes are two messages.
pub fn front_messages_stand_apart()
    ensures { StandApart IsFront }
{}

/// How a client's stream was cut into pieces makes no difference: it has one list of messages, and
/// reading piece by piece gives it.
pub fn front_stream_has_one_reading()
    ensures one_way { SplitOneWay IsFront }
    ensures in_pieces { SplitInPieces IsFront }
{}

/// A client's stream that goes wrong does so at one byte, however it was cut: after the same messages, for the
/// same fault, whatever comes after.
pub fn front_stream_fails_at_one_byte()
    ensures once { FailsOnce IsFront FrontFails place_of }
    ensures for_good { FailsForGood IsFront FrontFails place_of }
    ensures in_pieces { FailsInPieces IsFront FrontFails place_of }
{}

/// The spelling of no message that can be written begins another's, whatever its texts are.
pub fn back_spellings_stand_apart()
    ensures { (m n : BackMessage) (more : List ℕ) → HasCount m → HasCount n → IsWritable m
        → IsWritable n → spelling m ++ more ≡ spelling n → more ≡ [] }
{}

/// What `Back::write` asks of a message's length is that its length field is at most 2^31 - 1.
pub fn back_lengths_are_short()
    ensures { (m : BackMessage) → HasCount m → (IsShort m ↔ (4 + length (body m) < 2 ^ 31)) }
{}

/// No message is longer than is said of its kind, so room for the longest that is sent suffices for each.
pub fn back_messages_have_a_longest()
    ensures { (m : BackMessage) → HasSizes m → length (spelling m) ≤ longest m }
{}

/// What the table says can be written, and is short but for a text that was given.
pub fn conditions_can_be_told()
    ensures writable { (c : Condition) → IsGiven c → IsWritable (told c) }
    ensures short { (c : Condition) → IsGiven c → length (spelling (told c)) ≤ longest_told c }
{}
