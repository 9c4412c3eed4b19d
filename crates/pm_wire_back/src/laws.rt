//! What holds of every stream of a server's messages. The functions do nothing: each stands for the law in its contract,
//! over the definitions that `read_back` cites.

ghost use Rattle.pm_wire.specs.{Backend.IsBack, Stream.{StandApart, SplitOneWay, SplitInPieces, FailsOnce, FailsForGood, FailsInPieces}, Failing.place_of};
ghost use Rattle.pm_wire_back.specs.Failing.{BackFails};

/// No message of the server begins another one, and no bytes are two messages.
pub fn back_messages_stand_apart()
    ensures { StandApart IsBack }
{}

/// How the server's stream was cut into pieces makes no difference: it has one list of messages, and reading piece by
/// piece gives it.
pub fn back_stream_has_one_reading()
    ensures one_way { SplitOneWay IsBack }
    ensures in_pieces { SplitInPieces IsBack }
{}

/// A server's stream that goes wrong does so at one byte, however it was cut: after the same messages, for the same
/// fault, whatever comes after.
pub fn back_stream_fails_at_one_byte()
    ensures once { FailsOnce IsBack BackFails place_of }
    ensures for_good { FailsForGood IsBack BackFails place_of }
    ensures in_pieces { FailsInPieces IsBack BackFails place_of }
{}
