//! What holds of a board between any two steps. Each law is stated in `specs/Laws`, and carried by the function of its name.

ghost use Rattle.pm_board.specs.{Children.CountsChildren, Laws.{ResetFindsNobody, ShowsASoundState, HistoryIsOfTheSeats, HearsWhatWasSent, LetsInRightly, LendsRightly}};

use pm_board_home::Home;
use pm_board_words::Letter;
use pm_supervisor::keeps_what_is_shared;

/// Where the supervisor sees no slot with a child, no worker does anything. So a reset finds nobody attached, whatever the
/// gate has counted.
pub fn reset_finds_nobody<J: Letter>()
    ensures { ResetFindsNobody J.Letter }
{}

/// What the board shows is sound: pids differ, every child is of the present generation, a session is attached only in a
/// generation that has been open, and no more are than the limit.
pub fn shows_a_sound_state<J: Letter>()
    ensures { ShowsASoundState J.Letter }
{
    keeps_what_is_shared();
}

/// The events that led to what the board shows are the own steps of its seats: the supervisor's are what its view has noted,
/// in order, and those on a slot what the view of its worker has.
pub fn history_is_of_the_seats<J: Letter>()
    ensures { HistoryIsOfTheSeats J.Letter }
{}

/// What a child heard was meant for it: each signal that it was given was sent to its pid, once for each time that it was given;
/// a cancel that it heeded was made for its pid, with the key of that pid; where the gate told it of a notice, the supervisor had
/// given that notice in the child's generation, before the child's release; and whatever it met at the gate was the gate's answer
/// by what the supervisor had made of it at a moment before that release: it was let in where no notice stood, as a session where
/// the gate was open.
/// And what was meant for the child that runs is not lost: a signal that was sent to it stands in its latch until an answer told it,
/// and a cancel made for it on its slot, or one for a later pid, stands in the word of the cancels until a heed found it.
pub fn hears_what_was_sent<J: Letter>()
    ensures { HearsWhatWasSent J.Letter }
{}

/// At any moment, a child that the gate's word lets in attaches in its own generation, and may attach in the state that the board
/// shows: no notice stands, and for a session the gate is open and there is room.
pub fn lets_in_rightly<J: Letter>()
    ensures { LetsInRightly J.Letter }
{}

/// Of the children that the supervisor sees, an assign counts one more of its kind and a release one fewer. Where there are fewer of
/// such kinds than slots that only these have, one of those slots is free.
pub fn counts_children()
    ensures { CountsChildren }
{}

/// At any moment, who has what lies at the board's home is the supervisor, or a worker whose child is attached in the gate's
/// generation. In a worker's hand it is of that generation, and so it is where it lies at home.
pub fn lends_rightly<J: Letter, H: Home>()
    ensures { LendsRightly J.Letter H.Home }
{}
