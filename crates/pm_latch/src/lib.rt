//! Latches and cancels: what the supervisor tells a child to do, and how one child has the query of another cancelled. No call
//! takes memory, waits for anybody or retries anything: `send` is one of the board's steps, `take` two, and `cancel` looks at the
//! latch of each slot at most once.
#![tactic(auto)]

ghost use Rattle.std.specs.Prelude.{◌≡◌};
ghost use Rattle.pm_board.specs.{Places.IsAssigned, Models.{RunsChild, HasSent}};
ghost use Rattle.pm_latch.specs.{Taking.HasTaken, Cancelling.{request, HasAsked}};

pub use pm_board::Signal;
use pm_board::{Letter, Post, Roster};
use pm_board_home::Home;
use pm_child_life::{Cancelled, Signals};

/// Sends a signal to the child of a slot: it stands until the child takes its signals.
pub fn send<J: Letter + Drop, H: Home + Drop>(roster: &mut Roster<J, H>, slot: u32, signal: Signal)
    requires { IsAssigned roster.old.knows slot }
    ensures table { roster.new.table ≡ roster.old.table }
    ensures home { roster.new.home ≡ roster.old.home }
    ensures knows { HasSent slot signal roster.old.knows roster.new.knows }
{
    roster.send(slot, signal);
}

/// Takes what was sent to the child that runs on the post: exactly the signals that stand, and a cancel exactly where the
/// slot's cancel word holds the child's own pid, as this call meets both words. Afterwards none of it stands any more. Where
/// both notices to quit stand, it is that of a stop.
pub fn take<J: Letter + Drop, H: Home + Drop>(post: &mut Post<J, H>) -> Signals
    requires { RunsChild post.old.knows.work }
    ensures table { post.new.table ≡ post.old.table }
    ensures slot { post.new.slot ≡ post.old.slot }
    ensures home { post.new.home ≡ post.old.home }
    ensures work { post.new.knows.work ≡ post.old.knows.work }
    ensures met { HasTaken result post.old.knows post.new.knows }
{
    let cancel = post.heed();
    post.take_signals(cancel)
}

/// Asks that the query of the child with this pid be cancelled, and shows its key. `WrongKey` exactly where it isn't the key of
/// that pid under the seed; pid 0 has none. `NoSuchPid` exactly where no latch, as this call meets it, is armed for the pid. Else
/// `Sent`, and a cancel for the pid was made on the slot of such a latch.
pub fn cancel<J: Letter + Drop, H: Home + Drop>(
    post: &mut Post<J, H>,
    seed: &[u8; 32],
    pid: u32,
    key: u32,
) -> Cancelled
    ensures table { post.new.table ≡ post.old.table }
    ensures slot { post.new.slot ≡ post.old.slot }
    ensures home { post.new.home ≡ post.old.home }
    ensures work { post.new.knows.work ≡ post.old.knows.work }
    ensures met { HasAsked (request seed.now pid key) result post.old post.new }
{
    if pid == 0 || !pm_keys::matches(seed, pid, key) {
        return Cancelled::WrongKey;
    }
    for slot in 0..post.slots() {
        if post.look_at_latch(slot) == pid {
            post.make_cancel(slot, seed, pid, key);
            return Cancelled::Sent;
        }
    }
    Cancelled::NoSuchPid
}
