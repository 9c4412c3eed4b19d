//! What a pool is made by.
ghost use Rattle.std.specs.Prelude.{◌≡◌, ◌+◌, ◌*◌, ◌≤◌};
ghost use Rattle.pm_supervisor.specs.Limits.{IsWithinLimits};
ghost use Rattle.pm_serve_pool.specs.Plan.{sessions_of, slots_of};

use pm_board::SessionLimit;
use pm_session::SessionConf;
use pm_supervisor::Limits;
use std::snapshot::Snapshot;

/// The slot of the checkpointer.
pub(crate) const CHECKPOINTER_SLOT: u32 = 1;

/// The slot of the writer.
pub(crate) const WRITER_SLOT: u32 = 2;

/// How many slots, the first ones, are for children that serve no connection: startup child, checkpointer and writer.
pub const AUXILIARY_SLOTS: u32 = 3;

/// What a pool is made by.
#[derive(Clone, Copy, Debug, PartialEq, Eq)]
pub struct Plan {
    /// How many sessions may be attached at once, how many of these places are reserved, and how many background workers there are.
    pub limits: Limits,
    pub conf: SessionConf,
    /// That of the cancel keys.
    pub seed: [u8; 32],
}

/// How many slots a board has for so many sessions and background workers in all, 200 at most: one each for startup child,
/// checkpointer and writer, two for each of these, since one that is ending may be there beside its successor, and four for
/// dead-end children.
pub fn board_slots(serving: u32) -> u32
    ensures { serving ≤ 200 → result ≡ 3 + 2 * serving + 4 }
{
    serving
        .saturating_mul(2)
        .saturating_add(AUXILIARY_SLOTS + 4)
}

impl Plan {
    /// How many slots its board has.
    pub fn slots(&self) -> u32
        requires { IsWithinLimits self.now.limits }
        ensures { result ≡ slots_of self.now }
    {
        board_slots(self.limits.max_connections + self.limits.max_worker_processes)
    }

    /// How many sessions its board lets be attached.
    pub(crate) fn sessions(&self) -> SessionLimit
        ensures { result ≡ sessions_of self.now.limits }
    {
        SessionLimit {
            most: self.limits.max_connections,
            reserved: self.limits.reserved,
        }
    }
}

/// What the workers of a pool go by: its plan, and the clock that theirs were made from, for contracts alone.
#[derive(Drop)]
pub struct Terms<C> {
    pub plan: Plan,
    pub clock: Snapshot<C>,
}
