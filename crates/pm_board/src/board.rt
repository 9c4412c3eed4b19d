//! How a board is made.
ghost use Rattle.std.specs.Prelude.{◌≡◌, ◌<◌, ◌≤◌, IfOk};
ghost use Rattle.pm_board.specs.{Told.new_roster, Models.AreNewPosts};

use crate::posts::Posts;
use crate::room::Room;
use crate::roster::Roster;
use pm_board_home::{Home, NoHome};
use pm_board_words::{EMPTY_HOME, Letter, NEVER_HOME, SessionLimit};
use std::alloc::{AllocError, Global};

/// Makes boards.
pub struct Board;

impl Board {
    /// A board of so many slots, with a post for each, on which so many sessions may be attached. Nothing lies at its home.
    pub fn new<J: Letter + Drop>(
        alloc: Global,
        slots: u32,
        session_limit: SessionLimit,
    ) -> Result<(Roster<J>, Posts<J>), AllocError>
        requires { (0 < slots) × (slots ≤ 407) × (session_limit.most ≤ 200) }
        ensures roster { IfOk result (λ r. r.0.knows ≡ new_roster slots session_limit slots) }
        ensures posts { IfOk result (λ r. AreNewPosts slots session_limit r.0.table
            r.1.left.items) }
    {
        let room = Room::<J, NoHome>::new(alloc, slots, session_limit, NEVER_HOME)?;
        Ok(room.bare())
    }

    /// All the memory of such a board, at whose home something may be laid then.
    pub fn room<J: Letter + Drop, H: Home + Drop>(
        alloc: Global,
        slots: u32,
        session_limit: SessionLimit,
    ) -> Result<Room<J, H>, AllocError>
        requires slots { (0 < slots) × (slots ≤ 407) × (session_limit.most ≤ 200) }
        requires empty { H.begins ≡ 0 }
        ensures { IfOk result (λ room.
            room ≡ record { slots = slots; session_limit = session_limit }) }
    {
        Room::new(alloc, slots, session_limit, EMPTY_HOME)
    }
}
