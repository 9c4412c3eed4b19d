//! The posts of a new board.
ghost use Rattle.pm_board.specs.Models.{TakesFirst};

use crate::post::Post;
use pm_board_home::{Home, NoHome};
use pm_board_words::Letter;
use std::collections::VecDeque;

/// The posts that are left, that of slot 0 first.
#[derive(Drop)]
pub struct Posts<J: Letter + Drop, H: Home + Drop = NoHome> {
    pub(crate) left: VecDeque<Post<J, H>>,
}

impl<J: Letter + Drop, H: Home + Drop> Posts<J, H> {
    /// Hands out the first post that is left. None exactly where none is.
    pub fn take(&mut self) -> Option<Post<J, H>>
        ensures { TakesFirst result self.old.left.items self.new.left.items }
    {
        self.left.pop_front()
    }
}
