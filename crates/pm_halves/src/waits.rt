//! What needs no seat: a look at a word that tells nothing, a sleep on it, and a call of one who sleeps. Words are those of the
//! first part and then those of the second.
ghost use Rattle.std.specs.Prelude.{◌+◌, ◌<◌};

use crate::table::TwoTable;
use crate::tie::Tie;
use atomic_table::TableRule;
use std::sync::Wait;

impl<
    X: Drop,
    Y: Drop,
    V,
    W,
    K,
    P: TableRule<X, V, K>,
    Q: TableRule<Y, W, K>,
    T: Tie<V, W>,
> TwoTable<X, Y, V, W, K, P, Q, T> {
    /// A load with no seat, which tells nothing.
    pub fn peek(&self, word: usize) -> u64
        requires { word < self.now.table.words + T.places }
    {
        self.table.shared.peek(word)
    }

    /// Sleeps on the low half of a word while it is as expected. It may also return for no reason.
    pub fn park<R: Wait>(&self, rt: &R, word: usize, expected: u32)
        requires { word < self.now.table.words + T.places }
    {
        self.table.shared.park(rt, word, expected);
    }

    /// Wakes one who sleeps on a word.
    pub fn wake_one(&self, word: usize)
        requires { word < self.now.table.words + T.places }
    {
        self.table.shared.wake_one(word);
    }
}
