//! A file that is being made: the base of the next epoch, and a copy of what is appended meanwhile.

use crate::base::Base;
use pm_rows::MAX_VALUE_BYTES;
use std::marker::Model;

/// A step writes so many bytes, where they are left.
pub const PIECE_BYTES: usize = 1_048_576;

/// A row isn't split, so a step may write one row more.
pub const MOST_IN_PIECE: usize = PIECE_BYTES + (8 + 4 + MAX_VALUE_BYTES);

/// The file is made durable after so many pieces, so that the last step finds little to do.
pub const PIECES_PER_SYNC: u64 = 4;

/// What a step came to.
#[derive(Clone, Copy, Debug, PartialEq, Eq)]
pub enum Stepped {
    /// A piece was written.
    More,
    /// All that there is was made durable, behind a gate that is closed.
    Ready,
}

/// The file that isn't the log's, as it is made for the next epoch. Its gate stays closed.
#[derive(Debug, Drop)]
pub struct Making {
    pub(crate) base: Base,
    // The place of the first gate after the base.
    pub(crate) base_end: u64,
    // The next row of the base that isn't written.
    pub(crate) next: usize,
    // Where the log's gate stood when this began. What is appended from there on is copied.
    pub(crate) from: u64,
    // It is written up to here.
    pub(crate) done: u64,
    // Whether the last step has made all of it durable.
    pub(crate) ready: bool,
    // How many pieces were written since it was last made durable.
    pub(crate) unsynced: u64,
    // For the bytes of a piece.
    pub(crate) buffer: Vec<u8>,
}

impl Model for Making {
    ghost use Rattle.std.specs.Prelude.{vec_capacity};
    ghost use Rattle.pm_log.specs.{Base.{IsMaking, whole_base}, Half.{Half}};

    ghost Value = { Half };

    ghost view = { λ making. record {
      epoch = making.base.epoch;
      base = whole_base making.base;
      from = making.from;
      done = making.done;
      ready = making.ready;
    } };

    ghost invariant = { λ making. IsMaking making.base making.base_end making.next making.done
        making.unsynced (vec_capacity making.buffer) };
}
