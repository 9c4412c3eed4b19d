//! A piece of the log's other file, while the disk is lent for it.

ghost use Rattle.std.specs.Prelude.{◌≡◌, None};
ghost use Rattle.pm_store_apart.specs.declared.piece.Came.TheVariants as came;

use crate::batch::Batch;
use pm_disk::Disk;
use pm_log::{Log, LogFault, Making, Stepped};

/// What the making of a piece comes to.
#[derive(Clone, Copy, Debug, PartialEq, Eq)]
pub enum Came {
    /// More of the file is made.
    More,
    /// All of it was, and the log goes on there. So many calls the disk has had.
    Switched { log: Log, tick: u64 },
    /// The disk failed at it, and has broken the log.
    Failed { log: Log },
}

/// That, and what is to be gone on with.
#[derive(Drop)]
pub struct Piece {
    pub came: Came,
    pub making: Option<Making>,
}

impl Batch {
    ghost use Rattle.pm_store_apart.specs.Pieces.{IsReadyForPiece, MadePiece};

    /// Makes a piece more of the log's other file, or changes to it where all is made. It needs nothing of the store but its disk.
    pub fn make_piece<D: Disk>(&self, disk: &mut D, making: Making) -> Piece
        requires { IsReadyForPiece self.now.log making (D.seen disk.old) }
        ensures { MadePiece D.Disk disk.old disk.new self.now.log making result.came result.making }
    {
        let mut log = self.log;
        let mut making = making;
        match log.step(disk, &mut making) {
            Ok(Stepped::More) => Piece {
                came: Came::More,
                making: Some(making),
            },
            Ok(Stepped::Ready) => match log.switch(disk, making) {
                Ok(_) => Piece {
                    came: Came::Switched {
                        log,
                        tick: disk.ticks(),
                    },
                    making: None,
                },
                Err(LogFault::Disk) => failed(log),
                // The log wasn't broken.
                Err(_) => unreachable!(),
            },
            Err(LogFault::Disk) => failed(log),
            // The log wasn't broken.
            Err(_) => unreachable!(),
        }
    }
}

// The disk has broken the log, beside which nothing is made any more.
fn failed(log: Log) -> Piece
    ensures came { result.came ≡ came.Failed (record log { making = None }) }
    ensures nothing { result.making ≡ None }
{
    let mut log = log;
    log.making = None;
    Piece {
        came: Came::Failed { log },
        making: None,
    }
}
