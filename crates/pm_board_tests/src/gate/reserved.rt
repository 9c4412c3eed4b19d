//! Places at the gate that are kept from ordinary sessions.
ghost use Rattle.std.specs.Prelude.{◌≤◌};

use crate::gate::scene::{new_board, up_to};
use crate::gate::worker::{come, new_workers};
use pm_board::SessionLimit;
use pm_child_life::GateNo;
use pm_gate::ready;
use std::alloc::{AllocError, Global};
use std::test::Fail;

/// Two may be attached, and one of the places is reserved.
const RESERVED: SessionLimit = SessionLimit {
    most: 2,
    reserved: 1,
};

/// Which sessions come, one after the other: ordinary ones first.
const COMERS: [bool; 4] = [true, true, false, false];

/// What a session is told, where it starts.
type Told = Option<Result<u32, GateNo>>;

// What each is told that comes to the open gate of a new board.
fn told(alloc: Global, limit: SessionLimit) -> Result<[Told; 4], AllocError>
    requires { limit.most ≤ 200 }
{
    let (mut roster, mut posts) = new_board(alloc, limit)?;
    let workers = new_workers(alloc, &mut posts)?;
    ready(&mut roster);
    let mut answers = [None; 4];
    let mut place = 0u32;
    for worker in workers {
        if place >= 4 {
            break;
        }
        let at = place as usize;
        answers[at] = come(&mut roster, worker, place, 0, COMERS[at]);
        place += 1;
    }
    Ok(answers)
}

#[test]
fn reserved_places_are_kept_from_ordinary_sessions(rt: HostRuntime) -> Result<(), Fail> {
    let wanted = [
        Some(Ok(1)),
        Some(Err(GateNo::Reserved { count: 1 })),
        Some(Ok(1)),
        Some(Err(GateNo::TooMany { count: 2 })),
    ];
    assert_eq!(rt; told(rt.alloc(), RESERVED)?, wanted);
    Ok(())
}

#[test]
fn where_none_is_reserved_all_are_told_the_same(rt: HostRuntime) -> Result<(), Fail> {
    let full = Some(Err(GateNo::TooMany { count: 2 }));
    let wanted = [Some(Ok(1)), Some(Ok(1)), full, full];
    assert_eq!(rt; told(rt.alloc(), up_to(2))?, wanted);
    Ok(())
}
