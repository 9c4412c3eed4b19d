//! Which connection becomes a session, and how many are refused at one time.

use crate::runs::limits;
use pm_admit::{PmState, View};
use pm_state::PmCore;

pub const SCENES: &str = "
CROWD
3 connect
4 connect
5 connect
6 connect
7 connect
8 connect
    Accepted { pid: 5, decision: Ok }
    Accepted { pid: 6, decision: TooMany }
    Accepted { pid: 7, decision: TooMany }
    Accepted { pid: 8, decision: TooMany }
    Accepted { pid: 9, decision: TooMany }";

pub const RUNS: &str = "
twice the connections are taken, and four refused | on | START REDO_ENDS ONE_SESSION CROWD";

#[test]
fn a_new_machine_takes_no_connection(rt: HostRuntime) {
    let core = PmCore::new(limits(3, true));
    assert!(rt; !core.may_accept());
    let wanted = View {
        state: PmState::Init,
        shutdown: false,
        fatal: false,
        conns: false,
        children: 0,
        limit: 6,
    };
    assert_eq!(rt; core.view(), wanted);
}
