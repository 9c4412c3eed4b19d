use super::*;

#[test]
fn a_connection_is_decided_on_by_the_first_line_that_fits(rt: HostRuntime) {
    use PmState::{
        Init, NoChildren, Run, Shutdown, Startup, StopBackends, WaitBackends, WaitDeadEnd,
    };
    // state, shutdown, fatal, conns, children, limit, answer
    let table = [
        (Startup, true, false, false, 0, 40, Cac::Shutdown),
        (Startup, true, true, false, 0, 40, Cac::Shutdown),
        (Startup, false, false, false, 0, 40, Cac::Startup),
        (Startup, false, true, false, 0, 40, Cac::Recovery),
        (Startup, false, false, false, 40, 40, Cac::Startup),
        (Init, false, false, false, 0, 40, Cac::Recovery),
        (Run, false, false, true, 0, 40, Cac::Ok),
        (Run, false, false, true, 39, 40, Cac::Ok),
        (Run, false, false, true, 40, 40, Cac::TooMany),
        (Run, false, false, true, 41, 40, Cac::TooMany),
        (Run, true, false, false, 3, 40, Cac::Shutdown),
        (Run, false, false, false, 40, 40, Cac::Shutdown),
        (StopBackends, true, false, false, 1, 40, Cac::Shutdown),
        (WaitBackends, true, true, false, 1, 40, Cac::Shutdown),
        (WaitBackends, false, true, true, 1, 40, Cac::Recovery),
        (Shutdown, true, false, false, 0, 40, Cac::Shutdown),
        (WaitDeadEnd, false, true, true, 0, 40, Cac::Recovery),
        (NoChildren, false, true, true, 0, 40, Cac::Recovery),
    ];
    for (state, shutdown, fatal, conns, children, limit, wanted) in table {
        let view = View {
            state,
            shutdown,
            fatal,
            conns,
            children,
            limit,
        };
        assert_eq!(rt; decide(&view), wanted, "{view:?}");
    }
}
