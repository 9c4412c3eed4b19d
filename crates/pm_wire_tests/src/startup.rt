//! The steps of a connection before its session.

use pm_startup::{Packet, Phase, StartFault, Step, next};
use std::test::*;

#[test]
fn encryption_is_refused_once_for_each_kind(rt: HostRuntime) {
    let none = Phase::default();
    let ssl = Phase {
        ssl_used: true,
        gss_used: false,
    };
    let both = Phase {
        ssl_used: true,
        gss_used: true,
    };
    let steps = [
        (none, Packet::Ssl, Step::SayNo(ssl)),
        (ssl, Packet::Gss, Step::SayNo(both)),
        (
            ssl,
            Packet::Ssl,
            Step::Refuse(StartFault::Version {
                major: 1234,
                minor: 5679,
            }),
        ),
        (
            both,
            Packet::Gss,
            Step::Refuse(StartFault::Version {
                major: 1234,
                minor: 5680,
            }),
        ),
        (both, Packet::Start { user: b"ann" }, Step::Start),
        (both, Packet::Cancel { pid: 4, key: 1 }, Step::Cancel),
    ];
    for (phase, packet, step) in steps {
        assert_eq!(rt; next(phase, &packet), step);
    }
}
