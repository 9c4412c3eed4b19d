use super::*;

#[test]
fn the_end_of_each_kind_of_child_has_its_class(rt: HostRuntime) {
    // kind, in_shutdown, was_active, status, class
    let table = [
        (Kind::Startup, false, true, Status::Code(0), Class::Normal),
        (
            Kind::Startup,
            true,
            false,
            Status::Code(1),
            Class::StartupFailed,
        ),
        (
            Kind::Startup,
            false,
            false,
            Status::Signal(9),
            Class::StartupFailed,
        ),
        (
            Kind::Checkpointer,
            true,
            false,
            Status::Code(0),
            Class::Normal,
        ),
        (
            Kind::Checkpointer,
            false,
            false,
            Status::Code(0),
            Class::Crash,
        ),
        (
            Kind::Checkpointer,
            true,
            false,
            Status::Signal(6),
            Class::Crash,
        ),
        (Kind::Writer, false, true, Status::Code(0), Class::Normal),
        (Kind::Writer, false, false, Status::Code(1), Class::Crash),
        (Kind::Writer, true, false, Status::Code(2), Class::Crash),
        (Kind::Backend, false, false, Status::Code(0), Class::Normal),
        (Kind::Backend, false, false, Status::Code(1), Class::Normal),
        (Kind::Backend, false, false, Status::Code(2), Class::Crash),
        (Kind::Backend, false, true, Status::Code(0), Class::Crash),
        (Kind::Backend, false, true, Status::Code(1), Class::Crash),
        (Kind::Backend, false, false, Status::Signal(9), Class::Crash),
        (Kind::Worker, true, false, Status::Code(1), Class::Normal),
        (Kind::Worker, true, true, Status::Code(1), Class::Crash),
        (Kind::DeadEnd, false, false, Status::Code(1), Class::Normal),
        (Kind::DeadEnd, false, false, Status::Signal(1), Class::Crash),
    ];
    for (kind, in_shutdown, was_active, status, wanted) in table {
        let found = class(kind, in_shutdown, was_active, status);
        assert_eq!(rt;
            found,
            wanted,
            "{kind:?} {status:?}, in_shutdown {in_shutdown}, was_active {was_active}"
        );
    }
}
