// Which ports may be listened on.
use crate::net::world::{accept, connect, open};
use pm_outside::{Accepted, Port};
use pm_outside_net::TcpPort;
use std::fs::File;
use std::sync::Arc;
use std::test::Fail;

#[test]
fn a_port_in_use_is_told_and_is_taken_again_behind_open_links(rt: HostRuntime) -> Result<(), Fail> {
    let alloc = rt.alloc();
    let mut world = open(rt, alloc)?;
    let number = world.port.number()?;
    let bells = Arc::try_clone(&world.bells)?;
    match TcpPort::new(rt, alloc, Arc::try_clone(&bells)?, number) {
        Ok(_) => panic!(rt; "two servers on port {number}"),
        Err(fault) => {
            let text = format!(in alloc; "{fault}")?;
            let want = format!(in alloc;
                "127.0.0.1:{number}: Address already in use (os error 98)"
            )?;
            assert_eq!(rt; text, want);
        }
    }
    let _client = connect(&rt, &world.port)?;
    let link = accept(&rt, &mut world.port)?;
    world.port.done(link); // this side closes first, so the connection lingers here
    drop(world);
    let Ok(mut port) = TcpPort::new(rt, alloc, bells, number) else {
        panic!(rt; "port {number} isn't free");
    };
    assert!(rt; matches!(port.accept(0), Accepted::NotYet));
    let _client = connect(&rt, &port)?;
    accept(&rt, &mut port)?;
    Ok(())
}

#[test]
fn the_first_fault_of_a_port_is_told(rt: HostRuntime) -> Result<(), Fail> {
    let alloc = rt.alloc();
    let world = open(rt, alloc)?;
    let number = world.port.number()?;
    let bells = Arc::try_clone(&world.bells)?;
    drop(world);
    let Ok(mut port) = TcpPort::new(rt, alloc, bells, number) else {
        panic!(rt; "port {number} isn't free");
    };
    assert!(rt; port.first_fault().is_none());
    // The listener is closed under the port, and then a file has its descriptor.
    libc::close(port.descriptor());
    assert!(rt; matches!(port.accept(0), Accepted::Failed));
    let _file = File::open(&rt, "/dev/null")?;
    assert!(rt; matches!(port.accept(0), Accepted::Failed));
    assert_eq!(rt; port.faults(), 2);
    let fault = port.first_fault().ok_or("nothing failed")?;
    let want = format!(in alloc; "127.0.0.1:{number}: accept: Bad file descriptor (os error 9)")?;
    assert_eq!(rt; format!(in alloc; "{fault}")?, want);
    Ok(())
}
