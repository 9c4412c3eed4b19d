// That the adapters of a program's streams and clock reach what they stand for.
use pm_outside::{Accepted, Clock, Got, Link, Port, Put, Sink};
use pm_outside_streams::{StandardPort, StandardSink, SystemClock};
use std::test::Fail;

#[test]
fn the_port_gives_its_link_once(rt: HostRuntime) -> Result<(), Fail> {
    let mut sent = [0; 2];
    let mut port = StandardPort::new(b"hi".as_slice(), sent.as_mut_slice());
    let Accepted::Link(mut link) = port.accept(0) else {
        return Err(Fail::new("no link"));
    };
    let mut into = [0; 4];
    assert_eq!(rt; link.read(&mut into), Got::Bytes(2));
    assert_eq!(rt; into, *b"hi\0\0");
    assert_eq!(rt; link.read(&mut into), Got::End);
    assert_eq!(rt; link.write(b"you"), Put::Count(2));
    assert_eq!(rt; link.write(b"u"), Put::Failed);
    assert_eq!(rt; link.faults(), 1);
    port.done(link);
    assert!(rt; matches!(port.accept(0), Accepted::End));
    assert_eq!(rt; port.faults(), 0);
    assert_eq!(rt; sent, *b"yo");
    Ok(())
}

#[test]
fn the_sink_writes_until_its_writer_is_full(rt: HostRuntime) -> Result<(), Fail> {
    let mut line = [0; 3];
    let mut sink = StandardSink::new(line.as_mut_slice(), "standard error");
    assert_eq!(rt; sink.write(b"down"), Put::Count(3));
    assert!(rt; sink.first_fault().is_none());
    assert_eq!(rt; sink.write(b"n"), Put::Failed);
    assert_eq!(rt; sink.faults(), 1);
    let fault = sink.first_fault().ok_or("nothing failed")?;
    assert_eq!(rt;
        format!(in rt.alloc(); "{fault}")?.as_str(),
        "standard error: write: write zero"
    );
    drop(sink);
    assert_eq!(rt; line, *b"dow");
    Ok(())
}

#[test]
fn the_clock_goes_on_while_it_pauses(rt: HostRuntime) -> Result<(), Fail> {
    let clock = SystemClock::new(rt)?;
    let before = clock.now();
    for _ in 0..3 {
        clock.pause();
    }
    let after = clock.now();
    assert!(rt; before < after);
    assert!(rt; after <= clock.another(0)?.now());
    Ok(())
}
