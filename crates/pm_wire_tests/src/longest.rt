//! The longest query and the longest packet.

use pm_startup::{Packet, Read, read};
use pm_wire::{Front, Take};
use std::test::*;

#[test]
fn the_longest_query_is_read(rt: HostRuntime) -> Result<(), Fail> {
    let mut message = b"Q\0\x01\0\x05".to_vec(rt.alloc())?;
    for _ in 0..65_536 {
        message.push(b';')?;
    }
    assert_eq!(rt; Front::read(&message), Take::Short { wanted: 65_542 });
    message.push(0)?;
    message.push(b'X')?;
    let used = 65_542;
    let text = message.get(5..65_541).ok_or("long enough")?;
    assert_eq!(rt; text.len(), 65_536);
    let value = Front::Query(text);
    assert_eq!(rt; Front::read(&message), Take::Whole { value, used });
    Ok(())
}

#[test]
fn the_longest_packet_is_read(rt: HostRuntime) {
    // `user`, `ann`, and `p` with a value of 9983 bytes.
    let front = b"\x00\x00\x27\x14\x00\x03\x00\x00user\x00ann\x00p\x00";
    let mut bytes = [b'v'; 10_004];
    bytes[..19].copy_from_slice(front);
    bytes[10_002] = 0;
    bytes[10_003] = 0;
    let whole = Read::Whole {
        packet: Packet::Start { user: b"ann" },
        used: 10_004,
    };
    assert_eq!(rt; read(&bytes), whole);
    assert_eq!(rt; read(&bytes[..10_003]), Read::Short);
}
