//! Replies in room that was taken ahead.

ghost use Rattle.std.specs.Prelude.{◌≤◌, ◌<◌, length};
ghost use Rattle.pm_wire.specs.{Outgoing.room, Longest.{IsGiven, longest_told}};

use pm_wire::{
    Back, Condition, Fixed, Outbox, back_messages_have_a_longest, conditions_can_be_told, fixed,
};
use std::test::*;

/// Appends a row.
#[tactic(auto, using(pm_wire::specs::Short::short_pair))]
fn put_row(out: &mut Outbox, key: i64, value: &str)
    requires short { length value.now < 1000 }
    requires room { 1100 ≤ room out.old }
{
    back_messages_have_a_longest();
    Back::Pair { key, value }.put(out);
}

/// Appends a condition.
fn put_told(out: &mut Outbox, condition: &Condition)
    requires given { IsGiven condition.now }
    requires room { longest_told condition.now ≤ room out.old }
{
    conditions_can_be_told();
    Back::Told(*condition).put(out);
}

#[test]
fn many_rows_go_through_one_room(rt: HostRuntime) -> Result<(), Fail> {
    let mut out = Outbox::with_capacity(rt.alloc(), 4096)?;
    let mut sent = 0usize;
    for key in 0..1000 {
        if out.room() < 1100 {
            sent = sent.saturating_add(out.len());
            out.clear();
        }
        assert!(rt; out.room() >= 1100);
        put_row(&mut out, key, "seven");
    }
    assert_eq!(rt; sent.saturating_add(out.len()), 22_890);
    assert_eq!(rt; out.room(), 4096usize.saturating_sub(out.len()));
    let last: &[u8] = b"D\0\0\0\x16\0\x02\0\0\0\x03999\0\0\0\x05seven";
    assert!(rt; out.as_slice().ends_with(last));
    Ok(())
}

#[test]
fn conditions_are_told_in_room(rt: HostRuntime) -> Result<(), Fail> {
    let mut out = Outbox::with_capacity(rt.alloc(), 140)?;
    assert!(rt; out.room() >= 140);
    put_told(&mut out, &Condition::Duplicate { key: i64::MIN });
    assert_eq!(rt; out.len(), 133);
    out.clear();
    assert!(rt; out.is_empty());
    assert!(rt; out.room() >= 140);
    put_told(&mut out, &Condition::Fixed(Fixed::LogFull));
    assert_eq!(rt; out.as_slice(), fixed(Fixed::LogFull));
    out.reserve(20_000)?;
    assert!(rt; out.room() >= 20_000);
    assert_eq!(rt; out.as_slice(), fixed(Fixed::LogFull));
    out.append(b"Z");
    assert_eq!(rt; out.len(), 52);
    Ok(())
}

#[test]
fn a_fresh_outbox_has_no_room(rt: HostRuntime) -> Result<(), Fail> {
    let mut out = Outbox::new(rt.alloc());
    assert_eq!(rt; out.room(), 0);
    out.reserve(140)?;
    assert!(rt; out.room() >= 140);
    put_told(&mut out, &Condition::Fixed(Fixed::ErrorMemory));
    assert_eq!(rt; out.len(), 42);
    Ok(())
}
