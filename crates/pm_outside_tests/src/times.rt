// What takes time: clocks, and a disk that is held.
use pm_disk::{Disk, MemDisk, Which};
use pm_outside::{Clock, Cue, Held, MemClock, Scene, Withheld};
use std::test::Fail;
use std::time::Instant;

#[test]
fn clocks_go_on_with_pauses_of_all_or_of_one_or_stand(rt: HostRuntime) -> Result<(), Fail> {
    let alloc = rt.alloc();
    // A clock, and its moments after two pauses of others and after one of its own.
    let clocks = [
        (MemClock::new(alloc, 5, rt)?, 7, 8),
        (MemClock::new(alloc, u64::MAX, rt)?, u64::MAX, u64::MAX),
        (MemClock::leading(alloc, 5, rt)?, 5, 6),
        (MemClock::still(5, rt), 5, 5),
    ];
    for (clock, behind_others, behind_own) in clocks {
        let other = clock.another(0)?;
        let third = other.another(0)?;
        other.pause();
        third.pause();
        assert_eq!(rt; [clock.now(), third.now()], [behind_others; 2]);
        clock.pause();
        assert_eq!(rt; [clock.now(), other.now(), third.now()], [behind_own; 3]);
    }
    Ok(())
}

#[test]
fn a_held_disk_waits_for_its_cue_at_one_call(rt: HostRuntime) -> Result<(), Fail> {
    let alloc = rt.alloc();
    let scene = Scene::new(alloc, 0)?;
    let shared = scene.another()?;
    let disk = MemDisk::new(alloc);
    let mut disk = Held::new(disk, Withheld::FirstWrite, Cue::Lines(1), shared, rt);
    let start = Instant::now(&rt)?;
    disk.write(Which::A, 0, b"abc")?;
    assert!(rt; start.elapsed(&rt)?.as_millis() >= 1000); // in vain
    let start = Instant::now(&rt)?;
    disk.write(Which::A, 0, b"x")?;
    let disk = disk.into_inner();
    assert_eq!(rt; disk.file(Which::A), b"xbc".as_slice());
    scene.note_line();
    let mut disk = Held::new(disk, Withheld::FirstRead, Cue::Lines(1), scene, rt);
    let mut into = [0; 3];
    assert_eq!(rt; disk.len(Which::A)?, 3);
    disk.read(Which::A, 0, &mut into)?;
    assert_eq!(rt; into, *b"xbc");
    assert_eq!(rt; disk.ticks(), 4);
    assert!(rt; start.elapsed(&rt)?.as_millis() < 1000);
    Ok(())
}
