// What the disks in memory answer, and what a stop leaves of them: one script.
use pm_disk::{Disk, FailingDisk, MemDisk, Which};
use std::alloc::Global;
use std::process::Abort;
use std::test::Fail;

/// Calls on two files. `blip` and `fuse` make a new disk, some of whose calls fail. A call answers whether it was done, how
/// many calls there were, how many of them failed and how many reached the disk within, and how file A reads. `stop` answers
/// how file A reads once the disk has stopped after so many ticks, with at most so many bytes past its length at the last sync,
/// and with these bytes over and over where nothing is durable, or zeros.
const SCRIPT: &str = "
# a write overlaps and grows the file
blip 0
write 0 abc -> done, 1 0 1 [abc]
write 1 X -> done, 2 0 2 [aXc]
write 2 YZ! -> done, 3 0 3 [aXYZ!]
write 5 ? -> done, 4 0 4 [aXYZ!?]
write 3 -> done, 5 0 5 [aXYZ!?]
write 0 012345678 -> done, 6 0 6 [012345678]
# one call fails and only that
blip 0
write 0 7 -> done, 1 0 1 [7]
sync A -> done, 2 0 2 [7]
len -> done, 3 0 3 [7]
blip 1
write 0 7 -> failed, 1 1 0 []
sync A -> done, 2 1 1 []
len -> done, 3 1 2 []
blip 2
write 0 7 -> done, 1 0 1 [7]
sync A -> failed, 2 1 1 [7]
len -> done, 3 1 2 [7]
blip 3
write 0 7 -> done, 1 0 1 [7]
sync A -> done, 2 0 2 [7]
len -> failed, 3 1 2 [7]
blip 4
write 0 7 -> done, 1 0 1 [7]
sync A -> done, 2 0 2 [7]
len -> done, 3 0 3 [7]
# all calls fail behind the last
fuse 0
write 0 7 -> failed, 1 1 0 []
sync A -> failed, 2 2 0 []
len -> failed, 3 3 0 []
fuse 1
write 0 7 -> done, 1 0 1 [7]
sync A -> failed, 2 1 1 [7]
len -> failed, 3 2 1 [7]
fuse 2
write 0 7 -> done, 1 0 1 [7]
sync A -> done, 2 0 2 [7]
len -> failed, 3 1 2 [7]
fuse 3
write 0 7 -> done, 1 0 1 [7]
sync A -> done, 2 0 2 [7]
len -> done, 3 0 3 [7]
# a stop leaves what was synced
blip 0
write 0 abcd -> done, 1 0 1 [abcd]
sync A -> done, 2 0 2 [abcd]
len -> done, 3 0 3 [abcd]
write 1 XY -> done, 4 0 4 [aXYd]
len -> done, 5 0 5 [aXYd]
write 3 Z!? -> done, 6 0 6 [aXYZ!?]
sync B -> done, 7 0 7 [aXYZ!?]
sync A -> done, 8 0 8 [aXYZ!?]
stop 0 all - -> []
stop 1 all -+ -> [-+-+]
stop 1 all -> [\0\0\0\0]
stop 1 0 -> []
stop 1 3 -+ -> [-+-]
stop 2 all - -> [abcd]
stop 2 0 - -> [abcd]
stop 3 all - -> [abcd]
stop 4 all -+ -> [a-+d]
stop 6 all -+ -> [a-+-+-]
stop 6 1 -+ -> [a-+-+]
stop 6 0 -+ -> [a-+-]
stop 7 all -> [a\0\0\0\0\0]
stop 8 0 - -> [aXYZ!?]";

/// A line's first word, and what comes after it.
pub fn parted(line: &str) -> (&str, &str) {
    line.split_once(' ').unwrap_or((line, ""))
}

pub fn number(word: &str) -> Result<u64, Fail> {
    Ok(word.parse::<u64>().ok().ok_or("a number")?)
}

// How file A reads, in brackets, after a word.
fn shown(alloc: Global, word: &str, disk: &MemDisk) -> Result<String, Fail> {
    let text = str::from_utf8(disk.file(Which::A)).ok().ok_or("a text")?;
    Ok(format!(in alloc; "{word}[{text}]")?)
}

// How file A reads after a stop.
fn stopped(alloc: Global, disk: &MemDisk, tick: u64, words: &str) -> Result<String, Fail> {
    let (beyond, fill) = parted(words);
    let beyond = beyond.parse::<u64>().unwrap_or(u64::MAX);
    let left = disk.after_stop(tick, fill.as_bytes(), beyond)?;
    shown(alloc, "", &left)
}

// What a call answers: a word, and two numbers or a text after some of them.
fn answer(
    rt: &impl Abort,
    alloc: Global,
    disk: &mut FailingDisk<MemDisk>,
    call: &str,
) -> Result<String, Fail> {
    let (word, rest) = parted(call);
    let (place, text) = parted(rest);
    let failed = match word {
        "write" => {
            let at = number(place)?;
            assert!(rt; (at as usize) <= disk.inner().file(Which::A).len());
            disk.write(Which::A, at, text.as_bytes()).is_err()
        }
        "sync" => {
            let file = if place == "B" { Which::B } else { Which::A };
            disk.sync(file).is_err()
        }
        "len" => disk.len(Which::A).is_err(),
        _ => return stopped(alloc, disk.inner(), number(place)?, text),
    };
    let word = if failed { "failed" } else { "done" };
    let (calls, faults, within) = (disk.ticks(), disk.faults(), disk.inner().ticks());
    let numbers = format!(in alloc; "{word}, {calls} {faults} {within} ")?;
    shown(alloc, numbers.as_str(), disk.inner())
}

#[test]
fn disks_answer_as_the_script_says(rt: HostRuntime) -> Result<(), Fail> {
    let alloc = rt.alloc();
    let mut disk = FailingDisk::blip(MemDisk::new(alloc), 0);
    for line in SCRIPT.lines() {
        if let Some(at) = line.strip_prefix("blip ") {
            disk = FailingDisk::blip(MemDisk::new(alloc), number(at)?);
        } else if let Some(passes) = line.strip_prefix("fuse ") {
            disk = FailingDisk::fuse(MemDisk::new(alloc), number(passes)?);
        } else if let Some((call, want)) = line.split_once(" -> ") {
            let told = answer(&rt, alloc, &mut disk, call)?;
            assert_eq!(rt; told.as_str(), want, "{call}");
        }
    }
    Ok(())
}
