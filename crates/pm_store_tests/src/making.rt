//! A file that is made piece by piece, while commits are appended to the other one: one table.
ghost use Rattle.std.specs.Prelude.{◌≡◌, Ok, OnOk, None};
ghost use Rattle.pm_log.specs.{Making.{IsUnderWay, IsWhole}, declared.making.Stepped.TheVariants.Ready};

use crate::files::{file_of, number};
use crate::log::{Failing, append, disk_of, found_in};
use crate::script::{log_of, log_told, row_of, stops};
use pm_disk::{Disk, FailingDisk, Which};
use pm_log::{Log, LogFault, Making, Stepped};
use std::alloc::Global;
use std::process::Abort;
use std::test::Fail;

/// What stands in file A, and rows that are appended to it, a commit each, if any are; a word for each step, which may be a row that is appended after it, and which call of the disk
/// fails, if one does. Then what these steps come to, and one more, after which the log is switched where all is ready,
/// and the making given up where it isn't; how the log goes on, how many calls there were, and what stops in them leave,
/// from call to call. And what stands in file B, where that is said.
const MAKINGS: &str = r"
ROW | 8=eight - | 0 -> made to 47, made to 76, epoch 2; B end 76 behind 29 base 47 count 2; 13 calls; 1: 7=seven2: 7=seven 8=eight1: 7=seven2: 7=seven 8=eight | BASE 17=\0 ..47 \x01\0\0\0\x18\0\0\0\x01\0\x01\x01\0\0\0\0\0\0\0\x08\0\0\0\x05eight\0
ROW 30=\0 ; 1=a 2=b 3=c | 4=d - | 0 -> made to 69, made to 94, epoch 2; B end 94 behind 25 base 69 count 4; 13 calls; 3: 1=a 2=b 3=c4: 1=a 2=b 3=c 4=d3: 1=a 2=b 3=c4: 1=a 2=b 3=c 4=d | BASE 17=\0\0\0\0\0\0\0\0\x03\0\0\0\x03 ..30 \0\0\0\0\0\0\0\x01\0\0\0\x01a\0\0\0\0\0\0\0\x02\0\0\0\x01b\0\0\0\0\0\0\0\x03\0\0\0\x01c\x01\0\0\0\x14\0\0\0\x01\0\x01\x01\0\0\0\0\0\0\0\x04\0\0\0\x01d\0
ROW | - 8=eight - | 0 -> made to 47, ready, made to 76, epoch 2; B end 76 behind 29 base 47 count 2; 15 calls; 1: 7=seven2: 7=seven 8=eight1: 7=seven2: 7=seven 8=eight
MANY | - | 0 -> made to 60, epoch 4; B end 60 behind 0 base 60 count 8; 7 calls; 8: -5= 1=€uro
ROW | 8=eight | 0 -> made to 47, made to 76; A end 88 behind 58 base 30 count 2; 7 calls; 1: 7=seven2: 7=seven 8=eight1: 7=seven2: 7=seven 8=eight
ROW | 7=a 7=b 7=c 7=d - | 0 -> made to 47, made to 72, made to 97, made to 122, made to 147, epoch 2; B end 147 behind 100 base 47 count 5; 32 calls; 1: 7=seven2: 7=a1: 7=seven2: 7=a3: 7=b2: 7=a3: 7=b4: 7=c3: 7=b4: 7=c5: 7=d4: 7=c5: 7=d
ROW | 8=eight - | 1 -> disk fault, the commit log is broken since tick 9, the commit log is broken since tick 9; A end 59 behind 29 base 30 count 1; 1 calls; 1: 7=seven
ROW | - | 3 -> made to 47, disk fault; A end 59 behind 29 base 30 count 1; 3 calls; 1: 7=seven
ROW | - | 7 -> made to 47, disk fault; A end 59 behind 29 base 30 count 1; 7 calls; 1: 7=seven";

// One step, over files that are long enough for it.
fn step(
    rt: &impl Abort,
    disk: &mut Failing,
    log: &mut Log,
    making: &mut Making,
) -> Result<Stepped, LogFault>
    requires { IsUnderWay log.old making.old }
    ensures under_way { IsUnderWay log.new making.new }
    ensures whole { result ≡ Ok Ready → IsWhole log.new making.new }
{
    let next = log.file.other();
    assert!(rt; log.end as usize <= disk.inner().file(log.file).len());
    assert!(rt; making.done() as usize <= disk.inner().file(next).len());
    log.step(disk, making)
}

// What a step came to, and up to where the file is written then.
fn step_told(alloc: Global, stepped: Result<Stepped, LogFault>, done: u64) -> Result<String, Fail> {
    match stepped {
        Ok(Stepped::More) => Ok(format!(in alloc; "made to {done}")?),
        Ok(Stepped::Ready) => Ok(String::from_str(alloc, "ready")?),
        Err(fault) => Ok(format!(in alloc; "{fault}")?),
    }
}

// A step for each word, and what is appended after it.
fn pieces(
    rt: &impl Abort,
    alloc: Global,
    disk: &mut Failing,
    log: &mut Log,
    making: &mut Making,
    words: &str,
) -> Result<String, Fail>
    requires { IsUnderWay log.old making.old }
    ensures { OnOk result (IsUnderWay log.new making.new) }
{
    let mut told = String::new(alloc);
    for word in words.split_whitespace() {
        let stepped = step(rt, disk, log, making);
        told.push_str(step_told(alloc, stepped, making.done())?.as_str())?;
        told.push_str(", ")?;
        if word.contains("=") {
            append(rt, alloc, disk, log, &[row_of(alloc, word)?])?;
        }
    }
    Ok(told)
}

// One step more, and the switch where all is ready then; or else it is given up.
fn end(
    rt: &impl Abort,
    alloc: Global,
    disk: &mut Failing,
    log: &mut Log,
    mut making: Making,
) -> Result<String, Fail>
    requires { IsUnderWay log.old making }
{
    let stepped = step(rt, disk, log, &mut making);
    if stepped != Ok(Stepped::Ready) {
        let told = step_told(alloc, stepped, making.done())?;
        log.abandon(making);
        return Ok(told);
    }
    match log.switch(disk, making) {
        Ok(epoch) => Ok(format!(in alloc; "epoch {epoch}")?),
        Err(fault) => Ok(format!(in alloc; "{fault}")?),
    }
}

// Makes the other file of the rows that stand there.
fn made(
    rt: &impl Abort,
    alloc: Global,
    disk: &mut Failing,
    log: &mut Log,
    words: &str,
) -> Result<String, Fail>
    requires { log.old.making ≡ None }
{
    let found = found_in(alloc, disk)?;
    let mut making = log.begin(alloc, &found.rows)?;
    let mut told = pieces(rt, alloc, disk, log, &mut making, words)?;
    told.push_str(end(rt, alloc, disk, log, making)?.as_str())?;
    Ok(told)
}

// Does what is asked, and tells what it came to; the disk too.
fn done(rt: &impl Abort, alloc: Global, asked: &str) -> Result<(String, Failing), Fail> {
    let (a, rest) = asked.split_once(" | ").ok_or("file A")?;
    let (a, rows) = a.split_once(" ; ").unwrap_or((a, ""));
    let (words, fails) = rest.split_once(" | ").ok_or("words")?;
    let mut disk = FailingDisk::blip(disk_of(alloc, &file_of(alloc, a)?, b"\0")?, 0);
    let mut log = log_of(alloc, &mut disk)?;
    for word in rows.split_whitespace() {
        append(rt, alloc, &mut disk, &mut log, &[row_of(alloc, word)?])?;
    }
    let mut disk = FailingDisk::blip(disk.into_inner(), number(fails)? as u64);
    let first = disk.ticks();
    assert!(rt; log.making.is_none());
    let steps = made(rt, alloc, &mut disk, &mut log, words)?;
    let calls = disk.ticks().saturating_sub(first);
    let log = log_told(alloc, &log)?;
    let stops = stops(alloc, &disk, first)?;
    let told = format!(in alloc; "{steps}; {log}; {calls} calls; {stops}")?;
    Ok((told, disk))
}

#[test]
fn the_other_file_is_made_as_the_table_says(rt: HostRuntime) -> Result<(), Fail> {
    let alloc = rt.alloc();
    for line in MAKINGS.lines() {
        if let Some((asked, want)) = line.split_once(" -> ") {
            let (want, b) = want.split_once(" | ").unwrap_or((want, ""));
            let (told, disk) = done(&rt, alloc, asked)?;
            assert_eq!(rt; told.as_str(), want, "{asked}");
            if b != "" {
                assert_eq!(rt;
                    disk.inner().file(Which::B),
                    file_of(alloc, b)?.as_slice(),
                    "{asked}"
                );
            }
        }
    }
    Ok(())
}
