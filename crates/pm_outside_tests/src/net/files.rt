// That the log's files are reached, each by its own name, that one program alone has them, and how a fault is told: one script.
// What takes a call that fails on request is looked at below the process (`.ci/files`).
use crate::net::world::{number, parted, said};
use pm_disk::{Disk, DiskFault, Which};
use pm_outside_files::LogFiles;
use std::alloc::Global;
use std::os::unix::fs::symlink;
use std::test::Fail;
use std::{fs, io, process};

/// What is done in a folder, which `folder` makes anew, and what is answered. `open` opens its files, on which the calls after
/// it are made, and `close` closes those that were opened first.
const SCRIPT: &str = "
# files keep what is written, each by its name
folder
open
len A -> Ok(0)
write B 0 b -> Ok(())
write A 0 commit -> Ok(())
write A 3 pare -> Ok(())
sync A -> Ok(())
len A -> Ok(7)
told -> nothing
read A 2 -> mpare
read A 3 -> DiskFault
calls -> 8, and 1 failed
told -> a.log: read: failed to fill whole buffer
text a.log -> compare
text b.log -> b
# one program alone has the files
folder
open
write A 0 first -> Ok(())
open
len A -> Err(DiskFault)
write A 0 other -> Err(DiskFault)
len B -> Ok(0)
calls -> 3, and 2 failed
close
read A 0 -> first
read A 1 -> DiskFault
told -> a.log: lock: another program works on this folder
# what is there and cannot be opened is a fault, until it is gone
folder
open
dir b.log
len B -> Err(DiskFault)
read B 0 -> DiskFault
write B 0 b -> Err(DiskFault)
sync B -> Err(DiskFault)
calls -> 4, and 4 failed
gone b.log
len B -> Ok(0)
# the first fault is told by its file and step
folder
open
link b.log /
write B 0 b -> Err(DiskFault)
read A 0 -> DiskFault
told -> b.log: open: Is a directory (os error 21)
folder
open
link b.log /dev/null/b.log
write B 0 b -> Err(DiskFault)
read A 0 -> DiskFault
told -> b.log: open: Not a directory (os error 20)
folder
open
link b.log /dev/full
write B 0 b -> Err(DiskFault)
read A 0 -> DiskFault
told -> b.log: settle: Invalid argument (os error 22)
folder
open
link b.log nowhere/b.log
write B 0 b -> Err(DiskFault)
read A 0 -> DiskFault
told -> b.log: open: File exists (os error 17)";

// What a call on the files answers.
fn answer(alloc: Global, disk: &mut LogFiles, call: &str) -> Result<String, Fail> {
    let (word, rest) = parted(call);
    let (file, rest) = parted(rest);
    let (at, text) = parted(rest);
    let which = if file == "B" { Which::B } else { Which::A };
    match word {
        "len" => said(alloc, disk.len(which)),
        "sync" => said(alloc, disk.sync(which)),
        "write" => said(alloc, disk.write(which, number(at)?, text.as_bytes())),
        "read" => read(alloc, disk, which, number(at)?),
        "calls" => Ok(format!(in alloc; "{}, and {} failed", disk.ticks(), disk.faults())?),
        _ => told(alloc, disk),
    }
}

// Five bytes of a file.
fn read(alloc: Global, disk: &mut LogFiles, which: Which, at: u64) -> Result<String, Fail> {
    let mut back = [0; 5];
    if disk.read(which, at, &mut back).is_err() {
        return said(alloc, DiskFault);
    }
    let text = str::from_utf8(&back).ok().ok_or("a text")?;
    Ok(String::from_str(alloc, text)?)
}

// The line of what failed first.
fn told(alloc: Global, disk: &LogFiles) -> Result<String, Fail> {
    match disk.first_fault() {
        Some(fault) => Ok(format!(in alloc; "{fault}")?),
        None => Ok(String::from_str(alloc, "nothing")?),
    }
}

// What is done in the folder: `link b.log /dev/full`.
fn prepare(rt: HostRuntime, folder: &str, line: &str) -> io::Result<()> {
    let (word, rest) = parted(line);
    let (name, behind) = parted(rest);
    let path = format!(in rt.alloc(); "{folder}/{name}")?;
    match word {
        "dir" => fs::create_dir(&rt, path.as_str()),
        "gone" => fs::remove_dir(&rt, path.as_str()),
        "link" => symlink(&rt, behind, path.as_str()),
        _ => Ok(()),
    }
}

// What a file of the folder holds.
fn text_of(rt: HostRuntime, folder: &str, name: &str) -> Result<String, Fail> {
    let path = format!(in rt.alloc(); "{folder}/{name}")?;
    Ok(fs::read_to_string(&rt, path.as_str())?)
}

// A new folder without files.
fn empty(rt: HostRuntime, folder: &str) -> io::Result<()> {
    fs::create_dir_all(&rt, folder)?;
    fs::remove_dir_all(&rt, folder)?;
    fs::create_dir(&rt, folder)
}

// A folder's name for this process.
fn folder_of(rt: HostRuntime) -> Result<String, Fail> {
    let temp = std::env::temp_dir(&rt)?;
    let (temp, id) = (temp.as_str(), process::id(rt.process()));
    Ok(format!(in rt.alloc(); "{temp}/pm_files_{id}")?)
}

#[test]
fn the_files_of_a_folder_answer_as_the_script_says(rt: HostRuntime) -> Result<(), Fail> {
    let alloc = rt.alloc();
    let folder = folder_of(rt)?;
    let folder = folder.as_str();
    let mut disks = Vec::new(alloc);
    for line in SCRIPT.lines() {
        if let Some((call, want)) = line.split_once(" -> ") {
            let told = match call.strip_prefix("text ") {
                Some(name) => text_of(rt, folder, name)?,
                None => answer(alloc, disks.last_mut().ok_or("a disk")?, call)?,
            };
            assert_eq!(rt; told.as_str(), want, "{call}");
        } else if line == "folder" {
            disks.clear();
            empty(rt, folder)?;
        } else if line == "open" {
            disks.push(LogFiles::of(rt, alloc, folder)?)?;
        } else if line == "close" && !disks.is_empty() {
            disks.remove(0);
        } else {
            prepare(rt, folder, line)?;
        }
    }
    fs::remove_dir_all(&rt, folder)?;
    Ok(())
}
