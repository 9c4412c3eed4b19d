// What the forms in memory wait for, on a scene that they share: one script.
use crate::disks::{number, parted};
use pm_outside::{
    Accepted, Console, Cue, Hold, Link, LinkScript, MemConsole, MemLink, MemPort, Port, Scene,
    ScriptLine,
};
use std::alloc::{AllocError, Global};
use std::fmt::Debug;
use std::process::Abort;
use std::test::Fail;

/// Calls on the forms of a scene each, and what each answers.
const SCENES: [&str; 2] = [
    "
# a port, a link and a console wait for what the first link was sent, and then the port for a line
accept -> Link
accept -> Failed
accept -> Link
accept -> NotYet
read 2 -> Bytes(4)
read 2 -> NotYet
next -> Line(0)
next -> Failed
next -> Line(64)
next -> NotYet
write 1 ab -> Count(2)
read 2 -> NotYet
accept -> NotYet
next -> NotYet
write 1 c -> Count(1)
read 2 -> Bytes(7)
read 2 -> Bytes(7)
read 2 -> End
accept -> Link
accept -> NotYet
next -> Line(4)
next -> End
accept -> End
# some calls of the third link fail
read 3 -> Failed
read 3 -> Bytes(7)
read 3 -> Failed
read 3 -> Bytes(7)
read 3 -> Bytes(4)
read 3 -> End
write 3 abc -> Count(3)
write 3 abc -> Failed
write 3 abc -> Count(3)",
    "
# a link ends that waits in vain, and a console gives no line any more
accept -> Link
accept -> Failed
accept -> Link
read 2 -> Bytes(4)
10000 read 2 -> NotYet
read 2 -> End
next -> Line(0)
next -> Failed
next -> Line(64)
10000 next -> NotYet
write 1 abc -> Count(3)
read 2 -> End
next -> NotYet",
];

/// A startup packet with `user` and `ann`.
const PACKET: &[u8] = b"\0\0\0\x12\0\x03\0\0user\0ann\0\0";

/// Three bytes were sent on the first link.
const SENT: Cue = Cue::Sent { link: 1, bytes: 3 };

/// The holds of each link, its reads that fail, and its writes.
const LINKS: [(&[Hold], &[u64], &[u64]); 3] = [
    (&[], &[], &[]),
    (&[Hold { at: 4, cue: SENT }], &[], &[]),
    (&[], &[3, 1], &[2]),
];

/// The lines of the console.
const LINES: [(&[u8], Option<Cue>); 3] = [(b"", None), (&[b'x'; 70], None), (b"fast", Some(SENT))];

/// What the port's third link and its end wait for.
const DOOR: [Hold; 2] = [
    Hold { at: 2, cue: SENT },
    Hold {
        at: 3,
        cue: Cue::Lines(3),
    },
];

// Forms on one scene, and the links that the port has given.
#[derive(Drop)]
struct Stage {
    port: MemPort,
    links: Vec<MemLink>,
    console: MemConsole,
}

fn scripts_of(alloc: Global) -> Result<Vec<LinkScript>, AllocError> {
    let mut scripts = Vec::new(alloc);
    for (holds, failing_reads, failing_writes) in LINKS {
        scripts.push(LinkScript {
            incoming: PACKET.to_vec(alloc)?,
            per_call: 7,
            failing_reads: failing_reads.to_vec(alloc)?,
            failing_writes: failing_writes.to_vec(alloc)?,
            holds: holds.to_vec(alloc)?,
        })?;
    }
    Ok(scripts)
}

// The second call of the port fails, and so does that of the console.
fn stage_of(alloc: Global) -> Result<Stage, AllocError> {
    let scene = Scene::new(alloc, 2)?;
    let mut lines = Vec::new(alloc);
    for (text, behind) in LINES {
        let text = text.to_vec(alloc)?;
        lines.push(ScriptLine { text, behind })?;
    }
    let failing = vec![in alloc; 2]?;
    let console = MemConsole::new(lines, failing, Some(scene.another()?));
    let holds = DOOR.to_vec(alloc)?;
    let failing = vec![in alloc; 2]?;
    Ok(Stage {
        port: MemPort::held(alloc, Some(scene), scripts_of(alloc)?, holds, failing),
        links: Vec::new(alloc),
        console,
    })
}

fn said(alloc: Global, answer: impl Debug + Drop) -> Result<String, Fail> {
    Ok(format!(in alloc; "{answer:?}")?)
}

// What the port answers.
fn accepted(alloc: Global, stage: &mut Stage) -> Result<String, Fail> {
    let word = match stage.port.accept(0) {
        Accepted::Link(link) => {
            stage.links.push(link)?;
            "Link"
        }
        Accepted::NotYet => "NotYet",
        Accepted::End => "End",
        Accepted::Failed => "Failed",
    };
    Ok(String::from_str(alloc, word)?)
}

// What a link answers to a read, or to a write of a text: `2 text`.
fn on_link(alloc: Global, stage: &mut Stage, words: &str) -> Result<String, Fail> {
    let (place, text) = parted(words);
    let wanted = number(place)?;
    let mut links = stage.links.iter_mut();
    let link = links.find(|link| link.number() == wanted).ok_or("a link")?;
    if text.is_empty() {
        return said(alloc, link.read(&mut [0; 10]));
    }
    said(alloc, link.write(text.as_bytes()))
}

// What a call answers.
fn answer(alloc: Global, stage: &mut Stage, call: &str) -> Result<String, Fail> {
    let (word, rest) = parted(call);
    match word {
        "accept" => accepted(alloc, stage),
        "next" => said(alloc, stage.console.next(&mut [0; 64])),
        _ => on_link(alloc, stage, rest),
    }
}

// A call may be made many times, and answers the same each time.
fn check(
    rt: &impl Abort,
    alloc: Global,
    stage: &mut Stage,
    call: &str,
    want: &str,
) -> Result<(), Fail> {
    let (times, call) = match call.strip_prefix("10000 ") {
        Some(call) => (10_000, call),
        None => (1, call),
    };
    for _ in 0..times {
        let told = answer(alloc, stage, call)?;
        assert_eq!(rt; told.as_str(), want, "{call}");
    }
    Ok(())
}

// Goes through the lines of a scene.
fn play(rt: &impl Abort, alloc: Global, lines: &str) -> Result<(), Fail> {
    let mut stage = stage_of(alloc)?;
    for line in lines.lines() {
        if let Some((call, want)) = line.split_once(" -> ") {
            check(rt, alloc, &mut stage, call, want)?;
        }
    }
    Ok(())
}

#[test]
fn forms_wait_as_the_script_says(rt: HostRuntime) -> Result<(), Fail> {
    let alloc = rt.alloc();
    for scene in SCENES {
        play(&rt, alloc, scene)?;
    }
    Ok(())
}
