// What ends a link's waits and the pauses of a server's clocks, and what a client gets at the end: one script.
use crate::net::world::{
    CHILD, OTHER, RESTING, World, accept, connect, number, open, parted, said, since_ms, wait_ms,
};
use pm_outside::{Clock as _, Got, Link, Port, Put};
use pm_outside_net::{Bells, TcpLink};
use std::alloc::Global;
use std::io::{Read, Write};
use std::net::{Net, Shutdown, TcpStream};
use std::sync::Wait;
use std::test::Fail;
use std::thread::{self, Threads};
use std::time::{Clock, Instant};

/// What is done at a port, which `open` opens anew, and what it answers. Links and clients count from 0. From `start` on
/// `within` says how many milliseconds have passed. `called` does a thing while the link's child is called after so many
/// milliseconds, and `called_later` has a child that rests pause meanwhile. `now` shows the links the moment that it is. Where
/// the limit is 0 and none was shown, each read that waits in vain takes 100 ms.
const SCRIPT: &str = "
# bytes and the end come together
open
limit 0
link
read 0 -> NotYet
send 0 abc
shut 0
wait 20
read 0 -> Bytes(3)
read 0 -> End
write 0 bye -> Count(3)
faults 0 -> 0
done 0
take 0 -> 3
take 0 -> 0
# a call ends one read, but none from before the link, and it loses nothing that came beside it
open
limit 0
call
link
start
read 0 -> NotYet
read 0 -> NotYet
within 100..60000
send 0 abc
call
wait 20
read 0 -> NotYet
read 0 -> Bytes(3)
# the call of another child ends no wait
open
limit 0
call other
link
call other
start
read 0 -> NotYet
within 100..60000
# a client without a limit of time is waited for
open
link
start
called 400 read -> true
within 400..4000
# a write whose client takes nothing comes back by a call; once its child is to end, it waits for a second in all and fails
open
link
start
called 1500 fill -> true
within 1500..6000
faults 0 -> 0
hurry 0
start
fill 0 -> Failed
within 900..4000
now
hurry 0
start
fill 0 -> Failed
within 0..900
faults 0 -> 2
# last words arrive though bytes stand unread
open
link
send 0 *50000
wait 20
write 0 too long -> Count(8)
done 0
take 0 -> 8
take 0 -> 0
# a client that has gone leaves an end
open
come and go
wait 20
accept
read 0 -> End
done 0
come and go
wait 20
accept
read 0 -> End
done 0
come and go
wait 20
accept
read 0 -> End
done 0
port faults -> 0
# a client that isn't greeted in time leaves a read that answers not yet at its limit, and short ones after it, and no end
open
limit 500
now
link
start
wait 100
now
read 0 -> NotYet
within 350..5000
now
start
read 0 -> NotYet
within 100..5000
send 0 abc
wait 20
read 0 -> Bytes(3)
start
read 0 -> NotYet
within 100..5000
shut 0
wait 20
read 0 -> End
faults 0 -> 0
# its bytes change nothing of that, nor those that it was sent
open
limit 500
now
link
write 0 greeting -> Count(8)
send 0 abc
wait 20
read 0 -> Bytes(3)
start
read 0 -> NotYet
within 500..5000
# before its limit a client is waited for, and from a second after it on
open
limit 50000
now
link
start
called 400 read -> true
within 400..4000
open
limit 100
now
link
wait 1200
now
start
called 400 read -> true
within 400..4000
# a pause of the supervisor ends by a tick
open
start
pause
within 100..2000
# by a connection
come
start
pause
within 0..90
# by a child's end
child ring
start
pause
within 0..90
# by two rings, told once
door
child ring
start
pause
within 0..90
start
pause
within 100..60000
# its own call goes to a child
call
start
pause
within 100..60000
# a pause of a child ends by a call since the one before, and by none of another child
open
call
child
call other
start
20 child pause
within 200..60000
start
20 child called
within 0..100
# one that rests pauses for twice as long each time; a call ends its pause while it sleeps, and no sooner
open
resting child
start
7 child pause
within 1270..60000
start
called_later 300
within 300..1200
start
child pause
within 0..100
start
3 child pause
within 70..600
# its brief pauses stay brief
start
20 child pause briefly
within 20..600";

// Calls the child of this slot after so many milliseconds.
fn call_later(rt: &impl Clock, bells: &Bells, slot: u32, ms: u64) {
    wait_ms(rt, ms);
    bells.call(slot);
}

// Writes until a write takes nothing, and tells what that answers. 64 MB are more than the sockets take.
fn filled(link: &mut TcpLink) -> Put {
    let mut put = Put::NotYet;
    for _ in 0..65_536 {
        put = link.write(&[0; 1024]);
        if !matches!(put, Put::Count(_)) {
            break;
        }
    }
    put
}

// Whether a read, or the last write of many, answers that there is nothing yet.
fn waited_in_vain(link: &mut TcpLink, word: &str) -> bool {
    if word == "read" {
        return link.read(&mut [0; 8]) == Got::NotYet;
    }
    filled(link) == Put::NotYet
}

// What the first link does while its child is called: `400 read`.
fn called<R>(world: &mut World<R>, words: &str) -> Result<bool, Fail>
where
    R: Threads + Clock + Sync,
{
    let (ms, word) = words.split_once(' ').ok_or("what is done")?;
    let ms = number(ms)?;
    let (rt, bells) = (&world.rt, &world.bells);
    let link = world.links.first_mut().ok_or("a link")?;
    let (went, _) = thread::join(
        rt,
        || waited_in_vain(link, word),
        || call_later(rt, bells, CHILD, ms),
    );
    Ok(went)
}

// A child that rests pauses, and is called after so many milliseconds.
fn pause_called<R>(world: &World<R>, ms: u64)
where
    R: Threads + Wait + Clock + Copy + Drop + Sync,
{
    let (rt, bells, child) = (&world.rt, &world.bells, &world.child);
    thread::join(rt, || child.pause(), || call_later(rt, bells, RESTING, ms));
}

// What a link answers: `0 text`.
fn on_link<R>(
    alloc: Global,
    world: &mut World<R>,
    word: &str,
    words: &str,
) -> Result<String, Fail> {
    let (at, text) = parted(words);
    let link = world.links.get_mut(number(at)? as usize).ok_or("a link")?;
    match word {
        "read" => said(alloc, link.read(&mut [0; 8])),
        "faults" => said(alloc, link.faults()),
        "fill" => said(alloc, filled(link)),
        _ if text.is_empty() => Err(Fail::new("no text")),
        _ => said(alloc, link.write(text.as_bytes())),
    }
}

// The port takes the link of this number back.
fn done<R: Net + Drop>(world: &mut World<R>, at: &str) -> Result<(), Fail> {
    let at = number(at)? as usize;
    if at < world.links.len() {
        world.port.done(world.links.remove(at));
    }
    Ok(())
}

// The child that serves the link of this number is to end.
fn hurry<R>(world: &mut World<R>, at: &str) -> Result<(), Fail> {
    world
        .links
        .get_mut(number(at)? as usize)
        .ok_or("a link")?
        .hurry();
    Ok(())
}

// What a client does: `0 text`, or `0 *50` for fifty bytes.
fn on_client<R>(alloc: Global, world: &mut World<R>, word: &str, words: &str) -> Result<(), Fail> {
    let (at, text) = parted(words);
    let client = world
        .clients
        .get_mut(number(at)? as usize)
        .ok_or("a client")?;
    if word == "shut" {
        return Ok(client.shutdown(Shutdown::Write)?);
    }
    if let Some(count) = text.strip_prefix('*') {
        let bytes = vec![in alloc; 7; number(count)? as usize]?;
        return Ok(client.write_all(&bytes)?);
    }
    Ok(client.write_all(text.as_bytes())?)
}

// How many bytes a client takes.
fn taken<R>(world: &mut World<R>, at: &str) -> Result<usize, Fail> {
    let client = world
        .clients
        .get_mut(number(at)? as usize)
        .ok_or("a client")?;
    Ok(client.read(&mut [0; 16])?)
}

// What is done at the clocks.
fn on_clock<R>(world: &mut World<R>, line: &str) -> Result<(), Fail>
where
    R: Wait + Clock + Copy + Drop,
{
    match line {
        "now" => {
            world.clock.now();
        }
        "call" => world.clock.call(CHILD),
        "call other" => world.clock.call(OTHER),
        "pause" => world.clock.pause(),
        "child" => world.child = world.clock.another(CHILD)?,
        "resting child" => world.child = world.clock.another(RESTING)?,
        "child ring" => world.child.ring(),
        "child pause" => world.child.pause(),
        "child pause briefly" => world.child.pause_briefly(),
        "child called" => {
            world.clock.call(CHILD);
            world.child.pause();
        }
        "door" => world.bells.door.ring(),
        "start" => world.start = Instant::now(&world.rt)?,
        _ => return Err(Fail::new("what is done")),
    }
    Ok(())
}

// The same so many times.
fn repeated<R>(world: &mut World<R>, times: u64, line: &str) -> Result<(), Fail>
where
    R: Wait + Clock + Copy + Drop,
{
    for _ in 0..times {
        on_clock(world, line)?;
    }
    Ok(())
}

// The link of a client that stands in line.
fn taken_by_port<R: Net + Clock + Drop>(world: &mut World<R>) -> Result<(), Fail> {
    world.links.push(accept(&world.rt, &mut world.port)?)?;
    Ok(())
}

// A client comes to the port, and its link is taken, or it waits or goes.
fn come<R>(world: &mut World<R>, word: &str) -> Result<(), Fail>
where
    R: Net<Stream = TcpStream> + Clock + Drop,
{
    let client = connect(&world.rt, &world.port)?;
    if word == "come and go" {
        drop(client);
        return Ok(());
    }
    world.clients.push(client)?;
    if word == "link" {
        return taken_by_port(world);
    }
    Ok(())
}

// What a call answers.
fn answer<R>(alloc: Global, world: &mut World<R>, call: &str) -> Result<String, Fail>
where
    R: Net<Stream = TcpStream> + Threads + Clock + Drop + Sync,
{
    let (word, rest) = parted(call);
    match word {
        "called" => said(alloc, called(world, rest)?),
        "take" => said(alloc, taken(world, rest)?),
        "port" => said(alloc, world.port.faults()),
        _ => on_link(alloc, world, word, rest),
    }
}

// What is done at a port and at its clocks.
fn act<R>(alloc: Global, world: &mut World<R>, line: &str) -> Result<(), Fail>
where
    R: Net<Stream = TcpStream> + Threads + Wait + Clock + Copy + Drop + Sync,
{
    let (word, rest) = parted(line);
    match word {
        "link" | "come" => come(world, line),
        "done" => done(world, rest),
        "hurry" => hurry(world, rest),
        "send" | "shut" => on_client(alloc, world, word, rest),
        "accept" => taken_by_port(world),
        "limit" => Ok(world.port.limit_entry(number(rest)?)),
        "wait" => Ok(wait_ms(&world.rt, number(rest)?)),
        "3" | "7" | "20" => repeated(world, number(word)?, rest),
        "called_later" => Ok(pause_called(world, number(rest)?)),
        _ => on_clock(world, line),
    }
}

// Whether so many milliseconds have passed: `100..2000`.
fn is_within(passed: u64, words: &str) -> Result<bool, Fail> {
    let (least, most) = words.split_once("..").ok_or("two numbers")?;
    Ok((number(least)?..number(most)?).contains(&passed))
}

#[test]
fn a_port_with_its_clients_answers_as_the_script_says(rt: HostRuntime) -> Result<(), Fail> {
    let alloc = rt.alloc();
    let mut world = open(rt, alloc)?;
    for line in SCRIPT.lines() {
        if line == "open" {
            world = open(rt, alloc)?;
        } else if let Some((call, want)) = line.split_once(" -> ") {
            let told = answer(alloc, &mut world, call)?;
            assert_eq!(rt; told.as_str(), want, "{call}");
        } else if let Some(range) = line.strip_prefix("within ") {
            let passed = since_ms(&rt, world.start);
            assert!(rt; is_within(passed, range)?, "{passed} ms, {range}");
        } else if !line.starts_with('#') && !line.is_empty() {
            act(alloc, &mut world, line)?;
        }
    }
    Ok(())
}
