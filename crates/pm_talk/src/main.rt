//! The program `pgtalk`: sends each line of its standard input to a server as a query, and prints the answers.
#![tactic(auto)]

mod fault;
mod input;
mod words;

use crate::fault::Fault;
use crate::input::{read_input, texts_of};
use crate::words::read_words;
use pm_client::{Means, Played, play};
use pm_outside_streams::{StandardLink, StandardSink, SystemClock, fill_standard_streams};
use std::env;
use std::io::ErrorKind;
use std::net::{Net, TcpStream};
use std::process::ExitCode;
use std::sync::Wait;
use std::time::Clock;

fn main(rt: HostRuntime) -> ExitCode {
    match talk(rt, &rt) {
        Ok(()) => ExitCode::SUCCESS,
        Err(fault) => {
            let _ = eprintln!(rt; "{fault}");
            ExitCode::from(fault.code())
        }
    }
}

// Talks with the server that the words name, up to the end of the input.
fn talk<R>(rt: HostRuntime, wait: &R) -> Result<(), Fault>
where
    R: Wait + Net<Stream = TcpStream> + Clock + Copy + Drop,
{
    fill_standard_streams(&rt).map_err(Fault::Start)?;
    let words = given_words(&rt)?;
    let asked = read_words(rt.alloc(), &words)?;
    let input = read_input(&rt)?;
    let texts = texts_of(rt.alloc(), input.as_str())?;
    let stream = connect(wait, asked.port)?;
    let clock = SystemClock::new(*wait).map_err(Fault::Start)?;
    let means = Means {
        rt: wait,
        alloc: rt.alloc(),
        clock: &clock,
    };
    let mut link = StandardLink::new(&stream, &stream);
    let mut out = StandardSink::new(rt.stdout(), "standard output");
    match play(&means, &mut link, asked.user, &texts, &mut out) {
        Played::Done { link_ended: false } => Ok(()),
        Played::Done { link_ended: true } => Err(Fault::LinkEnded),
        Played::LinkFault => Err(Fault::Link),
        Played::OutFault => Err(Fault::Out),
        Played::BadReply(_) => Err(Fault::Reply),
        Played::NoMemory => Err(Fault::NoMemory),
    }
}

// The words, with the program's name. Where one isn't UTF-8, they are no command line.
fn given_words(rt: &HostRuntime) -> Result<Vec<String>, Fault> {
    match env::args(rt) {
        Ok(words) => Ok(words.collect(rt.alloc())?),
        Err(error) if error.kind() == ErrorKind::OutOfMemory => Err(Fault::NoMemory),
        Err(_) => Err(Fault::Usage),
    }
}

// A connection to this port of 127.0.0.1.
fn connect<N: Net<Stream = TcpStream>>(net: &N, port: u16) -> Result<TcpStream, Fault> {
    match TcpStream::connect(net, ("127.0.0.1", port)) {
        Ok(stream) => {
            let _ = stream.set_nodelay(true);
            Ok(stream)
        }
        Err(reason) => Err(Fault::Refused { port, reason }),
    }
}
