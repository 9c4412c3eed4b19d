// Whose turn it is: a server that answers nothing before it is asked, and a client that asks nothing before it is answered.
ghost use Rattle.std.specs.Prelude.{None};
ghost use Rattle.pm_outside.specs.MemLink.{link_faults, link_number};

use crate::bytes::*;
use crate::scripted::{Case, PLAIN, script_of, talk};
use pm_client::Played;
use pm_outside::{Cue, Got, Hold, Link, MemLink, MemSink, Put, Scene};
use std::test::Fail;

// A link that notes how many bytes had come in at each write.
#[derive(Drop)]
struct Noted {
    link: MemLink,
    came: usize,
    notes: Vec<usize>,
}

impl Link for Noted {
    // Its bytes aren't told.
    ghost traffic = { λ _. None };

    ghost number = { λ noted. link_number noted.link };

    ghost faults = { λ noted. link_faults noted.link };

    ghost patience = { λ _. 0 };

    fn read(&mut self, into: &mut [u8]) -> Got {
        let got = self.link.read(into);
        if let Got::Bytes(count) = got {
            self.came = self.came.saturating_add(count);
        }
        got
    }

    fn write(&mut self, from: &[u8]) -> Put {
        let _ = self.notes.push(self.came);
        self.link.write(from)
    }

    fn hurry(&mut self) {}

    fn faults(&self) -> u64 {
        self.link.faults()
    }
}

#[test]
fn each_side_waits_for_the_other(rt: HostRuntime) -> Result<(), Fail> {
    let alloc = rt.alloc();
    let case = Case {
        queries: SEVENS,
        incoming: "GREETING INSERTED SEVEN",
        ..PLAIN
    };
    let requests: [(&[u8], &[u8]); 3] = [
        (PACKET, GREETING),
        (INSERT_SEVEN, INSERTED),
        (SELECT_SEVEN, SEVEN),
    ];
    let mut holds = Vec::new(alloc);
    let mut wanted = Vec::new(alloc);
    let (mut asked, mut answered) = (0usize, 0usize);
    for (request, answer) in requests {
        wanted.push(answered)?;
        asked = asked.saturating_add(request.len());
        let cue = Cue::Sent {
            link: 1,
            bytes: asked as u64,
        };
        holds.push(Hold { at: answered, cue })?;
        answered = answered.saturating_add(answer.len());
    }
    wanted.push(answered)?;
    let script = script_of(alloc, &case, 4096, holds)?;
    let mut link = Noted {
        link: MemLink::new(alloc, 1, script, Some(Scene::new(alloc, 1)?)),
        came: 0,
        notes: Vec::new(alloc),
    };
    let mut out = MemSink::new(alloc, 4096, Vec::new(alloc));
    let end = talk(&rt, alloc, &mut link, SEVENS, &mut out).ok_or("no talk")?;
    assert_eq!(rt; end, Played::Done { link_ended: false });
    assert_eq!(rt; out.bytes(), b"INSERT 0 1\n7|seven\nSELECT 1\n".as_slice());
    assert_eq!(rt; link.notes, wanted);
    Ok(())
}
