//! The lines of the standard input.
ghost use Rattle.std.specs.Prelude.{All, IfOk};
ghost use Rattle.pm_wire_front.specs.Requests.{IsSayable};

use crate::fault::Fault;
use pm_rows::Text;
use pm_wire_front::can_say;
use std::alloc::Global;
use std::io::{self, ErrorKind};

/// All of the standard input, as text.
pub fn read_input(rt: &HostRuntime) -> Result<String, Fault> {
    match io::read_to_string(rt.alloc(), rt.stdin()) {
        Ok(input) => Ok(input),
        Err(error) if error.kind() == ErrorKind::OutOfMemory => Err(Fault::NoMemory),
        Err(error) => Err(Fault::Input(error)),
    }
}

/// The lines of a text. Each can be sent as a query.
pub fn texts_of(alloc: Global, input: &str) -> Result<Vec<Text>, Fault>
    ensures { IfOk result (λ texts. All IsSayable texts.items) }
{
    let mut texts = Vec::new(alloc);
    for line in input.lines() {
        if !can_say(line) {
            return Err(Fault::Line(texts.len() + 1));
        }
        let text = Text::of(alloc, line)?;
        if texts.push(text).is_err() {
            return Err(Fault::NoMemory);
        }
    }
    Ok(texts)
}
