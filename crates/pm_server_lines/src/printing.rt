//! Text for the sink.

ghost use Rattle.std.specs.Prelude.{◌≡◌, ◌++◌, IsErr, codes, decimal};
ghost use Rattle.pm_record.specs.{pm_disk.Cause.IsCounted, declared.fault.RedoFault.TheVariants.BadFile};
ghost use Rattle.pm_server_lines.specs.Print.{IsPrinted, file_letter, redo_line};

use itoa::Buffer;
use pm_disk::Which;
use pm_outside::{Put, Sink};
use pm_record::RedoFault;

/// The sink failed.
#[derive(Clone, Copy, Debug, PartialEq, Eq)]
pub struct SinkFailed;

/// Writes all the bytes, or a front of them until the sink fails.
pub fn print<O: Sink>(sink: &mut O, text: &[u8]) -> Result<(), SinkFailed>
    ensures said { IsPrinted text.now (IsErr result) (O.written sink.old) (O.written sink.new) }
    ensures cause { IsCounted (O.faults sink.old) (O.faults sink.new) (IsErr result) }
{
    let mut rest = text;
    while !rest.is_empty() {
        match sink.write(rest) {
            Put::Count(count) => rest = &rest[count..],
            Put::NotYet => unreachable!(),
            Put::Failed => return Err(SinkFailed),
        }
    }
    Ok(())
}

/// Writes a number in decimal digits.
pub fn print_number<O: Sink>(sink: &mut O, number: u64) -> Result<(), SinkFailed>
    ensures said { IsPrinted (decimal number) (IsErr result) (O.written sink.old)
        (O.written sink.new) }
    ensures cause { IsCounted (O.faults sink.old) (O.faults sink.new) (IsErr result) }
{
    print(sink, Buffer::new().format(number).as_bytes())
}

/// The letter of a file.
pub fn file_letter(file: Which) -> &'static [u8]
    ensures { result.now ≡ file_letter file }
{
    match file {
        Which::A => b"A",
        Which::B => b"B",
    }
}

/// Writes why the files can't be read.
pub fn print_redo<O: Sink>(sink: &mut O, fault: RedoFault) -> Result<(), SinkFailed>
    ensures said { IsPrinted (redo_line fault) (IsErr result) (O.written sink.old)
        (O.written sink.new) }
    ensures cause { IsCounted (O.faults sink.old) (O.faults sink.new) (IsErr result) }
{
    match fault {
        RedoFault::Disk => print(sink, b"disk fault\n"),
        RedoFault::NoCluster => print(sink, b"no readable cluster\n"),
        RedoFault::BadFile { file, at } => print_damage(sink, file, at),
        RedoFault::SameEpoch { epoch } => print_with(sink, b"two files of epoch ", epoch),
        RedoFault::NoMemory => print(sink, b"out of memory\n"),
    }
}

// Writes where a file is damaged.
fn print_damage<O: Sink>(sink: &mut O, file: Which, at: u64) -> Result<(), SinkFailed>
    ensures said { IsPrinted (redo_line (BadFile file at)) (IsErr result) (O.written sink.old)
        (O.written sink.new) }
    ensures cause { IsCounted (O.faults sink.old) (O.faults sink.new) (IsErr result) }
{
    print(sink, b"damaged file ")?;
    print(sink, file_letter(file))?;
    print_with(sink, b" at ", at)
}

/// Writes a number after some bytes, and ends the line.
pub fn print_with<O: Sink>(sink: &mut O, front: &[u8], number: u64) -> Result<(), SinkFailed>
    ensures said { IsPrinted (front.now ++ decimal number ++ codes "\n") (IsErr result)
        (O.written sink.old) (O.written sink.new) }
    ensures cause { IsCounted (O.faults sink.old) (O.faults sink.new) (IsErr result) }
{
    print(sink, front)?;
    print_number(sink, number)?;
    print(sink, b"\n")
}
