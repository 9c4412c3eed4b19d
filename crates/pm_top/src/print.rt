//! What `controldata` prints.

ghost use Rattle.std.specs.Prelude.{◌≡◌, IsErr, codes};
ghost use Rattle.pm_server_lines.specs.{pm_disk.Cause.IsCounted, Print.{IsPrinted, file_letter}};
ghost use Rattle.pm_top.specs.Control.{control_lines, told_line, yes_or_no};

use pm_disk::Which;
use pm_outside::Sink;
use pm_record::Found;
use pm_server_lines::{SinkFailed, print, print_with};

/// Writes what was found in the files, a line for each.
pub fn print_found<O: Sink>(sink: &mut O, found: &Found) -> Result<(), SinkFailed>
    ensures said { IsPrinted (control_lines found.now) (IsErr result) (O.written sink.old)
        (O.written sink.new) }
    ensures cause { IsCounted (O.faults sink.old) (O.faults sink.new) (IsErr result) }
{
    print(sink, file_line(found.file))?;
    print_with(sink, b"epoch: ", found.epoch)?;
    print(sink, clean_line(found.clean))?;
    print_with(sink, b"commits: ", found.count)?;
    print_with(sink, b"rows: ", found.rows.len() as u64)?;
    print_with(sink, b"batches: ", found.batches)
}

// The line of the file that counts.
fn file_line(file: Which) -> &'static [u8]
    ensures { result.now ≡ told_line (codes "file: ") (file_letter file) }
{
    match file {
        Which::A => b"file: A\n",
        Which::B => b"file: B\n",
    }
}

// The line that says whether the log is clean.
fn clean_line(clean: bool) -> &'static [u8]
    ensures { result.now ≡ told_line (codes "clean: ") (yes_or_no clean) }
{
    if clean {
        b"clean: yes\n"
    } else {
        b"clean: no\n"
    }
}
