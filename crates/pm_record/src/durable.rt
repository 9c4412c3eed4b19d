//! A write that stays.

ghost use Rattle.std.specs.Prelude.{◌≤◌, ◌≡◌, length, IfSome, IsErr, OnOk, OnErr, option_map};
ghost use Rattle.pm_disk.specs.{Cause.IsCounted, Disk.{Only, TellsStill, Torn}, Files.{file_of, overwritten, with_file}};
ghost use Rattle.pm_record.specs.OnDisk.{FollowsWithin, GoesOn};

use pm_disk::{Disk, DiskFault, Which};

/// Writes over what stands at a place of a file, and makes the file durable. Where that fails a part may be written, and
/// whatever a stop leaves meanwhile is the file up to the bytes of the write and those past its end.
pub fn write_durably<D: Disk>(
    disk: &mut D,
    file: Which,
    at: u64,
    bytes: &[u8],
) -> Result<(), DiskFault>
    requires { IfSome (D.seen disk.old) (λ files. at ≤ length (file_of files file)) }
    ensures written { OnOk result (D.seen disk.new ≡ option_map (λ files.
        with_file files file (overwritten (file_of files file) at bytes.now)) (D.seen disk.old)) }
    ensures durable { OnOk result (IfSome (D.seen disk.new) (λ files.
        Only file (file_of files file) (D.images disk.new (D.ticks disk.new)))) }
    ensures torn { OnErr result (TellsStill (Torn file at (length bytes.now)) (D.seen disk.old)
        (D.seen disk.new)) }
    ensures stops { FollowsWithin (Torn file at (length bytes.now))
        (D.ticks disk.old) (D.ticks disk.new) (D.images disk.old) (D.images disk.new) }
    ensures time { GoesOn (D.ticks disk.old) (D.ticks disk.new) (D.images disk.old)
        (D.images disk.new) }
    ensures cause { IsCounted (D.faults disk.old) (D.faults disk.new) (IsErr result) }
{
    disk.write(file, at, bytes)?;
    disk.sync(file)?;
    Ok(())
}
