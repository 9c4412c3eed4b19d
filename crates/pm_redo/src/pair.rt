//! What two files stand for together.

ghost use Rattle.std.specs.Prelude.{◌≡◌, ◌≢◌, ◌⊎◌, ℕ, [], IfOk, IfErr, IsTrue, false};
ghost use Rattle.pm_record.specs.{StandsFor.{Content, StandsFor}, Damage.IsFirstWrong, Found.{Holds, IsClosed, IsOf, MeansNothing}};
ghost use Rattle.pm_redo.specs.Found.{Finds, FindsOnly, IsReason};

use pm_disk::Which;
use pm_record::{CLOSED, Contents, FileFault, Found, RedoFault, read_file};
use std::alloc::Global;

/// What two files stand for, and whether both are open.
pub fn pair_in(alloc: Global, a: &[u8], b: &[u8]) -> Result<(Found, bool), RedoFault>
    ensures found { IfOk result (λ x. Finds x.0 x.1 (record { a = a.now; b = b.now })) }
    ensures exact { IfOk result (λ x. FindsOnly x.0 (record { a = a.now; b = b.now })) }
    ensures reason { IfErr result (λ fault. IsReason fault (record { a = a.now; b = b.now })) }
    ensures disk { result ≢ Err RedoFault.Disk }
{
    if is_missing(a, b) {
        return Err(RedoFault::BadFile {
            file: Which::A,
            at: 0,
        });
    }
    let in_a = contents_of(alloc, Which::A, a)?;
    if is_missing(b, a) {
        return Err(RedoFault::BadFile {
            file: Which::B,
            at: 0,
        });
    }
    let in_b = contents_of(alloc, Which::B, b)?;
    match (in_a, in_b) {
        (Contents::Closed, Contents::Closed) => Err(RedoFault::NoCluster),
        (Contents::Standing(found), Contents::Closed) => Ok((found, false)),
        (Contents::Closed, Contents::Standing(found)) => Ok((found, false)),
        (Contents::Standing(one), Contents::Standing(two)) => {
            if one.epoch == two.epoch {
                return Err(RedoFault::SameEpoch { epoch: one.epoch });
            }
            if one.epoch < two.epoch {
                Ok((two, true))
            } else {
                Ok((one, true))
            }
        }
    }
}

// Whether the one file is empty and the other one is open.
fn is_missing(bytes: &[u8], beside: &[u8]) -> bool
    ensures missing { IsTrue result → (bytes.now ≡ []) × (IsClosed beside.now → ⊥) }
    ensures there { result ≡ false → (bytes.now ≡ []) → IsClosed beside.now }
{
    match (bytes, beside) {
        ([], [gate, ..]) => *gate != CLOSED,
        _ => false,
    }
}

fn contents_of(alloc: Global, file: Which, bytes: &[u8]) -> Result<Contents, RedoFault>
    ensures found { IfOk result (λ contents. Holds file contents bytes.now) }
    ensures meaning { (content : Content) → (end : ℕ) → StandsFor bytes.now content end
        → IfOk result (IsOf content end) }
    ensures damaged { (fault : RedoFault) → result ≡ Err fault → (fault ≡ RedoFault.NoMemory)
        ⊎ ((at : ℕ) × (fault ≡ RedoFault.BadFile file at) × MeansNothing bytes.now
        × IsFirstWrong bytes.now at) }
{
    match read_file(alloc, file, bytes) {
        Ok(contents) => Ok(contents),
        Err(FileFault::Bad { at }) => Err(RedoFault::BadFile { file, at }),
        Err(FileFault::NoMemory) => Err(RedoFault::NoMemory),
    }
}
