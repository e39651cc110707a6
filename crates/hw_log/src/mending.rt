//! A log without its torn end.

ghost use Rattle.std.specs.Prelude.{◌≡◌, ◌≢◌, ◌⊎◌, ℕ, List, Some, IsTrue, IsSome, IfOk, IfErr, OnErr, MatchResult};
ghost use Rattle.hw_io.specs.{Faults.{subject_of}, Files.{SameFiles}};
ghost use Rattle.hw_log.specs.Causes.{HasReadCause, IsReadAbout, IsOutside as IsUnreadError};
ghost use Rattle.hw_log.specs.Rewritten.{mended_of, bytes_before, Says, HasRewritten, IsCutShort};
ghost use Rattle.hw_log.specs.RewriteCauses.{IsAbsentFault, IsPutFault, IsOutside, IsWhy, HasRewriteCause, IsReadAbout as IsRewriteAbout};

use crate::error::error_of_read;
use crate::fault::RewriteFault;
use crate::measure::measure;
use crate::rewritten::Rewritten;
use crate::target::{absent, put};
use crate::{LogError, read_file};
use hw_io::Files;
use hw_types::Bytes;
use std::alloc::Global;

/// Writes the header and the whole entries of a log into a new file, byte for byte, and answers how many
/// entries these are.
///
/// It may be done where the log has no error, or its first one is that it is torn at an entry; another error
/// of the log is the answer. That the new file is there already is tested first. After a failed append the
/// new file is missing, or holds a part of what was to be written, from its first byte on.
pub fn mend<F: Files>(
    alloc: Global,
    files: &mut F,
    log: &str,
    new: &str,
) -> Result<u64, RewriteFault>
    ensures done { IsTrue F.tells → IfOk result (HasRewritten mended_of (F.held files.old log.now) (F.held files.old new.now) (F.held files.new new.now)) }
    ensures why { IsTrue F.tells → IfErr result (λ fault. IsOutside fault ⊎ IsWhy mended_of (F.held files.old log.now) (F.held files.old new.now) fault) }
    ensures first { IsTrue F.tells → IsSome (F.held files.old new.now) → MatchResult result (λ _. ⊥) IsAbsentFault }
    ensures unwritten { IfErr result (λ fault. IsPutFault fault ⊎ SameFiles (F.held files.old) (F.held files.new)) }
    ensures cut { IsTrue F.tells → OnErr result (IsCutShort mended_of (F.held files.old log.now) (F.held files.old new.now) (F.held files.new new.now)) }
    ensures others { IsTrue F.tells → (name : List ℕ) → name ≢ new.now → F.held files.new name ≡ F.held files.old name }
    ensures cause { HasRewriteCause (F.read_faults files.old) (F.read_faults files.new) (F.append_faults files.old) (F.append_faults files.new) result }
    ensures about { IsTrue F.tells → IsRewriteAbout (F.held files.old log.now) (F.held files.old new.now) log.now new.now (F.faults_about files.old) (F.faults_about files.new) result }
{
    absent(files, new)?;
    let mended = mended(alloc, files, log)?;
    put(files, new, mended.bytes.as_slice())?;
    Ok(mended.count)
}

/// The whole entries of the log in the file of that name.
fn mended<F: Files>(alloc: Global, files: &mut F, log: &str) -> Result<Rewritten, LogError>
    ensures said { IsTrue F.tells → Says mended_of (F.held files.old log.now) result }
    ensures cause { HasReadCause (F.read_faults files.old) (F.read_faults files.new) result }
    ensures about { IsTrue F.tells → IsReadAbout (subject_of (F.held files.old log.now) log.now) (F.faults_about files.old) (F.faults_about files.new) result }

    ensures files { SameFiles (F.held files.old) (F.held files.new) }
    ensures appends { F.append_faults files.new ≡ F.append_faults files.old }
{
    let whole = measure(alloc, files, log)?;
    let bytes = read(alloc, files, log)?;
    Ok(Rewritten {
        count: whole.count,
        bytes: bytes_before(bytes, whole.torn_at),
    })
}

/// The bytes of the file of that name.
fn read<F: Files>(alloc: Global, files: &mut F, name: &str) -> Result<Bytes, LogError>
    ensures whole { IsTrue F.tells → IfOk result (λ bytes. F.held files.old name.now ≡ Some bytes) }
    ensures error { IfErr result IsUnreadError }
    ensures cause { HasReadCause (F.read_faults files.old) (F.read_faults files.new) result }
    ensures about { IsTrue F.tells → IsReadAbout (subject_of (F.held files.old name.now) name.now) (F.faults_about files.old) (F.faults_about files.new) result }

    ensures files { SameFiles (F.held files.old) (F.held files.new) }
    ensures appends { F.append_faults files.new ≡ F.append_faults files.old }
{
    match read_file(alloc, files, name) {
        Ok(bytes) => Ok(bytes),
        Err(fault) => Err(error_of_read(fault)),
    }
}

/// The bytes up to this place, if there is one.
fn bytes_before(bytes: Bytes, place: Option<u64>) -> Bytes
    ensures { result ≡ bytes_before place bytes }
{
    match place {
        None => bytes,
        Some(place) => {
            let mut kept = bytes.into_vec();
            kept.truncate(place as usize);
            Bytes::from_vec(kept)
        }
    }
}
