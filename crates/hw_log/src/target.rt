//! The file into which a log is written anew.

ghost use Rattle.std.specs.Prelude.{◌≡◌, ℕ, List, Option, None, IsTrue, IsSome, IfErr, OnOk};
ghost use Rattle.hw_io.specs.Files.{SameFiles, Appended};
ghost use Rattle.hw_log.specs.RewriteCauses.{IsAbsentFault, IsPutFault, HasRewriteCause, IsReadAbout};
ghost use Rattle.hw_log.specs.declared.fault.RewriteFault.TheVariants as RewriteFaults;

use crate::LogError;
use crate::fault::RewriteFault;
use hw_io::{Files, IoFault};

/// Is an error where there is a file of that name.
pub(crate) fn absent<F: Files>(files: &mut F, new: &str) -> Result<(), RewriteFault>
    ensures absent { IsTrue F.tells → OnOk result (F.held files.old new.now ≡ None) }
    ensures there { IsTrue F.tells → IfErr result (λ fault. fault ≡ RewriteFaults.Exists → IsSome (F.held files.old new.now)) }
    ensures why { IfErr result IsAbsentFault }
    ensures cause { HasRewriteCause (F.read_faults files.old) (F.read_faults files.new) (F.append_faults files.old) (F.append_faults files.new) result }
    ensures about { (file target : Option (List ℕ)) (log : List ℕ) → IsReadAbout file target log new.now (F.faults_about files.old) (F.faults_about files.new) result }

    ensures files { SameFiles (F.held files.old) (F.held files.new) }
{
    match files.exists(new) {
        Ok(false) => Ok(()),
        Ok(true) => Err(RewriteFault::Exists),
        Err(IoFault::Failed) => Err(RewriteFault::Log(LogError::ReadFault)),
        Err(IoFault::OutOfMemory) => Err(RewriteFault::Log(LogError::OutOfMemory)),
    }
}

/// Appends the bytes to the file of that name.
pub(crate) fn put<F: Files>(files: &mut F, new: &str, bytes: &[u8]) -> Result<(), RewriteFault>
    ensures bytes { IsTrue F.tells → Appended (F.held files.old) (F.held files.new) new.now bytes.now result }
    ensures why { IfErr result IsPutFault }
    ensures cause { HasRewriteCause (F.read_faults files.old) (F.read_faults files.new) (F.append_faults files.old) (F.append_faults files.new) result }
    ensures about { F.faults_about files.new ≡ F.faults_about files.old }
{
    match files.append(new, bytes) {
        Ok(()) => Ok(()),
        Err(IoFault::Failed) => Err(RewriteFault::Log(LogError::WriteFault)),
        Err(IoFault::OutOfMemory) => Err(RewriteFault::Log(LogError::OutOfMemory)),
    }
}
