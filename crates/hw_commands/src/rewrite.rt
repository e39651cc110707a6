//! `mend` and `migrate`: a log written anew into a new file.

ghost use Rattle.std.specs.Prelude.{◌≡◌, ◌⊎◌, ◌++◌, codes, IsTrue, IfOk, IfErr};
ghost use Rattle.hw_io.specs.Faults.{Rose};
ghost use Rattle.hw_text.specs.{Text.{number_text}, Lines.{line_feed}};
ghost use Rattle.hw_log.specs.{Rewritten.{mended_of, migrated_of}, Migrated.{HoldsAnew}};
ghost use Rattle.hw_commands.specs.{Faults.{HasRunFault, IsReadEnd}, Due.{FailsDue}, Files.{IsRewrite, status_of}, Texts.{input_ended}, Rewritten.{IsUnwritten, IsFaultOf}, Program.{ended, mend_said, migrate_said}};
ghost use Rattle.hw_commands.specs.declared.ended.RunFault.TheVariants as RunFaults;

use crate::ended::{DONE, Ended, Ending, RunFault};
use crate::faults::{bad_input, bad_log};
use crate::texts::Wrong;
use hw_io::Files;
use hw_log::{LogError, RewriteFault, mend, migrate};
use hw_text::{end_line, put_numbered};
use hw_types::{Bytes, OutOfMemory};
use std::alloc::Global;

/// Writes the whole entries of the log under the one word into a new file under the other, and answers how the
/// run ends.
pub fn mended<F: Files>(alloc: Global, files: &mut F, log: &str, new: &str) -> Ending
    ensures said { IsTrue F.tells → IfOk result (λ e. e ≡ ended (mend_said (F.held files.old) log.now new.now)) }
    ensures status { IfOk result (λ e. IsReadEnd e.status) }
    ensures fault { HasRunFault (F.read_faults files.old) (F.read_faults files.new) (F.append_faults files.old) (F.append_faults files.new) result }
    ensures about { IsTrue F.tells → IfErr result (λ fault. fault ≡ RunFaults.Read → Rose (F.faults_about files.old new.now) (F.faults_about files.new new.now) ⊎ FailsDue (λ h. mend_said h log.now new.now) (F.held files.old) (F.faults_about files.old) (F.faults_about files.new)) }
    ensures files { IsTrue F.tells → IsRewrite mended_of log.now new.now (status_of result) (F.held files.old) (F.held files.new) }
{
    match mend(alloc, files, log, new) {
        Ok(count) => count_ended(alloc, "mended ", count),
        Err(fault) => unwritten(alloc, log, new, fault),
    }
}

/// Writes the log under the one word in version 2 into a new file under the other, and answers how the run ends.
pub fn migrated<F: Files>(alloc: Global, files: &mut F, log: &str, new: &str) -> Ending
    ensures said { IsTrue F.tells → IfOk result (λ e. e ≡ ended (migrate_said (F.held files.old) log.now new.now)) }
    ensures status { IfOk result (λ e. IsReadEnd e.status) }
    ensures fault { HasRunFault (F.read_faults files.old) (F.read_faults files.new) (F.append_faults files.old) (F.append_faults files.new) result }
    ensures about { IsTrue F.tells → IfErr result (λ fault. fault ≡ RunFaults.Read → Rose (F.faults_about files.old new.now) (F.faults_about files.new new.now) ⊎ FailsDue (λ h. migrate_said h log.now new.now) (F.held files.old) (F.faults_about files.old) (F.faults_about files.new)) }
    ensures files { IsTrue F.tells → IsRewrite migrated_of log.now new.now (status_of result) (F.held files.old) (F.held files.new) }
    ensures same { IsTrue F.tells → status_of result ≡ 0 → HoldsAnew (F.held files.old log.now) (F.held files.new new.now) }
{
    match migrate(alloc, files, log, new) {
        Ok(count) => count_ended(alloc, "migrated ", count),
        Err(fault) => unwritten(alloc, log, new, fault),
    }
}

/// The end of a run that did all, with the line of what was done.
fn count_ended(alloc: Global, words: &str, count: u64) -> Ending
    ensures said { IfOk result (λ e. e ≡ record { status = 0; text = words.now ++ number_text count ++ line_feed }) }
    ensures fault { IfErr result (λ fault. fault ≡ RunFaults.OutOfMemory) }
{
    let mut text = Bytes::new(alloc);
    put_numbered(&mut text, words, count)?;
    end_line(&mut text)?;
    Ok(Ended { status: DONE, text })
}

/// How a run ends that wrote nothing anew.
fn unwritten(alloc: Global, log: &str, new: &str, fault: RewriteFault) -> Ending
    ensures said { IfOk result (λ e. IsUnwritten log.now new.now fault e) }
    ensures fault { IfErr result (IsFaultOf fault) }
{
    match fault {
        RewriteFault::Exists => Ok(there(alloc, new)?),
        RewriteFault::Log(LogError::ReadFault) => Err(RunFault::Read),
        RewriteFault::Log(LogError::WriteFault) => Err(RunFault::Append),
        RewriteFault::Log(LogError::OutOfMemory) => Err(RunFault::OutOfMemory),
        RewriteFault::Log(error) => Ok(bad_log(alloc, log, error)?),
    }
}

/// The end of a run where the file that was to be new is there.
pub fn there(alloc: Global, name: &str) -> Result<Ended, OutOfMemory>
    ensures { IfOk result (λ ended. ended ≡ input_ended name.now (codes "exists")) }
{
    bad_input(alloc, name, Wrong::Words("exists"))
}
