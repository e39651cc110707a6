//! `explain`: each final block of a log, with its summit.

ghost use Rattle.std.specs.Prelude.{◌≡◌, IsTrue, IfOk, IfErr};
ghost use Rattle.hw_io.specs.Files.{SameFiles};
ghost use Rattle.hw_commands.specs.{Faults.{HasReadFault, IsReadEnd}, Due.{FailsDue}, Program.{ended, explain_said}};
ghost use Rattle.hw_commands.specs.declared.ended.RunFault.TheVariants as RunFaults;

use crate::ended::{DONE, Ended, Ending};
use crate::faults::stopped;
use hw_explain::explain_log;
use hw_io::Files;
use std::alloc::Global;

/// Explains the log under this word, and says how the run ends.
pub fn explain<F: Files>(alloc: Global, files: &mut F, log: &str) -> Ending
    ensures said { IsTrue F.tells → IfOk result (λ e. e ≡ ended (explain_said (F.held files.old) log.now)) }
    ensures status { IfOk result (λ e. IsReadEnd e.status) }
    ensures fault { HasReadFault (F.read_faults files.old) (F.read_faults files.new) result }
    ensures about { IsTrue F.tells → IfErr result (λ fault. fault ≡ RunFaults.Read → FailsDue (λ h. explain_said h log.now) (F.held files.old) (F.faults_about files.old) (F.faults_about files.new)) }

    ensures files { SameFiles (F.held files.old) (F.held files.new) }
    ensures appends { F.append_faults files.new ≡ F.append_faults files.old }
{
    match explain_log(alloc, files, log) {
        Ok(text) => Ok(Ended { status: DONE, text }),
        Err(fault) => stopped(alloc, log, fault),
    }
}
