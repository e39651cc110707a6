//! `script`: what a script prints.

ghost use Rattle.std.specs.Prelude.{◌≡◌, IsTrue, IfOk, IfErr};
ghost use Rattle.hw_io.specs.Files.{SameFiles};
ghost use Rattle.hw_script.specs.Output.{output_of};
ghost use Rattle.hw_commands.specs.{Faults.{HasReadFault, IsReadEnd}, Due.{FailsDue}, Scripted.{script_ended}, Program.{ended, script_said}};
ghost use Rattle.hw_commands.specs.declared.ended.RunFault.TheVariants as RunFaults;

use crate::ended::{DONE, Ended, Ending, RunFault};
use crate::faults::{bad_input, bytes_of};
use crate::texts::Wrong;
use hw_io::Files;
use hw_script::{ScriptError, run_script};
use std::alloc::Global;

/// Runs the script in the file under this word, and says how the run ends.
pub fn script<F: Files>(alloc: Global, files: &mut F, file: &str) -> Ending
    ensures said { IsTrue F.tells → IfOk result (λ e. e ≡ ended (script_said (F.held files.old) file.now)) }
    ensures status { IfOk result (λ e. IsReadEnd e.status) }
    ensures fault { HasReadFault (F.read_faults files.old) (F.read_faults files.new) result }
    ensures about { IsTrue F.tells → IfErr result (λ fault. fault ≡ RunFaults.Read → FailsDue (λ h. script_said h file.now) (F.held files.old) (F.faults_about files.old) (F.faults_about files.new)) }

    ensures files { SameFiles (F.held files.old) (F.held files.new) }
    ensures appends { F.append_faults files.new ≡ F.append_faults files.old }
{
    let text = bytes_of(alloc, files, file)?;
    scripted(alloc, file, text.as_slice())
}

/// What the script prints, or which of its lines is outside the grammar.
fn scripted(alloc: Global, name: &str, text: &[u8]) -> Ending
    ensures said { IfOk result (λ e. e ≡ script_ended name.now (output_of text.now)) }
    ensures status { IfOk result (λ e. IsReadEnd e.status) }
    ensures fault { IfErr result (λ fault. fault ≡ RunFaults.OutOfMemory) }
{
    match run_script(alloc, text) {
        Ok(output) => Ok(Ended {
            status: DONE,
            text: output,
        }),
        Err(ScriptError::Line(number)) => Ok(bad_input(
            alloc,
            name,
            Wrong::Numbered("line ", number),
        )?),
        Err(ScriptError::OutOfMemory) => Err(RunFault::OutOfMemory),
    }
}
