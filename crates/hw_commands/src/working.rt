//! Commands whose end and text are worked out from their words and what the files hold.

ghost use Rattle.std.specs.Prelude.{◌≡◌, ◌≢◌, ℕ, ◌≤◌, None, Some, IsTrue, IfSome, IfOk, IfErr, ◌⊎◌};
ghost use Rattle.hw_io.specs.{Faults.{Rose}, Files.{SameFiles}, Sinks.{AppendsPrefix}};
ghost use Rattle.hw_replay.specs.Fates.{seen};
ghost use Rattle.hw_commands.specs.Commands.{request_of, OnlyReads};
ghost use Rattle.hw_commands.specs.Asked.{asked, IsInRange};
ghost use Rattle.hw_commands.specs.Texts.{usage_line, read_fault_line, append_fault_line, out_of_memory_line};
ghost use Rattle.hw_commands.specs.Faults.{HasReadFault, HasRunFault, IsEndOf};
ghost use Rattle.hw_commands.specs.Due.{FailsOf};
ghost use Rattle.hw_commands.specs.Files.{FilesAfter, IsAllowed, status_of};
ghost use Rattle.hw_commands.specs.Program.{run_of};
ghost use Rattle.hw_commands.specs.Conflict.{ReportsConflict, ReportsEraConflict};
ghost use Rattle.hw_commands.specs.Fed.{CallsNone, ConsumersAfter, IsTextOf};
ghost use Rattle.hw_commands.specs.Shown.{IsShown, IfChecks, ShowsCertificate, ContradictsCertificate};
ghost use Rattle.hw_commands.specs.Run.{IsWorkedStatus, IsDone, IsSaid, IsRefusal, WritesLine, WritesText, WritesPrefix, WritesMemoryLine, EndsWithoutMemory, EndsAppending, Finishes};
ghost use Rattle.hw_commands.specs.declared.ended.RunFault.TheVariants as RunFaults;

use crate::audit::audit_logs;
use crate::certify::certified;
use crate::check::checked;
use crate::command::Command;
use crate::ended::{CONFLICT, DONE, Ending, OUT_OF_MEMORY, READ_FAULT, RunFault, WRITE_FAULT};
use crate::eras::{audit_eras, eras};
use crate::explain::explain;
use crate::faults::usage;
use crate::replay::replay;
use crate::rewrite::{mended, migrated};
use crate::script::script;
use crate::words::Words;
use crate::workloads::{generated, simulated};
use hw_io::{Consumer, Files, IoFault, Sink, write_all};
use std::alloc::Global;

/// The line of a read that failed.
pub const READ_FAULT_LINE: &str = "read fault\n";

/// The line of an append that failed.
pub const APPEND_FAULT_LINE: &str = "append fault\n";

const OUT_OF_MEMORY_LINE: &str = "out of memory\n";

/// Runs a command whose text is worked out, and answers the exit status. Where there is no command, the usage
/// is written.
///
/// Its text is made whole before the first byte of it is written. A fault has one line, which is written if the
/// output takes it.
///
/// For the prover: the words are those that ask for the command. The clauses are about them.
pub fn work<F: Files, S: Sink>(
    alloc: Global,
    words: &Words,
    command: Option<Command<'_>>,
    files: &mut F,
    out: &mut S,
    consumers: &mut Vec<Box<dyn Consumer>>,
) -> u8
    requires asked { asked command ≡ request_of words.now }
    requires range { IfSome command IsInRange }
    ensures status { IsWorkedStatus result }

    // Each status but 4, 5 and 7 is the answer that the words and the bytes of the files have.
    ensures said { IsTrue F.tells → IsSaid result → (run_of words.now (F.held files.old)).status ≡ result }
    ensures usage { result ≡ 1 → request_of words.now ≡ None }
    ensures grammar { request_of words.now ≡ None → (result ≡ 1) ⊎ (result ≡ 7) }

    // 4 and 5 come only where a count of faults rose in this run. 4 comes only where a call about a file that is due
    // failed, or such a file isn't there. With 5 the text was whole, or an append failed.
    ensures read_fault { result ≡ 4 → Rose (F.read_faults files.old) (F.read_faults files.new) }
    ensures read_about { IsTrue F.tells → result ≡ 4 → FailsOf (F.held files.old) (request_of words.now) (F.faults_about files.old) (F.faults_about files.new) }
    ensures write_fault { result ≡ 5 → Rose (S.faults out.old) (S.faults out.new) ⊎ Rose (F.append_faults files.old) (F.append_faults files.new) }
    ensures unwritten { IsTrue F.tells → result ≡ 5 → IsDone (run_of words.now (F.held files.old)).status ⊎ Rose (F.append_faults files.old) (F.append_faults files.new) }

    // A read or an append that failed is reported. With each other status its count is what it was, unless the
    // output found no memory.
    ensures reads { result ≢ 4 → (F.read_faults files.new ≡ F.read_faults files.old) ⊎ ((result ≡ 7) × Rose (S.wants out.old) (S.wants out.new)) }
    ensures appended { result ≢ 5 → (F.append_faults files.new ≡ F.append_faults files.old) ⊎ ((result ≡ 7) × Rose (S.wants out.old) (S.wants out.new)) }

    // Where no count rose, the answer is the one that the words and the bytes have, or out of memory. Where it
    // is allowed to write a log anew, that is done.
    ensures complete { IsTrue F.tells → (Rose (F.read_faults files.old) (F.read_faults files.new) → ⊥) → (Rose (S.faults out.old) (S.faults out.new) → ⊥) → OnlyReads (request_of words.now) ⊎ (Rose (F.append_faults files.old) (F.append_faults files.new) → ⊥) → (result ≡ (run_of words.now (F.held files.old)).status) ⊎ (result ≡ 7) }
    ensures allowed { IsTrue F.tells → IsAllowed (request_of words.now) (F.held files.old) → (Rose (F.read_faults files.old) (F.read_faults files.new) → ⊥) → (Rose (S.faults out.old) (S.faults out.new) → ⊥) → (Rose (F.append_faults files.old) (F.append_faults files.new) → ⊥) → (result ≡ 0) ⊎ (result ≡ 7) }

    // With 3 two logs, a log and a certificate, or the eras of two nodes report conflicting final blocks. The audit
    // names culprits, each by two signed units, and they weigh more than the threshold.
    ensures conflict { IsTrue F.tells → result ≡ 3 → ReportsConflict words.now (F.held files.old) (run_of words.now (F.held files.old)).text ⊎ ContradictsCertificate words.now (F.held files.old) (run_of words.now (F.held files.old)).text ⊎ ReportsEraConflict words.now (F.held files.old) (run_of words.now (F.held files.old)).text }

    // Where a check has one of these statuses, the certificate's vertices alone make its block final, and by the keys
    // each is signed.
    ensures certified { IsTrue F.tells → IsShown result → IfChecks (ShowsCertificate (F.held files.old)) (request_of words.now) }

    // What is written with each status. After a report the text names the consumers that were dropped.
    ensures text { IsTrue F.tells → IsDone result → WritesText (IsTextOf (seen (λ b. consumed b) (λ b. (⟦<dyn Consumer as Consumer>⟧ b.vtable).faults b.value) (λ b. (⟦<dyn Consumer as Consumer>⟧ b.vtable).wants b.value) (λ b. b.vtable)) F.tells words.now (F.held files.old) consumers.old.items consumers.new.items) (S.taken out.old) (S.taken out.new) }
    ensures line { IsTrue F.tells → IsRefusal result → WritesLine (S.taken out.old) (S.taken out.new) (run_of words.now (F.held files.old)).text (S.faults out.old) (S.faults out.new) }
    ensures usage_line { result ≡ 1 → WritesLine (S.taken out.old) (S.taken out.new) usage_line (S.faults out.old) (S.faults out.new) }
    ensures read_line { result ≡ 4 → WritesLine (S.taken out.old) (S.taken out.new) read_fault_line (S.faults out.old) (S.faults out.new) }
    ensures cut { IsTrue F.tells → OnlyReads (request_of words.now) → result ≡ 5 → WritesPrefix (IsTextOf (seen (λ b. consumed b) (λ b. (⟦<dyn Consumer as Consumer>⟧ b.vtable).faults b.value) (λ b. (⟦<dyn Consumer as Consumer>⟧ b.vtable).wants b.value) (λ b. b.vtable)) F.tells words.now (F.held files.old) consumers.old.items consumers.new.items) (S.taken out.old) (S.taken out.new) }
    ensures append_line { IsTrue F.tells → result ≡ 5 → (Rose (S.faults out.old) (S.faults out.new) × WritesPrefix (IsTextOf (seen (λ b. consumed b) (λ b. (⟦<dyn Consumer as Consumer>⟧ b.vtable).faults b.value) (λ b. (⟦<dyn Consumer as Consumer>⟧ b.vtable).wants b.value) (λ b. b.vtable)) F.tells words.now (F.held files.old) consumers.old.items consumers.new.items) (S.taken out.old) (S.taken out.new)) ⊎ (Rose (F.append_faults files.old) (F.append_faults files.new) × WritesLine (S.taken out.old) (S.taken out.new) append_fault_line (S.faults out.old) (S.faults out.new)) }
    ensures memory_line { IsTrue F.tells → OnlyReads (request_of words.now) → result ≡ 7 → EndsWithoutMemory (record { taken = S.taken out.old; faults = S.faults out.old; wants = S.wants out.old }) (record { taken = S.taken out.new; faults = S.faults out.new; wants = S.wants out.new }) (IsTextOf (seen (λ b. consumed b) (λ b. (⟦<dyn Consumer as Consumer>⟧ b.vtable).faults b.value) (λ b. (⟦<dyn Consumer as Consumer>⟧ b.vtable).wants b.value) (λ b. b.vtable)) F.tells words.now (F.held files.old) consumers.old.items consumers.new.items) }
    ensures any_memory_line { IsTrue F.tells → result ≡ 7 → EndsAppending (record { taken = S.taken out.old; faults = S.faults out.old; wants = S.wants out.old }) (record { taken = S.taken out.new; faults = S.faults out.new; wants = S.wants out.new }) (IsTextOf (seen (λ b. consumed b) (λ b. (⟦<dyn Consumer as Consumer>⟧ b.vtable).faults b.value) (λ b. (⟦<dyn Consumer as Consumer>⟧ b.vtable).wants b.value) (λ b. b.vtable)) F.tells words.now (F.held files.old) consumers.old.items consumers.new.items) (F.append_faults files.old) (F.append_faults files.new) }

    // What a run leaves of the files.
    ensures left { IsTrue F.tells → FilesAfter (request_of words.now) result (F.held files.old) (F.held files.new) }

    // What the consumers were given.
    ensures consumers { ConsumersAfter (seen (λ b. consumed b) (λ b. (⟦<dyn Consumer as Consumer>⟧ b.vtable).faults b.value) (λ b. (⟦<dyn Consumer as Consumer>⟧ b.vtable).wants b.value) (λ b. b.vtable)) F.tells (request_of words.now) (F.held files.old) result consumers.old.items consumers.new.items }

    // What a command doesn't use stays as it was.
    ensures files { OnlyReads (request_of words.now) → SameFiles (F.held files.old) (F.held files.new) }
    ensures appends { OnlyReads (request_of words.now) → F.append_faults files.new ≡ F.append_faults files.old }
    ensures uncalled { CallsNone (request_of words.now) → consumers.new ≡ consumers.old }
{
    match run(alloc, words, command, files, consumers) {
        Ok(ended) => finish(out, ended.status, ended.text.as_slice()),
        Err(RunFault::Read) => finish(out, READ_FAULT, READ_FAULT_LINE.as_bytes()),
        Err(RunFault::Append) => finish(out, WRITE_FAULT, APPEND_FAULT_LINE.as_bytes()),
        Err(RunFault::OutOfMemory) => out_of_memory(out),
    }
}

/// Runs the command up to its text.
///
/// For the prover: the words are those that ask for the command. The clauses are about them.
#[tactic(auto, using(crate::proofs::AuditLaws::no_conflict, crate::proofs::AuditLaws::no_conflict_asked, crate::proofs::AuditLaws::reports), unfolding(crate::specs::Program::run_of))]
fn run<F: Files>(
    alloc: Global,
    words: &Words,
    command: Option<Command<'_>>,
    files: &mut F,
    consumers: &mut Vec<Box<dyn Consumer>>,
) -> Ending
    requires asked { asked command ≡ request_of words.now }
    requires range { IfSome command IsInRange }
    ensures said { IsTrue F.tells → IfOk result (λ ended. ended.status ≡ (run_of words.now (F.held files.old)).status) }
    ensures text { IsTrue F.tells → IfOk result (λ ended. IsTextOf (seen (λ b. consumed b) (λ b. faults b) (λ b. wants b) (λ b. b.vtable)) F.tells words.now (F.held files.old) consumers.old.items consumers.new.items ended.text) }
    ensures conflict { IsTrue F.tells → IfOk result (λ ended. ended.status ≡ 3 → ReportsConflict words.now (F.held files.old) (run_of words.now (F.held files.old)).text ⊎ ContradictsCertificate words.now (F.held files.old) (run_of words.now (F.held files.old)).text ⊎ ReportsEraConflict words.now (F.held files.old) (run_of words.now (F.held files.old)).text) }
    ensures status { IfOk result (λ ended. IsEndOf (request_of words.now) ended) }
    ensures fault { HasRunFault (F.read_faults files.old) (F.read_faults files.new) (F.append_faults files.old) (F.append_faults files.new) result }
    ensures only { OnlyReads (request_of words.now) → HasReadFault (F.read_faults files.old) (F.read_faults files.new) result }
    ensures about { IsTrue F.tells → IfErr result (λ fault. fault ≡ RunFaults.Read → FailsOf (F.held files.old) (request_of words.now) (F.faults_about files.old) (F.faults_about files.new)) }
    ensures usage { request_of words.now ≡ None → IfErr result (λ fault. fault ≡ RunFaults.OutOfMemory) }

    ensures consumers { ConsumersAfter (seen (λ b. consumed b) (λ b. faults b) (λ b. wants b) (λ b. b.vtable)) F.tells (request_of words.now) (F.held files.old) (status_of result) consumers.old.items consumers.new.items }
    ensures uncalled { CallsNone (request_of words.now) → consumers.new ≡ consumers.old }

    ensures left { IsTrue F.tells → FilesAfter (request_of words.now) (status_of result) (F.held files.old) (F.held files.new) }
    ensures files { OnlyReads (request_of words.now) → SameFiles (F.held files.old) (F.held files.new) }
    ensures appends { OnlyReads (request_of words.now) → F.append_faults files.new ≡ F.append_faults files.old }
{
    match command {
        Some(Command::Replay { log }) => replay(alloc, files, log, consumers),
        Some(Command::Explain { log }) => explain(alloc, files, log),
        Some(Command::Audit { left, right }) => audit_logs(alloc, files, left, right),
        Some(Command::Script { file }) => script(alloc, files, file),
        Some(Command::Mend { log, new }) => mended(alloc, files, log, new),
        Some(Command::Migrate { log, new }) => migrated(alloc, files, log, new),
        Some(Command::Certify { log, block, new }) => certified(alloc, files, log, &block, new),
        Some(Command::Check { file, keys }) => checked(alloc, files, file, keys, None),
        Some(Command::CheckLog { file, keys, log }) => checked(alloc, files, file, keys, Some(log)),
        Some(Command::Gen { number, rounds }) => generated(alloc, number, rounds),
        Some(
            Command::Sim {
                number,
                nodes,
                steps,
            },
        ) => simulated(alloc, number, nodes, steps),
        Some(Command::Eras { logs }) => eras(alloc, files, logs),
        Some(Command::EraAudit { left, right }) => audit_eras(alloc, files, left, right),
        None => Ok(usage(alloc)?),
    }
}

/// Writes the text with which the run ends, and answers the status. A fault keeps its status where
/// its line isn't taken.
pub fn finish<S: Sink>(out: &mut S, status: u8, text: &[u8]) -> u8
    ensures { Finishes status text.now result (record { taken = S.taken out.old; faults = S.faults out.old; wants = S.wants out.old }) (record { taken = S.taken out.new; faults = S.faults out.new; wants = S.wants out.new }) }
{
    match write_all(out, text) {
        Ok(()) => status,
        Err(IoFault::Failed) if status == DONE || status == CONFLICT => WRITE_FAULT,
        Err(IoFault::Failed) => status,
        Err(IoFault::OutOfMemory) => out_of_memory(out),
    }
}

/// Ends a run that is out of memory, with its line if the output takes it.
pub fn out_of_memory<S: Sink>(out: &mut S) -> u8
    ensures status { result ≡ 7 }
    ensures line { WritesMemoryLine (record { taken = S.taken out.old; faults = S.faults out.old; wants = S.wants out.old }) (record { taken = S.taken out.new; faults = S.faults out.new; wants = S.wants out.new }) }
    ensures prefix { AppendsPrefix (S.taken out.old) (S.taken out.new) out_of_memory_line }
    ensures later { S.faults out.old ≤ S.faults out.new }
    ensures wants { (before : ℕ) → Rose before (S.wants out.old) → Rose before (S.wants out.new) }
{
    let _ = write_all(out, OUT_OF_MEMORY_LINE.as_bytes());
    OUT_OF_MEMORY
}
