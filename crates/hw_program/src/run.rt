//! The top call.

ghost use Rattle.std.specs.Prelude.{◌≡◌, ◌≢◌, ◌≤◌, None, Some, IsSome, IfSome, IsTrue, ◌⊎◌};
ghost use Rattle.hw_io.specs.{Faults.{Rose}, Files.{SameFiles}};
ghost use Rattle.hw_replay.specs.Fates.{seen};
ghost use Rattle.hw_service.specs.{Scene.{door_seen}, Begun.{IsAbout}};
ghost use Rattle.hw_commands.specs.Commands.{request_of, OnlyReads, UsesFilesAlone};
ghost use Rattle.hw_commands.specs.Texts.{usage_line, read_fault_line, append_fault_line};
ghost use Rattle.hw_commands.specs.Due.{FailsOf};
ghost use Rattle.hw_commands.specs.Files.{FilesAfter, IsAllowed};
ghost use Rattle.hw_commands.specs.Program.{run_of};
ghost use Rattle.hw_commands.specs.Conflict.{ReportsConflict, ReportsEraConflict};
ghost use Rattle.hw_commands.specs.Fed.{CallsNone, ConsumersAfter, IsTextOf};
ghost use Rattle.hw_commands.specs.Shown.{IsShown, IfChecks, ShowsCertificate, ContradictsCertificate};
ghost use Rattle.hw_commands.specs.Run.{IsStatus, IsWorkedStatus, IsServiceStatus, IsDone, IsSaid, IsRefusal, WritesLine, WritesText, WritesPrefix, EndsWithoutMemory, EndsAppending};
ghost use Rattle.hw_theorem.specs.Reports.{HoldBytes, CanBeReported, SaysOfLogs};
ghost use Rattle.hw_agreement.specs.Reports.{AccusesNoInnocent};
ghost use Rattle.hw_program.specs.Services.{service_of, names_in, IsWorkedOut, IsNoCommand, UsesNoClock, maker_in};
ghost use Rattle.hw_program.specs.Serving.{service};
ghost use Rattle.hw_program.specs.Served.{around, counts, output, RunsNode, CanRun, IsRunEnd, AsksNoValidator, OnlyLogChanges};

use crate::ends::end_run;
use crate::request::Request;
use crate::run_turns::run_turns;
use crate::services::NodeCommand;
use hw_commands::{Words, work};
use hw_io::{Clock, Consumer, Door, Files, Sink};
use hw_service::{Environment, host, meet, serve};
use std::alloc::Global;

/// Runs the command that the words ask for, and answers the exit status.
///
/// Most commands make their text whole before the first byte of it is written. In `replay` the consumers are given
/// the decided blocks after each entry, and are told that no block follows before the report is made. A consumer that
/// answers an error is dropped, leaves the list, and is named after the report. `serve`, `run`, `host` and `meet` let
/// a node run, and report what happens as it happens: each own unit, and each session that ended otherwise than as
/// Done. Then they write their report.
///
/// The status is:
///
/// - 0 where all was done,
/// - 1 where the words aren't in the grammar or name a validator that the settings don't have,
/// - 2 where a file's bytes aren't in the grammar, two configurations differ or a file that is to be new is there,
/// - 3 where two logs, a log and a certificate, or the eras of two nodes report conflicting final blocks,
/// - 4 where a read of the files failed,
/// - 5 where a write of the output or an append to a file failed,
/// - 6 where a call of a link failed in a session of a run that went on,
/// - 7 where there was no memory,
/// - 8 where a limit was met,
/// - 9 where two different units have one digest,
/// - 10 where no certificate could be made or one shows nothing.
///
/// A fault has one line, which is written after what was written before, if the output takes it.
pub fn highway<F: Files, S: Sink, C: Clock, D: Door>(
    alloc: Global,
    words: &Words,
    files: &mut F,
    out: &mut S,
    clock: &mut C,
    door: &mut D,
    consumers: &mut Vec<Box<dyn Consumer>>,
) -> u8
    ensures status { IsStatus result }
    ensures worked { IsWorkedOut words.now → IsWorkedStatus result }
    ensures service { IfSome (service_of words.now) (λ _. IsServiceStatus result) }

    // Each status but 4, 5 and 7 of a command whose text is worked out is the answer that the words and the bytes of
    // the files have.
    ensures said { IsWorkedOut words.now → IsTrue F.tells → IsSaid result → (run_of words.now (F.held files.old)).status ≡ result }
    ensures usage { result ≡ 1 → IsNoCommand words.now ⊎ AsksNoValidator F.tells (service_of words.now) (F.held files.old) }
    ensures grammar { IsNoCommand words.now → (result ≡ 1) ⊎ (result ≡ 7) }
    ensures validator { IsTrue F.tells → AsksNoValidator F.tells (service_of words.now) (F.held files.old) → (result ≡ 1) ⊎ (result ≡ 4) ⊎ (result ≡ 7) }

    // 4 and 5 come only where a count of faults rose in this run. 4 comes only where a call about a file that is due
    // failed or such a file isn't there, and 5 only in place of a text that was whole.
    ensures read_fault { result ≡ 4 → Rose (F.read_faults files.old) (F.read_faults files.new) }
    ensures read_about { IsWorkedOut words.now → IsTrue F.tells → result ≡ 4 → FailsOf (F.held files.old) (request_of words.now) (F.faults_about files.old) (F.faults_about files.new) }
    ensures write_fault { result ≡ 5 → Rose (S.faults out.old) (S.faults out.new) ⊎ Rose (F.append_faults files.old) (F.append_faults files.new) }
    ensures unwritten { IsWorkedOut words.now → IsTrue F.tells → result ≡ 5 → IsDone (run_of words.now (F.held files.old)).status ⊎ Rose (F.append_faults files.old) (F.append_faults files.new) }

    // A read or an append that failed is reported: with each other status its count is what it was, unless the output
    // found no memory.
    ensures reads { IsWorkedOut words.now → result ≢ 4 → (F.read_faults files.new ≡ F.read_faults files.old) ⊎ ((result ≡ 7) × Rose (S.wants out.old) (S.wants out.new)) }
    ensures appended { IsWorkedOut words.now → result ≢ 5 → (F.append_faults files.new ≡ F.append_faults files.old) ⊎ ((result ≡ 7) × Rose (S.wants out.old) (S.wants out.new)) }

    // Where no count rose, the answer is the one that the words and the bytes have, or out of memory. Where it is
    // allowed to write a log anew, that is done.
    ensures complete { IsWorkedOut words.now → IsTrue F.tells → (Rose (F.read_faults files.old) (F.read_faults files.new) → ⊥) → (Rose (S.faults out.old) (S.faults out.new) → ⊥) → OnlyReads (request_of words.now) ⊎ (Rose (F.append_faults files.old) (F.append_faults files.new) → ⊥) → (result ≡ (run_of words.now (F.held files.old)).status) ⊎ (result ≡ 7) }
    ensures allowed { IsTrue F.tells → IsAllowed (request_of words.now) (F.held files.old) → (Rose (F.read_faults files.old) (F.read_faults files.new) → ⊥) → (Rose (S.faults out.old) (S.faults out.new) → ⊥) → (Rose (F.append_faults files.old) (F.append_faults files.new) → ⊥) → (result ≡ 0) ⊎ (result ≡ 7) }

    // What `replay`, `explain` and `audit` write of logs with status 0 or 3, in words of the logs. Where logs can be
    // replayed, and two of them compared, and no count rose, the status is one of these.
    ensures reports { IsTrue F.tells → HoldBytes (F.held files.old) → IsDone result → SaysOfLogs words.now (F.held files.old) result (S.taken out.old) (S.taken out.new) }
    ensures reported { IsTrue F.tells → CanBeReported words.now (F.held files.old) → (Rose (F.read_faults files.old) (F.read_faults files.new) → ⊥) → (Rose (S.faults out.old) (S.faults out.new) → ⊥) → IsDone result ⊎ (result ≡ 7) }

    // Where two logs, or a log and a certificate, report conflicting final blocks, the audit names culprits, each by
    // two signed units, and they weigh more than the threshold.
    ensures conflict { IsTrue F.tells → result ≡ 3 → ReportsConflict words.now (F.held files.old) (run_of words.now (F.held files.old)).text ⊎ ContradictsCertificate words.now (F.held files.old) (run_of words.now (F.held files.old)).text ⊎ ReportsEraConflict words.now (F.held files.old) (run_of words.now (F.held files.old)).text }

    // Of a conflict that is written, nobody is a culprit whose node lived as a validator's does, with stops and starts,
    // and for whom nobody else signed.
    ensures innocent { IsTrue F.tells → result ≡ 3 → AccusesNoInnocent words.now (F.held files.old) (S.taken out.old) (S.taken out.new) }

    // Where a check has one of these statuses, the certificate's vertices alone make its block stand, and by the keys
    // each is signed.
    ensures certified { IsTrue F.tells → IsShown result → IfChecks (ShowsCertificate (F.held files.old)) (request_of words.now) }

    // What is written with each status by a command whose text is worked out. After a report the text names the
    // consumers that were dropped.
    ensures text { IsWorkedOut words.now → IsTrue F.tells → IsDone result → WritesText (IsTextOf (seen (λ b. consumed b) (λ b. (⟦<dyn Consumer as Consumer>⟧ b.vtable).faults b.value) (λ b. (⟦<dyn Consumer as Consumer>⟧ b.vtable).wants b.value) (λ b. b.vtable)) F.tells words.now (F.held files.old) consumers.old.items consumers.new.items) (S.taken out.old) (S.taken out.new) }
    ensures line { IsWorkedOut words.now → IsTrue F.tells → IsRefusal result → WritesLine (S.taken out.old) (S.taken out.new) (run_of words.now (F.held files.old)).text (S.faults out.old) (S.faults out.new) }
    ensures usage_line { result ≡ 1 → WritesLine (S.taken out.old) (S.taken out.new) usage_line (S.faults out.old) (S.faults out.new) }
    ensures read_line { result ≡ 4 → WritesLine (S.taken out.old) (S.taken out.new) read_fault_line (S.faults out.old) (S.faults out.new) }
    ensures cut { IsWorkedOut words.now → IsTrue F.tells → OnlyReads (request_of words.now) → result ≡ 5 → WritesPrefix (IsTextOf (seen (λ b. consumed b) (λ b. (⟦<dyn Consumer as Consumer>⟧ b.vtable).faults b.value) (λ b. (⟦<dyn Consumer as Consumer>⟧ b.vtable).wants b.value) (λ b. b.vtable)) F.tells words.now (F.held files.old) consumers.old.items consumers.new.items) (S.taken out.old) (S.taken out.new) }
    ensures append_line { IsWorkedOut words.now → IsTrue F.tells → result ≡ 5 → (Rose (S.faults out.old) (S.faults out.new) × WritesPrefix (IsTextOf (seen (λ b. consumed b) (λ b. (⟦<dyn Consumer as Consumer>⟧ b.vtable).faults b.value) (λ b. (⟦<dyn Consumer as Consumer>⟧ b.vtable).wants b.value) (λ b. b.vtable)) F.tells words.now (F.held files.old) consumers.old.items consumers.new.items) (S.taken out.old) (S.taken out.new)) ⊎ (Rose (F.append_faults files.old) (F.append_faults files.new) × WritesLine (S.taken out.old) (S.taken out.new) append_fault_line (S.faults out.old) (S.faults out.new)) }
    ensures memory_line { IsWorkedOut words.now → IsTrue F.tells → OnlyReads (request_of words.now) → result ≡ 7 → EndsWithoutMemory (record { taken = S.taken out.old; faults = S.faults out.old; wants = S.wants out.old }) (record { taken = S.taken out.new; faults = S.faults out.new; wants = S.wants out.new }) (IsTextOf (seen (λ b. consumed b) (λ b. (⟦<dyn Consumer as Consumer>⟧ b.vtable).faults b.value) (λ b. (⟦<dyn Consumer as Consumer>⟧ b.vtable).wants b.value) (λ b. b.vtable)) F.tells words.now (F.held files.old) consumers.old.items consumers.new.items) }
    ensures any_memory_line { IsWorkedOut words.now → IsTrue F.tells → result ≡ 7 → EndsAppending (record { taken = S.taken out.old; faults = S.faults out.old; wants = S.wants out.old }) (record { taken = S.taken out.new; faults = S.faults out.new; wants = S.wants out.new }) (IsTextOf (seen (λ b. consumed b) (λ b. (⟦<dyn Consumer as Consumer>⟧ b.vtable).faults b.value) (λ b. (⟦<dyn Consumer as Consumer>⟧ b.vtable).wants b.value) (λ b. b.vtable)) F.tells words.now (F.held files.old) consumers.old.items consumers.new.items) (F.append_faults files.old) (F.append_faults files.new) }

    // What such a command leaves of the files.
    ensures left { IsWorkedOut words.now → IsTrue F.tells → FilesAfter (request_of words.now) result (F.held files.old) (F.held files.new) }

    // What it passed to the consumers.
    ensures consumers { IsWorkedOut words.now → ConsumersAfter (seen (λ b. consumed b) (λ b. (⟦<dyn Consumer as Consumer>⟧ b.vtable).faults b.value) (λ b. (⟦<dyn Consumer as Consumer>⟧ b.vtable).wants b.value) (λ b. b.vtable)) F.tells (request_of words.now) (F.held files.old) result consumers.old.items consumers.new.items }

    // What it doesn't use stays as it was.
    ensures files { IsWorkedOut words.now → OnlyReads (request_of words.now) → SameFiles (F.held files.old) (F.held files.new) }
    ensures appends { IsWorkedOut words.now → OnlyReads (request_of words.now) → F.append_faults files.new ≡ F.append_faults files.old }
    ensures uncalled { IsWorkedOut words.now → CallsNone (request_of words.now) → consumers.new ≡ consumers.old }
    ensures clock { UsesNoClock (service_of words.now) → UsesFilesAlone (request_of words.now) → clock.new ≡ clock.old }
    ensures door { IsWorkedOut words.now → UsesFilesAlone (request_of words.now) → door.new ≡ door.old }

    // A run of a node: what came of it, the counts that rose, its status, and the line after what was written before.
    ensures node { IfSome (service_of words.now) (λ s. RunsNode (seen (λ b. consumed b) (λ b. (⟦<dyn Consumer as Consumer>⟧ b.vtable).faults b.value) (λ b. (⟦<dyn Consumer as Consumer>⟧ b.vtable).wants b.value) (λ b. b.vtable)) F.tells s result
        (around (F.held files.old) (door_seen (D.sessions door.old) (D.accepts door.old) (D.dials door.old) (D.ends door.old)) (C.given clock.old) (output (S.taken out.old) (S.faults out.old) (S.wants out.old)) (counts (F.read_faults files.old) (F.append_faults files.old) (F.faults_about files.old) (D.faults door.old)) consumers.old.items)
        (around (F.held files.new) (door_seen (D.sessions door.new) (D.accepts door.new) (D.dials door.new) (D.ends door.new)) (C.given clock.new) (output (S.taken out.new) (S.faults out.new) (S.wants out.new)) (counts (F.read_faults files.new) (F.append_faults files.new) (F.faults_about files.new) (D.faults door.new)) consumers.new.items)) }

    // 6 comes only where a call of the door failed in it. A read that failed was about a file that it begins from, or
    // its settings or keys aren't there. A count of reads or of appends that rose is reported, where there is memory.
    ensures link { result ≡ 6 → IsSome (service_of words.now) × Rose (D.faults door.old) (D.faults door.new) }
    ensures node_about { IsTrue F.tells → result ≡ 4 → IfSome (service_of words.now) (λ s. IsAbout (names_in s) (maker_in s) (F.held files.old) (F.faults_about files.old) (F.faults_about files.new)) }
    ensures node_reads { IsSome (service_of words.now) → result ≢ 4 → (F.read_faults files.new ≡ F.read_faults files.old) ⊎ (result ≡ 7) }
    ensures node_appended { IsSome (service_of words.now) → result ≢ 5 → (F.append_faults files.new ≡ F.append_faults files.old) ⊎ (result ≡ 7) }

    // Settings, keys and log are as they must be, and no count of the files and the output rose. Then it comes to its
    // report, or there was no memory, or a peer brought a unit that has the digest of another.
    ensures runs { IsTrue F.tells → CanRun (service_of words.now) (F.held files.old) → (Rose (F.read_faults files.old) (F.read_faults files.new) → ⊥) → (Rose (S.faults out.old) (S.faults out.new) → ⊥) → (Rose (F.append_faults files.old) (F.append_faults files.new) → ⊥) → IsRunEnd result }

    // No file but its log changes.
    ensures log { IsTrue F.tells → OnlyLogChanges (service_of words.now) (F.held files.old) (F.held files.new) }
{
    match Request::of(words) {
        Request::Node(command) => run_node(alloc, &command, files, out, clock, door, consumers),
        Request::Work(command) => work(alloc, words, command, files, out, consumers),
    }
}

/// Lets a node run as it is asked to, and answers the status. The address at which peers come is the door's.
fn run_node<F: Files, S: Sink, C: Clock, D: Door>(
    alloc: Global,
    command: &NodeCommand<'_>,
    files: &mut F,
    out: &mut S,
    clock: &mut C,
    door: &mut D,
    consumers: &mut Vec<Box<dyn Consumer>>,
) -> u8
    // It asks for nothing. With a `requires` the proof is for whatever consumers the caller has.
    requires { 0 ≤ D.faults door.old }
    ensures node { RunsNode (seen (λ b. consumed b) (λ b. (⟦<dyn Consumer as Consumer>⟧ b.vtable).faults b.value) (λ b. (⟦<dyn Consumer as Consumer>⟧ b.vtable).wants b.value) (λ b. b.vtable)) F.tells (service command.now) result
        (around (F.held files.old) (door_seen (D.sessions door.old) (D.accepts door.old) (D.dials door.old) (D.ends door.old)) (C.given clock.old) (output (S.taken out.old) (S.faults out.old) (S.wants out.old)) (counts (F.read_faults files.old) (F.append_faults files.old) (F.faults_about files.old) (D.faults door.old)) consumers.old.items)
        (around (F.held files.new) (door_seen (D.sessions door.new) (D.accepts door.new) (D.dials door.new) (D.ends door.new)) (C.given clock.new) (output (S.taken out.new) (S.faults out.new) (S.wants out.new)) (counts (F.read_faults files.new) (F.append_faults files.new) (F.faults_about files.new) (D.faults door.new)) consumers.new.items) }
    ensures clock { UsesNoClock (Some (service command.now)) → clock.new ≡ clock.old }
{
    match command {
        NodeCommand::Serve {
            sources,
            sessions,
            ..
        } => {
            let came_to = serve(alloc, *sources, *sessions, files, out, door, consumers);
            end_run(alloc, *sources, came_to, out)
        }
        NodeCommand::Run {
            sources,
            me,
            turns,
            peers,
        } => {
            let mut outside = Environment {
                files,
                out,
                clock,
                door,
            };
            run_turns(alloc, *sources, *me, *turns, peers, &mut outside, consumers)
        }
        NodeCommand::Host {
            sources,
            sessions,
            ..
        } => {
            let came_to = host(alloc, *sources, *sessions, files, out, door, consumers);
            end_run(alloc, *sources, came_to, out)
        }
        NodeCommand::Meet { sources, peer } => {
            let came_to = meet(alloc, *sources, peer, files, out, door, consumers);
            end_run(alloc, *sources, came_to, out)
        }
    }
}
