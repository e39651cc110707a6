//! `eras` and `era-audit`: what the logs of eras leave, and what the eras of two nodes say of each other.

ghost use Rattle.std.specs.Prelude.{◌≡◌, ℕ, ◌≤◌, List, length, map, string_bytes, Err, IsTrue, IfOk, IfErr};
ghost use Rattle.hw_io.specs.Files.{SameFiles};
ghost use Rattle.hw_eras.specs.{Stops.{IsEraAbout, IsReadCounted as IsEraCounted}, Turns.{StopsAt}};
ghost use Rattle.hw_commands.specs.Faults.{HasReadFault, IsReadCounted, IsReadEnd, IsAuditEnd};
ghost use Rattle.hw_commands.specs.Due.{IsDue, FailsDue};
ghost use Rattle.hw_commands.specs.Eras.{EndsBy, IsEraConflictOf};
ghost use Rattle.hw_commands.specs.Program.{Held, Part, ended, eras_said, era_audit_said};
ghost use Rattle.hw_commands.specs.declared.ended.Ended.{Ended as RunEnd};
ghost use Rattle.hw_commands.specs.declared.ended.RunFault.TheVariants as RunFaults;

use crate::ended::{DONE, Ended, Ending, RunFault};
use crate::faults::{bad_input, stopped};
use crate::texts::Wrong;
use hw_eras::{EraFault, report_logs};
use hw_io::Files;
use std::alloc::Global;

/// Reports on the eras of these logs, one log for each era.
pub fn eras<F: Files>(alloc: Global, files: &mut F, logs: &[String]) -> Ending
    requires some { 1 ≤ length logs.now }
    requires few { length logs.now ≤ 64 }
    ensures said { IsTrue F.tells → IfOk result (λ e. e ≡ ended (eras_said (F.held files.old) (map string_bytes logs.now))) }
    ensures status { IfOk result (λ e. IsReadEnd e.status) }
    ensures fault { HasReadFault (F.read_faults files.old) (F.read_faults files.new) result }
    ensures about { IsTrue F.tells → IfErr result (λ fault. fault ≡ RunFaults.Read → FailsDue (λ h. eras_said h (map string_bytes logs.now)) (F.held files.old) (F.faults_about files.old) (F.faults_about files.new)) }

    ensures files { SameFiles (F.held files.old) (F.held files.new) }
    ensures appends { F.append_faults files.new ≡ F.append_faults files.old }
{
    match report_logs(alloc, files, logs) {
        Ok(text) => Ok(Ended { status: DONE, text }),
        Err(stop) => logs_stopped(alloc, stop),
    }
}

/// Audits the eras of two nodes, which these logs leave.
///
/// The left logs are all replayed before the first right one, which must be of the left ones' first configuration.
pub fn audit_eras<F: Files>(
    alloc: Global,
    files: &mut F,
    left: &[String],
    right: &[String],
) -> Ending
    requires left_some { 1 ≤ length left.now }
    requires left_few { length left.now ≤ 64 }
    requires right_some { 1 ≤ length right.now }
    requires right_few { length right.now ≤ 64 }
    ensures said { IsTrue F.tells → IfOk result (λ e. e ≡ ended (era_audit_said (F.held files.old) (map string_bytes left.now) (map string_bytes right.now))) }
    ensures conflict { IsTrue F.tells → IfOk result (λ e. e.status ≡ 3 → IsEraConflictOf (F.held files.old) (map string_bytes left.now) (map string_bytes right.now) e.text) }
    ensures status { IfOk result (λ e. IsAuditEnd e.status) }
    ensures fault { HasReadFault (F.read_faults files.old) (F.read_faults files.new) result }
    ensures about { IsTrue F.tells → IfErr result (λ fault. fault ≡ RunFaults.Read → FailsDue (λ h. era_audit_said h (map string_bytes left.now) (map string_bytes right.now)) (F.held files.old) (F.faults_about files.old) (F.faults_about files.new)) }

    ensures files { SameFiles (F.held files.old) (F.held files.new) }
    ensures appends { F.append_faults files.new ≡ F.append_faults files.old }
{
    match hw_eras::audit_logs(alloc, files, left, right) {
        Ok(audit) => Ok(Ended {
            status: audit.status,
            text: audit.text,
        }),
        Err(stop) => logs_stopped(alloc, stop),
    }
}

/// How the run ends where logs of eras stopped with this fault.
fn logs_stopped(alloc: Global, stop: EraFault<'_>) -> Ending
    ensures said { IfOk result (EndsBy stop.entry) }
    ensures status { IfOk result (λ e. IsReadEnd e.status) }
    ensures cause { (before now : ℕ) → IsEraCounted {T = Unit {0}} before now (Err stop.entry) → IsReadCounted before now result }
    ensures about { (said : Held → Part RunEnd) (held : Held) (before now : List ℕ → ℕ) → StopsAt (IsDue said held) stop.entry → IsEraAbout {T = Unit {0}} held before now (Err stop.entry) → IfErr result (λ fault. fault ≡ RunFaults.Read → FailsDue said held before now) }
{
    match stop {
        EraFault::NoEra(log) => Ok(bad_input(alloc, log, Wrong::Words("no era"))?),
        EraFault::Stopped(log, fault) => stopped(alloc, log, fault),
        EraFault::OutOfMemory => Err(RunFault::OutOfMemory),
    }
}
