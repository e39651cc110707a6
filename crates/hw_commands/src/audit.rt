//! `audit`: what two logs say of each other.

ghost use Rattle.std.specs.Prelude.{◌≡◌, ℕ, List, None, Some, Ok, Err, true, IsTrue, IfOk, IfErr};
ghost use Rattle.hw_io.specs.{Faults.{subject_of, FailsOrLacks}, Files.{SameFiles}};
ghost use Rattle.hw_replay.specs.Taken.{Taken};
ghost use Rattle.hw_replay.specs.declared.fault.StartFault.TheVariants as StartFaults;
ghost use Rattle.hw_replay.specs.Replay.{same_config, replay_of, IsOutside, Replays};
ghost use Rattle.hw_replay.specs.Causes.{HasReplayCause, IsReplayAbout, IsReadCounted as IsReplayCounted};
ghost use Rattle.hw_log.specs.declared.error.LogError.TheVariants as LogErrors;
ghost use Rattle.hw_commands.specs.declared.ended.RunFault.TheVariants as RunFaults;
ghost use Rattle.hw_commands.specs.Faults.{HasReadFault, IsReadCounted, IsReadEnd, IsAuditEnd};
ghost use Rattle.hw_commands.specs.Due.{FailsDue};
ghost use Rattle.hw_commands.specs.Program.{ended, audit_said, or_parted, audited_with};
ghost use Rattle.hw_commands.specs.Shown.{IsAlike};
ghost use Rattle.hw_commands.specs.Audited.{verdict_ended, TellsVerdict};
ghost use Rattle.hw_commands.specs.Conflict.{IsAudited, IsConflictOf};
ghost use Rattle.hw_light.specs.Checked.{IsCertified};

use crate::ended::{Ended, Ending};
use crate::faults::{other_config, stopped};
use hw_audit::{AuditError, Verdict, audit, audit_text, status_of};
use hw_codec::config_is_in_range;
use hw_core::Core;
use hw_io::Files;
use hw_light::{Certificate, certificate_is_in_range};
use hw_replay::{Replay, StartFault, replay_log};
use hw_types::{Config, OutOfMemory};
use std::alloc::Global;

/// Audits the logs under these two words, and says how the run ends.
///
/// The left log is replayed first. The right one's configuration is compared with the left one's as soon as its
/// header was read.
pub fn audit_logs<F: Files>(alloc: Global, files: &mut F, left: &str, right: &str) -> Ending
    ensures said { IsTrue F.tells → IfOk result (λ e. e ≡ ended (audit_said (F.held files.old) left.now right.now)) }
    ensures conflict { IsTrue F.tells → IfOk result (λ e. e.status ≡ 3 → IsConflictOf (F.held files.old) left.now right.now e.text) }
    ensures status { IfOk result (λ e. IsAuditEnd e.status) }
    ensures fault { HasReadFault (F.read_faults files.old) (F.read_faults files.new) result }
    ensures about { IsTrue F.tells → IfErr result (λ fault. fault ≡ RunFaults.Read → FailsDue (λ h. audit_said h left.now right.now) (F.held files.old) (F.faults_about files.old) (F.faults_about files.new)) }

    ensures files { SameFiles (F.held files.old) (F.held files.new) }
    ensures appends { F.append_faults files.new ≡ F.append_faults files.old }
{
    match replay_log(alloc, files, left, None) {
        Ok(replay) => {
            let ended = audit_against(alloc, files, &replay.core, right);
            // The run ends with this text, and so does the process.
            replay.core.leave();
            ended
        }
        Err(fault) => stopped(alloc, left, fault),
    }
}

/// Audits the log under the word `log` against the node of a certificate that the file under the word `file`
/// holds.
///
/// The log is the left one. Where it is of another configuration, the certificate's file is named.
pub fn audit_certified<F: Files>(
    alloc: Global,
    files: &mut F,
    file: &str,
    certificate: &Certificate,
    right: &Core,
    log: &str,
) -> Ending
    requires { IsCertified certificate.now right.now }
    ensures said { IsTrue F.tells → IfOk result (λ e. e ≡ ended (audited_with (F.held files.old) file.now certificate.now right.now log.now)) }
    ensures alike { IsTrue F.tells → IfOk result (λ e. IsAlike (F.held files.old) certificate.now (Some log.now)) }
    ensures status { IfOk result (λ e. IsAuditEnd e.status) }
    ensures fault { HasReadFault (F.read_faults files.old) (F.read_faults files.new) result }
    ensures about { IsTrue F.tells → IfErr result (λ fault. fault ≡ RunFaults.Read → FailsDue (λ h. audited_with h file.now certificate.now right.now log.now) (F.held files.old) (F.faults_about files.old) (F.faults_about files.new)) }

    ensures files { SameFiles (F.held files.old) (F.held files.new) }
    ensures appends { F.append_faults files.new ≡ F.append_faults files.old }
{
    // For the prover: each number is in the range of its type. It does nothing.
    certificate_is_in_range(certificate);
    match replay_against(alloc, files, right, log) {
        Ok(replay) => or_no_memory(audited(alloc, &replay.core, right, file)),
        Err(fault) => not_beside(alloc, file, log, fault),
    }
}

/// How the run ends where the replay of the log stopped. Where the log is of another configuration, the
/// certificate's file is named.
fn not_beside(alloc: Global, file: &str, log: &str, fault: StartFault) -> Ending
    ensures said { IfOk result (λ e. (Err e ≡ or_parted file.now log.now (Err fault)) × IsReadEnd e.status × (IsOutside fault → ⊥)) }
    ensures cause { (before now : ℕ) → IsReplayCounted {T = Unit {0}} before now (Err fault) → IsReadCounted before now result }
    ensures read { IfErr result (λ f. f ≡ RunFaults.Read → fault ≡ StartFaults.Log LogErrors.ReadFault) }
{
    match fault {
        StartFault::OtherConfig => Ok(other_config(alloc, file)?),
        fault => stopped(alloc, log, fault),
    }
}

/// Audits the log under this word against a node.
fn audit_against<F: Files>(alloc: Global, files: &mut F, left: &Core, right: &str) -> Ending
    // The left node is what some log left.
    ensures audited { IsTrue F.tells → (bytes : List ℕ) (taken : Taken) → replay_of None bytes ≡ Ok taken → taken.core ≡ left.now → IfOk result (λ e. IsAudited (F.held files.old) left.now right.now e) }
    ensures status { IfOk result (λ e. IsAuditEnd e.status) }
    ensures fault { HasReadFault (F.read_faults files.old) (F.read_faults files.new) result }
    ensures about { IsTrue F.tells → IfErr result (λ fault. fault ≡ RunFaults.Read → FailsOrLacks (F.held files.old right.now) right.now (F.faults_about files.old) (F.faults_about files.new)) }

    ensures files { SameFiles (F.held files.old) (F.held files.new) }
    ensures appends { F.append_faults files.new ≡ F.append_faults files.old }
{
    match replay_against(alloc, files, left, right) {
        Ok(replay) => {
            let ended = or_no_memory(audited(alloc, left, &replay.core, right));
            replay.core.leave();
            ended
        }
        Err(fault) => stopped(alloc, right, fault),
    }
}

/// How a part of a run ends that reads no file.
pub fn or_no_memory(part: Result<Ended, OutOfMemory>) -> Ending
    ensures ended { IfOk result (λ e. part ≡ Ok e) }
    ensures fault { IfErr result (λ fault. fault ≡ RunFaults.OutOfMemory) }
{
    Ok(part?)
}

/// Replays the log under this word, if it is of the node's configuration.
fn replay_against<F: Files>(
    alloc: Global,
    files: &mut F,
    left: &Core,
    right: &str,
) -> Result<Replay, StartFault>
    ensures said { IsTrue F.tells → Replays (Some left.now.config) (F.held files.old right.now) result }
    ensures cause { HasReplayCause (F.read_faults files.old) (F.read_faults files.new) result }
    ensures about { IsTrue F.tells → IsReplayAbout (subject_of (F.held files.old right.now) right.now) (F.faults_about files.old) (F.faults_about files.new) result }

    ensures files { SameFiles (F.held files.old) (F.held files.new) }
    ensures appends { F.append_faults files.new ≡ F.append_faults files.old }
{
    replay_log(alloc, files, right, Some(left.state().config()))
}

/// The audit of two nodes, of which the right one has the log of this name.
fn audited(alloc: Global, left: &Core, right: &Core, name: &str) -> Result<Ended, OutOfMemory>
    ensures told { IfOk result (λ e. same_config left.now.config right.now.config ≡ true → TellsVerdict left.now right.now e) }
    ensures status { IfOk result (λ e. IsAuditEnd e.status) }
{
    // For the prover: each number is in the range of its type. It does nothing.
    config_is_in_range(left.state().config());
    config_is_in_range(right.state().config());
    match audit(alloc, left, right) {
        Ok(verdict) => verdict_ended(alloc, &verdict, left.state().config()),
        Err(AuditError::Instances) => other_config(alloc, name),
        Err(AuditError::OutOfMemory) => Err(OutOfMemory),
    }
}

/// How an audit ends that has this verdict.
fn verdict_ended(alloc: Global, verdict: &Verdict, config: &Config) -> Result<Ended, OutOfMemory>
    ensures { IfOk result (λ e. e ≡ verdict_ended config.now.ftt verdict.now) }
{
    Ok(Ended {
        status: status_of(verdict),
        text: audit_text(alloc, verdict, config)?,
    })
}
