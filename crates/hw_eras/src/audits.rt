//! The audit of the eras of two nodes.

ghost use Rattle.std.specs.Prelude.{◌≡◌, ◌<◌, ◌≤◌, ◌++◌, length, map, slice_get, string_bytes, Some, IsTrue, IfOk, IfErr};
ghost use Rattle.hw_io.specs.Files.{SameFiles};
ghost use Rattle.hw_eras.specs.Nodes.{first_config};
ghost use Rattle.hw_eras.specs.declared.verdict.EraVerdict.TheVariants as EraVerdicts;
ghost use Rattle.hw_eras.specs.Audits.{agreed, TellsVerdict, logs_audited, IsAudit, IsAuditOfLogs, IsAuditEnd};
ghost use Rattle.hw_eras.specs.Stops.{Says, IsOfLogs, HasEraCause, IsEraAbout};
ghost use Rattle.hw_eras.specs.Turns.{HasTurnIn, StopsAt};

use crate::filled::Filled;
use crate::reports::put_era;
use crate::stop::EraFault;
use crate::{AuditError, EraVerdict, Eras, audit_eras};
use hw_audit::{AGREE, Verdict, audit_text, status_of};
use hw_core::Core;
use hw_io::Files;
use hw_text::{end_line, put_numbered};
use hw_types::{Bytes, OutOfMemory};
use std::alloc::Global;

/// What an audit of the eras of two nodes comes to.
#[derive(Drop)]
pub struct EraAudit {
    /// 0 where they agree, 3 where they are in conflict, and 9 where two different units have one digest.
    pub status: u8,
    pub text: Bytes,
}

/// Replays these logs into the eras of two nodes, and says what the eras say of each other.
///
/// The left logs are all replayed before the first right one, which must be of the left ones' first
/// configuration; each other one must be of its era's. Where the two don't agree in an era, the text gives the
/// first such era. Otherwise it gives in how many blocks of all eras together they agree.
///
/// An error names the log that stopped the run, or is out of memory.
pub fn audit_logs<'a, F: Files>(
    alloc: Global,
    files: &mut F,
    left: &'a [String],
    right: &'a [String],
) -> Result<EraAudit, EraFault<'a>>
    requires left_some { 1 ≤ length left.now }
    requires left_few { length left.now ≤ 64 }
    requires right_some { 1 ≤ length right.now }
    requires right_few { length right.now ≤ 64 }
    ensures said { IsTrue F.tells → Says (logs_audited (F.held files.old) (map string_bytes left.now) (map string_bytes right.now)) result }
    ensures audit { IsTrue F.tells → IfOk result (IsAuditOfLogs (F.held files.old) (map string_bytes left.now) (map string_bytes right.now)) }
    ensures status { IfOk result (λ e. IsAuditEnd e.status) }
    ensures named { IfErr result (IsOfLogs (map string_bytes left.now ++ map string_bytes right.now)) }
    ensures cause { HasEraCause (F.read_faults files.old) (F.read_faults files.new) result }
    ensures about { IsTrue F.tells → IsEraAbout (F.held files.old) (F.faults_about files.old) (F.faults_about files.new) result }
    ensures turn { IsTrue F.tells → IfErr result (StopsAt (HasTurnIn (F.held files.old) (map string_bytes left.now) (map string_bytes right.now))) }

    ensures files { SameFiles (F.held files.old) (F.held files.new) }
    ensures appends { F.append_faults files.new ≡ F.append_faults files.old }
{
    let left = Filled::of_logs(alloc, files, left)?;
    let right = Filled::of_logs_like(alloc, files, first_core(&left.eras), right)?;
    Ok(audited(alloc, &left.eras, &right.eras)?)
}

/// The node of era 0.
fn first_core(eras: &Eras) -> &Core
    ensures { slice_get eras.now 0 ≡ Some result.now }
{
    // For the prover: there is an era.
    let _count = eras.count();
    match eras.core(0) {
        Some(core) => core,
        None => unreachable!(),
    }
}

/// What the audit of the eras of two nodes comes to, which begin with one configuration.
fn audited(alloc: Global, left: &Eras, right: &Eras) -> Result<EraAudit, OutOfMemory>
    requires { first_config left.now ≡ first_config right.now }
    ensures audit { IfOk result (IsAudit left.now right.now) }
    ensures status { IfOk result (λ e. IsAuditEnd e.status) }
{
    // For the prover: they are eras of nodes.
    let (_left, _right) = (left.count(), right.count());
    match audit_eras(alloc, left, right) {
        Ok(EraVerdict::Agree { common }) => agreed(alloc, common),
        Ok(EraVerdict::At { era, verdict }) => differing(alloc, left, era, &verdict),
        Err(AuditError::OutOfMemory) => Err(OutOfMemory),
        // They begin with one configuration.
        Err(AuditError::Instances) => unreachable!(),
    }
}

/// The eras agree in this many blocks.
#[tactic(auto, using(std::proofs::Common::append_assoc), unfolding(hw_audit::specs::Text::agree_line))]
fn agreed(alloc: Global, common: u64) -> Result<EraAudit, OutOfMemory>
    ensures { IfOk result (λ e. e ≡ agreed common) }
{
    let mut text = Bytes::new(alloc);
    put_numbered(&mut text, "agree ", common)?;
    end_line(&mut text)?;
    Ok(EraAudit {
        status: AGREE,
        text,
    })
}

/// This is the first era that doesn't agree, with its verdict.
fn differing(
    alloc: Global,
    left: &Eras,
    era: u32,
    verdict: &Verdict,
) -> Result<EraAudit, OutOfMemory>
    requires { era < length left.now }
    ensures { IfOk result (TellsVerdict left.now (EraVerdicts.At era verdict.now)) }
{
    let Some(core) = left.core(era) else {
        // The era is there.
        unreachable!()
    };
    let told = audit_text(alloc, verdict, core.state().config())?;
    let mut text = Bytes::new(alloc);
    put_era(&mut text, era)?;
    text.extend(told.as_slice())?;
    Ok(EraAudit {
        status: status_of(verdict),
        text,
    })
}
