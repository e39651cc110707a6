//! The reports on the eras of a node.

ghost use Rattle.std.specs.Prelude.{◌≡◌, ◌≤◌, ◌++◌, length, map, string_bytes, None, IsTrue, IfOk, IfErr, OnOk};
ghost use Rattle.hw_io.specs.Files.{SameFiles};
ghost use Rattle.hw_eras.specs.Nodes.{AreNodeEras};
ghost use Rattle.hw_eras.specs.Logs.{eras_of};
ghost use Rattle.hw_eras.specs.Reports.{era_line, era_report, reports_from, logs_reported, AreReported};
ghost use Rattle.hw_eras.specs.Stops.{Says, IsOfLogs, HasEraCause, IsEraAbout};
ghost use Rattle.hw_eras.specs.Turns.{HasTurnOf, StopsAt};
ghost use Rattle.hw_eras.specs.Filled.{eras_in, counts_at};

use crate::filled::{EraCounts, Filled};
use crate::stop::EraFault;
use hw_core::Core;
use hw_explain::report;
use hw_io::Files;
use hw_text::{end_line, put_numbered, put_word};
use hw_types::{Bytes, OutOfMemory};
use std::alloc::Global;

/// Replays these logs into the eras of a node, one into each, and reports on each era that is there.
///
/// An era is there once the one before has decided its last block, and its log must be of its configuration.
/// After the last log there may be an era that has none; after the 64th log there is no further era. A limit or
/// a clash stops a replay, and other refusals are counted.
///
/// An error names the log that stopped the run, or is out of memory.
pub fn report_logs<'a, F: Files>(
    alloc: Global,
    files: &mut F,
    logs: &'a [String],
) -> Result<Bytes, EraFault<'a>>
    requires some { 1 ≤ length logs.now }
    requires few { length logs.now ≤ 64 }
    ensures said { IsTrue F.tells → Says (logs_reported (F.held files.old) (map string_bytes logs.now)) result }
    ensures eras { IsTrue F.tells → IfOk result (AreReported (eras_of (F.held files.old) None (map string_bytes logs.now))) }
    ensures named { IfErr result (IsOfLogs (map string_bytes logs.now)) }
    ensures cause { HasEraCause (F.read_faults files.old) (F.read_faults files.new) result }
    ensures about { IsTrue F.tells → IsEraAbout (F.held files.old) (F.faults_about files.old) (F.faults_about files.new) result }
    ensures turn { IsTrue F.tells → IfErr result (StopsAt (HasTurnOf (F.held files.old) None (map string_bytes logs.now))) }

    ensures files { SameFiles (F.held files.old) (F.held files.new) }
    ensures appends { F.append_faults files.new ≡ F.append_faults files.old }
{
    let filled = Filled::of_logs(alloc, files, logs)?;
    Ok(reports(&filled)?)
}

/// The report on each era, one after the other.
fn reports(filled: &Filled) -> Result<Bytes, OutOfMemory>
    ensures told { IfOk result (λ text. text ≡ reports_from 0 (eras_in filled.now)) }
    ensures eras { AreNodeEras filled.now.eras }
{
    let mut text = Bytes::new(filled.alloc);
    for era in 0..filled.eras.count() {
        let Some(core) = filled.eras.core(era) else {
            // The era is there.
            unreachable!()
        };
        put_report(filled.alloc, &mut text, era, core, counts_at(filled, era))?;
    }
    Ok(text)
}

/// What was counted in this era.
fn counts_at(filled: &Filled, era: u32) -> EraCounts
    ensures { result ≡ counts_at filled.now.counts.items era }
{
    match filled.counts.get(era as usize) {
        Some(counts) => *counts,
        None => EraCounts {
            refused: 0,
            repeats: 0,
        },
    }
}

/// Puts the report on an era last, after the line that names it.
#[tactic(auto, using(std::proofs::Common::append_assoc))]
fn put_report(
    alloc: Global,
    text: &mut Bytes,
    era: u32,
    core: &Core,
    counts: EraCounts,
) -> Result<(), OutOfMemory>
    ensures { OnOk result (text.new ≡ text.old ++ era_report era (record { core = core.now; refused = counts.refused; repeats = counts.repeats })) }
{
    put_era(text, era)?;
    let report = report(alloc, core, counts.refused, counts.repeats)?;
    text.extend(report.as_slice())
}

/// Puts the line that names an era last.
#[tactic(auto, using(std::proofs::Common::append_assoc), unfolding(crate::specs::Reports::era_line, hw_text::specs::Lines::line_of))]
pub fn put_era(text: &mut Bytes, era: u32) -> Result<(), OutOfMemory>
    ensures { OnOk result (text.new ≡ text.old ++ era_line era) }
{
    put_numbered(text, "era ", u64::from(era))?;
    end_line(text)
}
