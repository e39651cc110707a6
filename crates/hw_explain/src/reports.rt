//! The report on a node.

ghost use Rattle.std.specs.{Prelude.{◌≡◌, ◌<◌, ◌++◌, length, IfOk, OnOk}, List.{flat_map}};
ghost use Rattle.hw_types.specs.{Settled.{is_faulty}, Real.{setting_of, received_in, settled_in}};
ghost use Rattle.hw_core.specs.Decided.{decided_in};
ghost use Rattle.hw_explain.specs.Report.{final_line, counts_of, faulty_in, report_text};

use crate::lines::{Counts, put_counts, put_exceeded, put_faulty, put_final, put_fork};
use crate::summit::validators;
use hw_core::Core;
use hw_types::{Bytes, OutOfMemory};
use std::alloc::Global;

/// The report on a node. `refused` deliveries to it were refused, and `repeats` came again.
#[tactic(auto, using(crate::proofs::ReportLaws::report_parts))]
pub fn report(alloc: Global, core: &Core, refused: u64, repeats: u64) -> Result<Bytes, OutOfMemory>
    ensures { IfOk result (λ text. text ≡ report_text (setting_of core.now.config) core.now.journal refused repeats) }
{
    let mut text = Bytes::new(alloc);
    put_counts(&mut text, &counts(core, refused, repeats))?;
    put_faulty(&mut text, faulty(alloc, core)?.as_slice())?;
    put_fork(&mut text, core.fork())?;
    put_finals(&mut text, core)?;
    put_exceeded(&mut text, core.exceeded())?;
    Ok(text)
}

/// The numbers of the first line.
fn counts(core: &Core, refused: u64, repeats: u64) -> Counts
    ensures { result ≡ counts_of core.now.config (received_in core.now) refused repeats }
{
    Counts {
        units: core.settled_count(),
        parked: core.parked_count(),
        dropped: core.dropped_count(),
        refused,
        repeats,
    }
}

/// The faulty validators, in rising order.
#[tactic(auto, using(crate::proofs::ReportLaws::filter_passed, crate::proofs::ReportLaws::filter_left))]
pub fn faulty(alloc: Global, core: &Core) -> Result<Vec<u32>, OutOfMemory>
    ensures { IfOk result (λ faulty. faulty.items ≡ faulty_in core.now.config (received_in core.now)) }
{
    let mut faulty = Vec::new(alloc);
    for validator in 0..validators(core) {
        if is_faulty(core, validator) {
            faulty.push(validator)?;
        }
    }
    Ok(faulty)
}

/// Whether the validator is faulty.
fn is_faulty(core: &Core, validator: u32) -> bool
    requires { validator < length core.now.config.weights }
    ensures { result ≡ is_faulty (received_in core.now) (settled_in core.now) validator }
{
    core.state().is_faulty(validator)
}

/// Puts the lines of the decided blocks last.
#[tactic(auto, using(crate::proofs::ReportLaws::one_more))]
fn put_finals(text: &mut Bytes, core: &Core) -> Result<(), OutOfMemory>
    ensures { OnOk result (text.new ≡ text.old ++ flat_map final_line (decided_in core.now)) }
{
    for index in 0..core.decision_count() {
        put_final(text, core.decision(index))?;
    }
    Ok(())
}
