//! Two nodes side by side.

ghost use Rattle.std.specs.Prelude.{◌≡◌, ◌≢◌, ◌↔◌, ◌++◌, List, Err, IfOk, OnOk};
ghost use Rattle.hw_types.specs.{declared.answers.Decision.{Decision}, Real.{setting_of}};
ghost use Rattle.hw_safety.specs.Verdicts.{chain_of};
ghost use Rattle.hw_audit.specs.{Read.{units_of, IsAnswer}, First.{ShowsFirstClash}, Audit.{IsVerdictOn, IsWeighty}};
ghost use Rattle.hw_audit.specs.declared.nodes.AuditError.TheVariants as AuditErrors;
ghost use Rattle.hw_core.specs.Decided.{decided_in};

use crate::held::{Held, put_units};
use crate::same::is_same_config;
use crate::verdict::verdict;
use hw_core::Core;
use hw_safety::Verdict;
use hw_types::{Digest, OutOfMemory};
use std::alloc::Global;

/// Why there is no verdict on two nodes.
#[derive(Clone, Copy, Debug, PartialEq, Eq)]
pub enum AuditError {
    /// They are of different configurations.
    Instances,
    /// Out of memory.
    OutOfMemory,
}

impl From<OutOfMemory> for AuditError {
    ghost from_gives = { λ _ e. e ≡ AuditErrors.OutOfMemory };

    fn from(_e: OutOfMemory) -> AuditError {
        AuditError::OutOfMemory
    }
}

/// What the journals of two nodes of one configuration say of each other.
///
/// A clash comes before all else: units of the two journals that differ and have one digest. Otherwise
/// the nodes agree, where one chain of decided blocks begins the other, or they are in conflict. A
/// conflict names all who equivocated, each with its first two units at its least number, and they weigh
/// more than the threshold.
///
/// Instances is answered exactly when the configurations differ.
pub fn audit(alloc: Global, left: &Core, right: &Core) -> Result<Verdict, AuditError>
    ensures instances { (left.now.config ≢ right.now.config) ↔ (result ≡ Err AuditErrors.Instances) }
    // What is answered otherwise is the verdict on the two, and a clash that is shown is the first one.
    ensures verdict { IfOk result (λ verdict. IsVerdictOn left.now right.now verdict) }
    ensures first { IfOk result (λ verdict. ShowsFirstClash (setting_of left.now.config) left.now.journal right.now.journal verdict) }

    // The culprits of a conflict weigh more than the threshold.
    ensures accountable { IfOk result (λ verdict. IsWeighty left.now.config.ftt verdict) }
{
    if !is_same_config(left.state().config(), right.state().config()) {
        return Err(AuditError::Instances);
    }
    let left_chain = blocks(alloc, left)?;
    let right_chain = blocks(alloc, right)?;
    let verdict = verdict_on(alloc, left, right, &left_chain, &right_chain)?;
    Ok(verdict)
}

/// The node's decided blocks, by height.
fn blocks(alloc: Global, core: &Core) -> Result<Vec<Digest>, OutOfMemory>
    ensures { IfOk result (λ blocks. blocks.items ≡ chain_of (decided_in core.now)) }
{
    let mut blocks = Vec::new(alloc);
    for index in 0..core.decision_count() {
        blocks.push(core.decision(index).block)?;
    }
    Ok(blocks)
}

/// The verdict on two nodes of one configuration that decided these blocks.
fn verdict_on(
    alloc: Global,
    left: &Core,
    right: &Core,
    left_chain: &[Digest],
    right_chain: &[Digest],
) -> Result<Verdict, OutOfMemory>
    requires { left.now.config ≡ right.now.config }
    ensures { IfOk result (λ verdict. (dl dr : List Decision) → left_chain.now ≡ chain_of dl → right_chain.now ≡ chain_of dr
        → IsAnswer left.now.config left.now.journal right.now.journal dl dr verdict) }
{
    let mut units = Vec::new(alloc);
    put_journal(alloc, left, &mut units)?;
    let middle = units.len();
    put_journal(alloc, right, &mut units)?;
    let weights = left.state().config().weights.as_slice();
    verdict(alloc, weights, &units, middle, left_chain, right_chain)
}

/// Puts the units of the node's journal last.
fn put_journal<'a>(
    alloc: Global,
    core: &'a Core,
    units: &mut Vec<Held<'a>>,
) -> Result<(), OutOfMemory>
    ensures { OnOk result (units.new.items ≡ units.old.items ++ units_of core.now.config core.now.journal) }
{
    let dag = core.state().dag();
    let mut names = core.unit_names();
    for place in 0..core.journal_count() {
        names = put_units(alloc, dag, core.journal_at(place), names, units)?;
    }
    Ok(())
}
