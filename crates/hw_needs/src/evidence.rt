//! Evidence against a validator.

ghost use Rattle.std.specs.{Prelude.{◌≡◌, ◌<◌, ◌↔◌, ℕ, false, true, length, None, IsTrue, IfOk, OnOk, IfSome}, Option.{option_map}};
ghost use Rattle.hw_types.specs.{Settled.{is_faulty}, Spelling.{VertexFits}, Real.{received_in, settled_in}, Culprits.{pair_of}};
ghost use Rattle.hw_types.specs.declared.unit.Vertex.TheVariants as vertex;
ghost use Rattle.hw_core.specs.Readers.{unit_in};
ghost use Rattle.hw_needs.specs.{Needs.{evidence_against, settled_evidence, evidence_between}, Pairs.{names_of, ArePairs, StayKept, IsPairKept, IsSoughtKept}};

use crate::forks::pair_of;
use crate::pairs::{KnownPairs, PairNames};
use hw_core::Core;
use hw_types::{Digest, Evidence, OutOfMemory};
use std::alloc::Global;

/// The evidence against the validator: that of the node's journal, or else one of two settled units, each as
/// the journal has it signed. These are, at the least sequence number at which the validator has two, the two
/// of the least digests, the lesser one left. There is none exactly where the validator isn't faulty.
///
/// Where the journal has none, it goes over the settled units three times.
pub fn evidence_of(
    alloc: Global,
    core: &Core,
    validator: u32,
) -> Result<Option<Evidence>, OutOfMemory>
    ensures evidence { IfOk result (λ evidence. evidence ≡ evidence_against core.now validator) }
    ensures none { IfOk result (λ evidence. (evidence ≡ None) ↔ (is_faulty (received_in core.now) (settled_in core.now) validator ≡ false)) }
    ensures fits { IfOk result (λ evidence. IfSome evidence (λ known. VertexFits (vertex.Evidence known))) }
{
    evidence_with(alloc, core, &mut KnownPairs::new(alloc), validator)
}

/// The evidence against the validator, with the pairs that were looked for.
pub(crate) fn evidence_with(
    alloc: Global,
    core: &Core,
    pairs: &mut KnownPairs,
    validator: u32,
) -> Result<Option<Evidence>, OutOfMemory>
    requires pairs { ArePairs core.now pairs.old }
    ensures evidence { IfOk result (λ evidence. evidence ≡ evidence_against core.now validator) }
    ensures none { IfOk result (λ evidence. (evidence ≡ None) ↔ (is_faulty (received_in core.now) (settled_in core.now) validator ≡ false)) }
    ensures fits { IfOk result (λ evidence. IfSome evidence (λ known. VertexFits (vertex.Evidence known))) }
    ensures pairs { ArePairs core.now pairs.new }
    ensures kept { OnOk result (IsSoughtKept core.now validator pairs.new) }
    ensures stay { StayKept pairs.old pairs.new }
{
    // For the prover: each evidence of a journal is a pair.
    let _state = core.state();
    match core.evidence_against(validator) {
        Some(evidence) => Ok(Some(evidence.copy()?)),
        None => {
            if is_faulty(core, validator) {
                let names = pairs.find(alloc, core, validator)?;
                named_evidence(core, names)
            } else {
                Ok(None)
            }
        }
    }
}

/// Whether the validator is faulty.
fn is_faulty(core: &Core, validator: u32) -> bool
    ensures { result ≡ is_faulty (received_in core.now) (settled_in core.now) validator }
{
    let state = core.state();
    if validator as usize >= state.config().weights.len() {
        return false;
    }
    state.is_faulty(validator)
}

/// The evidence of the two settled units of these names, None where there are none.
fn named_evidence(core: &Core, names: Option<PairNames>) -> Result<Option<Evidence>, OutOfMemory>
    ensures evidence { (v : ℕ) → names ≡ option_map names_of (pair_of (settled_in core.now) v) → IfOk result (λ evidence. evidence ≡ settled_evidence core.now v) }
    ensures fits { IfOk result (λ evidence. IfSome evidence (λ known. VertexFits (vertex.Evidence known))) }
{
    match names {
        Some(names) => evidence_between(core, &names.left, &names.right),
        None => Ok(None),
    }
}

impl KnownPairs {
    /// The names of the two settled units that show the validator, None where it has no two of one sequence number.
    /// They are looked for and kept where none are kept.
    fn find(
        &mut self,
        alloc: Global,
        core: &Core,
        validator: u32,
    ) -> Result<Option<PairNames>, OutOfMemory>
        requires pairs { ArePairs core.now self.old }
        ensures names { IfOk result (λ names. names ≡ option_map names_of (pair_of (settled_in core.now) validator)) }
        ensures pairs { ArePairs core.now self.new }
        ensures kept { OnOk result (validator < length core.now.config.weights → IsPairKept core.now validator self.new) }
        ensures stay { StayKept self.old self.new }
    {
        if let Some(names) = self.of(validator) {
            return Ok(Some(names));
        }
        match pair_names(alloc, core, validator)? {
            Some(names) => {
                self.keep(core, validator, names)?;
                Ok(Some(names))
            }
            None => Ok(None),
        }
    }
}

/// The names of the two settled units that show the validator, None where it has no two of one sequence number.
fn pair_names(alloc: Global, core: &Core, validator: u32) -> Result<Option<PairNames>, OutOfMemory>
    ensures { IfOk result (λ names. names ≡ option_map names_of (pair_of (settled_in core.now) validator)) }
{
    let dag = core.state().dag();
    match pair_of(alloc, dag, validator)? {
        Some((left, right)) => Ok(Some(PairNames {
            left: *dag.unit(left).digest(),
            right: *dag.unit(right).digest(),
        })),
        None => Ok(None),
    }
}

/// The evidence of the journal's units of these digests, None where it lacks one.
fn evidence_between(
    core: &Core,
    left: &Digest,
    right: &Digest,
) -> Result<Option<Evidence>, OutOfMemory>
    ensures evidence { IfOk result (λ evidence. evidence ≡ evidence_between (unit_in core.now left.now) (unit_in core.now right.now)) }
    ensures fits { IfOk result (λ evidence. IfSome evidence (λ known. VertexFits (vertex.Evidence known))) }
{
    let Some(left) = core.unit_of(left) else {
        return Ok(None);
    };
    let Some(right) = core.unit_of(right) else {
        return Ok(None);
    };
    Ok(Some(Evidence {
        left: left.copy()?,
        right: right.copy()?,
    }))
}
