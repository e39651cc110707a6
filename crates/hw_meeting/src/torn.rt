//! The validators that are torn for a node.

ghost use Rattle.std.specs.Prelude.{◌≡◌, ◌++◌, ◌∷◌, [], true, length, if◌then◌else◌, IfOk, OnOk};
ghost use Rattle.hw_types.specs.Real.{setting_of};
ghost use Rattle.hw_dag.specs.Dag.{graph};
ghost use Rattle.hw_agree.specs.Converge.{summaries, part, is_below_tip, is_torn, torn_for};
ghost use Rattle.hw_meeting.specs.Frames.{are_validators};

use hw_agree::LaneSummary;
use hw_core::Core;
use hw_dag::Dag;
use hw_types::{Digest, IndexList, Items, OutOfMemory};
use std::alloc::Global;

/// The validators that are torn for the node, in rising order, by the other node's summary.
///
/// Both nodes have units of each. Either one of the two has a tangle, or both have lines, the node's is no
/// shorter, and the other's tip isn't on it.
///
/// `mine` is the node's own summary.
pub fn torn_for(
    alloc: Global,
    core: &Core,
    mine: &[LaneSummary],
    theirs: &[LaneSummary],
) -> Result<IndexList, OutOfMemory>
    requires { mine.now ≡ summaries (setting_of core.now.config) core.now.journal }
    ensures torn { IfOk result (λ torn. torn ≡ torn_for (setting_of core.now.config) core.now.journal theirs.now) }

    // They fit a frame.
    ensures said { IfOk result (λ torn. are_validators (length core.now.config.weights) torn ≡ true) }
{
    let dag = core.state().dag();
    let mut torn = IndexList::new(alloc);
    for validator in 0..dag.validators() {
        let slot = validator as usize;
        let is_torn = is_torn(dag, part(mine, slot), part(theirs, slot));
        put_if(is_torn, validator, &mut torn)?;
    }
    Ok(torn)
}

/// Puts the item last, if `is_so`.
pub(crate) fn put_if<T: Drop>(is_so: bool, item: T, list: &mut Items<T>) -> Result<(), OutOfMemory>
    ensures { OnOk result (list.new ≡ list.old ++ (if is_so then item ∷ [] else [])) }
{
    if is_so { list.push(item) } else { Ok(()) }
}

/// What a summary says of a validator.
pub(crate) fn part(summary: &[LaneSummary], validator: usize) -> LaneSummary
    ensures { result ≡ part summary.now validator }
{
    match summary.get(validator) {
        Some(told) => *told,
        None => LaneSummary::Nothing,
    }
}

/// Whether the two don't fit, for the node that the first is of.
fn is_torn(dag: &Dag, mine: LaneSummary, theirs: LaneSummary) -> bool
    ensures { result ≡ is_torn (graph dag.now) mine theirs }
{
    match (mine, theirs) {
        (LaneSummary::Nothing, _) | (_, LaneSummary::Nothing) => false,
        (LaneSummary::Tangled, _) | (_, LaneSummary::Tangled) => true,
        (LaneSummary::Line(count, tip), LaneSummary::Line(their_count, their_tip)) => {
            their_count <= count && !is_below_tip(dag, &their_tip, &tip)
        }
    }
}

/// Whether a unit of the one name is on the lane of the unit of the other name.
#[tactic(auto, using(crate::proofs::TornLaws::both_found, crate::proofs::TornLaws::low_new, crate::proofs::TornLaws::high_new))]
fn is_below_tip(dag: &Dag, low: &Digest, high: &Digest) -> bool
    ensures { result ≡ is_below_tip (graph dag.now) low.now high.now }
{
    dag.recall_graph();
    let Some(high) = dag.find(high) else {
        return false;
    };
    match dag.find(low) {
        Some(low) => dag.on_lane(low, high),
        None => false,
    }
}
