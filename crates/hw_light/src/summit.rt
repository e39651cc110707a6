//! The units under the summit of a decided block.

ghost use Rattle.std.specs.Prelude.{◌≡◌, ◌↔◌, Some, slice_get, IsTrue, IfOk, IfSome, IfNone};
ghost use Rattle.hw_horizon.specs.Search.{committees_of};
ghost use Rattle.hw_core.specs.{Decided.{decided_in}, Shown.{HasSummitNow}};
ghost use Rattle.hw_light.specs.{Standing.{IsStateOf, IsFresh}, Certify.{IsGreatestNow}, Under.{AreUnder}};

use crate::standing::search_for;
use crate::under::numbers_under;
use hw_admit::State;
use hw_core::Core;
use hw_dag::UnitNo;
use hw_horizon::Horizons;
use hw_types::{Decision, OutOfMemory};
use std::alloc::Global;

/// The numbers of the units at or below the latest units of a first committee, in the order in which they
/// settled. The committee is that of the greatest summit that this decided block has now. None exactly when it
/// has no summit now.
pub(crate) fn summit_units(
    alloc: Global,
    core: &Core,
    state: &State,
    decision: &Decision,
    index: u64,
) -> Result<Option<Vec<UnitNo>>, OutOfMemory>
    requires of { IsStateOf core.now state.now }
    requires at { slice_get (decided_in core.now) index ≡ Some decision.now }
    ensures under { IfOk result (λ found. IfSome found (λ numbers. AreUnder core.now index decision.now state.now.dag numbers.items)) }
    ensures none { IfOk result (λ found. IfNone found (HasSummitNow core.now index → ⊥)) }
{
    let mut search = search_for(alloc, core)?;
    if !find_summit(&mut search, core, state, decision, index) {
        return Ok(None);
    }
    let numbers = numbers_under(alloc, &search, state.dag(), state.panorama())?;
    Ok(Some(numbers))
}

/// Whether this decided block has a summit now. The search then keeps the greatest.
fn find_summit(
    search: &mut Horizons,
    core: &Core,
    state: &State,
    decision: &Decision,
    index: u64,
) -> bool
    requires fresh { IsFresh search.old core.now.config }
    requires of { IsStateOf core.now state.now }
    requires at { slice_get (decided_in core.now) index ≡ Some decision.now }
    ensures exact { IsTrue result ↔ HasSummitNow core.now index }
    ensures greatest { IsTrue result → IsGreatestNow core.now index decision.now (committees_of search.new) }
{
    let dag = state.dag();
    let weights = &state.config().weights;
    let panorama = state.panorama();
    let level = decision.level;
    match dag.find(&decision.block) {
        Some(block) => search.greatest(dag, weights, panorama, block, level, decision.quorum),
        None => false,
    }
}
