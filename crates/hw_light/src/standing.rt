//! Whether a block has a summit for a node.

ghost use Rattle.std.specs.Prelude.{◌≡◌, ◌<◌, ◌↔◌, length, IsTrue, IfOk};
ghost use Rattle.hw_dag.specs.Dag.{count_of};
ghost use Rattle.hw_light.specs.Standing.{BlockStands, HasLevelWithin, IsFresh};

use hw_admit::State;
use hw_core::Core;
use hw_dag::UnitNo;
use hw_horizon::Horizons;
use hw_types::{Digest, OutOfMemory, quorum};
use std::alloc::Global;

/// Whether the block of this digest has a summit for the node, at any level.
pub(crate) fn stands(alloc: Global, core: &Core, block: &Digest) -> Result<bool, OutOfMemory>
    ensures { IfOk result (λ answer. IsTrue answer ↔ BlockStands core.now block.now) }
{
    let mut search = search_for(alloc, core)?;
    Ok(stands_in(&mut search, core, block))
}

/// A search for the summits of this node, of which nothing is kept yet.
#[tactic(auto, using(hw_types::proofs::LimitLaws::within_limits))]
pub(crate) fn search_for(alloc: Global, core: &Core) -> Result<Horizons, OutOfMemory>
    ensures { IfOk result (λ search. IsFresh search core.now.config) }
{
    let config = core.state().config();
    Horizons::new(alloc, config.weights.len() as u32, u32::from(config.levels))
}

/// Whether the block of this digest has a summit for the node, by this search.
fn stands_in(search: &mut Horizons, core: &Core, block: &Digest) -> bool
    requires { IsFresh search.old core.now.config }
    ensures { IsTrue result ↔ BlockStands core.now block.now }
{
    let state = core.state();
    match state.dag().find(block) {
        Some(number) => has_level(search, state, number),
        None => false,
    }
}

/// Whether the unit of this number has a summit of some level, with the quorum of the level.
fn has_level(search: &mut Horizons, state: &State, block: UnitNo) -> bool
    requires fresh { IsFresh search.old state.now.config }
    requires known { block.0 < count_of state.now.dag }
    ensures { IsTrue result ↔ HasLevelWithin state.now block.0 state.now.config.levels }
{
    let config = state.config();
    let dag = state.dag();
    let panorama = state.panorama();
    let total = config.total();
    for below in 0..u32::from(config.levels) {
        let level = below + 1;
        let quorum = quorum(total, config.ftt, level);
        if search.greatest(dag, &config.weights, panorama, block, level, quorum) {
            return true;
        }
    }
    false
}
