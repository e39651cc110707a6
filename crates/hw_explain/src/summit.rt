//! The summit of a decided block.

ghost use Rattle.std.specs.{Prelude.{◌≡◌, ◌++◌, length, IfOk, OnOk}, List.{flat_map}};
ghost use Rattle.hw_types.specs.Real.{received_in};
ghost use Rattle.hw_text.specs.Lines.{spaced};
ghost use Rattle.hw_explain.specs.{Explain.{committee_of, explained_line}, Searched.{IsFresh, IsDecidedNow, IsFound}};

use crate::committee::put_committee;
use crate::lines::put_final_words;
use hw_core::Core;
use hw_horizon::Horizons;
use hw_text::end_line;
use hw_types::{Bytes, Decision, OutOfMemory};
use std::alloc::Global;

/// Puts the line of a block that is decided now last.
#[tactic(auto, using(crate::proofs::LineLaws::explained_parts))]
pub(crate) fn put_line(
    alloc: Global,
    text: &mut Bytes,
    core: &Core,
    decision: &Decision,
) -> Result<(), OutOfMemory>
    requires { IsDecidedNow core.now decision.now }
    ensures { OnOk result (text.new ≡ text.old ++ explained_line core.now.config (received_in core.now) decision.now) }
{
    put_final_words(text, decision)?;
    put_summit(alloc, text, core, decision)?;
    end_line(text)
}

/// Puts the last committee of a block that is decided now last, each word after a space: its members in rising
/// order, each with its starts. It is that of the greatest summit for the block.
pub fn put_summit(
    alloc: Global,
    text: &mut Bytes,
    core: &Core,
    decision: &Decision,
) -> Result<(), OutOfMemory>
    requires { IsDecidedNow core.now decision.now }
    ensures { OnOk result (text.new ≡ text.old ++ flat_map spaced (committee_of core.now.config (received_in core.now) decision.now)) }
{
    let mut search = search_for(alloc, core)?;
    find(&mut search, core, decision);
    put_committee(text, &search, decision.level, validators(core))
}

/// A search for the summits of this node, of which nothing is kept yet. What an earlier search kept may be
/// of a panorama that has changed since, so each line has its own.
fn search_for(alloc: Global, core: &Core) -> Result<Horizons, OutOfMemory>
    ensures { IfOk result (λ search. IsFresh search core.now.config) }
{
    let levels = u32::from(core.state().config().levels);
    Horizons::new(alloc, validators(core), levels)
}

/// Finds the greatest summit of a block that is decided now.
fn find(search: &mut Horizons, core: &Core, decision: &Decision)
    requires fresh { IsFresh search.old core.now.config }
    requires now { IsDecidedNow core.now decision.now }
    ensures { IsFound core.now decision.now search.new }
{
    let state = core.state();
    let dag = state.dag();
    let panorama = state.panorama();
    if let Some(block) = dag.find(&decision.block) {
        let _found = search.greatest(
            dag,
            &state.config().weights,
            panorama,
            block,
            decision.level,
            decision.quorum,
        );
    }
}

/// How many validators there are.
#[tactic(auto, using(hw_types::proofs::LimitLaws::within_limits))]
pub(crate) fn validators(core: &Core) -> u32
    ensures { result ≡ length core.now.config.weights }
{
    core.state().config().weights.len() as u32
}
