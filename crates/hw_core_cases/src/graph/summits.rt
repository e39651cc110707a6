//! Summits.

ghost use Rattle.std.specs.Prelude.{◌≡◌, ◌<◌, ◌≤◌, true, IsTrue};
ghost use Rattle.hw_types.specs.Graph.{is_consistent};
ghost use Rattle.hw_dag.specs.{Dag.{graph, observations, count_of, IsPanorama}, Lanes.{AreWeights}};
ghost use Rattle.hw_horizon.specs.Kept.{AreKept};

use crate::graph::panoramas::consistent_of;
use hw_admit::State;
use hw_case_words::{Answer, named, number, small};
use hw_dag::{Panorama, UnitNo};
use hw_horizon::Horizons;

/// Searches go up to this level.
const LEVELS: u32 = 4;

/// Whether the block has a summit of this level and quorum in this panorama, and its starts.
pub fn summit(answer: &mut Answer, state: &State, words: &[&str]) {
    let [block, level, quorum, cites @ ..] = words else {
        return answer.refuse();
    };
    let panorama = consistent_of(answer.alloc(), state.dag(), cites);
    match (panorama, state.dag().find(&named(block))) {
        (Some(panorama), Some(block)) => {
            summit_in(
                answer,
                state,
                &panorama,
                block,
                small(level),
                number(quorum),
            );
        }
        _ => answer.refuse(),
    }
}

/// The same with scratch of its own.
fn summit_in(
    answer: &mut Answer,
    state: &State,
    panorama: &Panorama,
    block: UnitNo,
    level: u32,
    quorum: u64,
)
    requires panorama { IsPanorama state.now.dag panorama.now }
    requires consistent { IsTrue (is_consistent (graph state.now.dag) (observations state.now.dag panorama.now)) }
    requires known { block.0 < count_of state.now.dag }
{
    let validators = state.dag().validators();
    let Ok(mut horizons) = Horizons::new(answer.alloc(), validators, LEVELS) else {
        return answer.refuse();
    };
    if LEVELS < level {
        return answer.refuse();
    }
    let (dag, weights) = (state.dag(), &state.config().weights);
    // It is asked twice, so that the second search reads what the first one kept.
    let first = horizons.greatest(dag, weights, panorama, block, level, quorum);
    let again = horizons.greatest(dag, weights, panorama, block, level, quorum);
    answer.put("summit ");
    answer.truth(first && again);
    put_starts(answer, &horizons, validators);
}

/// For each validator with a start, its starts from level 0 on.
fn put_starts(answer: &mut Answer, horizons: &Horizons, validators: u32) {
    for validator in 0..validators {
        for level in 0..LEVELS {
            let Some(start) = horizons.start(level, validator) else {
                break;
            };
            put_start(answer, level, validator, start);
        }
    }
}

/// A start, the first one with its validator.
fn put_start(answer: &mut Answer, level: u32, validator: u32, start: u64) {
    if level == 0 {
        answer.put(" ");
        answer.number(validator as u64);
        answer.put(":");
    } else {
        answer.put(",");
    }
    answer.number(start);
}
