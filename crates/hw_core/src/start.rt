//! What a node has beside its state before it has received anything.

ghost use Rattle.std.specs.Prelude.{◌≡◌, [], length, None, IfOk};
ghost use Rattle.hw_types.specs.{Limits.{config_fault}, Spelling.{instance_of}};
ghost use Rattle.hw_dag.specs.Dag.{UnitGraph};
ghost use Rattle.hw_horizon.specs.{Kept.{AreKept}, Detected.{IsTrueOf}};

use crate::decided::Decided;
use crate::shown::Shown;
use hw_codec::instance_of;
use hw_dag::Prepared;
use hw_park::Park;
use hw_types::{Config, Digest, OutOfMemory};
use std::alloc::Global;

/// The parts of a node that take memory, beside its state.
#[derive(Drop)]
pub struct Start {
    pub instance: Digest,
    pub park: Park<Prepared>,
    pub decided: Decided,
    pub shown: Shown,
}

/// Nothing is parked, decided or shown so far, under a lawful configuration.
pub fn begin(alloc: Global, config: &Config) -> Result<Start, OutOfMemory>
    requires { config_fault config.now ≡ None }
    ensures instance { IfOk result (λ start. start.instance ≡ instance_of config.now) }
    ensures park { IfOk result (λ start. start.park ≡ record { limit = config.now.max_parked; waiting = [] }) }
    ensures config { IfOk result (λ start. start.decided.detector.config ≡ config.now) }
    ensures none { IfOk result (λ start. start.decided.detector.found ≡ []) }
    ensures empty { IfOk result (λ start. start.decided.decisions ≡ []) }
    ensures true_of { IfOk result (λ start. (dag : UnitGraph) → IsTrueOf start.decided.detector dag) }
    ensures validators { IfOk result (λ start. start.shown.search.validators ≡ length config.now.weights) }
    ensures levels { IfOk result (λ start. start.shown.search.levels ≡ config.now.levels) }
    ensures walks { IfOk result (λ start. (dag : UnitGraph) → AreKept dag start.shown.search.walks) }
    ensures unshown { IfOk result (λ start. start.shown.asked ≡ None) }
{
    let instance = instance_of(alloc, config)?;
    let decided = Decided::new(alloc, config)?;
    let shown = Shown::new(alloc, config)?;
    let park = Park::new(alloc, config.max_parked)?;
    Ok(Start {
        instance,
        park,
        decided,
        shown,
    })
}
