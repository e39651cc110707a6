//! A validator's host over a node.

ghost use Rattle.std.specs.Prelude.{◌≡◌, ◌<◌, ◌≤◌, ◌^◌, length};
ghost use Rattle.hw_types.specs.Real.{setting_of};
ghost use Rattle.hw_types.specs.Spelling.{VertexFits};
ghost use Rattle.hw_honest.specs.OneLine.{OneLine};
ghost use Rattle.hw_client.specs.Hosting.{HostNeverEquivocates, GoesOnFromLog};

use crate::own_units::brings_no_new;
use hw_codec::fits;
use hw_core::{Core, Refused};
use hw_honest::{delivery_keeps_one_line, step_keeps_one_line};
use hw_types::{Plan, Receipt, Signature, SignedUnit, Vertex};
use hw_validator::{next_unit, steps_are_of_journals};
use std::alloc::Global;

/// What a host gets by asking for its unit.
#[derive(Drop)]
pub enum Proposed {
    /// There is none to make.
    Nothing,
    /// No memory, and nothing changed.
    OutOfMemory,
    /// The node took it, or refused it.
    Made(Result<Receipt, Refused>),
}

/// What became of a vertex that a peer sent.
#[derive(Drop)]
pub enum Heard {
    /// The node took it, or refused it.
    Delivered(Result<Receipt, Refused>),
    /// It has a unit by the validator that the journal lacks. It comes back, and nothing changed.
    OwnUnit(Vertex),
    /// No memory to look. It comes back, and nothing changed.
    OutOfMemory(Vertex),
}

/// A host that delivers what it plans, takes what peers send as `hear` does, and starts again from its journal, makes
/// no two units of one number. What was stored of its journal, delivered again, is the journal.
pub fn hosts_never_equivocate()
    ensures never { HostNeverEquivocates }
    ensures log { GoesOnFromLog }
{}

/// Plans the validator's unit, signs it by this signature, and delivers it. The validator's units stay on one line.
pub fn propose(
    alloc: Global,
    core: &mut Core,
    me: u32,
    now: u64,
    value: &[u8],
    signature: Signature,
) -> Proposed
    requires me { me < length core.old.config.weights }
    requires now { now < 2 ^ 63 }
    requires value { length value.now ≤ 4096 }
    requires line { OneLine (setting_of core.old.config) core.old.journal me }
    ensures config { core.new.config ≡ core.old.config }
    ensures line { OneLine (setting_of core.new.config) core.new.journal me }
{
    step_keeps_one_line();
    steps_are_of_journals();
    let planned = next_unit(alloc, core.state(), me, now, value);
    match planned {
        Err(_) => Proposed::OutOfMemory,
        Ok(None) => Proposed::Nothing,
        Ok(Some(plan)) => {
            if !fits(&plan.unit) {
                return Proposed::Nothing;
            }
            let unit = SignedUnit {
                unit: plan.unit,
                signature,
            };
            Proposed::Made(core.deliver(Vertex::Unit(unit), true))
        }
    }
}

/// Delivers what a peer sent, unless it brings a new unit by the validator. The validator's units stay on one line.
pub fn hear(alloc: Global, core: &mut Core, me: u32, vertex: Vertex, verdict: bool) -> Heard
    requires fits { VertexFits vertex }
    requires line { OneLine (setting_of core.old.config) core.old.journal me }
    ensures config { core.new.config ≡ core.old.config }
    ensures line { OneLine (setting_of core.new.config) core.new.journal me }
{
    delivery_keeps_one_line();
    let _state = core.state();
    match brings_no_new(alloc, core, me, &vertex) {
        Err(_) => Heard::OutOfMemory(vertex),
        Ok(false) => Heard::OwnUnit(vertex),
        Ok(true) => Heard::Delivered(core.deliver(vertex, verdict)),
    }
}
