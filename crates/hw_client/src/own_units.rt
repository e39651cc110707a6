//! The validator's own units in what peers send.

ghost use Rattle.std.specs.Prelude.{◌≡◌, ◌↔◌, IsTrue, IfOk};
ghost use Rattle.hw_types.specs.Below.{Among};
ghost use Rattle.hw_types.specs.Journal.{named};
ghost use Rattle.hw_types.specs.Real.{setting_of, received_in};
ghost use Rattle.hw_types.specs.Spelling.{Fits, VertexFits};
ghost use Rattle.hw_honest.specs.OneLine.{BringsNoNew, units_by};

use hw_codec::digest_of;
use hw_core::Core;
use hw_types::{OutOfMemory, SignedUnit, Vertex, WireUnit, is_same_unit};
use std::alloc::Global;

/// Whether the node's journal has this unit, under whatever signature.
pub fn has_unit(alloc: Global, core: &Core, unit: &WireUnit) -> Result<bool, OutOfMemory>
    requires { Fits unit.now }
    ensures { IfOk result (λ has. IsTrue has ↔ Among (named (setting_of core.now.config) unit.now) (received_in core.now).units) }
{
    let _state = core.state();
    let name = digest_of(alloc, unit)?;
    match core.unit_of(&name) {
        Some(known) => Ok(is_same_unit(&known.unit, unit)),
        None => Ok(false),
    }
}

/// Whether the unit is another validator's, or one that the journal has.
fn is_no_new(alloc: Global, core: &Core, me: u32, signed: &SignedUnit) -> Result<bool, OutOfMemory>
    requires { Fits signed.now.unit }
    ensures { IfOk result (λ known. IsTrue known ↔ (signed.now.unit.creator ≡ me → Among (named (setting_of core.now.config) signed.now.unit) (units_by (setting_of core.now.config) core.now.journal me))) }
{
    if signed.unit.creator == me {
        has_unit(alloc, core, &signed.unit)
    } else {
        Ok(true)
    }
}

/// Whether the vertex brings no new unit by the validator, by itself or inside evidence. That is what the law on restart
/// asks of each vertex that a validator's node takes from a peer.
pub fn brings_no_new(
    alloc: Global,
    core: &Core,
    me: u32,
    vertex: &Vertex,
) -> Result<bool, OutOfMemory>
    requires { VertexFits vertex.now }
    ensures { IfOk result (λ none. IsTrue none ↔ BringsNoNew (setting_of core.now.config) core.now.journal me vertex.now) }
{
    match vertex {
        Vertex::Unit(signed) => is_no_new(alloc, core, me, signed),
        Vertex::Evidence(evidence) => {
            if !is_no_new(alloc, core, me, &evidence.left)? {
                return Ok(false);
            }
            is_no_new(alloc, core, me, &evidence.right)
        }
        Vertex::Endorsement(_) => Ok(true),
    }
}
