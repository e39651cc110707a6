//! The vertices of a need.

ghost use Rattle.std.specs.{Prelude.{◌≡◌, map, IfOk, OnOk}, List.{All}};
ghost use Rattle.hw_types.specs.Spelling.{VertexFits};
ghost use Rattle.hw_types.specs.declared.unit.Vertex.TheVariants as vertex;
ghost use Rattle.hw_core.specs.Readers.{unit_in, endorsements_of};
ghost use Rattle.hw_needs.specs.{Needs.{vertices_of, unit_vertices, evidence_vertices, evidence_against}, Pairs.{ArePairs, StayKept, IsSoughtKept, IsNeedKept}};

use crate::evidence::evidence_with;
use crate::pairs::KnownPairs;
use hw_core::Core;
use hw_types::{Digest, Items, Need, OutOfMemory, Vertex};
use std::alloc::Global;

/// Vertices.
pub type VertexList = Items<Vertex>;

/// The vertices that the node has for the need, in order. These are the unit, the evidence against the validator
/// that [`crate::evidence_of`] gives, or the journal's endorsements of the unit. The list is empty exactly where
/// the node has none.
pub fn vertices_of(alloc: Global, core: &Core, need: &Need) -> Result<VertexList, OutOfMemory>
    ensures vertices { IfOk result (λ vertices. vertices ≡ vertices_of core.now need.now) }
    ensures fit { IfOk result (λ vertices. All VertexFits vertices) }
{
    vertices_with(alloc, core, &mut KnownPairs::new(alloc), need)
}

/// The vertices that the node has for the need, as [`vertices_of`] gives them. `pairs` were looked for before,
/// while the node's journal was as it is now. A pair that is looked for is kept among them.
pub fn vertices_with(
    alloc: Global,
    core: &Core,
    pairs: &mut KnownPairs,
    need: &Need,
) -> Result<VertexList, OutOfMemory>
    requires pairs { ArePairs core.now pairs.old }
    ensures vertices { IfOk result (λ vertices. vertices ≡ vertices_of core.now need.now) }
    ensures fit { IfOk result (λ vertices. All VertexFits vertices) }
    ensures pairs { ArePairs core.now pairs.new }
    ensures kept { OnOk result (IsNeedKept core.now need.now pairs.new) }
    ensures stay { StayKept pairs.old pairs.new }
{
    match need {
        Need::Unit(unit) => unit_vertices(alloc, core, unit),
        Need::Evidence(validator) => evidence_vertices(alloc, core, pairs, *validator),
        Need::Endorsed(unit) => endorsements(alloc, core, unit),
    }
}

/// The journal's unit of this digest, where there is one.
fn unit_vertices(alloc: Global, core: &Core, unit: &Digest) -> Result<VertexList, OutOfMemory>
    ensures vertices { IfOk result (λ vertices. vertices ≡ unit_vertices (unit_in core.now unit.now)) }
    ensures fit { IfOk result (λ vertices. All VertexFits vertices) }
{
    let mut vertices = VertexList::new(alloc);
    match core.unit_of(unit) {
        Some(unit) => {
            vertices.push(Vertex::Unit(unit.copy()?))?;
            Ok(vertices)
        }
        None => Ok(vertices),
    }
}

/// The evidence against the validator, where there is one.
fn evidence_vertices(
    alloc: Global,
    core: &Core,
    pairs: &mut KnownPairs,
    validator: u32,
) -> Result<VertexList, OutOfMemory>
    requires pairs { ArePairs core.now pairs.old }
    ensures vertices { IfOk result (λ vertices. vertices ≡ evidence_vertices (evidence_against core.now validator)) }
    ensures fit { IfOk result (λ vertices. All VertexFits vertices) }
    ensures pairs { ArePairs core.now pairs.new }
    ensures kept { OnOk result (IsSoughtKept core.now validator pairs.new) }
    ensures stay { StayKept pairs.old pairs.new }
{
    let mut vertices = VertexList::new(alloc);
    match evidence_with(alloc, core, pairs, validator)? {
        Some(evidence) => {
            vertices.push(Vertex::Evidence(evidence))?;
            Ok(vertices)
        }
        None => Ok(vertices),
    }
}

/// The journal's endorsements of the unit of this digest, in their order.
fn endorsements(alloc: Global, core: &Core, unit: &Digest) -> Result<VertexList, OutOfMemory>
    ensures vertices { IfOk result (λ vertices. vertices ≡ map vertex.Endorsement (endorsements_of core.now unit.now)) }
    ensures fit { IfOk result (λ vertices. All VertexFits vertices) }
{
    let mut vertices = VertexList::new(alloc);
    for place in 0..u32::MAX {
        match core.endorsement_of(unit, place) {
            Some(endorsement) => vertices.push(Vertex::Endorsement(*endorsement))?,
            None => return Ok(vertices),
        }
    }
    // No memory has room for this many.
    Err(OutOfMemory)
}
