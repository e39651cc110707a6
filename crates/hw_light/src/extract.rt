//! The vertices for some settled units of a node.

ghost use Rattle.std.specs.{Prelude.{◌≡◌, ◌<◌, ◌++◌, length, filter, if◌then◌else◌, [], ◌∷◌, IfOk, OnOk}, List.{All, list_any}};
ghost use Rattle.hw_types.specs.{Graph.{digest_eq}, Spelling.{VertexFits}};
ghost use Rattle.hw_core.specs.Readers.{unit_in};
ghost use Rattle.hw_needs.specs.Needs.{evidence_against, unit_vertices, evidence_vertices};
ghost use Rattle.hw_light.specs.{Extract.{is_marked_by, is_endorsement_of, evidence_part, endorsement_part, unit_part, vertices_for}, Under.{AreKnown, nodes_at}};

use crate::certificate::VertexList;
use crate::needed::{is_marked_by, listed_by};
use hw_core::Core;
use hw_dag::{Dag, UnitNo};
use hw_names::NameTable;
use hw_needs::evidence_of;
use hw_types::{Digest, OutOfMemory, Vertex};
use std::alloc::Global;

/// The vertices for these units: evidence against each validator that they mark, in rising order; the
/// journal's endorsements of what they list, in its order; and the units, in theirs.
pub(crate) fn vertices_for(
    alloc: Global,
    core: &Core,
    dag: &Dag,
    numbers: &[UnitNo],
) -> Result<VertexList, OutOfMemory>
    requires known { AreKnown dag.now numbers.now }
    requires validators { dag.now.validators ≡ length core.now.config.weights }
    ensures vertices { IfOk result (λ vertices. vertices ≡ vertices_for core.now (nodes_at dag.now numbers.now)) }
    ensures fits { IfOk result (λ vertices. All VertexFits vertices) }
{
    let mut vertices = VertexList::new(alloc);
    put_evidence(alloc, core, dag, numbers, &mut vertices)?;
    put_endorsements(alloc, core, dag, numbers, &mut vertices)?;
    put_units(core, dag, numbers, &mut vertices)?;
    Ok(vertices)
}

/// Puts the evidence against each validator that these units mark last, in rising order.
fn put_evidence(
    alloc: Global,
    core: &Core,
    dag: &Dag,
    numbers: &[UnitNo],
    vertices: &mut VertexList,
) -> Result<(), OutOfMemory>
    requires known { AreKnown dag.now numbers.now }
    requires validators { dag.now.validators ≡ length core.now.config.weights }
    ensures put { OnOk result (vertices.new ≡ vertices.old ++ evidence_part core.now (nodes_at dag.now numbers.now)) }
    ensures fits { OnOk result (All VertexFits (evidence_part core.now (nodes_at dag.now numbers.now))) }
{
    for validator in 0..dag.validators() {
        put_if_marked(alloc, core, dag, numbers, validator, vertices)?;
    }
    Ok(())
}

/// Puts the evidence against the validator last, where one of these units marks it.
fn put_if_marked(
    alloc: Global,
    core: &Core,
    dag: &Dag,
    numbers: &[UnitNo],
    validator: u32,
    vertices: &mut VertexList,
) -> Result<(), OutOfMemory>
    requires known { AreKnown dag.now numbers.now }
    requires validator { validator < dag.now.validators }
    ensures put { OnOk result (vertices.new ≡ vertices.old ++ (if is_marked_by (nodes_at dag.now numbers.now) validator then evidence_vertices (evidence_against core.now validator) else [])) }
    ensures fits { OnOk result (All VertexFits (if is_marked_by (nodes_at dag.now numbers.now) validator then evidence_vertices (evidence_against core.now validator) else [])) }
{
    if is_marked_by(dag, numbers, validator) {
        put_evidence_against(alloc, core, validator, vertices)
    } else {
        Ok(())
    }
}

/// Puts the evidence against the validator last, if there is some.
fn put_evidence_against(
    alloc: Global,
    core: &Core,
    validator: u32,
    vertices: &mut VertexList,
) -> Result<(), OutOfMemory>
    ensures put { OnOk result (vertices.new ≡ vertices.old ++ evidence_vertices (evidence_against core.now validator)) }
    ensures fits { OnOk result (All VertexFits (evidence_vertices (evidence_against core.now validator))) }
{
    match evidence_of(alloc, core, validator)? {
        Some(evidence) => vertices.push(Vertex::Evidence(evidence)),
        None => Ok(()),
    }
}

/// Puts the journal's endorsements of what these units list last, in its order.
fn put_endorsements(
    alloc: Global,
    core: &Core,
    dag: &Dag,
    numbers: &[UnitNo],
    vertices: &mut VertexList,
) -> Result<(), OutOfMemory>
    requires known { AreKnown dag.now numbers.now }
    ensures put { OnOk result (vertices.new ≡ vertices.old ++ endorsement_part core.now (nodes_at dag.now numbers.now)) }
    ensures fits { OnOk result (All VertexFits (endorsement_part core.now (nodes_at dag.now numbers.now))) }
{
    let listed = listed_by(alloc, dag, numbers)?;
    put_endorsements_of(core, &listed, vertices)
}

/// Puts the journal's endorsements of these digests last, in its order.
fn put_endorsements_of(
    core: &Core,
    listed: &NameTable,
    vertices: &mut VertexList,
) -> Result<(), OutOfMemory>
    ensures put { OnOk result (vertices.new ≡ vertices.old ++ filter (is_endorsement_of (λ d. list_any (digest_eq d) listed.now.names)) core.now.journal) }
    ensures fits { OnOk result (All VertexFits (filter (is_endorsement_of (λ d. list_any (digest_eq d) listed.now.names)) core.now.journal)) }
{
    for place in 0..core.journal_count() {
        put_if_listed(core.journal_at(place), listed, vertices)?;
    }
    Ok(())
}

/// Puts the vertex last where it is an endorsement of one of these digests.
fn put_if_listed(
    vertex: &Vertex,
    listed: &NameTable,
    vertices: &mut VertexList,
) -> Result<(), OutOfMemory>
    requires { VertexFits vertex.now }
    ensures put { OnOk result (vertices.new ≡ vertices.old ++ (if is_endorsement_of (λ d. list_any (digest_eq d) listed.now.names) vertex.now then vertex.now ∷ [] else [])) }
    ensures fits { OnOk result (All VertexFits (if is_endorsement_of (λ d. list_any (digest_eq d) listed.now.names) vertex.now then vertex.now ∷ [] else [])) }
{
    match vertex {
        Vertex::Endorsement(endorsement) if listed.find(&endorsement.unit).is_some() => {
            vertices.push(Vertex::Endorsement(*endorsement))
        }
        _ => Ok(()),
    }
}

/// Puts these units last, each as it was signed in the journal.
fn put_units(
    core: &Core,
    dag: &Dag,
    numbers: &[UnitNo],
    vertices: &mut VertexList,
) -> Result<(), OutOfMemory>
    requires known { AreKnown dag.now numbers.now }
    ensures put { OnOk result (vertices.new ≡ vertices.old ++ unit_part core.now (nodes_at dag.now numbers.now)) }
    ensures fits { OnOk result (All VertexFits (unit_part core.now (nodes_at dag.now numbers.now))) }
{
    for number in numbers {
        put_unit(core, dag.unit(*number).digest(), vertices)?;
    }
    Ok(())
}

/// Puts the journal's unit of this digest last, as it was signed.
fn put_unit(core: &Core, unit: &Digest, vertices: &mut VertexList) -> Result<(), OutOfMemory>
    ensures put { OnOk result (vertices.new ≡ vertices.old ++ unit_vertices (unit_in core.now unit.now)) }
    ensures fits { OnOk result (All VertexFits (unit_vertices (unit_in core.now unit.now))) }
{
    match core.unit_of(unit) {
        Some(known) => vertices.push(Vertex::Unit(known.copy()?)),
        None => Ok(()),
    }
}
