//! The units that are in a journal.

ghost use Rattle.std.specs.Prelude.{◌≡◌, List, ◌∷◌, ◌++◌, true, OnOk, IfOk};
ghost use Rattle.hw_types.specs.{declared.unit.Vertex.{Vertex as Accepted}, Spelling.{Fits, VertexFits, digest_of}};
ghost use Rattle.hw_dag.specs.Dag.{graph};
ghost use Rattle.hw_core.specs.Readers.{names_of};
ghost use Rattle.hw_audit.specs.Held.{held_as, held_by, is_settled};

use hw_codec::digest_of;
use hw_dag::Dag;
use hw_types::{Digest, OutOfMemory, SignedUnit, Vertex, WireUnit, is_same_unit};
use std::alloc::Global;
use std::marker::Model;

/// A unit that is in a journal, under its name.
#[derive(Drop)]
pub struct Held<'a> {
    name: Digest,
    signed: &'a SignedUnit,
    /// Whether the journal shows it: it is settled, or is in an evidence.
    is_shown: bool,
}

impl<'a> Model for Held<'a> {
    ghost use Rattle.std.specs.Prelude.{◌≡◌};
    ghost use Rattle.hw_audit.specs.Held.{HeldUnit};

    ghost Value = { HeldUnit };

    ghost view = { λ h. record {
      name = h.name;
      signed = h.signed.now;
      is_shown = h.is_shown;
    } };

    ghost use Rattle.hw_types.specs.Spelling.{Fits, digest_of};

    ghost invariant = { λ h. (h.name ≡ digest_of h.signed.now.unit) × Fits h.signed.now.unit };
}

impl<'a> Held<'a> {
    /// Its name.
    pub fn name(&self) -> &Digest
        ensures name { result.now ≡ self.now.name }
        ensures is_name { self.now.name ≡ digest_of self.now.signed.unit }
    {
        &self.name
    }

    /// The unit as its creator signed it.
    pub fn signed(&self) -> &'a SignedUnit
        ensures signed { result.now ≡ self.now.signed }
        ensures fits { Fits self.now.signed.unit }
    {
        self.signed
    }

    /// The unit.
    pub fn unit(&self) -> &'a WireUnit
        ensures unit { result.now ≡ self.now.signed.unit }
        ensures is_name { self.now.name ≡ digest_of self.now.signed.unit }
        ensures fits { Fits self.now.signed.unit }
    {
        &self.signed.unit
    }

    /// Whether the journal shows it.
    pub fn is_shown(&self) -> bool
        ensures { result ≡ self.now.is_shown }
    {
        self.is_shown
    }
}

/// A signed unit of this name.
fn named<'a>(name: Digest, signed: &'a SignedUnit, is_shown: bool) -> Held<'a>
    requires name { name ≡ digest_of signed.now.unit }
    requires fits { Fits signed.now.unit }
    ensures { result ≡ held_as is_shown signed.now }
{
    Held {
        name,
        signed,
        is_shown,
    }
}

/// Whether this very unit is in the graph, where it has this name.
fn is_settled(dag: &Dag, name: &Digest, unit: &WireUnit) -> bool
    requires { name.now ≡ digest_of unit.now }
    ensures { result ≡ is_settled (graph dag.now) unit.now }
{
    // For the prover: what a `Dag` holds is a graph.
    dag.recall_graph();
    match dag.find(name) {
        Some(no) => is_same_unit(&dag.unit(no).signed().unit, unit),
        None => false,
    }
}

/// Puts the units of the vertex last. The graph has the settled ones. The names are those of this and the following
/// vertices, as the node keeps them, and those of the following ones are handed back. It keeps none for evidence.
pub fn put_units<'a, 'n>(
    alloc: Global,
    dag: &Dag,
    vertex: &'a Vertex,
    names: &'n [Digest],
    units: &mut Vec<Held<'a>>,
) -> Result<&'n [Digest], OutOfMemory>
    requires fits { VertexFits vertex.now }
    requires names { (following : List Accepted) × (names.now ≡ names_of (vertex.now ∷ following)) }
    ensures units { OnOk result (units.new.items ≡ units.old.items ++ held_by (graph dag.now) vertex.now) }
    ensures names { IfOk result (λ rest. (following : List Accepted) → names.now ≡ names_of (vertex.now ∷ following) → rest.now ≡ names_of following) }
{
    match vertex {
        Vertex::Unit(signed) => {
            let Some((name, rest)) = names.split_first() else {
                unreachable!()
            };
            let is_shown = is_settled(dag, name, &signed.unit);
            units.push(named(*name, signed, is_shown))?;
            Ok(rest)
        }
        Vertex::Evidence(evidence) => {
            units.push(shown(alloc, &evidence.left)?)?;
            units.push(shown(alloc, &evidence.right)?)?;
            Ok(names)
        }
        Vertex::Endorsement(_) => Ok(names),
    }
}

/// A unit of an evidence.
fn shown(alloc: Global, signed: &SignedUnit) -> Result<Held<'_>, OutOfMemory>
    requires { Fits signed.now.unit }
    ensures { IfOk result (λ h. h ≡ held_as true signed.now) }
{
    let name = digest_of(alloc, &signed.unit)?;
    Ok(named(name, signed, true))
}
