//! An entry of the journal.

ghost use Rattle.std.specs.Prelude.{◌≡◌, Some, IfOk, IfErr, IfSome, IfNone};
ghost use Rattle.hw_types.specs.declared.unit.SignedUnit.{SignedUnit as Signed};
ghost use Rattle.hw_types.specs.declared.unit.Vertex.TheVariants as vertex;

use hw_dag::SharedUnit;
use hw_types::{SignedUnit, Vertex};
use std::alloc::Global;
use std::marker::Model;

/// A unit that the graph or the park has too, or a vertex of the journal's own.
#[derive(Drop)]
enum Held {
    Unit(SharedUnit),
    Other(Box<Vertex>),
}

/// A vertex of the journal. Contracts see the vertex.
#[derive(Drop)]
pub struct Entry {
    held: Held,
}

impl Model for Entry {
    ghost use Rattle.hw_types.specs.declared.unit.Vertex.{Vertex};
    ghost use Rattle.hw_core.specs.Held.{vertex_of};

    ghost Value = { Vertex };

    ghost view = { λ e. vertex_of e.held };
}

impl Entry {
    /// A unit, which takes no memory.
    pub fn unit(unit: SharedUnit) -> Entry
        ensures { result ≡ vertex.Unit unit }
    {
        Entry {
            held: Held::Unit(unit),
        }
    }

    /// A vertex of its own. Where there is no memory it comes back.
    pub fn other(alloc: Global, vertex: Vertex) -> Result<Entry, Vertex>
        ensures held { IfOk result (λ entry. entry ≡ vertex) }
        ensures returned { IfErr result (λ back. back ≡ vertex) }
    {
        match Box::new(alloc, vertex) {
            Ok(held) => Ok(Entry {
                held: Held::Other(held),
            }),
            Err(refused) => Err(refused.value),
        }
    }

    /// The vertex.
    pub fn vertex(&self) -> &Vertex
        ensures { result.now ≡ self.now }
    {
        match &self.held {
            Held::Unit(unit) => unit.vertex(),
            Held::Other(vertex) => vertex.as_ref(),
        }
    }

    /// The unit, None where it is another vertex.
    pub fn signed(&self) -> Option<&SignedUnit>
        ensures unit { IfSome result (λ unit. self.now ≡ vertex.Unit unit.now) }
        ensures none { IfNone result ((unit : Signed) → self.now ≡ vertex.Unit unit → ⊥) }
    {
        match self.vertex() {
            Vertex::Unit(unit) => Some(unit),
            Vertex::Evidence(_) => None,
            Vertex::Endorsement(_) => None,
        }
    }
}
