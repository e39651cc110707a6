//! A signed unit that several owners have together.

ghost use Rattle.std.specs.Prelude.{◌≡◌, IfOk, IfErr};
ghost use Rattle.hw_types.specs.declared.unit.Vertex.TheVariants as vertex;

use hw_types::{OutOfMemory, SignedUnit, Vertex};
use std::alloc::Global;
use std::marker::Model;
use std::sync::Arc;

/// A signed unit in a vertex, which never changes. A node's journal, its park and its graph have it together. Contracts
/// see the unit.
#[derive(Drop)]
pub struct SharedUnit {
    held: Arc<Vertex, Global>,
}

impl Model for SharedUnit {
    ghost use Rattle.hw_types.specs.declared.unit.SignedUnit.{SignedUnit};
    ghost use Rattle.hw_dag.specs.SharedUnits.{unit_of, IsUnit};

    ghost Value = { SignedUnit };

    ghost view = { λ s. unit_of s.held.value };

    ghost invariant = { λ s. IsUnit s.held.value };
}

impl SharedUnit {
    /// The unit, with one owner. Where there is no memory it comes back.
    pub(crate) fn new(alloc: Global, unit: SignedUnit) -> Result<SharedUnit, SignedUnit>
        ensures held { IfOk result (λ shared. shared ≡ unit) }
        ensures returned { IfErr result (λ back. back ≡ unit) }
    {
        match Arc::new(alloc, Vertex::Unit(unit)) {
            Ok(held) => Ok(SharedUnit { held }),
            Err(refused) => match refused.value {
                Vertex::Unit(unit) => Err(unit),
                Vertex::Evidence(_) => unreachable!(),
                Vertex::Endorsement(_) => unreachable!(),
            },
        }
    }

    /// The unit.
    #[inline]
    pub fn signed(&self) -> &SignedUnit
        ensures { result.now ≡ self.now }
    {
        match self.vertex() {
            Vertex::Unit(unit) => unit,
            Vertex::Evidence(_) => unreachable!(),
            Vertex::Endorsement(_) => unreachable!(),
        }
    }

    /// The unit as a vertex.
    pub fn vertex(&self) -> &Vertex
        ensures { result.now ≡ vertex.Unit self.now }
    {
        self.held.as_ref()
    }

    /// The same unit, with one owner more.
    pub fn copy(&self) -> Result<SharedUnit, OutOfMemory>
        ensures { IfOk result (λ shared. shared ≡ self.now) }
    {
        Ok(SharedUnit {
            held: self.held.clone()?,
        })
    }
}
