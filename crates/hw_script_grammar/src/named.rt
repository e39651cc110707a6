//! Definitions: vertices with names.

ghost use Rattle.std.specs.{Prelude.{◌≡◌, IfOk, IfSome}, Option.{option_copied}};
ghost use Rattle.hw_types.specs.Spelling.{Fits};
ghost use Rattle.hw_script_grammar.specs.Names.{NamedFits, is_unit, unit_in, unsigned};

use hw_types::{Bytes, Digest, OutOfMemory, Signature, SignedUnit, Vertex, WireUnit, is_same_unit};

/// A vertex that is defined in a script.
#[derive(Drop)]
pub struct Named {
    pub name: Bytes,
    /// Its signatures are zeros.
    pub vertex: Vertex,
    /// The digest of the unit; None for evidence.
    pub digest: Option<Digest>,
}

impl Named {
    /// A copy of this definition.
    pub fn copy(&self) -> Result<Named, OutOfMemory>
        ensures { IfOk result (λ named. named ≡ self.now) }
    {
        let name = self.name.copy()?;
        let vertex = self.vertex.copy()?;
        Ok(Named {
            name,
            vertex,
            digest: self.digest,
        })
    }

    /// The unit that it defines, where it is one.
    pub(crate) fn unit(&self) -> Option<&WireUnit>
        ensures unit { option_copied result ≡ unit_in self.now.vertex }
        ensures fits { NamedFits self.now → IfSome result (λ unit. Fits unit.now) }
    {
        match &self.vertex {
            Vertex::Unit(signed) => Some(&signed.unit),
            Vertex::Evidence(_) | Vertex::Endorsement(_) => None,
        }
    }

    /// Whether it defines this unit.
    pub(crate) fn is_unit(&self, unit: &WireUnit) -> bool
        ensures { result ≡ is_unit unit.now (unit_in self.now.vertex) }
    {
        match &self.vertex {
            Vertex::Unit(signed) => is_same_unit(&signed.unit, unit),
            Vertex::Evidence(_) | Vertex::Endorsement(_) => false,
        }
    }
}

/// The unit with a signature of zeros.
pub(crate) fn unsigned(unit: WireUnit) -> SignedUnit
    ensures { result ≡ unsigned unit }
{
    SignedUnit {
        unit,
        signature: Signature([0; 32]),
    }
}
