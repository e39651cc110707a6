//! A vertex under its name.

ghost use Rattle.std.specs.Prelude.{◌≡◌, true, IfOk, OnOk, OnErr};
ghost use Rattle.hw_types.specs.{Real.{answer_in, after_in}, Spelling.{VertexFits, digest_of}};
ghost use Rattle.hw_types.specs.declared.unit.Vertex.TheVariants as vertex;
ghost use Rattle.hw_honest.specs.Cluster.{signed};

use hw_core::{Core, Refused};
use hw_types::{Cause, Digest, OutOfMemory, Receipt, Signature, SignedUnit, Vertex, WireUnit};
use std::marker::Model;

/// What a node answers to a vertex. That memory ran out is no answer.
pub type Answer = Result<Receipt, Cause>;

/// A vertex, and its name where it is a unit that was made here. A node that is given it doesn't work the name out
/// again. Contracts see the vertex.
#[derive(Drop)]
pub struct NamedVertex {
    vertex: Vertex,
    name: Option<Digest>,
}

impl Model for NamedVertex {
    ghost use Rattle.std.specs.Prelude.{IfSome};
    ghost use Rattle.hw_types.specs.declared.unit.Vertex.{Vertex};
    ghost use Rattle.hw_cluster.specs.Made.{IsNameOf};

    ghost Value = { Vertex };

    ghost view = { λ n. n.vertex };

    ghost invariant = { λ n. IfSome n.name (IsNameOf n.vertex) };
}

impl NamedVertex {
    /// The unit with a signature of zero bytes.
    pub fn made(unit: WireUnit, name: Digest) -> NamedVertex
        requires { name ≡ digest_of unit }
        ensures { result ≡ signed unit }
    {
        let signature = Signature([0; 32]);
        NamedVertex {
            vertex: Vertex::Unit(SignedUnit { unit, signature }),
            name: Some(name),
        }
    }

    /// A vertex by somebody else.
    pub fn foreign(vertex: Vertex) -> NamedVertex
        ensures { result ≡ vertex }
    {
        NamedVertex { vertex, name: None }
    }

    /// The vertex alone.
    pub fn vertex(&self) -> &Vertex
        ensures { result.now ≡ self.now }
    {
        &self.vertex
    }

    /// The same under the same name.
    pub fn copy(&self) -> Result<NamedVertex, OutOfMemory>
        ensures { IfOk result (λ copy. copy ≡ self.now) }
    {
        Ok(NamedVertex {
            vertex: self.vertex.copy()?,
            name: self.name,
        })
    }

    /// Gives it to a node. Its signatures are right.
    pub fn give(self, core: &mut Core) -> Result<Answer, OutOfMemory>
        requires { VertexFits self }
        ensures answer { IfOk result (λ answer. answer ≡ answer_in core.old self true) }
        ensures taken { OnOk result (core.new ≡ after_in core.old self true) }
        ensures unchanged { OnErr result (core.new ≡ core.old) }
    {
        let NamedVertex { vertex, name } = self;
        match (vertex, name) {
            (Vertex::Unit(unit), Some(name)) => give_named(core, unit, name),
            (vertex, _) => give_unnamed(core, vertex),
        }
    }
}

/// Gives a unit under its name to a node.
fn give_named(core: &mut Core, unit: SignedUnit, name: Digest) -> Result<Answer, OutOfMemory>
    requires fits { VertexFits (vertex.Unit unit) }
    requires name { name ≡ digest_of unit.unit }
    ensures answer { IfOk result (λ answer. answer ≡ answer_in core.old (vertex.Unit unit) true) }
    ensures taken { OnOk result (core.new ≡ after_in core.old (vertex.Unit unit) true) }
    ensures unchanged { OnErr result (core.new ≡ core.old) }
{
    match core.deliver_named(unit, name) {
        Ok(receipt) => Ok(Ok(receipt)),
        Err(refused) => match refused.cause {
            Cause::OutOfMemory => Err(OutOfMemory),
            cause => Ok(Err(cause)),
        },
    }
}

/// Gives a vertex to a node, which works out its name where it is a unit.
fn give_unnamed(core: &mut Core, vertex: Vertex) -> Result<Answer, OutOfMemory>
    requires { VertexFits vertex }
    ensures answer { IfOk result (λ answer. answer ≡ answer_in core.old vertex true) }
    ensures taken { OnOk result (core.new ≡ after_in core.old vertex true) }
    ensures unchanged { OnErr result (core.new ≡ core.old) }
{
    match core.deliver(vertex, true) {
        Ok(receipt) => Ok(Ok(receipt)),
        Err(Refused { cause, vertex }) => {
            // For the prover: the drop of a vertex is one call here, and else is written out at each exit.
            drop(vertex);
            match cause {
                Cause::OutOfMemory => Err(OutOfMemory),
                cause => Ok(Err(cause)),
            }
        }
    }
}
