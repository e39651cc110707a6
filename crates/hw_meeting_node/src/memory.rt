//! A taker in memory.

ghost use Rattle.std.specs.{Prelude.{◌≡◌, []}, List.{list_any}};
ghost use Rattle.hw_meeting_node.specs.{Taker.{Takes}, Memory.{vertex_eq, verdict_by, take_fault}};

use crate::same::is_same_vertex;
use crate::taker::{TakeFault, Taker};
use hw_core::{Core, Refused};
use hw_types::{Cause, Items, Receipt, Vertex};

/// Vertices, in order.
pub type VertexList = Items<Vertex>;

/// A core that gives each vertex of a list a false verdict, and all others a true one.
#[derive(Drop)]
pub struct MemTaker {
    core: Core,
    refused: VertexList,
}

impl MemTaker {
    /// A taker with this core, which gives these vertices a false verdict.
    pub fn new(core: Core, refused: VertexList) -> MemTaker
        ensures core { result.core ≡ core }
        ensures refused { result.refused ≡ refused }
    {
        MemTaker { core, refused }
    }

    /// Its core, which takes no more.
    pub fn into_core(self) -> Core
        ensures { result ≡ self.core }
    {
        self.core
    }

    fn verdict(&self, vertex: &Vertex) -> bool
        ensures { result ≡ verdict_by self.now.refused vertex.now }
    {
        !has_vertex(self.refused.as_slice(), vertex)
    }
}

impl Taker for MemTaker {
    ghost received = { λ taker. taker.core };

    ghost verdict = { λ taker. verdict_by taker.refused };

    ghost steps = { λ old vertex answer new. (new.refused ≡ old.refused) × Takes old.core vertex (verdict_by old.refused vertex) new.core answer };

    ghost faults = { λ _. 0 };

    ghost holds = { λ _. [] };

    fn core(&self) -> &Core {
        &self.core
    }

    fn take(&mut self, vertex: Vertex) -> Result<Receipt, TakeFault> {
        let verdict = self.verdict(&vertex);
        match self.core.deliver(vertex, verdict) {
            Ok(receipt) => Ok(receipt),
            Err(refused) => Err(take_fault(refused.cause)),
        }
    }
}

/// Whether the vertex is one of these.
fn has_vertex(vertices: &[Vertex], vertex: &Vertex) -> bool
    ensures { result ≡ list_any (λ listed. vertex_eq listed vertex.now) vertices.now }
{
    vertices.iter().any(|listed| is_same_vertex(listed, vertex))
}

/// Why a vertex isn't taken that the core refuses by this cause.
fn take_fault(cause: Cause) -> TakeFault
    ensures { result ≡ take_fault cause }
{
    match cause {
        Cause::OutOfMemory => TakeFault::OutOfMemory,
        cause => TakeFault::Refused(cause),
    }
}
