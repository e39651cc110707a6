//! What takes the vertices of a peer.

ghost use Rattle.std.specs.Prelude.{◌≡◌, ℕ, List, Bool, Result};
ghost use Rattle.hw_types.specs.{declared.unit.Vertex.{Vertex}, declared.answers.Receipt.{Receipt}, Real.{CoreState}, Spelling.{VertexFits}};
ghost use Rattle.hw_meeting_node.specs.{declared.taker.TakeFault.{TakeFault}, Taker.{Takes, IsTakeCounted}};

use hw_core::Core;
use hw_types::{Cause, Receipt, Vertex};

/// Why a vertex isn't taken.
#[derive(Clone, Copy, Debug, PartialEq, Eq)]
pub enum TakeFault {
    /// The core refuses it by this cause.
    Refused(Cause),
    /// The vertex is in the journal, but couldn't be stored: the node has to be given up.
    AppendFault,
    /// It was out of memory. If that was while storing the vertex, the same holds as after `AppendFault`.
    OutOfMemory,
}

/// A core that takes the vertices of a peer, each with a verdict on its signatures.
pub trait Taker {
    /// What its core received.
    ghost received: { Self → CoreState };

    /// The verdict that it gives each vertex.
    ghost verdict: { Self → Vertex → Bool };

    /// What it was, a vertex, the answer to it, and what it is then. This is all that becomes of it by a vertex,
    /// where it has more than a core and verdicts.
    ghost steps: { Self → Vertex → Result Receipt TakeFault → Self → Type 0 };

    /// How many vertices it couldn't store. The count stops at the end of a `u64`.
    ghost faults: { Self → ℕ };

    /// The names of the references that it holds. They stay, so a lender knows what became of what it lent.
    ghost holds: { Self → List ℕ };

    fn core(&self) -> &Core
        ensures { result.now ≡ received self.now };

    /// Delivers a vertex with its verdict. Each of its units keeps the limits of its format.
    ///
    /// An accepted vertex goes last in the journal, and nothing else changes. `Refused` has the cause that the
    /// definitions give.
    fn take(&mut self, vertex: Vertex) -> Result<Receipt, TakeFault>
        requires { VertexFits vertex }
        ensures taken { Takes (received self.old) vertex (verdict self.old vertex) (received self.new) result }
        ensures cause { IsTakeCounted (faults self.old) (faults self.new) result }
        ensures steps { steps self.old vertex result self.new }

        ensures verdict { verdict self.new ≡ verdict self.old }
        ensures holds { holds self.new ≡ holds self.old };
}
