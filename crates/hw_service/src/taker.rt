//! A node and its files take vertices.

ghost use Rattle.std.specs.Prelude.{◌≡◌, ◌∷◌, []};
ghost use Rattle.hw_keys.specs.Signed.{verdict_of};
ghost use Rattle.hw_service.specs.Taker.{take_fault, TakesIn, StaysRead};

use hw_core::Core;
use hw_io::Files;
use hw_meeting_node::{TakeFault, Taker};
use hw_session::{AcceptFault, Node};
use hw_types::{Receipt, Vertex};

/// A node and the files that hold its log.
#[derive(Drop)]
pub struct NodeTaker<'a, F: Files> {
    /// The node.
    pub node: &'a mut Node,
    /// The files with its log.
    pub files: &'a mut F,
}

impl<'a, F: Files> Taker for NodeTaker<'a, F> {
    ghost received = { λ taker. taker.node.now.core };

    ghost verdict = { λ taker. verdict_of taker.node.now.keys };

    ghost steps = { λ old vertex answer new. TakesIn old.node.now vertex new.node.now F.tells (F.held old.files.now) (F.held new.files.now) answer
        × StaysRead (F.begun old.files.now) (F.begun new.files.now) (F.allowance old.files.now) (F.allowance new.files.now) (F.read_faults old.files.now) (F.read_faults new.files.now) };

    ghost faults = { λ taker. F.append_faults taker.files.now };

    ghost holds = { λ taker. taker.node.ghost_name ∷ taker.files.ghost_name ∷ [] };

    fn core(&self) -> &Core {
        self.node.core()
    }

    fn take(&mut self, vertex: Vertex) -> Result<Receipt, TakeFault> {
        self.node.accept(self.files, vertex).map_err(take_fault)
    }
}

/// Why a vertex isn't taken, by the fault with which the node doesn't accept it.
fn take_fault(fault: AcceptFault) -> TakeFault
    ensures { result ≡ take_fault fault }
{
    match fault {
        AcceptFault::Refused(cause) => TakeFault::Refused(cause),
        AcceptFault::AppendFault => TakeFault::AppendFault,
        AcceptFault::OutOfMemory => TakeFault::OutOfMemory,
    }
}
