//! What comes in one of a node's eras.

ghost use Rattle.std.specs.Prelude.{◌≡◌, ◌-◌, length, slice_set, Some, IfOk, IfErr, IfSome, OnErr};
ghost use Rattle.hw_types.specs.Spelling.{VertexFits};
ghost use Rattle.hw_eras.specs.Nodes.{IsMadeAgain, last_core, AreNodeEras, HasDelivered, IsEraRefusal};

use crate::answers::{EraCause, EraRefused};
use hw_core::{Core, Refused};
use hw_types::{Receipt, Vertex};
use std::mem;

/// Takes a vertex in an era of these nodes.
pub fn deliver_to(
    cores: &mut Vec<Core>,
    era: u32,
    vertex: Vertex,
    verdict: bool,
) -> Result<Receipt, EraRefused>
    requires eras { AreNodeEras cores.old.items }
    requires fits { VertexFits vertex }
    ensures accepted { IfOk result (HasDelivered cores.old.items cores.new.items era vertex verdict) }
    ensures refused { IfErr result (λ r. IsEraRefusal cores.old.items era vertex verdict r.cause) }
    ensures returned { IfErr result (λ r. r.vertex ≡ vertex) }
    ensures unchanged { OnErr result (cores.new.items ≡ cores.old.items) }
    ensures eras { AreNodeEras cores.new.items }
{
    let place = era as usize;
    if place >= cores.len() {
        return Err(EraRefused {
            cause: EraCause::UnknownEra,
            vertex,
        });
    }
    match cores[place].deliver(vertex, verdict) {
        Ok(receipt) => Ok(receipt),
        Err(refused) => Err(of_era(refused)),
    }
}

/// The refusal by the node of an era.
fn of_era(refused: Refused) -> EraRefused
    ensures { result ≡ record { cause = EraCause.Core refused.cause; vertex = refused.vertex } }
{
    EraRefused {
        cause: EraCause::Core(refused.cause),
        vertex: refused.vertex,
    }
}

/// Swaps the last node with this one, which has its configuration and which its journal's vertices make again.
pub fn put_last(cores: &mut Vec<Core>, core: &mut Core)
    requires eras { AreNodeEras cores.old.items }
    requires made { IsMadeAgain core.old }
    requires config { IfSome (last_core cores.old.items) (λ last. core.old.config ≡ last.config) }
    ensures put { cores.new.items ≡ slice_set cores.old.items (length cores.old.items - 1) core.old }
    ensures out { last_core cores.old.items ≡ Some core.new }
    ensures eras { AreNodeEras cores.new.items }
{
    let last = cores.len() - 1;
    mem::swap(&mut cores[last], core);
}
