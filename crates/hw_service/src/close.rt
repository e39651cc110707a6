//! How a run ends with its report.

ghost use Rattle.std.specs.Prelude.{◌≡◌, ◌≤◌, ℕ, List, Option, length, IfOk, IfErr, OnOk};
ghost use Rattle.hw_io.specs.Faults.{raised};
ghost use Rattle.hw_service.specs.{Scene.{DoorSeen, sight_of, outside, scene}, Run.{ReportsAs, HaveTaken}, Written.{IsOfOutput}, Counts.{IsWriteCounted}};

use crate::ended::Served;
use crate::fault::ServiceFault;
use crate::lines::{closing_text, write_bytes};
use crate::node_host::Host;
use hw_io::{Consumer, Sink};
use std::alloc::Global;

/// Finishes the consumers, as no block follows, and writes the report on the node. Answers the outcome of the run, in
/// which a call of the door failed or not.
pub(crate) fn close_host<S: Sink>(
    alloc: Global,
    host: &mut Host,
    link_failed: bool,
    out: &mut S,
    consumers: &mut Vec<Box<dyn Consumer>>,
) -> Result<Served, ServiceFault>
    requires room { length consumers.old.items ≤ length host.old.fanout.places }
    ensures reports { (files : List ℕ → Option (List ℕ)) (door : DoorSeen) → ReportsAs (sight_of ⟦<dyn Consumer as Consumer>⟧)
        (scene host.old.node host.old.fanout (outside files door (S.taken out.old) consumers.old.items)) (outside files door (S.taken out.new) consumers.new.items) result }
    ensures limits { IfOk result (λ served. served.limits ≡ host.old.node.limited) }
    ensures link { IfOk result (λ served. served.link_failed ≡ link_failed) }
    ensures whole { (count : ℕ) → HaveTaken (sight_of ⟦<dyn Consumer as Consumer>⟧) host.old.node.core count consumers.old.items
        → HaveTaken (sight_of ⟦<dyn Consumer as Consumer>⟧) host.old.node.core count consumers.new.items }
    ensures fault { IfErr result IsOfOutput }
    ensures writes { IsWriteCounted (S.faults out.old) (S.faults out.new) result }
{
    host.fanout.finish(consumers);
    let text = closing_text(alloc, &host.node, &host.fanout)?;
    write_bytes(out, text.as_slice())?;
    Ok(Served {
        limits: host.node.limit_hits(),
        link_failed,
    })
}
