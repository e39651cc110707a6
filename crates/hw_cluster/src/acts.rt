//! What an action does to the nodes and to what was sent.

ghost use Rattle.std.specs.Prelude.{◌≡◌, ◌+◌, ◌^◌, ◌<◌, ◌≤◌, [], ◌∷◌, ◌++◌, None, List, length, vec_capacity, IfOk, IfSome, OnOk, OnErr, if◌then◌else◌};
ghost use Rattle.hw_types.specs.declared.config.Config.{Config as Configuration};
ghost use Rattle.hw_types.specs.declared.unit.Vertex.{Vertex as AVertex};
ghost use Rattle.hw_types.specs.Below.{Among};
ghost use Rattle.hw_types.specs.Limits.{config_fault};
ghost use Rattle.hw_types.specs.Real.{setting_of};
ghost use Rattle.hw_types.specs.Spelling.{VertexFits, Fits};
ghost use Rattle.hw_honest.specs.declared.cluster.Action.TheVariants as action;
ghost use Rattle.hw_honest.specs.declared.cluster.Acted.TheVariants as acted;
ghost use Rattle.hw_honest.specs.Cluster.{signed, answer_at, after_delivery, after_own, is_admitted, is_foreign, heard, outcome};
ghost use Rattle.hw_cluster.specs.Nodes.{nodes_of, state_of, HaveConfig, AllFit, AreNodes, CanAct, acted_in, left_by, plan_in};

use crate::named::{Answer, NamedVertex};
use hw_codec::digest_of;
use hw_core::Core;
use hw_honest::{Acted, Action};
use hw_types::{Config, OutOfMemory, Plan, PlanKind, Receipt, Vertex, WireUnit};
use hw_validator::{next_unit_of, value_at};
use std::alloc::Global;

/// Does one action on the nodes of this configuration.
pub fn act_on(
    config: &Config,
    nodes: &mut Vec<Core>,
    sent: &mut Vec<NamedVertex>,
    action: Action,
) -> Result<Acted, OutOfMemory>
    requires nodes { AreNodes config.now nodes.old.items sent.old.items }
    requires can { CanAct (state_of config.now nodes.old.items sent.old.items) action }
    ensures answer { IfOk result (λ answer. answer ≡ acted_in (state_of config.now nodes.old.items sent.old.items) action) }
    ensures left { OnOk result (state_of config.now nodes.new.items sent.new.items ≡ left_by (state_of config.now nodes.old.items sent.old.items) action) }
    ensures unchanged { OnErr result (state_of config.now nodes.new.items sent.new.items ≡ state_of config.now nodes.old.items sent.old.items) }
    ensures config { HaveConfig config.now nodes.new.items }
{
    match action {
        Action::Step { node, now } => step(config, nodes, sent, node, now),
        Action::Deliver { node, sent: number } => pass(nodes, sent.as_slice(), node, number),
        Action::Forge { vertex } => forge(nodes, sent, vertex),
    }
}

/// Lets a node make its unit.
fn step(
    config: &Config,
    nodes: &mut Vec<Core>,
    sent: &mut Vec<NamedVertex>,
    node: u32,
    now: u64,
) -> Result<Acted, OutOfMemory>
    requires nodes { AreNodes config.now nodes.old.items sent.old.items }
    requires can { CanAct (state_of config.now nodes.old.items sent.old.items) (action.Step node now) }
    ensures answer { IfOk result (λ answer. answer ≡ acted_in (state_of config.now nodes.old.items sent.old.items) (action.Step node now)) }
    ensures left { OnOk result (state_of config.now nodes.new.items sent.new.items ≡ left_by (state_of config.now nodes.old.items sent.old.items) (action.Step node now)) }
    ensures unchanged { OnErr result (nodes_of nodes.new.items sent.new.items ≡ nodes_of nodes.old.items sent.old.items) }
    ensures config { HaveConfig config.now nodes.new.items }
{
    let alloc = *sent.allocator();
    match plan_of(alloc, config, &nodes[node as usize], node, now)? {
        Some(plan) => make(nodes, sent, node, plan.kind, named(alloc, plan.unit)?),
        None => Ok(Acted::Idle),
    }
}

/// Gives a unit to the node that made it, and sends it where that node admits it.
fn make(
    nodes: &mut Vec<Core>,
    sent: &mut Vec<NamedVertex>,
    node: u32,
    kind: PlanKind,
    vertex: NamedVertex,
) -> Result<Acted, OutOfMemory>
    requires node { node < length nodes.old.items }
    requires fits { VertexFits vertex }
    ensures answer { IfOk result (λ answer. (config : Configuration) → HaveConfig config nodes.old.items
        → answer ≡ outcome kind (answer_at (setting_of config) (nodes_of nodes.old.items sent.old.items) node vertex)) }
    ensures left { OnOk result ((config : Configuration) → HaveConfig config nodes.old.items
        → nodes_of nodes.new.items sent.new.items ≡ after_own (setting_of config) (nodes_of nodes.old.items sent.old.items) node vertex) }
    ensures unchanged { OnErr result (nodes_of nodes.new.items sent.new.items ≡ nodes_of nodes.old.items sent.old.items) }
    ensures config { (config : Configuration) → HaveConfig config nodes.old.items → HaveConfig config nodes.new.items }
{
    match give_copy(nodes, sent, node, &vertex) {
        Ok(answer) => {
            send(sent, is_admitted(&answer), vertex);
            Ok(outcome(kind, answer))
        }
        Err(OutOfMemory) => {
            // For the prover: the drop of a vertex is one call here, and else is written out at each exit.
            drop(vertex);
            Err(OutOfMemory)
        }
    }
}

/// Makes room for one more sent vertex, and gives a copy of this one to the node that made it.
fn give_copy(
    nodes: &mut Vec<Core>,
    sent: &mut Vec<NamedVertex>,
    node: u32,
    vertex: &NamedVertex,
) -> Result<Answer, OutOfMemory>
    requires node { node < length nodes.old.items }
    requires fits { VertexFits vertex.now }
    ensures answer { IfOk result (λ answer. (config : Configuration) → HaveConfig config nodes.old.items
        → answer ≡ answer_at (setting_of config) (nodes_of nodes.old.items sent.old.items) node vertex.now) }
    ensures taken { OnOk result ((config : Configuration) → HaveConfig config nodes.old.items
        → nodes_of nodes.new.items sent.old.items ≡ after_delivery (setting_of config) (nodes_of nodes.old.items sent.old.items) node vertex.now) }
    ensures room { OnOk result (length sent.new.items + 1 ≤ vec_capacity sent.new) }
    ensures sent { sent.new.items ≡ sent.old.items }
    ensures unchanged { OnErr result (nodes.new.items ≡ nodes.old.items) }
    ensures config { (config : Configuration) → HaveConfig config nodes.old.items → HaveConfig config nodes.new.items }
{
    sent.reserve(1)?;
    let copy = vertex.copy()?;
    give_to(nodes, node, copy)
}

/// Gives the sent vertex of this number to a node.
fn pass(
    nodes: &mut Vec<Core>,
    sent: &[NamedVertex],
    node: u32,
    number: u64,
) -> Result<Acted, OutOfMemory>
    requires node { node < length nodes.old.items }
    requires fit { AllFit sent.now }
    ensures answer { IfOk result (λ answer. (config : Configuration) → HaveConfig config nodes.old.items
        → answer ≡ acted_in (state_of config nodes.old.items sent.now) (action.Deliver node number)) }
    ensures left { OnOk result ((config : Configuration) → HaveConfig config nodes.old.items
        → state_of config nodes.new.items sent.now ≡ left_by (state_of config nodes.old.items sent.now) (action.Deliver node number)) }
    ensures unchanged { OnErr result (nodes.new.items ≡ nodes.old.items) }
    ensures config { (config : Configuration) → HaveConfig config nodes.old.items → HaveConfig config nodes.new.items }
{
    match sent.get(number as usize) {
        Some(vertex) => Ok(heard(give_to(nodes, node, vertex.copy()?)?)),
        None => Ok(Acted::NotSent),
    }
}

/// Sends a vertex that none of these nodes signs.
fn forge(nodes: &[Core], sent: &mut Vec<NamedVertex>, vertex: Vertex) -> Result<Acted, OutOfMemory>
    ensures answer { IfOk result (λ answer. answer ≡ (if is_foreign (length nodes.now) vertex then acted.Forged else acted.NotAllowed)) }
    ensures sent { OnOk result (sent.new.items ≡ (if is_foreign (length nodes.now) vertex then sent.old.items ++ vertex ∷ [] else sent.old.items)) }
    ensures unchanged { OnErr result (sent.new.items ≡ sent.old.items) }
{
    if is_foreign(nodes.len() as u64, &vertex) {
        sent.push(NamedVertex::foreign(vertex))?;
        Ok(Acted::Forged)
    } else {
        Ok(Acted::NotAllowed)
    }
}

/// Gives a vertex whose signatures are right to one of the nodes.
fn give_to(nodes: &mut Vec<Core>, node: u32, vertex: NamedVertex) -> Result<Answer, OutOfMemory>
    requires node { node < length nodes.old.items }
    requires fits { VertexFits vertex }
    ensures answer { IfOk result (λ answer. (config : Configuration) (sent : List AVertex) → HaveConfig config nodes.old.items
        → answer ≡ answer_at (setting_of config) (nodes_of nodes.old.items sent) node vertex) }
    ensures taken { OnOk result ((config : Configuration) (sent : List AVertex) → HaveConfig config nodes.old.items
        → nodes_of nodes.new.items sent ≡ after_delivery (setting_of config) (nodes_of nodes.old.items sent) node vertex) }
    ensures config { (config : Configuration) → HaveConfig config nodes.old.items → HaveConfig config nodes.new.items }
    ensures unchanged { OnErr result (nodes.new.items ≡ nodes.old.items) }
{
    vertex.give(&mut nodes[node as usize])
}

/// What the node, which has this configuration, may make at this moment.
fn plan_of(
    alloc: Global,
    config: &Config,
    core: &Core,
    node: u32,
    now: u64,
) -> Result<Option<Plan>, OutOfMemory>
    requires config { core.now.config ≡ config.now }
    requires lawful { config_fault config.now ≡ None }
    requires node { node < length config.now.weights }
    requires now { now < 2 ^ 63 }
    requires fit { AllFit core.now.journal }
    ensures plan { IfOk result (λ plan. plan ≡ plan_in core.now node now) }
    ensures fits { IfOk result (λ plan. IfSome plan (λ p. Fits p.unit)) }
{
    let value = value_at(alloc, config, node, now)?;
    next_unit_of(
        alloc,
        core.state(),
        core.instance(),
        node,
        now,
        value.as_slice(),
    )
}

/// The unit with a signature of zero bytes, under its name.
fn named(alloc: Global, unit: WireUnit) -> Result<NamedVertex, OutOfMemory>
    requires fits { Fits unit }
    ensures { IfOk result (λ vertex. vertex ≡ signed unit) }
{
    let name = digest_of(alloc, &unit)?;
    Ok(NamedVertex::made(unit, name))
}

/// Puts a vertex last where it was admitted. There is room for it.
fn send(sent: &mut Vec<NamedVertex>, admitted: bool, vertex: NamedVertex)
    requires room { length sent.old.items + 1 ≤ vec_capacity sent.old }
    ensures { sent.new.items ≡ (if admitted then sent.old.items ++ vertex ∷ [] else sent.old.items) }
{
    if admitted {
        put_last(sent, vertex);
    }
}

/// Puts a vertex last, for which there is room.
fn put_last(sent: &mut Vec<NamedVertex>, vertex: NamedVertex)
    requires room { length sent.old.items + 1 ≤ vec_capacity sent.old }
    ensures { sent.new.items ≡ sent.old.items ++ vertex ∷ [] }
{
    if sent.push(vertex).is_err() {
        unreachable!()
    }
}

/// Whether the vertex went last in the journal, and units settled.
fn is_admitted(answer: &Answer) -> bool
    ensures { result ≡ is_admitted answer.now }
{
    matches!(answer, Ok(Receipt::Admitted { .. }))
}

/// What the own node's answer to a unit of this kind is answered.
fn outcome(kind: PlanKind, answer: Answer) -> Acted
    ensures { result ≡ outcome kind answer }
{
    match answer {
        Ok(Receipt::Admitted { .. }) => Acted::Made(kind),
        Ok(receipt) => Acted::Received(receipt),
        Err(cause) => Acted::Refused(cause),
    }
}

/// What a node's answer to a sent vertex is answered.
fn heard(answer: Answer) -> Acted
    ensures { result ≡ heard answer }
{
    match answer {
        Ok(receipt) => Acted::Received(receipt),
        Err(cause) => Acted::Refused(cause),
    }
}

/// Whether none of the vertex's signers is one of this many nodes.
fn is_foreign(nodes: u64, vertex: &Vertex) -> bool
    ensures { result ≡ is_foreign nodes vertex.now }
{
    match vertex {
        Vertex::Unit(unit) => u64::from(unit.unit.creator) >= nodes,
        Vertex::Evidence(evidence) => {
            u64::from(evidence.left.unit.creator) >= nodes
                && u64::from(evidence.right.unit.creator) >= nodes
        }
        Vertex::Endorsement(endorsement) => u64::from(endorsement.endorser) >= nodes,
    }
}
