//! Lines that act on a cluster.

ghost use Rattle.std.specs.Prelude.{◌≡◌, None, IsTrue, IfOk, length};
ghost use Rattle.hw_types.specs.Limits.{config_fault};
ghost use Rattle.hw_cluster.specs.Nodes.{ClusterState, nodes_in, CanAct};

use hw_admit::StateFault;
use hw_case_words::{is_in_format, no_signature, number, small};
use hw_cluster::{Acted, Action, Cluster};
use hw_codec::instance_of;
use hw_types::{
    Bytes, Config, Digest, DigestList, Endorsement, Evidence, IndexList, Leaders, Obs, ObsList,
    OutOfMemory, PlanKind, Receipt, SignedUnit, Vertex, WeightList, WireUnit,
};
use std::alloc::Global;

/// What each action is answered, and how many vertices are sent then. A node keeps this many records at most. Where
/// there is no such cluster, why.
pub fn acts(
    alloc: Global,
    nodes: u64,
    records: u32,
    actions: &[&str],
) -> Result<String, OutOfMemory> {
    if nodes < 1 || nodes > 3 {
        return Ok(String::new(alloc));
    }
    let config = config(alloc, records)?;
    match Cluster::new(alloc, config.copy()?, nodes as u32) {
        Ok(mut cluster) => acted(alloc, &mut cluster, &config, nodes, actions),
        Err(StateFault::Fault(fault)) => Ok(format!(in alloc; "{fault:?}")?),
        Err(StateFault::OutOfMemory) => Err(OutOfMemory),
    }
}

/// The answers of a cluster of this many nodes.
fn acted(
    alloc: Global,
    cluster: &mut Cluster,
    config: &Config,
    nodes: u64,
    actions: &[&str],
) -> Result<String, OutOfMemory>
    requires lawful { config_fault config.now ≡ None }
    requires nodes { nodes_in cluster.old ≡ nodes }
{
    let instance = instance_of(alloc, config)?;
    let mut text = String::new(alloc);
    for word in actions {
        if let Some(action) = action_of(alloc, instance, word)? {
            text.push_str(act(cluster, nodes, action)?)?;
            text.push_str(", ")?;
        }
    }
    let sent = cluster.sent_count();
    let count = format!(in alloc; "sent {sent}")?;
    text.push_str(count.as_str())?;
    Ok(text)
}

/// What the action is answered, in a word.
#[tactic(auto, using(hw_cluster::proofs::NodesLaws::nodes_stay))]
fn act(cluster: &mut Cluster, nodes: u64, action: Action) -> Result<&'static str, OutOfMemory>
    requires { nodes_in cluster.old ≡ nodes }
    ensures { nodes_in cluster.new ≡ nodes }
{
    if is_possible(nodes, &action) {
        Ok(named(cluster.act(action)?))
    } else {
        Ok("impossible")
    }
}

/// Whether a cluster of this many nodes can do the action.
fn is_possible(nodes: u64, action: &Action) -> bool
    ensures { IsTrue result → (c : ClusterState) → nodes_in c ≡ nodes → CanAct c action.now }
{
    match action {
        Action::Step { node, now } => u64::from(*node) < nodes && *now < 1 << 63,
        Action::Deliver { node, .. } => u64::from(*node) < nodes,
        Action::Forge { vertex } => is_in_format(vertex),
    }
}

/// Three validators of weight 1, of which the leaders are 0, 0 and 2 in turn.
fn config(alloc: Global, max_records: u32) -> Result<Config, OutOfMemory>
    ensures { IfOk result (λ config. length config.weights ≡ 3) }
{
    Ok(Config {
        weights: three_weights(alloc)?,
        ftt: 0,
        levels: 1,
        min_exponent: 4,
        max_exponent: 8,
        leaders: Leaders::Table(leaders(alloc)?),
        max_records,
        max_parked: 4_096,
        end: None,
    })
}

fn three_weights(alloc: Global) -> Result<WeightList, OutOfMemory>
    ensures { IfOk result (λ weights. length weights ≡ 3) }
{
    let mut weights = WeightList::new(alloc);
    weights.push(1)?;
    weights.push(1)?;
    weights.push(1)?;
    Ok(weights)
}

fn leaders(alloc: Global) -> Result<IndexList, OutOfMemory> {
    let mut leaders = IndexList::new(alloc);
    leaders.push(0)?;
    leaders.push(0)?;
    leaders.push(2)?;
    Ok(leaders)
}

/// The action that the word gives.
fn action_of(alloc: Global, instance: Digest, word: &str) -> Result<Option<Action>, OutOfMemory> {
    let parts: Vec<&str> = word.split(':').collect(alloc)?;
    match parts.as_slice() {
        [kind, who, what] => action(alloc, instance, kind, small(who), number(what)),
        _ => Ok(None),
    }
}

/// The action of this kind, if there is one.
fn action(
    alloc: Global,
    instance: Digest,
    kind: &str,
    who: u32,
    what: u64,
) -> Result<Option<Action>, OutOfMemory> {
    Ok(match kind {
        "step" => Some(Action::Step {
            node: who,
            now: what,
        }),
        "give" => Some(Action::Deliver {
            node: who,
            sent: what,
        }),
        "block" => forged(Vertex::Unit(block(alloc, instance, who, what, 1)?)),
        "pair" => forged(Vertex::Evidence(pair(alloc, instance, who, what)?)),
        "word" => forged(endorsement(instance, who)),
        _ => None,
    })
}

fn forged(vertex: Vertex) -> Option<Action> {
    Some(Action::Forge { vertex })
}

/// Two first blocks of the creator.
fn pair(alloc: Global, instance: Digest, creator: u32, time: u64) -> Result<Evidence, OutOfMemory> {
    let left = block(alloc, instance, creator, time, 1)?;
    let right = block(alloc, instance, creator, time, 2)?;
    Ok(Evidence { left, right })
}

fn endorsement(unit: Digest, endorser: u32) -> Vertex {
    Vertex::Endorsement(Endorsement {
        unit,
        endorser,
        signature: no_signature(),
    })
}

/// A first block of the creator, whose value is one byte.
fn block(
    alloc: Global,
    instance: Digest,
    creator: u32,
    time: u64,
    value: u8,
) -> Result<SignedUnit, OutOfMemory> {
    let mut panorama = ObsList::new(alloc);
    for _ in 0..3 {
        panorama.push(Obs::Absent)?;
    }
    Ok(SignedUnit {
        unit: WireUnit {
            instance,
            creator,
            seq: 0,
            time,
            exponent: 4,
            panorama,
            value: Some(Bytes::from_vec(Vec::from_slice(alloc, &[value])?)),
            endorsed: DigestList::new(alloc),
        },
        signature: no_signature(),
    })
}

/// The answer in words.
fn named(acted: Acted) -> &'static str {
    match acted {
        Acted::Made(PlanKind::Propose) => "propose",
        Acted::Made(PlanKind::Confirm) => "confirm",
        Acted::Made(PlanKind::Witness) => "witness",
        Acted::Idle => "idle",
        Acted::Received(receipt) => received(receipt),
        Acted::Refused(_) => "refused",
        Acted::NotSent => "not sent",
        Acted::NotAllowed => "not allowed",
        Acted::Forged => "forged",
    }
}

fn received(receipt: Receipt) -> &'static str {
    match receipt {
        Receipt::Admitted { settled: 0 } => "admitted 0",
        Receipt::Admitted { settled: 1 } => "admitted 1",
        Receipt::Admitted { .. } => "admitted more",
        Receipt::Parked { .. } => "parked",
        Receipt::Dropped(_) => "dropped",
        Receipt::Repeat => "repeat",
    }
}
