//! Simulated runs: the words of a number choose each action.

ghost use Rattle.std.specs.Prelude.{◌≡◌, ◌+◌, ◌*◌, ◌^◌, ◌<◌, ◌≤◌, length, replicate, fold, filter, IfOk, OnOk, if◌then◌else◌};
ghost use Rattle.hw_types.specs.Real.{setting_of};
ghost use Rattle.hw_honest.specs.Cluster.{Cluster as Nodes, begun, after, answers_in};
ghost use Rattle.hw_honest.specs.Simulated.{next_action, actions_from, is_refused, sim_config, sim_key, sim_setting, sim_actions, culprits_in, IsMostDecisions, AreNumbers};
ghost use Rattle.hw_cluster.specs.{Nodes.{begun_with, nodes_in, acted_in, left_by}, Numbers.{word_in, numbers_of, action_at}};

use crate::drawn::drawn_config;
use crate::nodes::Cluster;
use crate::words::{Words, key_for};
use hw_admit::StateFault;
use hw_honest::{Acted, Action};
use hw_types::{Config, OutOfMemory};
use std::alloc::Global;

/// What came of a simulated run.
#[derive(Clone, Copy, Debug, PartialEq, Eq)]
pub struct SimSummary {
    /// How many vertices were sent.
    pub units: u64,
    /// The most blocks that a node decided.
    pub finals: u64,
    /// How many actions were refused.
    pub refused: u64,
    /// How many validators have two different units of one number among those that were sent.
    pub culprits: u32,
}

/// The configuration of a simulated run: `nodes` validators of weight 1, of which less than a third may be faulty.
/// It has two levels, rounds of 16 to 256 milliseconds, and leaders drawn by the key.
fn sim_config(alloc: Global, key: [u8; 32], nodes: u32) -> Result<Config, OutOfMemory>
    requires { 1 ≤ nodes }
    ensures { IfOk result (λ config. config ≡ sim_config key nodes) }
{
    drawn_config(alloc, key, nodes, (nodes - 1) / 3, 2)
}

/// The nodes of a simulated run, which received nothing.
fn begin(alloc: Global, key: [u8; 32], nodes: u32) -> Result<Cluster, OutOfMemory>
    requires some { 1 ≤ nodes }
    requires few { nodes ≤ 16 }
    ensures { IfOk result (λ cluster. cluster ≡ begun_with (sim_config key nodes) nodes) }
{
    match Cluster::new(alloc, sim_config(alloc, key, nodes)?, nodes) {
        Ok(cluster) => Ok(cluster),
        Err(StateFault::OutOfMemory) => Err(OutOfMemory),
        // The configuration keeps all limits.
        Err(StateFault::Fault(_)) => unreachable!(),
    }
}

/// The action that two words choose after `step` steps, where `sent` vertices were sent.
fn next_action(nodes: u32, sent: u64, step: u32, x: u32, y: u32) -> Action
    requires { 1 ≤ nodes }
    ensures { (c : Nodes) → length c.sent ≡ sent → result ≡ next_action nodes c step x y }
{
    let node = y % nodes;
    if x % 2 == 0 || sent == 0 {
        Action::Step {
            node,
            now: 16 + u64::from(step),
        }
    } else {
        Action::Deliver {
            node,
            sent: u64::from(x / 2) % sent,
        }
    }
}

/// Does the actions of `steps` steps, and says how many were refused.
fn run(cluster: &mut Cluster, words: &mut Words, nodes: u32, steps: u32) -> Result<u64, OutOfMemory>
    requires some { 1 ≤ nodes }
    requires nodes { nodes ≡ nodes_in cluster.old }
    requires first { words.old.place ≡ 0 }
    ensures left { OnOk result (let s = setting_of cluster.old.config in
        cluster.new ≡ record cluster.old { cluster = fold (after s nodes) cluster.old.cluster (actions_from s nodes (word_in words.old.key) cluster.old.cluster steps 0) }) }
    ensures refused { IfOk result (λ refused. let s = setting_of cluster.old.config in
        refused ≡ length (filter is_refused (answers_in s nodes cluster.old.cluster (actions_from s nodes (word_in words.old.key) cluster.old.cluster steps 0)))) }
    ensures nodes { OnOk result (nodes ≡ nodes_in cluster.new) }
{
    let mut refused = 0;
    for step in 0..steps {
        refused += act_once(cluster, words, nodes, step)?;
    }
    Ok(refused)
}

/// Does the action of a step, which the next two words choose, and says how many actions were refused: 1 or 0.
fn act_once(
    cluster: &mut Cluster,
    words: &mut Words,
    nodes: u32,
    step: u32,
) -> Result<u64, OutOfMemory>
    requires some { 1 ≤ nodes }
    requires nodes { nodes ≡ nodes_in cluster.old }
    requires place { words.old.place ≡ 2 * step }
    ensures words { words.new ≡ record { key = words.old.key; place = 2 * (step + 1) } }
    ensures left { OnOk result (cluster.new ≡ left_by cluster.old (action_at words.old.key nodes cluster.old.cluster step)) }
    ensures refused { IfOk result (λ n. n ≡ (if is_refused (acted_in cluster.old (action_at words.old.key nodes cluster.old.cluster step)) then 1 else 0)) }
    ensures few { IfOk result (λ n. n ≤ 1) }
{
    let x = words.next();
    let y = words.next();
    let action = next_action(nodes, cluster.sent_count(), step, x, y);
    Ok(refusals(cluster.act(action)?))
}

/// How many actions of one were refused.
fn refusals(answer: Acted) -> u64
    ensures { result ≡ (if is_refused answer then 1 else 0) }
{
    match answer {
        Acted::Refused(_) => 1,
        _ => 0,
    }
}

/// Lets the words of a number choose the actions of `steps` steps, and counts what comes of them.
///
/// There are `nodes` validators of weight 1, 1 to 16, all of them nodes, and 0 to 20,000 steps. The key is the
/// SHA-256 digest of the bytes of `sim` and the number's eight bytes. It draws the leaders and gives the words,
/// those of ChaCha8's first stream.
///
/// Step s takes two words x and y. Where x is even, or nothing was sent yet, node `y mod nodes` makes its unit at
/// the moment `16 + s`. Else it is given the sent vertex of number `x / 2`, modulo how many were sent. The culprits
/// are counted among what was sent, and there are none.
///
/// The nodes' memory is left to the end of the process.
pub fn simulate(
    alloc: Global,
    number: u64,
    nodes: u32,
    steps: u32,
) -> Result<SimSummary, OutOfMemory>
    requires some { 1 ≤ nodes }
    requires few { nodes ≤ 16 }
    requires steps { steps ≤ 20000 }
    ensures numbers { IfOk result (λ n. AreNumbers (sim_setting number nodes) nodes (sim_actions number nodes steps) (numbers_of n)) }
    ensures culprits { IfOk result (λ n. n.culprits ≡ 0) }
{
    let key = key_for(b"sim", number);
    let mut cluster = begin(alloc, key, nodes)?;
    let refused = run(&mut cluster, &mut Words::new(key), nodes, steps)?;
    let ended = summary(&cluster, refused);
    // The program that asks for this ends after it, and so the nodes' memory is left to that end.
    cluster.leave();
    Ok(ended)
}

/// What came of the actions of a cluster, of which this many were refused.
fn summary(cluster: &Cluster, refused: u64) -> SimSummary
    ensures units { result.units ≡ length cluster.now.cluster.sent }
    ensures finals { IsMostDecisions (setting_of cluster.now.config) (nodes_in cluster.now) cluster.now.cluster result.finals }
    ensures refused { result.refused ≡ refused }
    ensures culprits { result.culprits ≡ length (culprits_in (setting_of cluster.now.config) cluster.now.cluster) }
{
    SimSummary {
        units: cluster.sent_count(),
        finals: cluster.most_decisions(),
        refused,
        culprits: cluster.culprit_count(),
    }
}
