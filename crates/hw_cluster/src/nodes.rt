//! A cluster and its actions.

ghost use Rattle.std.specs.Prelude.{◌≡◌, ◌^◌, ◌<◌, ◌≤◌, [], length, replicate, None, IfOk, IfErr, OnOk, OnErr};
ghost use Rattle.hw_types.specs.{Limits.{config_fault}, Real.{setting_of}};
ghost use Rattle.hw_admit.specs.State.{IsStartFault};
ghost use Rattle.hw_core.specs.Promises.{begun as begun_core};
ghost use Rattle.hw_honest.specs.Simulated.{culprits_in, IsMostDecisions};
ghost use Rattle.hw_cluster.specs.{Nodes.{begun_with, nodes_in, node_in, CanAct, acted_in, left_by, IsReached}, Laws.{AreApart}};

use crate::acts::act_on;
use crate::counts::{count_culprits, most_decisions};
use crate::named::NamedVertex;
use hw_admit::StateFault;
use hw_core::Core;
use hw_honest::{Acted, Action};
use hw_types::{Config, OutOfMemory};
use std::alloc::Global;
use std::marker::Model;
use std::mem::forget;

/// Some honest validators, each with its node, and the vertices that were sent. Node i is validator i.
///
/// Contracts see the configuration, the journal of each node, and what was sent.
#[derive(Drop)]
pub struct Cluster {
    config: Config,
    nodes: Vec<Core>,
    sent: Vec<NamedVertex>,
}

impl Model for Cluster {
    ghost use Rattle.hw_cluster.specs.Nodes.{ClusterState, state_of, AreNodes};

    ghost Value = { ClusterState };

    ghost view = { λ c. state_of c.config c.nodes.items c.sent.items };

    ghost invariant = { λ c. AreNodes c.config c.nodes.items c.sent.items };
}

impl Cluster {
    /// `nodes` nodes that received nothing: the validators 0, 1, 2 and so on. `Fault` comes exactly where the
    /// configuration breaks a limit, and names the first one. `OutOfMemory` comes where memory runs out.
    pub fn new(alloc: Global, config: Config, nodes: u32) -> Result<Cluster, StateFault>
        requires some { 1 ≤ nodes }
        requires few { nodes ≤ length config.weights }
        ensures lawful { IfOk result (λ cluster. config_fault config ≡ None) }
        ensures fault { IfErr result (IsStartFault (config_fault config)) }
        ensures begun { IfOk result (λ cluster. cluster ≡ begun_with config nodes) }
    {
        if let Err(fault) = config.check() {
            return Err(StateFault::Fault(fault));
        }
        let nodes = begin_all(alloc, &config, nodes)?;
        Ok(Cluster {
            config,
            nodes,
            sent: Vec::new(alloc),
        })
    }

    /// Does one action, and says what came of it.
    ///
    /// A step is that of the node's validator at this moment, in milliseconds. The value of its block is the
    /// node's number as four bytes and its round as eight, and its signature is 32 zero bytes. Its own node takes
    /// the unit first; it is sent where that node admitted it, and only then.
    ///
    /// `Idle` is answered exactly where there is no unit to make. `NotSent` is answered exactly where the number
    /// isn't below that of the sent vertices. `NotAllowed` is answered exactly where one of the vertex's signers
    /// is a node. `Refused` has the node's cause. After these four, and after `OutOfMemory`, nothing has changed.
    pub fn act(&mut self, action: Action) -> Result<Acted, OutOfMemory>
        // The node is there, the moment is below 2^63, and units keep the limits of their format.
        requires { CanAct self.old action }
        // The answer, and what is left, are those of the definitions.
        ensures answer { IfOk result (λ answer. answer ≡ acted_in self.old action) }
        ensures left { OnOk result (self.new ≡ left_by self.old action) }
        ensures unchanged { OnErr result (self.new ≡ self.old) }

        // No two different units of one number by one node were sent or are in a journal, inside evidence or not.
        ensures apart { AreApart self.new }
        ensures reached { IsReached self.new }
    {
        act_on(&self.config, &mut self.nodes, &mut self.sent, action)
    }

    /// A node, for reading.
    pub fn core(&self, node: u32) -> &Core
        requires { node < nodes_in self.now }
        ensures { result.now ≡ node_in self.now node }
    {
        &self.nodes[node as usize]
    }

    /// How many vertices were sent.
    pub fn sent_count(&self) -> u64
        ensures { result ≡ length self.now.cluster.sent }
    {
        self.sent.len() as u64
    }

    /// How many validators have two different units of one number among those that were sent, units inside
    /// evidence too.
    pub fn culprit_count(&self) -> u32
        ensures { result ≡ length (culprits_in (setting_of self.now.config) self.now.cluster) }
    {
        count_culprits(&self.config, &self.nodes, &self.sent)
    }

    /// The most blocks that a node has decided.
    pub fn most_decisions(&self) -> u64
        ensures { IsMostDecisions (setting_of self.now.config) (nodes_in self.now) self.now.cluster result }
    {
        most_decisions(&self.nodes)
    }

    /// Leaves the memory of the nodes, and of what was sent, to the end of the process.
    pub(crate) fn leave(self) {
        forget(self)
    }
}

/// A node that received nothing.
pub fn begin(alloc: Global, config: Config) -> Result<Core, OutOfMemory>
    requires { config_fault config ≡ None }
    ensures { IfOk result (λ core. core ≡ begun_core config) }
{
    match Core::new(alloc, config) {
        Ok(core) => Ok(core),
        Err(StateFault::OutOfMemory) => Err(OutOfMemory),
        // The configuration keeps all limits.
        Err(StateFault::Fault(_)) => unreachable!(),
    }
}

/// This many nodes that received nothing.
pub fn begin_all(alloc: Global, config: &Config, nodes: u32) -> Result<Vec<Core>, OutOfMemory>
    requires { config_fault config.now ≡ None }
    ensures { IfOk result (λ cores. cores.items ≡ replicate nodes (begun_core config.now)) }
{
    let mut cores = Vec::new(alloc);
    fill(&mut cores, config, nodes)?;
    Ok(cores)
}

/// Puts this many nodes into a list that has none.
#[tactic(auto, using(std::proofs::lemmas::List::replicate_more))]
fn fill(cores: &mut Vec<Core>, config: &Config, nodes: u32) -> Result<(), OutOfMemory>
    requires lawful { config_fault config.now ≡ None }
    requires empty { cores.old.items ≡ [] }
    ensures { OnOk result (cores.new.items ≡ replicate nodes (begun_core config.now)) }
{
    let alloc = *cores.allocator();
    for _ in 0..nodes {
        cores.push(begin(alloc, config.copy()?)?)?;
    }
    Ok(())
}
