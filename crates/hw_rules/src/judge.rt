//! The rules of a unit over the units below it.

ghost use Rattle.std.specs.Prelude.{◌≡◌, ◌≤◌, ◌<◌, ◌+◌, None, Some, IfOk, IfErr, length, false};
ghost use Rattle.hw_types.specs.{Limits.{config_fault}, Rules.{state_rule, is_after_terminal}};
ghost use Rattle.hw_dag.specs.{Dag.{graph, count_of}, Admission.{IsResolved, IsFork, IsGraph, node_prepared}, Lanes.{AreWeights}};
ghost use Rattle.hw_forks.specs.Votes.{IsRoomFor};
ghost use Rattle.hw_naivety.specs.Naivety.{IsNoted};
ghost use Rattle.hw_rules.specs.Judged.{IsCase, KeepsLocalRules, IsForkOf, AllEndorseSeen, below_of, stands_at};

use crate::citations::citations;
use crate::endorsed::endorsements;
use crate::rounds::rounds;
use hw_dag::{Dag, Marks, Prepared, UnitNo};
use hw_forks::Forks;
use hw_naivety::Naivety;
use hw_rounds::LeaderTable;
use hw_types::{Config, Rule};

/// What a unit is judged over.
#[derive(Drop)]
pub struct Judge<'a> {
    pub config: &'a Config,
    pub leaders: &'a LeaderTable,
    pub dag: &'a Dag,
    pub naivety: &'a Naivety,
}

impl Judge<'_> {
    /// The fork choice of the unit's panorama where it breaks no rule over the units below it, else the
    /// first rule that it breaks.
    pub fn judge(
        &self,
        prepared: &Prepared,
        forks: &mut Forks,
        marks: &mut Marks,
    ) -> Result<Option<UnitNo>, Rule>
        requires lawful { config_fault self.now.config.now ≡ None }
        requires leaders { self.now.leaders.now ≡ self.now.config.now }
        requires weights { AreWeights self.now.config.now.weights self.now.dag.now }
        requires seen { AllEndorseSeen self.now.dag.now }
        requires noted { IsNoted self.now.naivety.now self.now.dag.now }
        requires all { self.now.naivety.now.count ≡ count_of self.now.dag.now }
        requires alone { KeepsLocalRules self.now.config.now prepared.now.signed.unit }
        requires resolved { IsResolved self.now.dag.now prepared.now }
        requires forks { IsRoomFor self.now.dag.now forks.old }
        requires marks { count_of self.now.dag.now ≤ marks.old }
        // An answer tells exactly what the rules tell.
        ensures kept { IfOk result (λ fork. state_rule self.now.config.now (graph self.now.dag.now) (node_prepared prepared.now) ≡ None) }
        ensures broken { IfErr result (λ rule. state_rule self.now.config.now (graph self.now.dag.now) (node_prepared prepared.now) ≡ Some rule) }

        // It is the fork choice that the graph asks for.
        ensures fork { IfOk result (IsForkOf self.now.config.now.weights self.now.dag.now prepared.now) }
        ensures is_fork { IfOk result (IsFork self.now.dag.now prepared.now.signed.unit.panorama) }
        ensures forks { forks.new ≡ forks.old }
        ensures marks { marks.new ≡ marks.old }
    {
        self.dag.recall_graph();
        citations(self.dag, prepared)?;
        rounds(self.leaders, self.dag, prepared)?;
        endorsements(self.naivety, self.dag, prepared, marks)?;
        let fork = forks.fork_choice(self.dag, &self.config.weights, prepared.panorama());
        if is_after_end(self.config, self.dag, prepared, fork) {
            return Err(Rule::AfterTerminal);
        }
        Ok(fork)
    }
}

/// Whether it is a block, and its fork choice is at the height of the configuration's last block.
fn is_after_end(config: &Config, dag: &Dag, prepared: &Prepared, fork: Option<UnitNo>) -> bool
    requires case { IsCase dag.now prepared.now }
    requires weights { AreWeights config.now.weights dag.now }
    requires fork { IsForkOf config.now.weights dag.now prepared.now fork }
    requires is_fork { IsFork dag.now prepared.now.signed.unit.panorama fork }
    ensures { result ≡ is_after_terminal config.now (below_of dag.now prepared.now) (node_prepared prepared.now) }
{
    match config.end {
        Some(end) => {
            prepared.signed().unit.value.is_some() && stands_at(config, dag, prepared, fork, end)
        }
        None => false,
    }
}

/// Whether its fork choice has this height.
fn stands_at(
    config: &Config,
    dag: &Dag,
    prepared: &Prepared,
    fork: Option<UnitNo>,
    height: u64,
) -> bool
    requires case { IsCase dag.now prepared.now }
    requires weights { AreWeights config.now.weights dag.now }
    requires fork { IsForkOf config.now.weights dag.now prepared.now fork }
    requires is_fork { IsFork dag.now prepared.now.signed.unit.panorama fork }
    ensures { result ≡ stands_at config.now.weights (below_of dag.now prepared.now) (node_prepared prepared.now) height }
{
    // The weights stand in the contract alone.
    let _ = &config.weights;
    match fork {
        Some(block) => dag.unit(block).height().unwrap_or(0) == height,
        None => false,
    }
}
