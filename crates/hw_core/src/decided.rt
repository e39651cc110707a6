//! The decided blocks of a node.

ghost use Rattle.std.specs.Prelude.{◌≡◌, ℕ, ◌+◌, ◌<◌, ◌≤◌, ◌∷◌, ◌++◌, [], length, take, None, Some, slice_get, vec_capacity, IfOk, OnOk};
ghost use Rattle.hw_types.specs.{Below.{Among}, Limits.{config_fault}, Votes.{weight_of}};
ghost use Rattle.hw_dag.specs.{Dag.{UnitGraph, graph, count_of, observations}, Admission.{IsGraph}};
ghost use Rattle.hw_admit.specs.State.{is_faulty_in, observed_in};
ghost use Rattle.hw_horizon.specs.{declared.found.Found.{Found as FoundBlock}, Detected.{IsTrueOf, decision_of, decisions_of as found_in}, DetectorLaws.{DecidesOn}};
ghost use Rattle.hw_core.specs.{Keeps.{IsChoice}, Decided.{IsToldOf, HasRoomFor, HasOnlyRoom}};

use hw_admit::State;
use hw_dag::{Dag, UnitNo};
use hw_horizon::{Detector, Found};
use hw_types::{Config, Decision, OutOfMemory};
use std::alloc::Global;
use std::marker::Model;

/// The decided blocks, and the detector that finds them.
pub struct Decided {
    detector: Detector,
    /// What the detector found, in order, each block by its digest.
    decisions: Vec<Decision>,
}

// For the prover: so its drop is one call, and else is written out wherever one is let go.
impl Drop for Decided {
    fn drop(self) {
        let Decided {
            detector: _detector,
            decisions: _decisions,
        } = self;
    }
}

impl Model for Decided {
    ghost use Rattle.std.specs.Prelude.{vec_capacity};
    ghost use Rattle.hw_core.specs.Decided.{DecidedState};

    ghost Value = { DecidedState };

    ghost view = { λ d. record { detector = d.detector; decisions = d.decisions.items; room = vec_capacity d.decisions } };
}

impl Decided {
    /// Nothing is decided so far, under a lawful configuration.
    pub fn new(alloc: Global, config: &Config) -> Result<Decided, OutOfMemory>
        requires { config_fault config.now ≡ None }
        ensures config { IfOk result (λ decided. decided.detector.config ≡ config.now) }
        ensures none { IfOk result (λ decided. decided.detector.found ≡ []) }
        ensures empty { IfOk result (λ decided. decided.decisions ≡ []) }
        ensures true_of { IfOk result (λ decided. (dag : UnitGraph) → IsTrueOf decided.detector dag) }
    {
        Ok(Decided {
            detector: Detector::new(alloc, config)?,
            decisions: Vec::new(alloc),
        })
    }

    /// How many blocks are decided.
    pub fn count(&self) -> u64
        ensures { result ≡ length self.now.decisions }
    {
        self.decisions.len() as u64
    }

    /// The decided block of that place.
    pub fn get(&self, index: u64) -> &Decision
        requires { index < length self.now.decisions }
        ensures { Some result.now ≡ slice_get self.now.decisions index }
    {
        &self.decisions[index as usize]
    }

    /// The number of the decided block of that place.
    pub fn block(&self, index: u64) -> UnitNo
        requires { index < length self.now.detector.found }
        ensures { (f : FoundBlock) × (slice_get self.now.detector.found index ≡ Some f) × (result ≡ f.block) }
    {
        // For the prover: recalls that so many have a number of 32 bits.
        let _count = self.detector.found_count();
        self.detector.found_at(index as u32).block
    }

    /// Makes room for so many blocks in all.
    pub fn reserve(&mut self, count: u32) -> Result<(), OutOfMemory>
        requires { length self.old.decisions ≡ length self.old.detector.found }
        ensures room { OnOk result (HasRoomFor self.new count) }
        ensures kept { HasOnlyRoom self.old self.new }
    {
        let found = self.detector.found_count();
        if found < count {
            self.detector.reserve(count - found)?;
            self.decisions.reserve((count - found) as usize)?;
        }
        Ok(())
    }

    /// Works out the fork choice, and decides the blocks that stand after one more delivery. `at` is how
    /// long the journal is.
    pub fn run(&mut self, state: &mut State, at: u64) -> Option<UnitNo>
        requires told { IsToldOf self.old state.old }
        requires room { HasRoomFor self.old (length (graph state.old.dag)) }
        ensures choice { IsChoice state.old result }
        ensures state { state.new ≡ state.old }
        ensures graph { IsGraph state.old.dag }
        ensures observed { observations state.old.dag state.old.panorama ≡ observed_in state.old.config state.old.marked (graph state.old.dag) }
        ensures decides { DecidesOn state.old.config state.old.dag state.old.panorama (weight_of state.old.config.weights (is_faulty_in state.old.marked (graph state.old.dag))) at self.old.detector.found self.new.detector.found }
        ensures told { IsToldOf self.new state.old }
        ensures spare { length self.new.detector.found + self.new.detector.spare ≡ length self.old.detector.found + self.old.detector.spare }
        ensures more { self.old.room ≤ self.new.room }
    {
        let fork = state.fork();
        let faulty = state.faulty_weight();
        let dag = state.dag();
        let _outcome = self.detector.run(dag, state.panorama(), fork, faulty, at);
        list(&mut self.decisions, &self.detector, dag);
        fork
    }
}

/// Puts the decisions last that the detector has found and the list lacks.
fn list(decisions: &mut Vec<Decision>, detector: &Detector, dag: &Dag)
    requires known { (f : FoundBlock) → Among f detector.now.found → f.block.0 < count_of dag.now }
    requires prefix { decisions.old.items ≡ take (length decisions.old.items) (found_in dag.now detector.now.found) }
    requires many { length decisions.old.items ≤ length detector.now.found }
    requires room { length detector.now.found ≤ vec_capacity decisions.old }
    ensures listed { decisions.new.items ≡ found_in dag.now detector.now.found }
    ensures room { vec_capacity decisions.old ≤ vec_capacity decisions.new }
{
    let count = detector.found_count();
    for index in decisions.len() as u32..count {
        put_decision(decisions, decision_of(dag, detector.found_at(index)));
    }
}

/// Puts a decision last, for which there is room.
fn put_decision(decisions: &mut Vec<Decision>, decision: Decision)
    requires { length decisions.old.items + 1 ≤ vec_capacity decisions.old }
    ensures last { decisions.new.items ≡ decisions.old.items ++ decision ∷ [] }
    ensures room { vec_capacity decisions.old ≤ vec_capacity decisions.new }
{
    if decisions.push(decision).is_err() {
        unreachable!()
    }
}

/// The record of a block that was found.
fn decision_of(dag: &Dag, found: &Found) -> Decision
    requires { found.now.block.0 < count_of dag.now }
    ensures { result ≡ decision_of dag.now found.now }
{
    Decision {
        block: *dag.unit(found.block).digest(),
        height: found.height,
        level: found.level,
        quorum: found.quorum,
        at: found.at,
    }
}
