//! The summit of a decided block in the present state.

ghost use Rattle.std.specs.Prelude.{◌≡◌, ℕ, ◌<◌, ◌≤◌, ◌↔◌, length, IsTrue, IfOk, Some, None, is_some, if◌then◌else◌};
ghost use Rattle.hw_types.specs.{Limits.{config_fault}, Summit.{HasSummit}};
ghost use Rattle.hw_dag.specs.{Dag.{UnitGraph, graph, count_of, node_at, observations}, Admission.{IsGraph}};
ghost use Rattle.hw_admit.specs.State.{observed_in};
ghost use Rattle.hw_horizon.specs.{Search.{start_of}, Kept.{AreKept}};
ghost use Rattle.hw_core.specs.Shown.{IsSearchOf, IsAnswer, is_about};

use hw_admit::State;
use hw_dag::UnitNo;
use hw_horizon::Horizons;
use hw_types::{Config, LastQuestion, OutOfMemory};
use std::alloc::Global;
use std::marker::Model;

/// The greatest summit that was asked for last.
pub struct Shown {
    horizons: Horizons,
    /// What the last search was for.
    asked: Option<LastQuestion>,
}

// For the prover: so its drop is one call, and else is written out wherever one is let go.
impl Drop for Shown {
    fn drop(self) {
        let Shown {
            horizons: _horizons,
            asked: _,
        } = self;
    }
}

impl Model for Shown {
    ghost use Rattle.hw_core.specs.Shown.{ShownState};

    ghost Value = { ShownState };

    ghost view = { λ s. record { search = s.horizons; asked = s.asked } };
}

impl Shown {
    /// Nothing was asked for, under a lawful configuration.
    pub fn new(alloc: Global, config: &Config) -> Result<Shown, OutOfMemory>
        requires { config_fault config.now ≡ None }
        ensures validators { IfOk result (λ shown. shown.search.validators ≡ length config.now.weights) }
        ensures levels { IfOk result (λ shown. shown.search.levels ≡ config.now.levels) }
        ensures walks { IfOk result (λ shown. (dag : UnitGraph) → AreKept dag shown.search.walks) }
        ensures none { IfOk result (λ shown. shown.asked ≡ None) }
    {
        let validators = config.weights.len() as u32;
        let horizons = Horizons::new(alloc, validators, u32::from(config.levels))?;
        Ok(Shown {
            horizons,
            asked: None,
        })
    }

    /// Whether the block has a summit of this level and quorum in the state, whose greatest is then shown. It
    /// is the decided block that is asked for.
    pub fn show(
        &mut self,
        state: &State,
        question: LastQuestion,
        block: UnitNo,
        level: u32,
        quorum: u64,
    ) -> bool
        requires search { IsSearchOf self.old.search state.now }
        requires known { block.0 < count_of state.now.dag }
        requires level { level ≤ state.now.config.levels }
        ensures exact { IsTrue result ↔ HasSummit state.now.config.weights (graph state.now.dag) (observations state.now.dag state.now.panorama) (node_at state.now.dag block.0) level quorum }
        ensures asked { self.new.asked ≡ Some question }
        ensures answer { IsAnswer state.now.config.weights (graph state.now.dag) (observations state.now.dag state.now.panorama) (node_at state.now.dag block.0) level quorum self.new.search }
        ensures search { IsSearchOf self.new.search state.now }
        ensures graph { IsGraph state.now.dag }
        ensures observed { observations state.now.dag state.now.panorama ≡ observed_in state.now.config state.now.marked (graph state.now.dag) }
    {
        let dag = state.dag();
        let panorama = state.panorama();
        let weights = &state.config().weights;
        let found = self
            .horizons
            .greatest(dag, weights, panorama, block, level, quorum);
        self.asked = Some(question);
        found
    }

    /// Shows the same, unless it is shown already.
    pub fn show_once(
        &mut self,
        state: &State,
        question: LastQuestion,
        block: UnitNo,
        level: u32,
        quorum: u64,
    )
        requires search { IsSearchOf self.old.search state.now }
        requires known { block.0 < count_of state.now.dag }
        requires level { level ≤ state.now.config.levels }
        requires shown { self.old.asked ≡ Some question → IsAnswer state.now.config.weights (graph state.now.dag) (observations state.now.dag state.now.panorama) (node_at state.now.dag block.0) level quorum self.old.search }
        ensures asked { self.new.asked ≡ Some question }
        ensures answer { IsAnswer state.now.config.weights (graph state.now.dag) (observations state.now.dag state.now.panorama) (node_at state.now.dag block.0) level quorum self.new.search }
        ensures search { IsSearchOf self.new.search state.now }
    {
        if !self.answers(question) {
            self.show(state, question, block, level, quorum);
        }
    }

    /// Whether the last search was for this question.
    fn answers(&self, question: LastQuestion) -> bool
        ensures { IsTrue result ↔ (self.now.asked ≡ Some question) }
    {
        match self.asked {
            Some(asked) => asked.decision == question.decision && asked.at == question.at,
            None => false,
        }
    }

    /// The start of a validator in the committee of a level of the summit that is shown, where the journal's length
    /// is still what it was.
    pub fn start(&self, count: u64, level: u32, validator: u32) -> Option<u64>
        ensures { result ≡ (if is_about self.now.asked count then start_of self.now.search level validator else None) }
    {
        match self.asked {
            Some(asked) if asked.at == count => self.horizons.start(level, validator),
            _ => None,
        }
    }
}
