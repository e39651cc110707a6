//! A fork choice that is kept for its panorama.

ghost use Rattle.std.specs.{Prelude.{◌≡◌, ◌≤◌, ◌<◌, length, true, ℕ, List, IfOk, IsTrue}, Option.{option_map}};
ghost use Rattle.hw_types.specs.Votes.{fork_of};
ghost use Rattle.hw_dag.specs.declared.numbers.UnitNo.{UnitNo as Number};
ghost use Rattle.hw_dag.specs.Dag.{UnitGraph, graph, observations, node_at, IsPanorama};
ghost use Rattle.hw_dag.specs.Admission.{IsFork};
ghost use Rattle.hw_dag.specs.Lanes.{AreWeights};
ghost use Rattle.hw_admit.specs.Kept.{IsKept};

use hw_dag::{Dag, Panorama, UnitNo};
use hw_forks::Forks;
use hw_types::{OutOfMemory, WeightList};
use std::alloc::Global;

/// A panorama and its fork choice. More units change nothing of it, so it serves until another panorama
/// is asked for.
#[derive(Drop)]
pub struct CachedForkChoice {
    pub panorama: Panorama,
    pub fork: Option<UnitNo>,
    /// Whether the two belong together. At first nothing is kept.
    pub is_known: bool,
}

impl CachedForkChoice {
    /// Nothing is kept.
    pub fn new(alloc: Global, validators: u32) -> Result<CachedForkChoice, OutOfMemory>
        ensures { IfOk result (λ kept. (weights : List ℕ) (dag : UnitGraph) → dag.validators ≡ validators → IsKept weights dag kept) }
    {
        Ok(CachedForkChoice {
            panorama: Panorama::new(alloc, validators)?,
            fork: None,
            is_known: false,
        })
    }

    /// The fork choice of the panorama: the one that is kept, where it is of this panorama, else one that
    /// is worked out, which is kept from then on.
    pub fn fork_choice(
        &mut self,
        forks: &mut Forks,
        dag: &Dag,
        weights: &WeightList,
        panorama: &Panorama,
    ) -> Option<UnitNo>
        requires room { dag.now.validators ≤ forks.old }
        requires panorama { IsPanorama dag.now panorama.now }
        requires weights { AreWeights weights.now dag.now }
        requires kept { IsKept weights.now dag.now self.old }
        ensures fork { option_map (λ (no : Number). node_at dag.now no.0) result ≡ fork_of weights.now (graph dag.now) (observations dag.now panorama.now) }
        ensures is_fork { IsFork dag.now (observations dag.now panorama.now) result }
        ensures kept { IsKept weights.now dag.now self.new }
        ensures room { forks.new ≡ forks.old }
    {
        if !self.is_of(panorama, dag.validators()) {
            let fork = forks.fork_choice(dag, weights, panorama);
            self.keep(panorama, fork, dag.validators());
        }
        self.fork
    }

    /// Keeps the fork choice of this panorama in the place of what was kept.
    pub fn keep(&mut self, panorama: &Panorama, fork: Option<UnitNo>, validators: u32)
        requires own { length self.old.panorama ≡ validators }
        requires other { length panorama.now ≡ validators }
        ensures { self.new ≡ record { panorama = panorama.now; fork = fork; is_known = true } }
    {
        for validator in 0..validators {
            self.panorama.put(validator, panorama.slot(validator));
        }
        self.fork = fork;
        self.is_known = true;
    }

    /// Whether what is kept is of this panorama.
    fn is_of(&self, panorama: &Panorama, validators: u32) -> bool
        requires own { length self.now.panorama ≡ validators }
        requires other { length panorama.now ≡ validators }
        ensures known { IsTrue result → self.now.is_known ≡ true }
        ensures same { IsTrue result → self.now.panorama ≡ panorama.now }
    {
        for validator in 0..validators {
            if !self.panorama.slot(validator).is(panorama.slot(validator)) {
                return false;
            }
        }
        self.is_known
    }
}
