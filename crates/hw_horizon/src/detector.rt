//! The detector.

ghost use Rattle.std.specs.Prelude.{◌≡◌, ℕ, ◌+◌, ◌-◌, ◌^◌, ◌<◌, ◌≤◌, [], length, true, None, Some, slice_get, IfOk, OnOk};
ghost use Rattle.hw_types.specs.{Graph.{is_consistent}, Limits.{config_fault}};
ghost use Rattle.hw_dag.specs.Dag.{UnitGraph, graph, observations, count_of};
ghost use Rattle.hw_horizon.specs.{Detected.{IsSearched, IsTrueOf, HasRun, IsOutcome}, DetectorLaws.{DecidesOn, IsNothingNew}};

use crate::found::{Found, Outcome};
use crate::level_quorums::quorums_of;
use crate::list::FoundList;
use crate::search::Searcher;
use crate::{Bounds, Horizons};
use hw_dag::{Dag, Panorama, UnitNo};
use hw_types::{Config, OutOfMemory};
use std::alloc::Global;
use std::marker::Model;

/// The detector of one instance. Contracts see its configuration, the blocks that it has found, the room
/// for more, and what its search keeps.
#[derive(Drop)]
pub struct Detector {
    searcher: Searcher,
    found: FoundList,
}

impl Model for Detector {
    ghost use Rattle.hw_horizon.specs.Detected.{DetectorState};

    ghost Value = { DetectorState };

    ghost view = { λ d. record {
      config = d.searcher.config;
      spare = d.found.spare;
      found = d.found.blocks;
      walks = d.searcher.horizons.walks;
      bounds = d.searcher.bounds;
    } };
}

impl Detector {
    /// A detector that has found nothing and has no room so far, for a lawful configuration.
    pub fn new(alloc: Global, config: &Config) -> Result<Detector, OutOfMemory>
        requires { config_fault config.now ≡ None }
        ensures config { IfOk result (λ detector. detector.config ≡ config.now) }
        ensures empty { IfOk result (λ detector. detector.found ≡ []) }
        ensures kept { IfOk result (λ detector. (dag : UnitGraph) → IsTrueOf detector dag) }
    {
        let validators = config.weights.len() as u32;
        let levels = u32::from(config.levels);
        let searcher = Searcher {
            config: config.copy()?,
            quorums: quorums_of(alloc, config)?,
            horizons: Horizons::new(alloc, validators, levels)?,
            bounds: Bounds::new(alloc, validators, levels)?,
        };
        Ok(Detector {
            searcher,
            found: FoundList::new(alloc),
        })
    }

    /// Makes room for at least `count` more blocks. The room never shrinks, and nothing else changes.
    pub fn reserve(&mut self, count: u32) -> Result<(), OutOfMemory>
        requires { length self.old.found + count < 2 ^ 32 }
        ensures room { OnOk result (count ≤ self.new.spare) }
        ensures kept { self.old.spare ≤ self.new.spare }
        ensures unchanged { self.new ≡ record self.old { spare = self.new.spare } }
    {
        self.found.reserve(count)
    }

    /// Finds the blocks that stand after one more delivery and weren't found before, at their least
    /// levels. `fork` is the fork choice of the panorama, `faulty` the weight of the faulty validators, and
    /// `at` how long the journal is.
    pub fn run(
        &mut self,
        dag: &Dag,
        panorama: &Panorama,
        fork: Option<UnitNo>,
        faulty: u64,
        at: u64,
    ) -> Outcome
        requires searched { IsSearched self.old.config dag.now panorama.now fork }
        requires consistent { is_consistent (graph dag.now) (observations dag.now panorama.now) ≡ true }
        requires kept { IsTrueOf self.old dag.now }
        requires room { count_of dag.now ≤ length self.old.found + self.old.spare }

        // Where the blocks found were the decided blocks of the journal before, they are those of it now.
        ensures decisions { DecidesOn self.old.config dag.now panorama.now faulty at self.old.found self.new.found }
        ensures nothing { IsNothingNew self.old.config dag.now panorama.now faulty at self.old.found result }

        // By number: the blocks on the way to the fork choice, height by height, go behind those found before.
        ensures found { HasRun self.old.config dag.now panorama.now fork faulty at self.old.found self.new.found }
        ensures outcome { IsOutcome self.old.config.ftt faulty (length self.new.found - length self.old.found) result }

        ensures kept { IsTrueOf self.new dag.now }
        ensures room { length self.new.found + self.new.spare ≡ length self.old.found + self.old.spare }
        ensures config { self.new.config ≡ self.old.config }
    {
        if self.searcher.config.ftt < faulty {
            return Outcome::Exceeded(faulty);
        }
        let count = self
            .searcher
            .search(&mut self.found, dag, panorama, fork, at);
        outcome_of(count)
    }

    /// How many blocks were found so far.
    pub fn found_count(&self) -> u32
        ensures { result ≡ length self.now.found }
    {
        self.found.count()
    }

    /// The block found at that place, in the order in which they were found.
    pub fn found_at(&self, index: u32) -> &Found
        requires { index < length self.now.found }
        ensures { Some result.now ≡ slice_get self.now.found index }
    {
        self.found.get(index)
    }
}

// What a run answers where the faulty weigh no more than the threshold and so many blocks were found.
fn outcome_of(count: u32) -> Outcome
    ensures { (ftt faulty : ℕ) → faulty ≤ ftt → IsOutcome ftt faulty count result }
{
    if count == 0 {
        Outcome::Nothing
    } else {
        Outcome::Decided(count)
    }
}
