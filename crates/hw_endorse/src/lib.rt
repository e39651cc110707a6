//! Endorsements: which validators stand for which units, and which units have more than half of the
//! weight behind them.
//!
//! An ordered map has each unit's endorsers and what they weigh, and an ordered set the units with more than half
//! of the weight. Peers choose the digests, so nothing here costs more for one digest than for another. The
//! endorsers of one unit are looked through one by one. An endorsement takes memory for itself alone, whatever the
//! number of validators.
//!
//! Contracts see the weights, and the pairs of a unit's digest and an endorser that were told, each once
//! and in one order whatever the order in which they came.
#![tactic(auto)]

ghost use Rattle.std.specs.{Prelude.{◌≡◌, ◌<◌, [], true, length, None, IfOk, OnOk, OnErr}, Map.Iter.{ShowsInOrder, deref}};
ghost use Rattle.hw_types.specs.{declared.unit.Digest.{Digest as Named}, Limits.{config_fault}, Rules.{is_rising}};
ghost use Rattle.hw_endorse.specs.Told.{added_of, is_told, with_pair, has_majority, HaveMajority};

mod laws;
mod tally;
mod who;

use hw_types::{Config, Digest, OutOfMemory, WeightList};
pub use laws::{majority_is_endorsed, told_in_turn};
use std::alloc::Global;
use std::collections::{BTreeMap, BTreeSet, btree_set};
use std::marker::Model;
use tally::{Tallies, has, put};

/// Digests of units, which rise by their bytes.
pub type EndorsedUnits<'a> = btree_set::Iter<'a, Digest>;

/// What became of an endorsement.
#[derive(Clone, Copy, Debug, PartialEq, Eq)]
pub enum Added {
    /// It is known from now on.
    New,
    /// It was known.
    Repeat,
}

/// The endorsements that were told.
#[derive(Drop)]
pub struct Endorsements {
    alloc: Global,
    weights: WeightList,
    total: u64,
    tallies: Tallies,
    endorsed: BTreeSet<Digest>,
}

impl Model for Endorsements {
    ghost use Rattle.hw_endorse.specs.Told.{Told};

    ghost Value = { Told };

    ghost use Rattle.hw_endorse.specs.Kept.{told_by, pairs_in, IsKept};

    ghost view = { λ e. told_by e.weights (pairs_in e.tallies.entries) };

    ghost invariant = { λ e. IsKept e.weights e.total (pairs_in e.tallies.entries) e.tallies.entries e.endorsed.keys };
}

impl Endorsements {
    /// No endorsements so far, in an instance with a lawful configuration.
    pub fn new(alloc: Global, config: &Config) -> Result<Endorsements, OutOfMemory>
        requires { config_fault config.now ≡ None }
        ensures { IfOk result (λ e. e ≡ record { weights = config.now.weights; pairs = [] }) }
    {
        Ok(Endorsements {
            alloc,
            weights: config.weights.copy()?,
            total: config.total(),
            tallies: BTreeMap::new(alloc),
            endorsed: BTreeSet::new(alloc),
        })
    }

    /// Adds a validator's endorsement of the unit of this digest. It is a repeat exactly where the pair
    /// is known. Where there is no memory, nothing has changed.
    pub fn add(&mut self, unit: &Digest, endorser: u32) -> Result<Added, OutOfMemory>
        requires { endorser < length self.old.weights }
        ensures added { IfOk result (λ added. added ≡ added_of self.old.pairs unit.now endorser) }
        ensures told { OnOk result (self.new ≡ record self.old { pairs = with_pair self.old.pairs unit.now endorser }) }
        ensures repeat { IfOk result (λ added. added ≡ Added.Repeat → self.new ≡ self.old) }
        ensures err { OnErr result (self.new ≡ self.old) }
    {
        let weight = self.weights.as_slice()[endorser as usize];
        let new = put(
            &mut self.tallies,
            &mut self.endorsed,
            self.alloc,
            self.total,
            unit,
            endorser,
            weight,
        )?;
        if !new {
            return Ok(Added::Repeat);
        }
        Ok(Added::New)
    }

    /// Whether the validator's endorsement of the unit of this digest is known.
    pub fn has(&self, unit: &Digest, endorser: u32) -> bool
        requires { endorser < length self.now.weights }
        ensures { result ≡ is_told self.now.pairs unit.now endorser }
    {
        has(&self.tallies, unit, endorser)
    }

    /// Whether more than half of the total weight endorses the unit of this digest: twice the weight of
    /// its endorsers, each counted once, is more than the total.
    pub fn endorsed(&self, unit: &Digest) -> bool
        ensures { result ≡ has_majority self.now unit.now }
    {
        self.endorsed.contains(unit)
    }

    /// The units that more than half of the total weight endorses, each once, rising by their digests. It
    /// takes no memory.
    pub fn endorsed_units(&self) -> EndorsedUnits<'_>
        ensures majority { HaveMajority self.now result }
        ensures rising { is_rising result ≡ true }
        ensures runs { ShowsInOrder (deref {X = Named}) }
    {
        self.endorsed.iter()
    }
}
