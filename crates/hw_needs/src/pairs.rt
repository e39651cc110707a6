//! The pairs of settled units that were looked for.

ghost use Rattle.std.specs.Prelude.{ℕ, ◌≡◌, ◌<◌, ◌≤◌, [], length, None, Some, OnOk, slice_index_or};
ghost use Rattle.hw_needs.specs.Pairs.{IsPairOf, ArePairs, StayKept, IsPut};

use hw_core::Core;
use hw_types::{Digest, OutOfMemory};
use std::alloc::Global;
use std::marker::Model;

/// The names of two settled units that show that their creator equivocated, the lesser one left.
#[derive(Clone, Copy)]
pub struct PairNames {
    pub left: Digest,
    pub right: Digest,
}

/// The pairs that a node's settled units show, one for each validator for which it was looked for. A peer may ask
/// for one as often as it likes. So it is looked for once, and kept while the node's journal stays as it is.
/// Contracts see them by validator, None where none was looked for.
#[derive(Drop)]
pub struct KnownPairs {
    pairs: Vec<Option<PairNames>>,
}

impl Model for KnownPairs {
    ghost use Rattle.std.specs.Prelude.{List, Option};
    ghost use Rattle.hw_needs.specs.declared.pairs.PairNames.{PairNames};

    ghost Value = { List (Option PairNames) };

    ghost view = { λ k. k.pairs.items };
}

impl KnownPairs {
    /// None was looked for. It takes its memory from `alloc` with the first one that is kept.
    pub fn new(alloc: Global) -> KnownPairs
        ensures { result ≡ [] }
    {
        KnownPairs {
            pairs: Vec::new(alloc),
        }
    }

    /// The pair of the validator, None where none is kept.
    pub(crate) fn of(&self, validator: u32) -> Option<PairNames>
        ensures { result ≡ slice_index_or self.now validator None }
    {
        let validator = validator as usize;
        if validator < self.pairs.len() {
            self.pairs[validator]
        } else {
            None
        }
    }

    /// Keeps the pair of the validator, where the node has such a validator. What was kept stays.
    pub(crate) fn keep(
        &mut self,
        core: &Core,
        validator: u32,
        names: PairNames,
    ) -> Result<(), OutOfMemory>
        requires pair { IsPairOf core.now validator names }
        requires pairs { ArePairs core.now self.old }
        ensures pairs { ArePairs core.now self.new }
        ensures kept { OnOk result (validator < length core.now.config.weights → slice_index_or self.new validator None ≡ Some names) }
        ensures stay { StayKept self.old self.new }
    {
        self.make_places(core.state().config().weights.len())?;
        self.put(validator, names);
        Ok(())
    }

    /// Makes a place for each of this many validators, where there are fewer. What is kept stays.
    fn make_places(&mut self, validators: usize) -> Result<(), OutOfMemory>
        ensures places { OnOk result (validators ≤ length self.new) }
        ensures same { (w : ℕ) → slice_index_or self.new w None ≡ slice_index_or self.old w None }
    {
        if self.pairs.len() < validators {
            self.pairs.resize(validators, None)?;
        }
        Ok(())
    }

    /// Puts the pair of the validator in its place, where it has one.
    fn put(&mut self, validator: u32, names: PairNames)
        ensures { IsPut self.old self.new validator names }
    {
        let validator = validator as usize;
        if validator < self.pairs.len() {
            self.pairs[validator] = Some(names);
        }
    }
}
