//! What is kept to say early that a block has no summit.
//!
//! At each level a validator's units before some number are in no committee of any summit of the least
//! quorum or a greater one: each is followed by one that doesn't vote for the block or sees too little of
//! the level below. And it is known what weight the latest unit of each validator sees of the units that may
//! count. Where those who may see a quorum weigh less than one, there is no summit.

ghost use Rattle.std.specs.Prelude.{◌≡◌, ℕ, ◌<◌, ◌≤◌, ◌↔◌, List, length, nat_le, true, false, None, Some, slice_index_or, slice_set, IsTrue, IfOk, IfSome};
ghost use Rattle.hw_types.specs.Votes.{weight_of};
ghost use Rattle.hw_dag.specs.{declared.numbers.UnitNo.{UnitNo as Number}, Dag.{UnitGraph, IsPanorama, count_of, view_at}, Lanes.{AreWeights}};
ghost use Rattle.hw_horizon.specs.Bounds.{AreBounds, AreTips, AreWide, IsBounded, IsOutside, IsRuledOut, bound_of, support_of, tip_in};

use crate::edges::Edges;
use crate::firsts::Firsts;
use crate::follow::{Below, Span, changed_span, follow_level, no_moves};
use crate::question::Question;
use hw_dag::{Dag, Panorama, UnitNo, View};
use hw_types::{OutOfMemory, WeightList};
use std::alloc::Global;
use std::marker::Model;

/// Of one level, for each validator the number of the first unit that may count, and the weight that its
/// latest unit sees of those units.
#[derive(Drop)]
pub(crate) struct Bound {
    firsts: Firsts,
    support: Vec<u64>,
}

impl Model for Bound {
    ghost use Rattle.hw_horizon.specs.Bounds.{LevelBound};

    ghost Value = { LevelBound };

    ghost view = { λ b. record { firsts = b.firsts; support = b.support.items } };
}

impl Bound {
    /// For so many validators.
    pub(crate) fn new(alloc: Global, validators: u32) -> Result<Bound, OutOfMemory>
        ensures firsts { IfOk result (λ bound. length bound.firsts ≡ validators) }
        ensures support { IfOk result (λ bound. length bound.support ≡ validators) }
    {
        let mut support = Vec::with_capacity(alloc, validators as usize)?;
        support.resize(validators as usize, 0)?;
        Ok(Bound {
            firsts: Firsts::new(alloc, validators)?,
            support,
        })
    }

    /// The first units.
    pub(crate) fn firsts(&self) -> &Firsts
        ensures { result.now ≡ self.now.firsts }
    {
        &self.firsts
    }

    /// What the latest unit of the validator sees of them.
    pub(crate) fn support(&self, validator: u32) -> u64
        requires { validator < length self.now.support }
        ensures { result ≡ support_of self.now validator }
    {
        self.support[validator as usize]
    }

    /// What the latest unit of each validator sees of them, in their order.
    pub(crate) fn supports(&self) -> &[u64]
        ensures { result.now ≡ self.now.support }
    {
        self.support.as_slice()
    }

    /// The same, where these are its first units.
    pub(crate) fn supports_of(&self, firsts: &Firsts) -> Option<&[u64]>
        ensures { IfSome result (λ supports. (supports.now ≡ self.now.support) × (self.now.firsts ≡ firsts.now)) }
    {
        if self.firsts.is_same(firsts) {
            Some(self.supports())
        } else {
            None
        }
    }

    /// Changes the first unit of the validator, and nothing else.
    pub(crate) fn set_first(&mut self, validator: u32, first: u32)
        requires { validator < length self.old.firsts }
        ensures { self.new ≡ record self.old { firsts = slice_set self.old.firsts validator first } }
    {
        self.firsts.set(validator, first);
    }

    /// Changes what the latest unit of the validator sees of them, and nothing else.
    pub(crate) fn set_support(&mut self, validator: u32, weight: u64)
        requires { validator < length self.old.support }
        ensures { self.new ≡ record self.old { support = slice_set self.old.support validator weight } }
    {
        self.support[validator as usize] = weight;
    }

    /// Makes it the same as the other, which has as many validators.
    pub(crate) fn copy_from(&mut self, other: &Bound)
        requires firsts { length self.old.firsts ≡ length other.now.firsts }
        requires support { length self.old.support ≡ length other.now.support }
        ensures { self.new ≡ other.now }
    {
        self.firsts.copy_from(&other.firsts);
        self.support
            .as_mut_slice()
            .copy_from_slice(other.support.as_slice());
    }
}

/// The bounds for the block and the least quorum that were asked last. Contracts see all but the scratch.
#[derive(Drop)]
pub struct Bounds {
    block: Option<UnitNo>,
    least: u64,
    tips: Vec<Option<UnitNo>>,
    levels: Vec<Bound>,
    /// Scratch: the level below the one that follows.
    lower: Bound,
    /// Scratch, and where a first unit has to be looked for again.
    edges: Edges,
}

impl Model for Bounds {
    ghost use Rattle.hw_horizon.specs.Bounds.{AskedBounds};

    ghost Value = { AskedBounds };

    ghost view = { λ b. record {
      block = b.block;
      least = b.least;
      tips = b.tips.items;
      levels = b.levels.items;
    } };

    ghost use Rattle.std.specs.Prelude.{◌≡◌, length};

    ghost invariant = { λ b. (length b.lower.firsts ≡ length b.tips.items) × (length b.lower.support ≡ length b.tips.items) × (length b.edges ≡ length b.tips.items) };
}

impl Bounds {
    /// No block was asked, of so many validators and levels. All its memory is taken here.
    pub fn new(alloc: Global, validators: u32, levels: u32) -> Result<Bounds, OutOfMemory>
        ensures wide { IfOk result (λ bounds. AreWide validators bounds) }
        ensures levels { IfOk result (λ bounds. length bounds.levels ≡ levels) }
        ensures bounds { IfOk result (λ bounds. (weights : List ℕ) (dag : UnitGraph) → AreBounds weights dag bounds) }
    {
        let mut tips = Vec::with_capacity(alloc, validators as usize)?;
        tips.resize(validators as usize, None)?;
        let mut bounds = Vec::with_capacity(alloc, levels as usize)?;
        for _ in 0..levels as usize {
            bounds.push(Bound::new(alloc, validators)?)?;
        }
        Ok(Bounds {
            block: None,
            least: 0,
            tips,
            levels: bounds,
            lower: Bound::new(alloc, validators)?,
            edges: Edges::new(alloc, validators, levels)?,
        })
    }

    /// Makes the bounds those of this panorama, for the block and quorums from `least` on.
    pub fn follow(
        &mut self,
        dag: &Dag,
        weights: &WeightList,
        panorama: &Panorama,
        block: UnitNo,
        least: u64,
    )
        requires panorama { IsPanorama dag.now panorama.now }
        requires weights { AreWeights weights.now dag.now }
        requires known { block.0 < count_of dag.now }
        requires wide { AreWide dag.now.validators self.old }
        requires bounds { AreBounds weights.now dag.now self.old }
        ensures bounds { AreBounds weights.now dag.now self.new }
        ensures block { self.new.block ≡ Some block }
        ensures least { self.new.least ≡ least }
        ensures tips { AreTips panorama.now self.new }
        ensures wide { AreWide dag.now.validators self.new }
    {
        // What the latest units see of first units is the same whichever block is asked.
        let asked = self.block.unwrap_or(block);
        let again = asks_again(self.block, self.least, asked, least);
        forget_unless(self.tips.as_mut_slice(), again);
        self.block = Some(block);
        self.least = least;
        // For the prover: recalls what is said of each graph.
        dag.recall_graph();
        let question = Question {
            dag,
            weights: weights.as_slice(),
            panorama,
            block,
            quorum: least,
        };
        let changed = changed_span(dag, panorama, self.tips.as_slice());
        follow_levels(
            &question,
            self.levels.as_mut_slice(),
            &mut self.lower,
            &mut self.edges,
            self.tips.as_slice(),
            changed,
            asked,
        );
        put_tips(self.tips.as_mut_slice(), dag, panorama);
    }

    /// The bound of a level.
    pub(crate) fn level(&self, level: u32) -> Option<&Bound>
        ensures { IfSome result (λ bound. (level < length self.now.levels) × (bound.now ≡ bound_of self.now.levels level)) }
    {
        self.levels.get(level as usize)
    }

    /// Whether at some lesser level those who may see the quorum weigh less than one, so that there is no
    /// summit of this level and quorum.
    pub fn rules_out(&self, dag: &Dag, weights: &WeightList, level: u32, quorum: u64) -> bool
        requires weights { AreWeights weights.now dag.now }
        requires wide { AreWide dag.now.validators self.now }
        ensures { IsTrue result ↔ IsRuledOut weights.now self.now level quorum }
    {
        if quorum < self.least {
            return false;
        }
        for (below, bound) in self.levels.iter().enumerate() {
            if below < level as usize
                && supporters(dag, weights.as_slice(), bound, quorum) < quorum
            {
                return true;
            }
        }
        false
    }
}

// Makes the bound of each level that of the panorama, from level 0 on. They are for the block that was asked
// before.
fn follow_levels(
    question: &Question<'_>,
    levels: &mut [Bound],
    lower: &mut Bound,
    edges: &mut Edges,
    tips: &[Option<UnitNo>],
    changed: Span,
    asked: UnitNo,
)
    requires tips { length tips.now ≡ question.now.dag.now.validators }
    requires changed { (v : ℕ) → v < question.now.dag.now.validators → IsOutside changed v → slice_index_or tips.now v None ≡ tip_in (view_at question.now.panorama.now v) }
    requires span { changed.to ≤ question.now.dag.now.validators }
    requires firsts { (j : ℕ) → j < length levels.old → length (bound_of levels.old j).firsts ≡ question.now.dag.now.validators }
    requires support { (j : ℕ) → j < length levels.old → length (bound_of levels.old j).support ≡ question.now.dag.now.validators }
    requires lower_firsts { length lower.old.firsts ≡ question.now.dag.now.validators }
    requires lower_support { length lower.old.support ≡ question.now.dag.now.validators }
    requires edges { length edges.old ≡ question.now.dag.now.validators }
    requires bounded { (v : ℕ) (tip : Number) → slice_index_or tips.now v None ≡ Some tip → IsBounded question.now.weights.now question.now.dag.now asked.0 question.now.quorum levels.old v tip.0 }
    ensures bounded { (v : ℕ) (tip : Number) → view_at question.now.panorama.now v ≡ View.Correct tip → IsBounded question.now.weights.now question.now.dag.now question.now.block.0 question.now.quorum levels.new v tip.0 }
    ensures length { length levels.new ≡ length levels.old }
    ensures firsts { (j : ℕ) → j < length levels.new → length (bound_of levels.new j).firsts ≡ question.now.dag.now.validators }
    ensures support { (j : ℕ) → j < length levels.new → length (bound_of levels.new j).support ≡ question.now.dag.now.validators }
    ensures lower_firsts { length lower.new.firsts ≡ question.now.dag.now.validators }
    ensures lower_support { length lower.new.support ≡ question.now.dag.now.validators }
    ensures edges { length edges.new ≡ question.now.dag.now.validators }
{
    let is_new = asked != question.block;
    let mut moves = no_moves();
    for level in 0..levels.len() {
        // Above level 0 first units don't hang on the block.
        let below = Below {
            bound: &*lower,
            level,
            is_votes: level == 0,
            is_new: level == 0 && is_new,
            moves,
        };
        moves = follow_level(question, &mut levels[level], edges, &below, tips, changed);
        lower.copy_from(&levels[level]);
    }
}

// What those weigh who may see the quorum.
fn supporters(dag: &Dag, weights: &[u64], bound: &Bound, quorum: u64) -> u64
    requires weights { AreWeights weights.now dag.now }
    requires wide { length bound.now.support ≡ dag.now.validators }
    ensures { result ≡ weight_of weights.now (λ v. nat_le quorum (support_of bound.now v)) }
{
    let mut total = 0;
    for (slot, support) in bound.supports().iter().enumerate() {
        if quorum <= *support {
            total += weights[slot];
        }
    }
    total
}

// Whether it is the block and the quorum that were asked last, for which bounds are kept.
fn asks_again(asked: Option<UnitNo>, asked_least: u64, block: UnitNo, least: u64) -> bool
    ensures block { IsTrue result → asked ≡ Some block }
    ensures least { IsTrue result → asked_least ≡ least }
{
    asked == Some(block) && asked_least == least
}

// No latest unit is known, unless they are wanted again.
fn forget_unless(tips: &mut [Option<UnitNo>], again: bool)
    ensures kept { again ≡ true → tips.new ≡ tips.old }
    ensures none { again ≡ false → (v : ℕ) → slice_index_or tips.new v None ≡ None }
    ensures length { length tips.new ≡ length tips.old }
{
    if !again {
        forget(tips);
    }
}

// No latest unit is known.
fn forget(tips: &mut [Option<UnitNo>])
    ensures none { (v : ℕ) → slice_index_or tips.new v None ≡ None }
    ensures length { length tips.new ≡ length tips.old }
{
    for tip in tips.iter_mut() {
        *tip = None;
    }
}

// Puts the latest units of the panorama.
fn put_tips(tips: &mut [Option<UnitNo>], dag: &Dag, panorama: &Panorama)
    requires panorama { IsPanorama dag.now panorama.now }
    requires length { length tips.old ≡ dag.now.validators }
    ensures tips { (v : ℕ) → v < length panorama.now → slice_index_or tips.new v None ≡ tip_in (view_at panorama.now v) }
    ensures length { length tips.new ≡ length tips.old }
{
    for (slot, seen) in panorama.views().iter().enumerate() {
        tips[slot] = match seen.view() {
            View::Correct(no) => Some(no),
            View::Absent | View::Faulty => None,
        };
    }
}
