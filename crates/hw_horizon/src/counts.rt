//! What the latest units of members see of those who are present. It is counted once, and follows as members fall.

ghost use Rattle.std.specs.Prelude.{◌≡◌, ℕ, ◌-◌, ◌^◌, ◌<◌, List, length, slice_index_or, slice_set, IfOk, IfSome};
ghost use Rattle.hw_dag.specs.{declared.numbers.UnitNo.{UnitNo as Number}, declared.numbers.View.{View as Slot}, Dag.{UnitGraph, view_at}};
ghost use Rattle.hw_horizon.specs.Tables.{Starts};
ghost use Rattle.hw_horizon.specs.Firsts.{AreSeen, weight_after, does_see};
ghost use Rattle.hw_horizon.specs.Bounds.{IsExact};

use crate::bounds::Bound;
use crate::firsts::Firsts;
use crate::question::Question;
use crate::quorums::{is_after, weight_after};
use crate::table::Table;
use hw_dag::View;
use hw_types::OutOfMemory;
use std::alloc::Global;
use std::marker::Model;

/// For each validator a weight. Contracts see it as a list.
#[derive(Drop)]
pub struct Counts {
    weights: Vec<u64>,
}

impl Model for Counts {
    ghost use Rattle.std.specs.Prelude.{List, ℕ};

    ghost Value = { List ℕ };

    ghost view = { λ c. c.weights.items };
}

impl Counts {
    /// For so many validators.
    pub(crate) fn new(alloc: Global, validators: u32) -> Result<Counts, OutOfMemory>
        ensures { IfOk result (λ counts. length counts ≡ validators) }
    {
        let mut weights = Vec::with_capacity(alloc, validators as usize)?;
        weights.resize(validators as usize, 0)?;
        Ok(Counts { weights })
    }

    /// The weight for the validator.
    pub(crate) fn get(&self, validator: u32) -> u64
        requires { validator < length self.now }
        ensures { result ≡ slice_index_or self.now validator 0 }
    {
        self.weights[validator as usize]
    }

    // Changes the weight for the validator, and no other.
    fn set(&mut self, validator: u32, weight: u64)
        requires { validator < length self.old }
        ensures { self.new ≡ slice_set self.old validator weight }
    {
        self.weights[validator as usize] = weight;
    }

    // Makes them these, of which there are as many.
    fn copy_from(&mut self, weights: &[u64])
        requires { length self.old ≡ length weights.now }
        ensures { self.new ≡ weights.now }
    {
        self.weights.as_mut_slice().copy_from_slice(weights);
    }

    /// Puts what the latest unit of each member sees of those whose first units these are. A bound of the same
    /// ones tells it.
    pub(crate) fn put(
        &mut self,
        question: &Question<'_>,
        present: &Table,
        firsts: &Firsts,
        bound: Option<&Bound>,
    )
        requires length { length self.old ≡ question.now.dag.now.validators }
        requires firsts { length firsts.now ≡ question.now.dag.now.validators }
        requires exact { IfSome bound (λ bound. IsExact question.now.weights.now question.now.dag.now question.now.panorama.now bound.now) }
        ensures { AreSeen question.now.weights.now question.now.dag.now question.now.panorama.now present.now firsts.now self.new }
    {
        match seen_of(bound, firsts) {
            Some(seen) => self.copy_from(seen),
            None => self.count(question, present, firsts),
        }
    }

    // The same where no bound tells it.
    fn count(&mut self, question: &Question<'_>, present: &Table, firsts: &Firsts)
        requires length { length self.old ≡ question.now.dag.now.validators }
        requires firsts { length firsts.now ≡ question.now.dag.now.validators }
        ensures { AreSeen question.now.weights.now question.now.dag.now question.now.panorama.now present.now firsts.now self.new }
    {
        for v in 0..question.dag.validators() {
            if present.get(v).is_some() {
                let seen = seen_by(question, firsts, v);
                self.set(v, seen);
            }
        }
    }

    /// The validator falls: takes its weight from the counts of those present whose latest unit sees it.
    pub(crate) fn take(
        &mut self,
        question: &Question<'_>,
        present: &Table,
        firsts: &Firsts,
        validator: u32,
    )
        requires firsts { length firsts.now ≡ question.now.dag.now.validators }
        requires seen { AreSeen question.now.weights.now question.now.dag.now question.now.panorama.now present.now firsts.now self.old }
        requires within { validator < question.now.dag.now.validators }
        ensures { (numbers : List ℕ) → numbers ≡ slice_set firsts.now validator (2 ^ 32 - 1) → AreSeen question.now.weights.now question.now.dag.now question.now.panorama.now present.now numbers self.new }
    {
        let first = firsts.get(validator);
        let weight = question.weights[validator as usize];
        for v in 0..question.dag.validators() {
            if present.get(v).is_some() && does_see(question, v, validator, first) {
                let seen = self.get(v);
                self.set(v, seen - weight);
            }
        }
    }
}

// What each latest unit sees of those whose first units these are, where the bound is of the same ones.
fn seen_of<'a>(bound: Option<&'a Bound>, firsts: &Firsts) -> Option<&'a [u64]>
    ensures { (weights : List ℕ) (dag : UnitGraph) (panorama : List Slot) (present : Starts) → IfSome bound.entry (λ bound. IsExact weights dag panorama bound.now) → IfSome result (λ seen. AreSeen weights dag panorama present firsts.now seen.now) }
{
    match bound {
        Some(bound) => bound.supports_of(firsts),
        None => None,
    }
}

// What the validator's latest unit sees of those whose first units these are.
fn seen_by(question: &Question<'_>, firsts: &Firsts, validator: u32) -> u64
    requires firsts { length firsts.now ≡ question.now.dag.now.validators }
    requires within { validator < question.now.dag.now.validators }
    ensures { (tip : Number) → view_at question.now.panorama.now validator ≡ View.Correct tip → weight_after question.now.weights.now question.now.dag.now firsts.now tip.0 ≡ result }
{
    match question.panorama.get(validator) {
        View::Correct(tip) => weight_after(question.dag, question.weights, tip, firsts),
        View::Absent | View::Faulty => 0,
    }
}

// Whether the validator's latest unit observes that unit of the other, or one of a greater number.
fn does_see(question: &Question<'_>, validator: u32, other: u32, first: u32) -> bool
    requires within { validator < question.now.dag.now.validators }
    requires other { other < question.now.dag.now.validators }
    ensures { result ≡ does_see question.now.dag.now (view_at question.now.panorama.now validator) other first }
{
    match question.panorama.get(validator) {
        View::Correct(tip) => is_after(first, question.dag.unit(tip).panorama().get(other)),
        View::Absent | View::Faulty => false,
    }
}
