//! What first units see of the level below.
//!
//! While a first unit still sees the least quorum, it is the first to do so, and isn't looked for again. Sums are
//! adjusted by the first units below that moved, so this costs no look at all validators for each.

ghost use Rattle.std.specs.Prelude.{◌≡◌, length, ◌<◌, IfOk};

use crate::bounds::Bound;
use crate::firsts::{Firsts, NO_UNIT};
use crate::follow::{Below, Known, is_few};
use crate::question::Question;
use crate::quorums::weight_after;
use crate::shift::shifted;
use hw_dag::UnitNo;
use hw_types::OutOfMemory;
use std::alloc::Global;
use std::marker::Model;

/// The first units of a level before they moved, and for each level and validator what its first unit sees of the
/// level below. Contracts see the former alone, since the latter only tells where it is worth while to look.
#[derive(Drop)]
pub(crate) struct Edges {
    before: Firsts,
    sums: Vec<u64>,
}

impl Model for Edges {
    ghost use Rattle.std.specs.Prelude.{List, ℕ};

    ghost Value = { List ℕ };

    ghost view = { λ e. e.before };
}

impl Edges {
    /// For so many validators and levels.
    pub(crate) fn new(alloc: Global, validators: u32, levels: u32) -> Result<Edges, OutOfMemory>
        ensures { IfOk result (λ edges. length edges ≡ validators) }
    {
        let count = validators as usize * levels as usize;
        let mut sums = Vec::with_capacity(alloc, count)?;
        sums.resize(count, 0)?;
        Ok(Edges {
            before: Firsts::new(alloc, validators)?,
            sums,
        })
    }

    /// The first units before they moved.
    pub(crate) fn first_units(&self) -> &Firsts
        ensures { result.now ≡ self.now }
    {
        &self.before
    }

    /// Puts the first units of a level, before they move.
    pub(crate) fn put_before(&mut self, firsts: &Firsts)
        requires { length self.old ≡ length firsts.now }
        ensures { self.new ≡ firsts.now }
    {
        self.before.copy_from(firsts);
    }

    /// The sum in that place, or 0.
    fn get(&self, place: usize) -> u64 {
        if place < self.sums.len() {
            self.sums[place]
        } else {
            0
        }
    }

    /// Puts the sum into that place, if there is one.
    fn set(&mut self, place: usize, sum: u64)
        ensures { self.new ≡ self.old }
    {
        if place < self.sums.len() {
            self.sums[place] = sum;
        }
    }
}

// Where the sum of the level and validator is.
fn place(question: &Question<'_>, below: &Below<'_>, validator: u32) -> usize {
    below
        .level
        .saturating_mul(question.dag.validators() as usize)
        .saturating_add(validator as usize)
}

/// Adjusts what the first units of the level see of the level below, where few of that moved.
pub(crate) fn shift_edges(
    question: &Question<'_>,
    edges: &mut Edges,
    bound: &Bound,
    below: &Below<'_>,
)
    requires firsts { length bound.now.firsts ≡ question.now.dag.now.validators }
    requires edges { length edges.old ≡ question.now.dag.now.validators }
    requires lower_firsts { length below.now.bound.now.firsts ≡ question.now.dag.now.validators }
    ensures { edges.new ≡ edges.old }
{
    // Nobody sees the newest unit.
    let is_seen = below.moves.any.saturating_add(1) < question.dag.count();
    if below.is_votes || !is_seen || !is_few(question.dag, below.moves) {
        return;
    }
    for slot in 0..question.dag.validators() {
        if edges.first_units().get(slot) != below.bound.firsts().get(slot) {
            shift_by(question, edges, bound, below, slot);
        }
    }
}

// The same for the first unit of one validator below.
fn shift_by(question: &Question<'_>, edges: &mut Edges, bound: &Bound, below: &Below<'_>, slot: u32)
    requires firsts { length bound.now.firsts ≡ question.now.dag.now.validators }
    requires edges { length edges.old ≡ question.now.dag.now.validators }
    requires lower_firsts { length below.now.bound.now.firsts ≡ question.now.dag.now.validators }
    requires within { slot < question.now.dag.now.validators }
    ensures { edges.new ≡ edges.old }
{
    for v in 0..question.dag.validators() {
        let first = bound.firsts().get(v);
        if first < question.dag.count() {
            let place = place(question, below, v);
            let sum = edges.get(place);
            let next = shifted(
                question,
                edges.first_units(),
                below.bound.firsts(),
                slot,
                UnitNo(first),
                sum,
            );
            edges.set(place, next);
        }
    }
}

/// Whether the first unit has to be looked for again, since it may not count any more.
pub(crate) fn is_loose(
    question: &Question<'_>,
    edges: &Edges,
    below: &Below<'_>,
    first: u32,
    validator: u32,
) -> bool {
    if below.is_votes || first == NO_UNIT {
        return false;
    }
    !is_few(question.dag, below.moves)
        || edges.get(place(question, below, validator)) < question.quorum
}

/// Puts what the first unit sees, where it was looked for.
pub(crate) fn put_edge(
    question: &Question<'_>,
    edges: &mut Edges,
    below: &Below<'_>,
    known: Known,
    first: u32,
    validator: u32,
)
    requires lower_firsts { length below.now.bound.now.firsts ≡ question.now.dag.now.validators }
    ensures { edges.new ≡ edges.old }
{
    let is_kept = known.tip.is_some() && known.first == first;
    if below.is_votes || is_kept || question.dag.count() <= first {
        return;
    }
    let sum = weight_after(
        question.dag,
        question.weights,
        UnitNo(first),
        below.bound.firsts(),
    );
    edges.set(place(question, below, validator), sum);
}
