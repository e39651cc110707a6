//! How what units see changes with the first units.
//!
//! A sum over all validators is adjusted by those alone whose first unit moved.

ghost use Rattle.std.specs.Prelude.{◌≡◌, ℕ, ◌+◌, ◌<◌, length, None, Some, slice_index_or};
ghost use Rattle.hw_dag.specs.{Dag.{count_of}, declared.numbers.UnitNo.{UnitNo as Number}};
ghost use Rattle.hw_horizon.specs.{Firsts.{weight_after, weight_amid}, Bounds.{support_of}};

use crate::bounds::Bound;
use crate::firsts::Firsts;
use crate::question::Question;
use crate::quorums::is_after;
use hw_dag::UnitNo;

/// Makes what the kept latest units saw of the first units before what they see of those now.
pub(crate) fn shift_support(
    question: &Question<'_>,
    bound: &mut Bound,
    before: &Firsts,
    tips: &[Option<UnitNo>],
)
    requires tips { length tips.now ≡ question.now.dag.now.validators }
    requires firsts_length { length bound.old.firsts ≡ question.now.dag.now.validators }
    requires support_length { length bound.old.support ≡ question.now.dag.now.validators }
    requires before { length before.now ≡ question.now.dag.now.validators }
    requires known { (v : ℕ) (tip : Number) → slice_index_or tips.now v None ≡ Some tip → tip.0 < count_of question.now.dag.now }
    requires seen { (v : ℕ) (tip : Number) → slice_index_or tips.now v None ≡ Some tip → weight_after question.now.weights.now question.now.dag.now before.now tip.0 ≡ support_of bound.old v }
    ensures seen { (v : ℕ) (tip : Number) → slice_index_or tips.now v None ≡ Some tip → weight_after question.now.weights.now question.now.dag.now bound.new.firsts tip.0 ≡ support_of bound.new v }
    ensures firsts { bound.new.firsts ≡ bound.old.firsts }
    ensures support_length { length bound.new.support ≡ length bound.old.support }
{
    for slot in 0..question.dag.validators() {
        if before.get(slot) != bound.firsts().get(slot) {
            shift_by(question, bound, before, tips, slot);
        }
    }
}

// The same for the first unit of one validator. Those of the validators before it have moved.
fn shift_by(
    question: &Question<'_>,
    bound: &mut Bound,
    before: &Firsts,
    tips: &[Option<UnitNo>],
    slot: u32,
)
    requires tips { length tips.now ≡ question.now.dag.now.validators }
    requires firsts_length { length bound.old.firsts ≡ question.now.dag.now.validators }
    requires support_length { length bound.old.support ≡ question.now.dag.now.validators }
    requires before { length before.now ≡ question.now.dag.now.validators }
    requires within { slot < question.now.dag.now.validators }
    requires known { (v : ℕ) (tip : Number) → slice_index_or tips.now v None ≡ Some tip → tip.0 < count_of question.now.dag.now }
    requires seen { (v : ℕ) (tip : Number) → slice_index_or tips.now v None ≡ Some tip → weight_amid question.now.weights.now question.now.dag.now before.now bound.old.firsts slot tip.0 ≡ support_of bound.old v }
    ensures seen { (v : ℕ) (tip : Number) → slice_index_or tips.now v None ≡ Some tip → weight_amid question.now.weights.now question.now.dag.now before.now bound.new.firsts (slot + 1) tip.0 ≡ support_of bound.new v }
    ensures firsts { bound.new.firsts ≡ bound.old.firsts }
    ensures support_length { length bound.new.support ≡ length bound.old.support }
{
    for v in 0..question.dag.validators() {
        let sum = bound.support(v);
        let next = shifted_of(
            question,
            before,
            bound.firsts(),
            slot,
            tips[v as usize],
            sum,
        );
        bound.set_support(v, next);
    }
}

// The sum of the unit, if there is one.
fn shifted_of(
    question: &Question<'_>,
    before: &Firsts,
    firsts: &Firsts,
    slot: u32,
    tip: Option<UnitNo>,
    sum: u64,
) -> u64
    requires known { (no : Number) → tip ≡ Some no → no.0 < count_of question.now.dag.now }
    requires before { length before.now ≡ question.now.dag.now.validators }
    requires firsts { length firsts.now ≡ question.now.dag.now.validators }
    requires within { slot < question.now.dag.now.validators }
    ensures { (no : Number) → tip ≡ Some no → weight_amid question.now.weights.now question.now.dag.now before.now firsts.now slot no.0 ≡ sum → weight_amid question.now.weights.now question.now.dag.now before.now firsts.now (slot + 1) no.0 ≡ result }
{
    match tip {
        Some(no) => shifted(question, before, firsts, slot, no, sum),
        None => sum,
    }
}

/// What the unit sees once the first unit of the validator moved, where this is what it saw.
pub(crate) fn shifted(
    question: &Question<'_>,
    before: &Firsts,
    firsts: &Firsts,
    slot: u32,
    no: UnitNo,
    sum: u64,
) -> u64
    requires known { no.0 < count_of question.now.dag.now }
    requires before { length before.now ≡ question.now.dag.now.validators }
    requires firsts { length firsts.now ≡ question.now.dag.now.validators }
    requires within { slot < question.now.dag.now.validators }
    ensures { weight_amid question.now.weights.now question.now.dag.now before.now firsts.now slot no.0 ≡ sum → weight_amid question.now.weights.now question.now.dag.now before.now firsts.now (slot + 1) no.0 ≡ result }
{
    let was = before.get(slot);
    let is = firsts.get(slot);
    // It observes units of lesser numbers alone.
    if no.0 <= was && no.0 <= is {
        return sum;
    }
    let view = question.dag.unit(no).panorama().get(slot);
    let weight = question.weights[slot as usize];
    let sees = is_after(is, view);
    if is_after(was, view) == sees {
        sum
    } else if sees {
        sum.saturating_add(weight)
    } else {
        sum.saturating_sub(weight)
    }
}
