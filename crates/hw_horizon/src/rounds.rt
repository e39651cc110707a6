//! One level out of the level below it: members fall until no more do.

ghost use Rattle.std.specs.Prelude.{◌≡◌, ℕ, suc, ◌+◌, ◌<◌, ◌≤◌, length, true, None, is_some, IsTrue, IfSome, if◌then◌else◌};
ghost use Rattle.hw_types.specs.{Votes.{weight_of}, Graph.{is_consistent}};
ghost use Rattle.hw_dag.specs.{Dag.{graph, observations}, Admission.{IsGraph}, Lanes.{AreWeights}};
ghost use Rattle.hw_horizon.specs.Tables.{Starts, entry, is_member, start_over, next_table, table_after, SameMembers, AreAmong};
ghost use Rattle.hw_horizon.specs.Starts.{HasSlots};
ghost use Rattle.hw_horizon.specs.Firsts.{AreFirsts, AreSeen};
ghost use Rattle.hw_horizon.specs.Bounds.{IsExact};

use crate::bounds::Bound;
use crate::counts::Counts;
use crate::firsts::{Firsts, NO_UNIT};
use crate::question::Question;
use crate::quorums::quorum_start;
use crate::table::Table;
use hw_dag::{Dag, View};

/// Puts into `present` the committee of the level above that of `lower`. `bound` is what may be known of
/// the level of `lower`.
pub(crate) fn prune(
    question: &Question<'_>,
    lower: &Table,
    present: &mut Table,
    next: &mut Table,
    firsts: &mut Firsts,
    counts: &mut Counts,
    bound: Option<&Bound>,
)
    requires consistent { IsTrue (is_consistent (graph question.now.dag.now) (observations question.now.dag.now question.now.panorama.now)) }
    requires slots { HasSlots question.now.panorama.now lower.now }
    requires lower_length { length lower.now ≡ question.now.dag.now.validators }
    requires present_length { length present.old ≡ question.now.dag.now.validators }
    requires next_length { length next.old ≡ question.now.dag.now.validators }
    requires firsts_length { length firsts.old ≡ question.now.dag.now.validators }
    requires counts_length { length counts.old ≡ question.now.dag.now.validators }
    requires exact { IfSome bound (λ bound. IsExact question.now.weights.now question.now.dag.now question.now.panorama.now bound.now) }
    ensures present { present.new ≡ table_after (suc (length question.now.weights.now)) question.now.weights.now (graph question.now.dag.now) (observations question.now.dag.now question.now.panorama.now) question.now.quorum lower.now }
    ensures next_length { length next.new ≡ question.now.dag.now.validators }
    ensures firsts_length { length firsts.new ≡ question.now.dag.now.validators }
    ensures counts_length { length counts.new ≡ question.now.dag.now.validators }
{
    put_members(question, lower, present, firsts, counts, bound);
    put_next(question, lower, present, firsts, next);
    present.copy_from(next);
}

/// Leaves in `present` who is in the committee of the level above that of `lower`, with their first units.
/// Their starts aren't looked for. `counts` is scratch.
pub(crate) fn put_members(
    question: &Question<'_>,
    lower: &Table,
    present: &mut Table,
    firsts: &mut Firsts,
    counts: &mut Counts,
    bound: Option<&Bound>,
)
    requires consistent { IsTrue (is_consistent (graph question.now.dag.now) (observations question.now.dag.now question.now.panorama.now)) }
    requires slots { HasSlots question.now.panorama.now lower.now }
    requires lower_length { length lower.now ≡ question.now.dag.now.validators }
    requires present_length { length present.old ≡ question.now.dag.now.validators }
    requires firsts_length { length firsts.old ≡ question.now.dag.now.validators }
    requires counts_length { length counts.old ≡ question.now.dag.now.validators }
    requires exact { IfSome bound (λ bound. IsExact question.now.weights.now question.now.dag.now question.now.panorama.now bound.now) }
    ensures members { SameMembers present.new (table_after (length question.now.weights.now) question.now.weights.now (graph question.now.dag.now) (observations question.now.dag.now question.now.panorama.now) question.now.quorum lower.now) }
    ensures present_length { length present.new ≡ question.now.dag.now.validators }
    ensures firsts_length { length firsts.new ≡ question.now.dag.now.validators }
    ensures firsts { AreFirsts question.now.dag.now question.now.panorama.now lower.now present.new firsts.new }
    ensures counts_length { length counts.new ≡ question.now.dag.now.validators }
{
    present.copy_from(lower);
    firsts.find(question.dag, question.panorama, lower, present);
    counts.put(question, present, firsts, bound);
    let mut weight = members_weight(question.dag, question.weights, present);
    for _ in 0..question.weights.len() {
        let left = strike(question, lower, present, firsts, counts, weight);
        // Nobody sees a quorum of those who weigh less than one.
        if left < question.quorum {
            present.clear();
            firsts.clear();
            return;
        }
        if left == weight {
            return;
        }
        weight = left;
    }
}

// What those present weigh.
fn members_weight(dag: &Dag, weights: &[u64], present: &Table) -> u64
    requires weights { AreWeights weights.now dag.now }
    ensures graph { IsGraph dag.now }
    ensures weight { result ≡ weight_of weights.now (is_member present.now) }
{
    let mut total = 0;
    for v in 0..dag.validators() {
        if present.get(v).is_some() {
            total += weights[v as usize];
        }
    }
    total
}

// One round: lets fall, one after the other, those present whose latest unit sees no quorum of those still
// there, and says what those left weigh. It ends as soon as that is less than a quorum. `counts` has what the
// latest units of those present see of them.
fn strike(
    question: &Question<'_>,
    lower: &Table,
    present: &mut Table,
    firsts: &mut Firsts,
    counts: &mut Counts,
    weight: u64,
) -> u64
    requires consistent { IsTrue (is_consistent (graph question.now.dag.now) (observations question.now.dag.now question.now.panorama.now)) }
    requires slots { HasSlots question.now.panorama.now present.old }
    requires present_length { length present.old ≡ question.now.dag.now.validators }
    requires firsts_length { length firsts.old ≡ question.now.dag.now.validators }
    requires firsts { AreFirsts question.now.dag.now question.now.panorama.now lower.now present.old firsts.old }
    requires counts { AreSeen question.now.weights.now question.now.dag.now question.now.panorama.now present.old firsts.old counts.old }
    requires weight { weight ≡ weight_of question.now.weights.now (is_member present.old) }
    ensures present_length { length present.new ≡ question.now.dag.now.validators }
    ensures firsts_length { length firsts.new ≡ question.now.dag.now.validators }
    ensures firsts { AreFirsts question.now.dag.now question.now.panorama.now lower.now present.new firsts.new }
    ensures counts { AreSeen question.now.weights.now question.now.dag.now question.now.panorama.now present.new firsts.new counts.new }
    ensures weight { result ≡ weight_of question.now.weights.now (is_member present.new) }
    ensures among { AreAmong present.new present.old }
    ensures keeps { (kept : Starts) → AreAmong kept (next_table question.now.weights.now (graph question.now.dag.now) (observations question.now.dag.now question.now.panorama.now) question.now.quorum lower.now kept) → AreAmong kept present.old → AreAmong kept present.new }
    ensures judged { question.now.quorum ≤ result → AreAmong present.new (next_table question.now.weights.now (graph question.now.dag.now) (observations question.now.dag.now question.now.panorama.now) question.now.quorum lower.now present.old) }
    ensures settled { result ≡ weight → AreAmong present.old present.new }
{
    let mut left = weight;
    for v in 0..question.dag.validators() {
        if left < question.quorum {
            return left;
        }
        left -= let_fall(question, lower, present, firsts, counts, v);
    }
    left
}

// Lets the validator fall where it is present and doesn't remain, and says how much less those left weigh.
fn let_fall(
    question: &Question<'_>,
    lower: &Table,
    present: &mut Table,
    firsts: &mut Firsts,
    counts: &mut Counts,
    validator: u32,
) -> u64
    requires consistent { IsTrue (is_consistent (graph question.now.dag.now) (observations question.now.dag.now question.now.panorama.now)) }
    requires slots { HasSlots question.now.panorama.now present.old }
    requires present_length { length present.old ≡ question.now.dag.now.validators }
    requires firsts_length { length firsts.old ≡ question.now.dag.now.validators }
    requires firsts { AreFirsts question.now.dag.now question.now.panorama.now lower.now present.old firsts.old }
    requires counts { AreSeen question.now.weights.now question.now.dag.now question.now.panorama.now present.old firsts.old counts.old }
    requires within { validator < question.now.dag.now.validators }
    ensures present_length { length present.new ≡ question.now.dag.now.validators }
    ensures firsts_length { length firsts.new ≡ question.now.dag.now.validators }
    ensures firsts { AreFirsts question.now.dag.now question.now.panorama.now lower.now present.new firsts.new }
    ensures counts { AreSeen question.now.weights.now question.now.dag.now question.now.panorama.now present.new firsts.new counts.new }
    ensures weight { result + weight_of question.now.weights.now (is_member present.new) ≡ weight_of question.now.weights.now (is_member present.old) }
    ensures others { (v : ℕ) → (v ≡ validator → ⊥) → entry present.new v ≡ entry present.old v }
    ensures judged { is_some (entry present.new validator) ≡ is_some (if is_some (entry present.old validator) then start_over question.now.weights.now (graph question.now.dag.now) (observations question.now.dag.now question.now.panorama.now) question.now.quorum lower.now present.old validator else None) }
    ensures stays { result ≡ 0 → entry present.new validator ≡ entry present.old validator }
{
    if present.get(validator).is_none()
        || remains(question, lower, present, firsts, counts, validator)
    {
        return 0;
    }
    counts.take(question, present, firsts, validator);
    present.set(validator, None);
    firsts.set(validator, NO_UNIT);
    question.weights[validator as usize]
}

// Whether the validator, which is present, has a start over those present: its latest unit sees a quorum of
// them, and isn't before its start of the level below.
fn remains(
    question: &Question<'_>,
    lower: &Table,
    present: &Table,
    firsts: &Firsts,
    counts: &Counts,
    validator: u32,
) -> bool
    requires consistent { IsTrue (is_consistent (graph question.now.dag.now) (observations question.now.dag.now question.now.panorama.now)) }
    requires slots { HasSlots question.now.panorama.now present.now }
    requires firsts { AreFirsts question.now.dag.now question.now.panorama.now lower.now present.now firsts.now }
    requires counts { AreSeen question.now.weights.now question.now.dag.now question.now.panorama.now present.now firsts.now counts.now }
    requires within { validator < question.now.dag.now.validators }
    requires present { is_some (entry present.now validator) ≡ true }
    ensures { result ≡ is_some (if is_some (entry present.now validator) then start_over question.now.weights.now (graph question.now.dag.now) (observations question.now.dag.now question.now.panorama.now) question.now.quorum lower.now present.now validator else None) }
{
    match question.panorama.get(validator) {
        View::Correct(tip) => {
            lower.get(validator).unwrap_or(0) <= question.dag.unit(tip).signed().unit.seq
                && question.quorum <= counts.get(validator)
        }
        View::Absent | View::Faulty => false,
    }
}

// Puts into `next` the starts of those present over those present.
fn put_next(
    question: &Question<'_>,
    lower: &Table,
    present: &Table,
    firsts: &Firsts,
    next: &mut Table,
)
    requires consistent { IsTrue (is_consistent (graph question.now.dag.now) (observations question.now.dag.now question.now.panorama.now)) }
    requires slots { HasSlots question.now.panorama.now present.now }
    requires firsts_length { length firsts.now ≡ question.now.dag.now.validators }
    requires firsts { AreFirsts question.now.dag.now question.now.panorama.now lower.now present.now firsts.now }
    requires length { length next.old ≡ question.now.dag.now.validators }
    ensures { next.new ≡ next_table question.now.weights.now (graph question.now.dag.now) (observations question.now.dag.now question.now.panorama.now) question.now.quorum lower.now present.now }
{
    for v in 0..question.dag.validators() {
        let start = start_over(question, lower, present, firsts, v);
        next.set(v, start);
    }
}

// The start of the validator over those present, where it is one of them.
fn start_over(
    question: &Question<'_>,
    lower: &Table,
    present: &Table,
    firsts: &Firsts,
    validator: u32,
) -> Option<u64>
    requires consistent { IsTrue (is_consistent (graph question.now.dag.now) (observations question.now.dag.now question.now.panorama.now)) }
    requires slots { HasSlots question.now.panorama.now present.now }
    requires firsts_length { length firsts.now ≡ question.now.dag.now.validators }
    requires firsts { AreFirsts question.now.dag.now question.now.panorama.now lower.now present.now firsts.now }
    requires within { validator < question.now.dag.now.validators }
    ensures { result ≡ (if is_some (entry present.now validator) then start_over question.now.weights.now (graph question.now.dag.now) (observations question.now.dag.now question.now.panorama.now) question.now.quorum lower.now present.now validator else None) }
{
    if present.get(validator).is_none() {
        return None;
    }
    match question.panorama.get(validator) {
        View::Correct(tip) => {
            let floor = lower.get(validator).unwrap_or(0);
            quorum_start(question, tip, floor, firsts)
        }
        View::Absent | View::Faulty => None,
    }
}
