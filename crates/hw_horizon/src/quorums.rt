//! From where on a lane sees a quorum of those who are present.

ghost use Rattle.std.specs.Prelude.{◌≡◌, ◌<◌, length};
ghost use Rattle.hw_dag.specs.{Dag.{count_of}, Admission.{IsGraph}, Lanes.{AreWeights}};
ghost use Rattle.hw_horizon.specs.{Starts.{IsStart, IsSuffix}, Firsts.{is_after, weight_after, has_quorum as has_quorum_lem}};

use crate::firsts::Firsts;
use crate::question::Question;
use hw_dag::{Dag, UnitNo, View};

/// The number, not below the floor, from which on each unit of the lane sees a quorum. It is found by
/// bisection, since the units that see one are the last ones.
pub fn quorum_start(
    question: &Question<'_>,
    tip: UnitNo,
    floor: u64,
    firsts: &Firsts,
) -> Option<u64>
    requires firsts { length firsts.now ≡ question.now.dag.now.validators }
    requires known { tip.0 < count_of question.now.dag.now }
    requires suffix { IsSuffix question.now.dag.now tip.0 (has_quorum_lem question.now.weights.now question.now.dag.now question.now.quorum firsts.now) }
    ensures { IsStart question.now.dag.now tip.0 floor (has_quorum_lem question.now.weights.now question.now.dag.now question.now.quorum firsts.now) result }
{
    let last = question.dag.unit(tip).signed().unit.seq;
    if last < floor {
        return None;
    }
    let mut low = floor;
    let mut high = last;
    while low < high {
        let middle = low + (high - low) / 2;
        let no = question.dag.unit_on_lane(tip, middle);
        if has_quorum(question, no, firsts) {
            high = middle;
        } else {
            low = middle + 1;
        }
    }
    // Where an earlier unit sees a quorum, the latest one does.
    if high == last && !has_quorum(question, tip, firsts) {
        return None;
    }
    Some(low)
}

/// Whether the unit sees a quorum of those present.
pub fn has_quorum(question: &Question<'_>, no: UnitNo, firsts: &Firsts) -> bool
    requires firsts { length firsts.now ≡ question.now.dag.now.validators }
    requires known { no.0 < count_of question.now.dag.now }
    ensures { result ≡ has_quorum_lem question.now.weights.now question.now.dag.now question.now.quorum firsts.now no.0 }
{
    question.quorum <= weight_after(question.dag, question.weights, no, firsts)
}

/// The weight of those present that the unit sees.
pub fn weight_after(dag: &Dag, weights: &[u64], no: UnitNo, firsts: &Firsts) -> u64
    requires graph { IsGraph dag.now }
    requires weights { AreWeights weights.now dag.now }
    requires firsts { length firsts.now ≡ dag.now.validators }
    requires known { no.0 < count_of dag.now }
    ensures { result ≡ weight_after weights.now dag.now firsts.now no.0 }
{
    let panorama = dag.unit(no).panorama();
    let mut total = 0;
    for v in 0..dag.validators() {
        // No branch is taken on what is seen, since that can't be foretold.
        let weight = weights[v as usize];
        total += if is_after(firsts.get(v), panorama.get(v)) {
            weight
        } else {
            0
        };
    }
    total
}

/// Whether the slot names that unit or a later one of its lane.
pub(crate) fn is_after(first: u32, view: View) -> bool
    ensures { result ≡ is_after first view }
{
    match view {
        View::Correct(no) => first <= no.0,
        View::Absent | View::Faulty => false,
    }
}
