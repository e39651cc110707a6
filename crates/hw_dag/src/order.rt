//! Which of two panoramas observes more.

ghost use Rattle.std.specs.Prelude.{◌≡◌};
ghost use Rattle.hw_types.specs.Graph.{is_at_most};
ghost use Rattle.hw_dag.specs.{Dag.{graph, observations, IsPanorama}, Admission.{IsGraph}, Views.{IsViewOf, is_met}};

use crate::{Dag, Panorama, View};

/// Whether the right one observes all that the left one does, or has the mark of a fault in its place.
pub fn at_most(dag: &Dag, left: &Panorama, right: &Panorama) -> bool
    requires left { IsPanorama dag.now left.now }
    requires right { IsPanorama dag.now right.now }
    ensures { result ≡ is_at_most (graph dag.now) (observations dag.now left.now) (observations dag.now right.now) }
{
    dag.recall_graph();
    // A lane goes up in numbers. Where no validator's units are on two lanes, numbers tell all.
    left.is_within(right) && (!dag.is_forked() || are_met(dag, left, right))
}

/// `at_most` slot by slot, along lanes.
fn are_met(dag: &Dag, left: &Panorama, right: &Panorama) -> bool
    requires left { IsPanorama dag.now left.now }
    requires right { IsPanorama dag.now right.now }
    ensures { result ≡ is_at_most (graph dag.now) (observations dag.now left.now) (observations dag.now right.now) }
{
    for validator in 0..dag.validators() {
        if !meets(dag, validator, left.get(validator), right.get(validator)) {
            return false;
        }
    }
    true
}

/// Whether the one slot is at most the other.
pub(crate) fn meets(dag: &Dag, validator: u32, low: View, high: View) -> bool
    requires graph { IsGraph dag.now }
    requires low { IsViewOf dag.now validator low }
    requires high { IsViewOf dag.now validator high }
    ensures { result ≡ is_met dag.now low high }
{
    if low == high {
        return true;
    }
    match (low, high) {
        (View::Absent, _) | (_, View::Faulty) => true,
        (View::Correct(low), View::Correct(high)) => dag.on_lane_of(validator, low, high),
        _ => false,
    }
}
