//! The least panorama above two.

ghost use Rattle.std.specs.Prelude.{◌≡◌, ℕ, ◌<◌, IsTrue};
ghost use Rattle.hw_types.specs.Graph.{is_consistent};
ghost use Rattle.hw_dag.specs.{Dag.{graph, observations, view_at, IsPanorama}, Admission.{IsGraph}, Views.{IsKnownView}, Join.{joined, IsLeastAbove}};

use crate::{Dag, Panorama, View};

/// Makes `left` the least panorama that both are at most.
pub fn join(dag: &Dag, left: &mut Panorama, right: &Panorama)
    requires left { IsPanorama dag.now left.old }
    requires right { IsPanorama dag.now right.now }
    requires left_consistent { IsTrue (is_consistent (graph dag.now) (observations dag.now left.old)) }
    requires right_consistent { IsTrue (is_consistent (graph dag.now) (observations dag.now right.now)) }
    ensures panorama { IsPanorama dag.now left.new }
    ensures slots { (v : ℕ) → v < dag.now.validators
        → view_at left.new v ≡ joined dag.now (view_at left.old v) (view_at right.now v) }
    ensures least { IsLeastAbove (graph dag.now) (observations dag.now left.old)
        (observations dag.now right.now) (observations dag.now left.new) }
    ensures consistent { IsTrue (is_consistent (graph dag.now) (observations dag.now left.new)) }
{
    for validator in 0..dag.validators() {
        let view = joined_view(dag, left.get(validator), right.get(validator));
        left.set(validator, view);
    }
}

/// The least slot that both are at most.
fn joined_view(dag: &Dag, left: View, right: View) -> View
    requires graph { IsGraph dag.now }
    requires left { IsKnownView dag.now left }
    requires right { IsKnownView dag.now right }
    ensures { result ≡ joined dag.now left right }
{
    if left == right {
        return left;
    }
    match (left, right) {
        (View::Faulty, _) | (_, View::Faulty) => View::Faulty,
        (View::Absent, view) | (view, View::Absent) => view,
        (View::Correct(low), View::Correct(high)) => {
            if dag.on_lane(low, high) {
                right
            } else if dag.on_lane(high, low) {
                left
            } else {
                View::Faulty
            }
        }
    }
}
