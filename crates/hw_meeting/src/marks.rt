//! Whether all units of a validator are on the lane of its highest settled one.

ghost use Rattle.std.specs.Prelude.{◌≡◌, ◌<◌, ◌↔◌, ◌++◌, ◌∷◌, [], ℕ, List, length, IsTrue, IfOk, IfSome};
ghost use Rattle.hw_types.specs.{declared.unit.Digest.{Digest}, Graph.{Node}, Spelling.{instance_of}, Limits.{config_fault}, Real.{setting_of}, laws.StateLaws.{units_in}};
ghost use Rattle.hw_dag.specs.Dag.{count_of};
ghost use Rattle.hw_meeting.specs.Lanes.{AreHighest, IsOnLaneOf, IsOnTip, marked, AreMarks, node_named};

use crate::mark::Mark;
use hw_core::Core;
use hw_dag::{Dag, UnitNo};
use hw_rules::local;
use hw_types::{Config, Digest, OutOfMemory, Vertex, WireUnit, is_same_unit};
use std::alloc::Global;

/// What the journal has of each validator, against the validators' highest settled units.
pub(crate) fn marks(
    alloc: Global,
    core: &Core,
    dag: &Dag,
    tips: &[Option<UnitNo>],
) -> Result<Vec<Mark>, OutOfMemory>
    requires size { dag.now.validators ≡ length core.now.config.weights }
    requires tips { AreHighest dag.now (count_of dag.now) tips.now }
    ensures { IfOk result (λ marks. AreMarks dag.now tips.now (units_in (setting_of core.now.config) core.now.journal) marks.items) }
{
    let config = core.state().config();
    let instance = core.instance();
    let mut marks = vec![in alloc; Mark::Unseen; dag.validators() as usize]?;
    for place in 0..core.journal_count() {
        let vertex = core.journal_at(place);
        see(dag, tips, config, instance, vertex, marks.as_mut_slice());
    }
    Ok(marks)
}

/// Takes note of one vertex more. A unit that breaks a rule of its own isn't counted; a node's journal has
/// none.
fn see(
    dag: &Dag,
    tips: &[Option<UnitNo>],
    config: &Config,
    instance: &Digest,
    vertex: &Vertex,
    marks: &mut [Mark],
)
    requires validators { dag.now.validators ≡ length config.now.weights }
    requires instance { instance.now ≡ instance_of config.now }
    requires tips { AreHighest dag.now (count_of dag.now) tips.now }
    requires size { length marks.old ≡ dag.now.validators }
    ensures { (units : List Node) → AreMarks dag.now tips.now units marks.old
        → AreMarks dag.now tips.now (units ++ units_in (setting_of config.now) (vertex.now ∷ [])) marks.new }
{
    if let Vertex::Unit(signed) = vertex {
        if local(config, instance, &signed.unit).is_ok() {
            see_unit(dag, tips, &signed.unit, marks);
        }
    }
}

/// Takes note of one unit more.
fn see_unit(dag: &Dag, tips: &[Option<UnitNo>], unit: &WireUnit, marks: &mut [Mark])
    requires creator { unit.now.creator < dag.now.validators }
    requires tips { AreHighest dag.now (count_of dag.now) tips.now }
    requires size { length marks.old ≡ dag.now.validators }
    ensures { (units : List Node) (name : Digest) → AreMarks dag.now tips.now units marks.old
        → AreMarks dag.now tips.now (units ++ node_named name unit.now ∷ []) marks.new }
{
    let creator = unit.creator as usize;
    let is_on = is_on_tip(dag, tips[creator], unit);
    marks[creator] = marked(marks[creator], is_on);
}

/// The mark with one unit more.
fn marked(mark: Mark, is_on: bool) -> Mark
    ensures { result ≡ marked mark is_on }
{
    match mark {
        Mark::Broken => Mark::Broken,
        Mark::Unseen | Mark::Whole => { if is_on { Mark::Whole } else { Mark::Broken } }
    }
}

/// Whether the unit is on the lane of the entry.
fn is_on_tip(dag: &Dag, tip: Option<UnitNo>, unit: &WireUnit) -> bool
    requires { IfSome tip (λ no. no.0 < count_of dag.now) }
    ensures { IsTrue result ↔ IsOnTip dag.now tip unit.now }
{
    match tip {
        None => false,
        Some(tip) => is_on_lane_of(dag, tip, unit),
    }
}

/// Whether the unit is on the lane of this one.
fn is_on_lane_of(dag: &Dag, tip: UnitNo, unit: &WireUnit) -> bool
    requires { tip.0 < count_of dag.now }
    ensures { IsTrue result ↔ IsOnLaneOf dag.now tip.0 unit.now }
{
    dag.recall_graph();
    if unit.seq > dag.unit(tip).signed().unit.seq {
        return false;
    }
    let found = dag.unit_on_lane(tip, unit.seq);
    is_same_unit(&dag.unit(found).signed().unit, unit)
}
