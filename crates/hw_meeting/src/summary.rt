//! What a node's journal has of each validator.
//!
//! A validator's units are a line exactly when each is on the lane of its highest settled one. So one pass
//! over the graph finds the highest units, and one over the journal tests each unit against them.

ghost use Rattle.std.specs.{Prelude.{◌≡◌, ◌<◌, length, map, IfOk, IfSome}, List.{range_with_len}};
ghost use Rattle.hw_types.specs.Real.{setting_of};
ghost use Rattle.hw_dag.specs.Dag.{count_of};
ghost use Rattle.hw_agree.specs.Converge.{summaries};
ghost use Rattle.hw_meeting.specs.Lanes.{AreHighest, tip_at, lane_summary, mark_at, AreMarks};

use crate::frame::SummaryList;
use crate::highest::highest;
use crate::mark::Mark;
use crate::marks::marks;
use hw_agree::LaneSummary;
use hw_core::Core;
use hw_dag::{Dag, UnitNo};
use hw_types::OutOfMemory;
use std::alloc::Global;

/// What the node has of each validator, in their order. `Nothing` is no unit. `Line` is n units, all settled
/// and all on the lane of the one with this digest. `Tangled` is anything else.
///
/// It goes over the graph and the journal once, and takes memory for a few words for each validator.
pub fn summary_of(alloc: Global, core: &Core) -> Result<SummaryList, OutOfMemory>
    ensures { IfOk result (λ parts. parts ≡ summaries (setting_of core.now.config) core.now.journal) }
{
    let dag = core.state().dag();
    let tips = highest(alloc, dag)?;
    let marks = marks(alloc, core, dag, tips.as_slice())?;
    parts_of(alloc, dag, tips.as_slice(), marks.as_slice())
}

/// The summary of each validator, by its highest settled unit and its mark.
fn parts_of(
    alloc: Global,
    dag: &Dag,
    tips: &[Option<UnitNo>],
    marks: &[Mark],
) -> Result<SummaryList, OutOfMemory>
    requires tips { AreHighest dag.now (count_of dag.now) tips.now }
    requires marks { length marks.now ≡ dag.now.validators }
    ensures { IfOk result (λ parts. parts ≡ map (λ v. lane_summary dag.now (tip_at tips.now v) (mark_at marks.now v)) (range_with_len 0 dag.now.validators)) }
{
    let mut parts = SummaryList::new(alloc);
    for validator in 0..dag.validators() as usize {
        parts.push(lane_summary(dag, tips[validator], marks[validator]))?;
    }
    Ok(parts)
}

/// The summary of a validator with this highest settled unit and this mark.
fn lane_summary(dag: &Dag, tip: Option<UnitNo>, mark: Mark) -> LaneSummary
    requires { IfSome tip (λ no. no.0 < count_of dag.now) }
    ensures { result ≡ lane_summary dag.now tip mark }
{
    dag.recall_graph();
    match (mark, tip) {
        (Mark::Unseen, _) => LaneSummary::Nothing,
        (Mark::Whole, Some(tip)) => {
            let tip = dag.unit(tip);
            LaneSummary::Line(tip.signed().unit.seq + 1, *tip.digest())
        }
        (Mark::Whole, None) | (Mark::Broken, _) => LaneSummary::Tangled,
    }
}
