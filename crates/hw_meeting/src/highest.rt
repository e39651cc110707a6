//! The highest settled unit of each validator.

ghost use Rattle.std.specs.Prelude.{◌≡◌, ◌+◌, ◌<◌, IfOk};
ghost use Rattle.hw_dag.specs.Dag.{unit_at, count_of, creator_of};
ghost use Rattle.hw_meeting.specs.Lanes.{IsHighest, AreHighest};

use hw_dag::{Dag, UnitNo};
use hw_types::OutOfMemory;
use std::alloc::Global;

/// The highest settled unit of each validator, the first of several.
pub(crate) fn highest(alloc: Global, dag: &Dag) -> Result<Vec<Option<UnitNo>>, OutOfMemory>
    ensures { IfOk result (λ tips. AreHighest dag.now (count_of dag.now) tips.items) }
{
    let mut tips = vec![in alloc; None; dag.validators() as usize]?;
    for number in 0..dag.count() {
        raise(dag, UnitNo(number), tips.as_mut_slice());
    }
    Ok(tips)
}

/// Takes the unit for its creator's highest one, where none is as high yet.
fn raise(dag: &Dag, no: UnitNo, tips: &mut [Option<UnitNo>])
    requires known { no.0 < count_of dag.now }
    requires tips { AreHighest dag.now no.0 tips.old }
    ensures { AreHighest dag.now (no.0 + 1) tips.new }
{
    dag.recall_graph();
    let creator = dag.unit(no).signed().unit.creator as usize;
    tips[creator] = higher(dag, no, tips[creator]);
}

/// The higher of a creator's units, the entry where both are as high.
fn higher(dag: &Dag, no: UnitNo, tip: Option<UnitNo>) -> Option<UnitNo>
    requires known { no.0 < count_of dag.now }
    requires tip { IsHighest dag.now no.0 (creator_of (unit_at dag.now no.0)) tip }
    ensures { IsHighest dag.now (no.0 + 1) (creator_of (unit_at dag.now no.0)) result }
{
    match tip {
        Some(tip) if dag.unit(no).signed().unit.seq <= dag.unit(tip).signed().unit.seq => Some(tip),
        _ => Some(no),
    }
}
