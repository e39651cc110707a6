//! Level 0: from where on each validator votes for the block or descendants of it.

ghost use Rattle.std.specs.Prelude.{Some, ◌≡◌, ℕ, ◌+◌, ◌<◌, ◌≤◌, ◌⊎◌, true, length, IfSome};
ghost use Rattle.hw_types.specs.Votes.{is_block};
ghost use Rattle.hw_dag.specs.{Dag.{count_of, node_at, unit_at, IsPanorama, view_at}, Lanes.{IsAncestorAt}, Admission.{IsGraph}, declared.numbers.UnitNo.{UnitNo as Number}};
ghost use Rattle.hw_forks.specs.{Votes.{height_at}, Walk.{is_over}};
ghost use Rattle.hw_horizon.specs.declared.kept.Walk.{Walk as Walked};
ghost use Rattle.hw_horizon.specs.Kept.{AreKept, AreWalks, AreFences, IsWalk, IsFence};
ghost use Rattle.hw_horizon.specs.Tables.{entry};
ghost use Rattle.hw_horizon.specs.Starts.{IsStart, IsLeastStart, IsWalked, IsSlotStart, IsEarlierVote, votes_over};

use crate::fences::{Fence, SLOTS};
use crate::kept::{Walk, Walks};
use crate::table::Table;
use hw_dag::{Dag, Panorama, UnitNo, View};
use hw_forks::ancestor_at;

/// Puts into the table from where on the lane of each Correct slot votes for the block or descendants
/// of it.
pub fn put_vote_starts(
    table: &mut Table,
    kept: &mut Walks,
    dag: &Dag,
    panorama: &Panorama,
    block: UnitNo,
)
    requires panorama { IsPanorama dag.now panorama.now }
    requires known { block.0 < count_of dag.now }
    requires length { length table.old ≡ dag.now.validators }
    requires walks { length kept.old.walks ≡ dag.now.validators }
    requires kept { AreKept dag.now kept.old }
    ensures walks { length kept.new.walks ≡ dag.now.validators }
    ensures kept { AreKept dag.now kept.new }
    ensures graph { IsGraph dag.now }
    ensures length { length table.new ≡ dag.now.validators }
    ensures starts { (v : ℕ) → v < dag.now.validators → IsSlotStart dag.now (view_at panorama.now v) 0 (votes_over dag.now block.0) (entry table.new v) }
{
    kept.ask(block);
    for v in 0..dag.validators() {
        let start = slot_start(kept, dag, panorama.get(v), block, v);
        table.set(v, start);
    }
}

// The number from which on the lane of the slot votes for the block or descendants of it.
fn slot_start(kept: &mut Walks, dag: &Dag, view: View, block: UnitNo, validator: u32) -> Option<u64>
    requires graph { IsGraph dag.now }
    requires known { (number : Number) → view ≡ View.Correct number → number.0 < count_of dag.now }
    requires block_known { block.0 < count_of dag.now }
    requires within { validator < length kept.old.walks }
    requires kept { AreWalks dag.now block.0 kept.old }
    requires fences { AreFences dag.now kept.old.fences }
    ensures kept { AreWalks dag.now block.0 kept.new }
    ensures fences { AreFences dag.now kept.new.fences }
    ensures block { kept.new.block ≡ kept.old.block }
    ensures length { length kept.new.walks ≡ length kept.old.walks }
    ensures start { IsSlotStart dag.now view 0 (votes_over dag.now block.0) result }
{
    match view {
        View::Correct(tip) => {
            let start = vote_start(kept, dag, tip, block, validator);
            kept.keep(validator, tip, start);
            start
        }
        View::Absent | View::Faulty => None,
    }
}

// The number from which on each unit of the lane votes for the block or a descendant of it.
fn vote_start(
    kept: &mut Walks,
    dag: &Dag,
    tip: UnitNo,
    block: UnitNo,
    validator: u32,
) -> Option<u64>
    requires graph { IsGraph dag.now }
    requires known { tip.0 < count_of dag.now }
    requires block_known { block.0 < count_of dag.now }
    requires within { validator < length kept.old.walks }
    requires kept { AreWalks dag.now block.0 kept.old }
    requires fences { AreFences dag.now kept.old.fences }
    ensures start { IsStart dag.now tip.0 0 (votes_over dag.now block.0) result }
    ensures fences { AreFences dag.now kept.new.fences }
    ensures rest { kept.new ≡ record kept.old { fences = kept.new.fences } }
{
    let walk = kept.get(validator);
    if let Some(start) = start_at(walk, tip) {
        return Some(start);
    }
    if !votes_for(dag, tip, block) {
        return None;
    }
    // Where the block was asked before, only new units are looked at.
    let near = match walk {
        Some(_) => tip,
        None => nearest(kept, dag, tip, block, validator),
    };
    Some(start_below(dag, tip, near, block, walk))
}

// The same, where it is known of the units from this one on.
fn start_below(dag: &Dag, tip: UnitNo, near: UnitNo, block: UnitNo, kept: Option<Walk>) -> u64
    requires graph { IsGraph dag.now }
    requires known { tip.0 < count_of dag.now }
    requires block_known { block.0 < count_of dag.now }
    requires near { IsWalked dag.now tip.0 (votes_over dag.now block.0) near.0 }
    requires kept { (walk : Walked) → kept ≡ Some walk → IsWalk dag.now block.0 walk }
    ensures { IsLeastStart dag.now tip.0 0 (votes_over dag.now block.0) result }
{
    let mut first = near;
    while let Some(before) = earlier_vote(dag, first, block) {
        if let Some(start) = start_at(kept, first) {
            return start;
        }
        first = before;
    }
    dag.unit(first).signed().unit.seq
}

// The start that was kept, where the walk was from this unit.
fn start_at(kept: Option<Walk>, no: UnitNo) -> Option<u64>
    ensures { IfSome result (λ start. kept ≡ Some (record { tip = no; start = start })) }
{
    match kept {
        Some(walk) if walk.tip == no => Some(walk.start),
        _ => None,
    }
}

// A unit of the lane from which on each votes for the block, as near to the first such as the fences tell.
// It leaves fences between the lowest that was there and the block.
fn nearest(kept: &mut Walks, dag: &Dag, tip: UnitNo, block: UnitNo, validator: u32) -> UnitNo
    requires graph { IsGraph dag.now }
    requires known { tip.0 < count_of dag.now }
    requires block_known { block.0 < count_of dag.now }
    requires votes { votes_over dag.now block.0 tip.0 ≡ true }
    requires fences { AreFences dag.now kept.old.fences }
    ensures walked { IsWalked dag.now tip.0 (votes_over dag.now block.0) result.0 }
    ensures fences { AreFences dag.now kept.new.fences }
    ensures rest { kept.new ≡ record kept.old { fences = kept.new.fences } }
{
    let own = own_fence(dag, tip);
    let (lowest, known) = lowest_fence(kept, dag, own, block, validator);
    let mut slot = lowest;
    let mut fence = lowered(dag, own, known);
    kept.put_fence(validator, slot, fence);
    let height = height_of(dag, block);
    while 0 < slot {
        slot -= 1;
        if let Some(lower) = fence_above(dag, fence, height, 1 << slot) {
            kept.put_fence(validator, slot, lower);
            fence = lower;
        }
    }
    fence.first
}

// The fence of the unit itself: it votes for what it votes for.
fn own_fence(dag: &Dag, tip: UnitNo) -> Fence
    requires graph { IsGraph dag.now }
    requires known { tip.0 < count_of dag.now }
    ensures fence { IsFence dag.now result }
    ensures tip { result.tip ≡ tip }
    ensures block { result.block ≡ (unit_at dag.now tip.0).vote }
{
    Fence {
        block: dag.unit(tip).vote(),
        tip,
        first: tip,
    }
}

// The lowest slot whose fence is for the block or a descendant of it, on the way to what the latest unit
// votes for, and that fence. Where there is none, how many slots there are, and the unit's own fence.
fn lowest_fence(kept: &Walks, dag: &Dag, own: Fence, block: UnitNo, validator: u32) -> (u32, Fence)
    requires graph { IsGraph dag.now }
    requires block_known { block.0 < count_of dag.now }
    requires own { IsFence dag.now own }
    requires own_over { is_over dag.now block.0 own.block.0 ≡ true }
    requires fences { AreFences dag.now kept.now.fences }
    ensures slot { result.0 ≤ 20 }
    ensures fence { IsFence dag.now result.1 }
    ensures over { is_over dag.now block.0 result.1.block.0 ≡ true }
    ensures on_way { is_over dag.now result.1.block.0 own.block.0 ≡ true }
{
    for slot in 0..SLOTS {
        if let Some(fence) = kept.fence(validator, slot) {
            if is_over(dag, fence.block, block) && is_over(dag, own.block, fence.block) {
                return (slot, fence);
            }
        }
    }
    (SLOTS, own)
}

// The fence for the block that lies so far above this height, where that is below the block of the fence.
fn fence_above(dag: &Dag, fence: Fence, height: u64, above: u64) -> Option<Fence>
    requires graph { IsGraph dag.now }
    requires fence { IsFence dag.now fence }
    ensures fence { IfSome result (λ lower. IsFence dag.now lower) }
    ensures tip { IfSome result (λ lower. lower.tip ≡ fence.tip) }
    ensures at { IfSome result (λ lower. IsAncestorAt dag.now fence.block.0 (height + above) lower.block.0) }
{
    let gap = height_of(dag, fence.block).saturating_sub(height);
    if above < gap {
        let block = ancestor_at(dag, fence.block, height + above);
        let stop = Fence {
            block,
            tip: fence.first,
            first: fence.first,
        };
        Some(lowered(dag, fence, stop))
    } else {
        None
    }
}

// The fence for the block of `known`, with the tip of the other: from its first unit on the walk goes down
// for as long as the units vote for that block. From the tip of `known` it jumps to the first unit of that.
fn lowered(dag: &Dag, fence: Fence, known: Fence) -> Fence
    requires graph { IsGraph dag.now }
    requires fence { IsFence dag.now fence }
    requires known { IsFence dag.now known }
    requires over { is_over dag.now known.block.0 fence.block.0 ≡ true }
    ensures fence { IsFence dag.now result }
    ensures tip { result.tip ≡ fence.tip }
    ensures block { result.block ≡ known.block }
{
    let block = known.block;
    let mut first = jumped(known, fence.first);
    while let Some(before) = earlier_vote(dag, first, block) {
        first = jumped(known, before);
    }
    Fence {
        block,
        tip: fence.tip,
        first,
    }
}

// The first unit of the fence, where this is its tip.
fn jumped(known: Fence, no: UnitNo) -> UnitNo
    ensures { ((no ≡ known.tip) × (result ≡ known.first)) ⊎ (result ≡ no) }
{
    if known.tip == no { known.first } else { no }
}

// The unit that comes before it on its lane, where that votes for the block or a descendant of it.
fn earlier_vote(dag: &Dag, no: UnitNo, block: UnitNo) -> Option<UnitNo>
    requires graph { IsGraph dag.now }
    requires known { no.0 < count_of dag.now }
    requires block_known { block.0 < count_of dag.now }
    ensures { IsEarlierVote dag.now no.0 block.0 result }
{
    match dag.predecessor(no) {
        Some(before) if votes_for(dag, before, block) => Some(before),
        _ => None,
    }
}

/// Whether the unit votes for the block or a descendant of it.
pub fn votes_for(dag: &Dag, no: UnitNo, block: UnitNo) -> bool
    requires graph { IsGraph dag.now }
    requires known { no.0 < count_of dag.now }
    requires block_known { block.0 < count_of dag.now }
    ensures { result ≡ votes_over dag.now block.0 no.0 }
{
    is_over(dag, dag.unit(no).vote(), block)
}

// Whether the one block is the other or a descendant of it.
fn is_over(dag: &Dag, high: UnitNo, block: UnitNo) -> bool
    requires graph { IsGraph dag.now }
    requires known { high.0 < count_of dag.now }
    requires high { is_block (node_at dag.now high.0) ≡ true }
    requires block_known { block.0 < count_of dag.now }
    ensures { result ≡ is_over dag.now block.0 high.0 }
{
    let height = height_of(dag, block);
    height <= height_of(dag, high) && ancestor_at(dag, high, height) == block
}

// The height of a block.
fn height_of(dag: &Dag, block: UnitNo) -> u64
    requires known { block.0 < count_of dag.now }
    ensures { result ≡ height_at dag.now block.0 }
{
    dag.unit(block).height().unwrap_or(0)
}
