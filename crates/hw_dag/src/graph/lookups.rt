//! Look-ups along lanes and parents, and what is below a unit.

ghost use Rattle.std.specs.Prelude.{◌≡◌, ℕ, ◌+◌, ◌<◌, ◌≤◌, ◌⊎◌, ◌↔◌, true, false, length, Some, unwrap_or, IsTrue, IfSome, IfNone};
ghost use Rattle.hw_types.specs.Votes.{is_block};
ghost use Rattle.hw_dag.specs.Jumps.{jump_count};
ghost use Rattle.hw_dag.specs.Dag.{unit_at, node_at, count_of, creator_of, seq_of, view_at};
ghost use Rattle.hw_dag.specs.Lanes.{is_lane_below, is_seen, IsLaneAt, IsAncestorAt, IsBelow};
ghost use Rattle.hw_dag.specs.declared.numbers.UnitNo.{UnitNo as Number};
ghost use Rattle.hw_dag.specs.Tables.{IsKnown, predecessor_of};
ghost use Rattle.hw_dag.specs.Walks.{is_marked, Cites, HasRoom, IsInNoSlot, IsCitedBySome, IsBelowMarked};

use crate::Steps;
use crate::graph::Dag;
use crate::numbers::{Panorama, Slot, UnitNo, View};
use crate::scratch::Marks;
use std::marker::Brand;
use std::sync::ledger::{Blank, Ledger};

impl Dag {
    /// The unit numbered `seq` on the lane of a unit. It ticks once for each jump.
    pub fn lane_at<L: Ledger>(&self, no: UnitNo, seq: u64, steps: &mut Steps<L>) -> UnitNo
        requires known { no.0 < count_of self.now }
        requires within { seq ≤ seq_of (unit_at self.now no.0) }
        ensures found { IsLaneAt self.now no.0 seq result.0 }
        ensures jumps { steps.new ≡ steps.old + jump_count (seq_of (unit_at self.now no.0)) seq }
    {
        let from = self.unit(no).signed().unit.seq;
        self.lanes.walk(no, from, seq, steps)
    }

    /// The ancestor of a block that has this height. It ticks once for each jump.
    pub fn block_at<L: Ledger>(&self, block: UnitNo, height: u64, steps: &mut Steps<L>) -> UnitNo
        requires known { block.0 < count_of self.now }
        requires block { IsTrue (is_block (node_at self.now block.0)) }
        requires within { height ≤ unwrap_or (unit_at self.now block.0).height 0 }
        ensures found { IsAncestorAt self.now block.0 height result.0 }
        ensures jumps { steps.new ≡ steps.old + jump_count (unwrap_or (unit_at self.now block.0).height 0) height }
    {
        let from = self.unit(block).height().unwrap_or(0);
        self.chains.walk(block, from, height, steps)
    }

    /// The unit that comes before it on its lane.
    pub fn predecessor(&self, no: UnitNo) -> Option<UnitNo>
        requires { no.0 < count_of self.now }
        ensures { result ≡ predecessor_of (unit_at self.now no.0) }
    {
        // For the prover: what stands behind a `Dag` is a graph.
        self.recall_graph();
        self.unit(no).predecessor()
    }

    /// Whether a unit is another one or on its lane.
    pub fn on_lane(&self, low: UnitNo, high: UnitNo) -> bool
        requires low_known { low.0 < count_of self.now }
        requires high_known { high.0 < count_of self.now }
        ensures { result ≡ is_lane_below self.now low.0 high.0 }
    {
        let creator = self.units[low.0 as usize].signed().unit.creator;
        self.units[high.0 as usize].signed().unit.creator == creator
            && self.on_lane_of(creator, low, high)
    }

    /// `on_lane` for two units of this creator.
    #[inline(always)]
    pub fn on_lane_of(&self, creator: u32, low: UnitNo, high: UnitNo) -> bool
        requires low_known { low.0 < count_of self.now }
        requires high_known { high.0 < count_of self.now }
        requires low_creator { creator_of (unit_at self.now low.0) ≡ creator }
        requires high_creator { creator_of (unit_at self.now high.0) ≡ creator }
        ensures { result ≡ is_lane_below self.now low.0 high.0 }
    {
        let latest = self.latest.get(creator);
        // A later unit isn't on an earlier one's lane.
        if high.0 <= low.0 {
            return high.0 == low.0;
        }
        match latest {
            // All units of the creator are on one lane, in the order of their numbers.
            View::Correct(_) => true,
            View::Absent | View::Faulty => self.leads_to(low, high),
        }
    }

    /// `on_lane` by a look-up along the lane.
    #[inline(never)]
    fn leads_to(&self, low: UnitNo, high: UnitNo) -> bool
        requires low_known { low.0 < count_of self.now }
        requires high_known { high.0 < count_of self.now }
        ensures { result ≡ is_lane_below self.now low.0 high.0 }
    {
        let seq = self.units[low.0 as usize].signed().unit.seq;
        if self.units[high.0 as usize].signed().unit.seq < seq {
            return false;
        }
        let found = self.unit_on_lane(high, seq);
        found.0 == low.0
    }

    /// `lane_at` where nobody counts.
    pub fn unit_on_lane(&self, no: UnitNo, seq: u64) -> UnitNo
        requires known { no.0 < count_of self.now }
        requires within { seq ≤ seq_of (unit_at self.now no.0) }
        ensures { IsLaneAt self.now no.0 seq result.0 }
    {
        self.lane_at_uncounted::<Brand>(no, seq, Blank::new(1))
    }

    /// `block_at` where nobody counts.
    pub fn ancestor(&self, block: UnitNo, height: u64) -> UnitNo
        requires known { block.0 < count_of self.now }
        requires block { IsTrue (is_block (node_at self.now block.0)) }
        requires within { height ≤ unwrap_or (unit_at self.now block.0).height 0 }
        ensures { IsAncestorAt self.now block.0 height result.0 }
    {
        self.block_at_uncounted::<Brand>(block, height, Blank::new(1))
    }

    fn block_at_uncounted<L: Ledger>(&self, block: UnitNo, height: u64, blank: Blank) -> UnitNo
        requires known { block.0 < count_of self.now }
        requires block { IsTrue (is_block (node_at self.now block.0)) }
        requires within { height ≤ unwrap_or (unit_at self.now block.0).height 0 }
        requires name { blank.name ≡ L.name }
        requires parts { blank.parts ≡ L.parts }
        requires some { 0 < L.parts }
        ensures { IsAncestorAt self.now block.0 height result.0 }
    {
        let mut steps = Steps::<L>::new(blank);
        self.block_at(block, height, &mut steps)
    }

    fn lane_at_uncounted<L: Ledger>(&self, no: UnitNo, seq: u64, blank: Blank) -> UnitNo
        requires known { no.0 < count_of self.now }
        requires within { seq ≤ seq_of (unit_at self.now no.0) }
        requires name { blank.name ≡ L.name }
        requires parts { blank.parts ≡ L.parts }
        requires some { 0 < L.parts }
        ensures { IsLaneAt self.now no.0 seq result.0 }
    {
        let mut steps = Steps::<L>::new(blank);
        self.lane_at(no, seq, &mut steps)
    }

    /// Whether `low` is `high` or below it, whoever made them.
    pub fn sees(&self, high: UnitNo, low: UnitNo, marks: &mut Marks) -> bool
        requires high_known { high.0 < count_of self.now }
        requires low_known { low.0 < count_of self.now }
        requires room { high.0 ≤ marks.old }
        ensures seen { result ≡ is_seen self.now low.0 high.0 }
        ensures room { marks.new ≡ marks.old }
    {
        self.recall_graph();
        match self.known_below(high, low) {
            Some(told) => told,
            None => self.reaches(
                &[Slot::of(View::Correct(high))],
                low,
                marks.marked.as_mut_slice(),
            ),
        }
    }

    /// Whether `low` is a unit of the panorama or below one of them, whoever made them. Where look-ups don't
    /// tell, one walk from all slots at once does.
    pub fn is_below_any(&self, panorama: &Panorama, low: UnitNo, marks: &mut Marks) -> bool
        requires known { IsKnown self.now panorama.now }
        requires low_known { low.0 < count_of self.now }
        requires room { HasRoom panorama.now marks.old }
        ensures below { IsTrue result ↔ IsBelow self.now panorama.now low.0 }
        ensures room { marks.new ≡ marks.old }
    {
        let slots = panorama.views();
        match self.told_by(slots, low) {
            Some(told) => told,
            None => self.reaches(slots, low, marks.marked.as_mut_slice()),
        }
    }

    /// Whether `low` is the unit of a slot or below one, where no walk is needed to tell.
    pub(super) fn told_by(&self, slots: &[Slot], low: UnitNo) -> Option<bool>
        requires known { IsKnown self.now slots.now }
        requires low_known { low.0 < count_of self.now }
        ensures told { IfSome result (λ told. IsTrue told ↔ IsBelow self.now slots.now low.0) }
        ensures open { IfNone result (IsInNoSlot slots.now low.0) }
    {
        self.recall_graph();
        let mut open = false;
        for slot in slots {
            if let View::Correct(high) = slot.view() {
                match self.known_below(high, low) {
                    Some(true) => return Some(true),
                    Some(false) => {}
                    None => open = true,
                }
            }
        }
        if open { None } else { Some(false) }
    }

    /// Whether `low` is `high` or below it, where no walk is needed to tell.
    pub(super) fn known_below(&self, high: UnitNo, low: UnitNo) -> Option<bool>
        requires high_known { high.0 < count_of self.now }
        requires low_known { low.0 < count_of self.now }
        ensures told { IfSome result (λ told. told ≡ is_seen self.now low.0 high.0) }
        ensures open { IfNone result (low.0 < high.0) }
    {
        let creator = self.units[low.0 as usize].signed().unit.creator;
        // What a unit observes has a lesser number.
        if high.0 <= low.0 {
            return Some(high.0 == low.0);
        }
        match self.units[high.0 as usize].panorama().get(creator) {
            View::Absent => Some(false),
            View::Correct(no) => Some(self.on_lane(low, no)),
            View::Faulty => self.saw(high, low, creator).then_some(true),
        }
    }

    /// Whether a unit shows `low` that is cited by the first unit on the lane of `high` that marks the
    /// creator of `low`. Mostly one does. If none does, nothing is known.
    fn saw(&self, high: UnitNo, low: UnitNo, creator: u32) -> bool
        requires high_known { high.0 < count_of self.now }
        requires low_known { low.0 < count_of self.now }
        requires creator { creator_of (unit_at self.now low.0) ≡ creator }
        ensures { IsTrue result → is_seen self.now low.0 high.0 ≡ true }
    {
        let first = self.first_marking(high, creator);
        for slot in self.units[first.0 as usize].panorama().views() {
            if self.shows(slot.view(), low, creator) {
                return true;
            }
        }
        false
    }

    /// A unit on the lane: the first one that marks the creator, where the unit does.
    fn first_marking(&self, no: UnitNo, creator: u32) -> UnitNo
        requires { no.0 < count_of self.now }
        ensures known { result.0 < count_of self.now }
        ensures on_lane { is_lane_below self.now result.0 no.0 ≡ true }
    {
        let mut first = no;
        let mut from = 0;
        let mut to = self.units[no.0 as usize].signed().unit.seq;
        while from < to {
            let middle = from + (to - from) / 2;
            let at = self.unit_on_lane(no, middle);
            if self.marks(at, creator) {
                first = at;
                to = middle;
            } else {
                from = middle + 1;
            }
        }
        first
    }

    /// Whether a unit marks a validator.
    fn marks(&self, no: UnitNo, validator: u32) -> bool
        requires { no.0 < count_of self.now }
    {
        let views = self.units[no.0 as usize].panorama().views();
        match views.get(validator as usize) {
            Some(slot) => matches!(slot.view(), View::Faulty),
            None => false,
        }
    }

    /// Whether the unit in a slot is `low`, or its lane of the creator shows `low`.
    fn shows(&self, view: View, low: UnitNo, creator: u32) -> bool
        requires known { (number : Number) → view ≡ View.Correct number → number.0 < count_of self.now }
        requires low_known { low.0 < count_of self.now }
        requires creator { creator_of (unit_at self.now low.0) ≡ creator }
        ensures { IsTrue result → (number : Number) × (view ≡ View.Correct number) × (is_seen self.now low.0 number.0 ≡ true) }
    {
        let View::Correct(no) = view else {
            return false;
        };
        match self.units[no.0 as usize].panorama().get(creator) {
            View::Correct(last) => self.on_lane_of(creator, low, last),
            View::Absent | View::Faulty => no == low,
        }
    }

    /// Whether `low` is below the unit of a slot, by one walk from all of them at once.
    fn reaches(&self, slots: &[Slot], low: UnitNo, marked: &mut [bool]) -> bool
        requires known { IsKnown self.now slots.now }
        requires low_known { low.0 < count_of self.now }
        requires apart { IsInNoSlot slots.now low.0 }
        requires room { HasRoom slots.now (length marked.old) }
        ensures { IsTrue result ↔ IsBelow self.now slots.now low.0 }
    {
        self.recall_graph();
        let top = greatest(slots);
        if top <= low.0 {
            return false;
        }
        clear(marked, low.0 as usize, top as usize);
        self.mark_observed_by(slots, low, marked);
        self.walk(top, low, marked)
    }

    /// Whether `low` is a marked unit or below one, among those before `top`: from each unit that was come
    /// to, on to those that it observes. It looks at each unit at most once.
    pub(super) fn walk(&self, top: u32, low: UnitNo, marked: &mut [bool]) -> bool
        requires known { top ≤ count_of self.now }
        requires below { low.0 < top }
        requires room { top ≤ length marked.old }
        ensures { IsTrue result ↔ IsBelowMarked self.now marked.old top low.0 }
    {
        self.recall_graph();
        let mut next = top;
        while low.0 + 1 < next {
            next -= 1;
            if marked[next as usize] {
                self.mark_observed(UnitNo(next), low, marked);
                if marked[low.0 as usize] {
                    return true;
                }
            }
        }
        marked[low.0 as usize]
    }

    /// Marks the units that those of the slots observe, from `low` on.
    pub(super) fn mark_observed_by(&self, slots: &[Slot], low: UnitNo, marked: &mut [bool])
        requires known { IsKnown self.now slots.now }
        requires room { HasRoom slots.now (length marked.old) }
        ensures all { (m : ℕ) → IsCitedBySome self.now slots.now m → low.0 ≤ m → is_marked marked.new m ≡ true }
        ensures only { (m : ℕ) → is_marked marked.new m ≡ true → (is_marked marked.old m ≡ true) ⊎ IsCitedBySome self.now slots.now m }
    {
        for slot in slots {
            if let View::Correct(no) = slot.view() {
                self.mark_observed(no, low, marked);
            }
        }
    }

    /// Marks the units that a unit observes, from `low` on.
    pub(super) fn mark_observed(&self, no: UnitNo, low: UnitNo, marked: &mut [bool])
        requires known { no.0 < count_of self.now }
        requires room { no.0 ≤ length marked.old }
        ensures kept { (m : ℕ) → is_marked marked.old m ≡ true → is_marked marked.new m ≡ true }
        ensures all { (m : ℕ) → Cites self.now no.0 m → low.0 ≤ m → is_marked marked.new m ≡ true }
        ensures only { (m : ℕ) → is_marked marked.new m ≡ true → (is_marked marked.old m ≡ true) ⊎ Cites self.now no.0 m }
        ensures earlier { (m : ℕ) → Cites self.now no.0 m → m < no.0 }
    {
        for slot in self.units[no.0 as usize].panorama().views() {
            mark(marked, slot.view(), low);
        }
    }
}

// Marks the unit that a slot names, unless it has a lesser number than `low`.
fn mark(marked: &mut [bool], view: View, low: UnitNo)
    requires { (number : Number) → view ≡ View.Correct number → number.0 < length marked.old }
    ensures kept { (m : ℕ) → is_marked marked.old m ≡ true → is_marked marked.new m ≡ true }
    ensures all { (number : Number) → view ≡ View.Correct number → low.0 ≤ number.0 → is_marked marked.new number.0 ≡ true }
    ensures only { (m : ℕ) → is_marked marked.new m ≡ true → (is_marked marked.old m ≡ true) ⊎ (view ≡ View.Correct (record { 0 = m })) }
{
    if let View::Correct(no) = view {
        if low.0 <= no.0 {
            marked[no.0 as usize] = true;
        }
    }
}

// Takes the marks away from `from` up to `to`.
pub(super) fn clear(marked: &mut [bool], from: usize, to: usize)
    requires { to ≤ length marked.old }
    ensures { (m : ℕ) → from ≤ m → m < to → is_marked marked.new m ≡ false }
{
    for m in from..to {
        marked[m] = false;
    }
}

// The greatest number in the slots, or 0 where there is none.
pub(super) fn greatest(slots: &[Slot]) -> u32
    ensures all { (slot : ℕ) (number : Number) → view_at slots.now slot ≡ View.Correct number → number.0 ≤ result }
    ensures one { 0 < result → (slot : ℕ) × (number : Number) × (view_at slots.now slot ≡ View.Correct number) × (number.0 ≡ result) }
{
    let mut top = 0;
    for slot in slots {
        if let View::Correct(no) = slot.view() {
            top = top.max(no.0);
        }
    }
    top
}
