//! Lists of names, whether all their units are below a panorama, and what is below some of their units.

ghost use Rattle.std.specs.Prelude.{◌≡◌, ℕ, ◌<◌, ◌≤◌, ◌⊎◌, ◌↔◌, true, false, length, IsTrue, IfSome, IfNone};
ghost use Rattle.hw_dag.specs.Dag.{count_of, unit_at, view_at};
ghost use Rattle.hw_dag.specs.Lanes.{is_seen, IsBelow};
ghost use Rattle.hw_dag.specs.Tables.{IsKnown};
ghost use Rattle.hw_dag.specs.Walks.{is_marked, Cites, HasRoom, IsInNoSlot, IsBelowMarked};
ghost use Rattle.hw_dag.specs.Lists.{NamesBelow, AllNameBelow, NamesBefore, AllNameBefore, TellsBelow, HasNameAmong, IsBelowSomeNamed, HasRoomForNamed, IsTopOf, IsTopOfNamed};

use crate::graph::Dag;
use crate::graph::lookups::{clear, greatest};
use crate::numbers::{Panorama, Slot, UnitNo, View};
use crate::scratch::Marks;
use hw_types::Digest;

impl Dag {
    /// Whether each of these names is that of a unit of the panorama or below one of them, whoever made it.
    /// Names that look-ups don't tell of are told by one walk together.
    pub fn has_all_below(&self, panorama: &Panorama, names: &[Digest], marks: &mut Marks) -> bool
        requires known { IsKnown self.now panorama.now }
        requires room { HasRoom panorama.now marks.old }
        ensures below { IsTrue result ↔ AllNameBelow self.now panorama.now names.now }
        ensures room { marks.new ≡ marks.old }
    {
        let slots = panorama.views();
        let Some(low) = self.least_open(slots, names) else {
            return false;
        };
        if low.0 == self.count() {
            return true;
        }
        self.has_all_walked(slots, names, low, marks.marked.as_mut_slice())
    }

    /// The least number of the units that look-ups leave open, or the count of units where they tell of all that
    /// they are below. None where one of the names isn't that of a unit below.
    fn least_open(&self, slots: &[Slot], names: &[Digest]) -> Option<UnitNo>
        requires known { IsKnown self.now slots.now }
        ensures open { IfSome result (λ low. AllNameBefore self.now slots.now low.0 names.now) }
        ensures told { IfNone result (AllNameBelow self.now slots.now names.now → ⊥) }
    {
        let mut least = self.count();
        for name in names {
            least = least.min(self.open_number(slots, name)?);
        }
        Some(UnitNo(least))
    }

    /// `least_open` for one name.
    fn open_number(&self, slots: &[Slot], name: &Digest) -> Option<u32>
        requires known { IsKnown self.now slots.now }
        ensures open { IfSome result (λ low. NamesBefore self.now slots.now low name.now) }
        ensures told { IfNone result (NamesBelow self.now slots.now name.now → ⊥) }
    {
        let count = self.count();
        let no = self.find(name)?;
        if self.is_on_slot_lane(slots, no) {
            return Some(count);
        }
        match self.told_by(slots, no) {
            Some(true) => Some(count),
            Some(false) => None,
            None => Some(no.0),
        }
    }

    /// Whether the unit is on the lane of the one in its creator's slot, as units below mostly are.
    fn is_on_slot_lane(&self, slots: &[Slot], low: UnitNo) -> bool
        requires known { IsKnown self.now slots.now }
        requires low_known { low.0 < count_of self.now }
        ensures { IsTrue result → IsBelow self.now slots.now low.0 }
    {
        self.recall_graph();
        let slot = self.units[low.0 as usize].signed().unit.creator as usize;
        if slots.len() <= slot {
            return false;
        }
        match slots[slot].view() {
            View::Correct(high) => self.on_lane(low, high),
            View::Absent | View::Faulty => false,
        }
    }

    /// Whether each of these names is that of a unit of a slot or below one, by one walk from all slots down to
    /// the unit `low`. Those with lesser numbers are known to be below.
    fn has_all_walked(
        &self,
        slots: &[Slot],
        names: &[Digest],
        low: UnitNo,
        marked: &mut [bool],
    ) -> bool
        requires known { IsKnown self.now slots.now }
        requires before { AllNameBefore self.now slots.now low.0 names.now }
        requires room { HasRoom slots.now (length marked.old) }
        ensures { IsTrue result ↔ AllNameBelow self.now slots.now names.now }
    {
        let top = self.mark_below(slots, low, marked);
        for name in names {
            if !self.was_walked(slots, name, low, top, marked) {
                return false;
            }
        }
        true
    }

    /// `has_all_walked` for one name, after the walk.
    fn was_walked(
        &self,
        slots: &[Slot],
        name: &Digest,
        low: UnitNo,
        top: u32,
        marked: &[bool],
    ) -> bool
        requires before { NamesBefore self.now slots.now low.0 name.now }
        requires room { top ≤ length marked.now }
        requires tells { TellsBelow self.now slots.now low.0 top marked.now }
        ensures { IsTrue result ↔ NamesBelow self.now slots.now name.now }
    {
        self.recall_graph();
        let Some(no) = self.find(name) else {
            return false;
        };
        if no.0 < low.0 || names_unit(slots, no) {
            return true;
        }
        no.0 < top && marked[no.0 as usize]
    }

    /// Marks what is below the units of the slots, from `low` on. The marks before the number that it returns
    /// tell.
    fn mark_below(&self, slots: &[Slot], low: UnitNo, marked: &mut [bool]) -> u32
        requires known { IsKnown self.now slots.now }
        requires room { HasRoom slots.now (length marked.old) }
        ensures room { result ≤ length marked.old }
        ensures tells { TellsBelow self.now slots.now low.0 result marked.new }
    {
        self.recall_graph();
        let top = greatest(slots);
        clear(marked, low.0 as usize, top as usize);
        self.mark_observed_by(slots, low, marked);
        self.walk_on(top, low, marked);
        top
    }

    /// Marks what is below a marked unit, from `low` on, among those before `top`: from each unit that was come
    /// to, on to those that it observes. It looks at each unit at most once.
    fn walk_on(&self, top: u32, low: UnitNo, marked: &mut [bool])
        requires known { top ≤ count_of self.now }
        requires room { top ≤ length marked.old }
        ensures { (n : ℕ) → low.0 ≤ n → n < top → IsTrue (is_marked marked.new n) ↔ IsBelowMarked self.now marked.old top n }
    {
        self.recall_graph();
        let mut next = top;
        while low.0 < next {
            next -= 1;
            if marked[next as usize] {
                self.mark_observed(UnitNo(next), low, marked);
            }
        }
    }

    /// Whether the unit is one with one of these names or below one, whoever made them. Where look-ups don't
    /// tell, one walk from all of them at once does.
    pub fn is_below_named(&self, names: &[Digest], low: UnitNo, marks: &mut Marks) -> bool
        requires known { low.0 < count_of self.now }
        requires room { HasRoomForNamed self.now names.now marks.old }
        ensures below { IsTrue result ↔ IsBelowSomeNamed self.now names.now low.0 }
        ensures room { marks.new ≡ marks.old }
    {
        let Some(top) = self.open_top(names, low) else {
            return true;
        };
        if top <= low.0 {
            return false;
        }
        self.reaches_named(names, low, top, marks.marked.as_mut_slice())
    }

    /// The greatest number of the units with these names of which look-ups leave open whether `low` is below
    /// them, or 0 where they leave none open. None where they tell that it is below one.
    fn open_top(&self, names: &[Digest], low: UnitNo) -> Option<u32>
        requires known { low.0 < count_of self.now }
        ensures open { IfSome result (IsTopOfNamed self.now names.now low.0) }
        ensures told { IfNone result (IsBelowSomeNamed self.now names.now low.0) }
    {
        let mut top = 0;
        for name in names {
            top = top.max(self.open_above(name, low)?);
        }
        Some(top)
    }

    /// `open_top` for one name.
    fn open_above(&self, name: &Digest, low: UnitNo) -> Option<u32>
        requires known { low.0 < count_of self.now }
        ensures open { IfSome result (IsTopOf self.now name.now low.0) }
        ensures told { IfNone result ((n : ℕ) × (n < count_of self.now) × ((unit_at self.now n).digest ≡ name.now) × (is_seen self.now low.0 n ≡ true)) }
    {
        self.recall_graph();
        let Some(no) = self.find(name) else {
            return Some(0);
        };
        match self.known_below(no, low) {
            Some(true) => None,
            Some(false) => Some(0),
            None => Some(no.0),
        }
    }

    /// Whether `low` is below a unit with one of these names, by one walk from all of them at once. They come
    /// after it and not after the top.
    fn reaches_named(&self, names: &[Digest], low: UnitNo, top: u32, marked: &mut [bool]) -> bool
        requires known { low.0 < count_of self.now }
        requires below { low.0 < top }
        requires top { IsTopOfNamed self.now names.now low.0 top }
        requires room { HasRoomForNamed self.now names.now (length marked.old) }
        ensures { IsTrue result ↔ IsBelowSomeNamed self.now names.now low.0 }
    {
        self.recall_graph();
        clear(marked, low.0 as usize, top as usize);
        self.mark_observed_by_named(names, low, marked);
        self.walk(top, low, marked)
    }

    /// Marks the units that those with these names observe, from `low` on. It may pass over one that look-ups
    /// tell not to have `low` below it.
    fn mark_observed_by_named(&self, names: &[Digest], low: UnitNo, marked: &mut [bool])
        requires known { low.0 < count_of self.now }
        requires room { HasRoomForNamed self.now names.now (length marked.old) }
        ensures all { (n m : ℕ) → HasNameAmong self.now names.now n → is_seen self.now low.0 n ≡ true → Cites self.now n m → low.0 ≤ m → is_marked marked.new m ≡ true }
        ensures only { (m : ℕ) → is_marked marked.new m ≡ true → (is_marked marked.old m ≡ true) ⊎ ((n : ℕ) × HasNameAmong self.now names.now n × Cites self.now n m) }
    {
        self.recall_graph();
        for name in names {
            if let Some(no) = self.named_above(name, low) {
                self.mark_observed(no, low, marked);
            }
        }
    }

    /// The unit of this name, unless look-ups tell that it hasn't `low` below it.
    fn named_above(&self, name: &Digest, low: UnitNo) -> Option<UnitNo>
        requires known { low.0 < count_of self.now }
        ensures found { IfSome result (λ no. (no.0 < count_of self.now) × ((unit_at self.now no.0).digest ≡ name.now)) }
        ensures none { IfNone result ((n : ℕ) → n < count_of self.now → (unit_at self.now n).digest ≡ name.now → is_seen self.now low.0 n ≡ true → ⊥) }
    {
        self.recall_graph();
        let no = self.find(name)?;
        match self.known_below(no, low) {
            Some(false) => None,
            _ => Some(no),
        }
    }
}

// Whether a slot names the unit.
fn names_unit(slots: &[Slot], no: UnitNo) -> bool
    ensures named { IsTrue result → (slot : ℕ) × (view_at slots.now slot ≡ View.Correct no) }
    ensures none { result ≡ false → IsInNoSlot slots.now no.0 }
{
    for slot in slots {
        if slot.view() == View::Correct(no) {
            return true;
        }
    }
    false
}
