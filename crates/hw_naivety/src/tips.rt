//! The tips of noted units.

ghost use Rattle.std.specs.Prelude.{◌≡◌, ℕ, ◌+◌, ◌<◌, ◌≤◌, ◌≢◌, ◌^◌, ◌*◌, [], ◌==◌, if◌then◌else◌, None, Some, length, slice_index_or, slice_set, IsTrue, IfOk, IfErr, IfSome, OnOk};
ghost use Rattle.hw_dag.specs.{Dag.{view_at, count_of}, Slots.{HasCode}};
ghost use Rattle.hw_dag.specs.declared.numbers.View.TheVariants as view;
ghost use Rattle.hw_naivety.specs.Rows.{row_slot, with_slot};
ghost use Rattle.hw_naivety.specs.Tips.{IsNaiveTip, IsTip, IsSight, IsSightOf, HasRoom, HasLists, HasTips, IsRaisedOver, AreRows, IsRoomy, IsGrown, AreKept, IsRowKept, slot_tip, said_tip, placed_slot, tip_at};
ghost use Rattle.hw_naivety.specs.Shared.{HasPlace, IsSource, HavePlace, IsShared, StandsFor, place_seen};
ghost use Rattle.hw_naivety.specs.Heirs.{IsListed};
ghost use Rattle.hw_naivety.specs.Forks.{IsNaiveFork, IsForkless};

use crate::fork::NaiveFork;
use crate::heir::Listed;
use crate::rows::Rows;
use crate::shared::{Shared, Source, Span};
use crate::sight::Sight;
use hw_dag::{Marks, UnitNo, View};
use hw_types::OutOfMemory;
use std::alloc::Global;
use std::marker::Model;

/// The tips of noted units, and places and rows for more of them. Only a unit that marks somebody or endorses
/// something has a row: of any other one each tip is what it observes of that creator. Units for which the same
/// has to be said have one row, as mostly those have that mark the same.
#[derive(Drop)]
pub struct Tips {
    /// Of each unit 0 where it has no row, else one more than the row's number.
    places: Vec<u32>,
    /// How many rows are taken.
    taken: u32,
    rows: Rows,
}

impl Model for Tips {
    ghost use Rattle.hw_naivety.specs.Tips.{TipTable};

    ghost Value = { TipTable };

    ghost view = { λ tips. record { places = tips.places.items; taken = tips.taken; rows = tips.rows } };
}

/// A slot as a tip.
fn tip_of_slot(slot: View) -> Option<UnitNo>
    ensures { result ≡ slot_tip slot }
{
    match slot {
        View::Correct(last) => Some(last),
        View::Absent | View::Faulty => None,
    }
}

/// What a row says where the unit observes this and has that tip. Of a creator that the unit marks it says the tip
/// in any case, so that it says the same for all units with this tip.
fn said(observed: View, tip: Option<UnitNo>) -> View
    requires code { IfSome tip (λ no. no.0 + 2 < 2 ^ 32) }
    ensures said { said_tip observed result ≡ tip }
    ensures code { HasCode result }
{
    match tip {
        Some(no) if observed == View::Correct(no) => View::Absent,
        Some(no) => View::Correct(no),
        None if observed == View::Absent => View::Absent,
        None => View::Faulty,
    }
}

impl Tips {
    /// No places and no rows.
    pub fn new(alloc: Global, validators: u32) -> Tips
        ensures places { result.places ≡ [] }
        ensures taken { result.taken ≡ 0 }
        ensures validators { result.rows.validators ≡ validators }
    {
        Tips {
            places: Vec::new(alloc),
            taken: 0,
            rows: Rows::new(alloc, validators),
        }
    }

    /// Makes places and rows for so many units more than were noted, where there are fewer.
    pub fn grow(&mut self, noted: u32, more: u32) -> Result<(), OutOfMemory>
        requires roomy { IsRoomy self.old noted }
        requires fits { noted + more < 2 ^ 32 }
        ensures wanted { OnOk result (noted + more ≤ length self.new.places) }
        ensures grown { IsGrown (noted + more) self.old self.new }
        ensures rows { (validators : ℕ) → AreRows validators self.old → AreRows validators self.new }
        ensures roomy { IsRoomy self.new noted }
    {
        self.rows.grow(self.taken + more)?;
        let wanted = (noted + more) as usize;
        let length = wanted.max(self.places.len());
        self.places.resize(length, 0)?;
        Ok(())
    }

    /// What the row of this place says of the creator.
    fn says(&self, place: u32, creator: u32) -> View
        requires creator { creator < self.now.rows.validators }
        requires within { place ≤ self.now.taken }
        requires there { self.now.taken * self.now.rows.validators ≤ length self.now.rows.slots }
        ensures { result ≡ placed_slot self.now.rows creator place }
    {
        match place {
            0 => View::Absent,
            next => self.rows.get(next - 1, creator),
        }
    }

    /// The tip that is kept of a unit: from its row, or its slot where the row says nothing.
    fn at(&self, sight: &Sight<'_>, no: UnitNo, creator: u32) -> Option<UnitNo>
        requires sight { IsSight sight.now.dag.now sight.now.panorama.now sight.now.validators }
        requires creator { creator < sight.now.validators }
        requires rows { AreRows sight.now.validators self.now }
        requires known { no.0 < count_of sight.now.dag.now }
        requires noted { no.0 < length self.now.places }
        ensures { result ≡ tip_at sight.now.dag.now self.now no.0 creator }
    {
        match self.says(self.places[no.0 as usize], creator) {
            View::Absent => tip_of_slot(sight.dag.unit(no).panorama().get(creator)),
            View::Correct(tip) => Some(tip),
            View::Faulty => None,
        }
    }

    /// Puts what is said of the creator into the first row that isn't taken.
    fn put(&mut self, creator: u32, said: View)
        requires creator { creator < self.old.rows.validators }
        requires spare { (self.old.taken + 1) * self.old.rows.validators ≤ length self.old.rows.slots }
        requires code { HasCode said }
        ensures places { self.new.places ≡ self.old.places }
        ensures taken { self.new.taken ≡ self.old.taken }
        ensures rows { self.new.rows ≡ with_slot self.old.rows self.old.taken creator said }
    {
        self.rows.set(self.taken, creator, said);
    }

    /// Notes that the unit has the row of this place, or none.
    fn give(&mut self, no: UnitNo, place: u32)
        requires known { no.0 < length self.old.places }
        ensures places { self.new.places ≡ slice_set self.old.places no.0 place }
        ensures taken { self.new.taken ≡ self.old.taken }
        ensures rows { self.new.rows ≡ self.old.rows }
    {
        self.places[no.0 as usize] = place;
    }

    /// Notes that the first row that isn't taken is the unit's.
    fn take(&mut self, no: UnitNo)
        requires known { no.0 < length self.old.places }
        requires spare { (self.old.taken + 1) * self.old.rows.validators ≤ length self.old.rows.slots }
        requires fits { self.old.taken + 1 < 2 ^ 32 }
        ensures places { self.new.places ≡ slice_set self.old.places no.0 (self.old.taken + 1) }
        ensures taken { self.new.taken ≡ self.old.taken + 1 }
        ensures rows { self.new.rows ≡ self.old.rows }
    {
        self.taken += 1;
        self.places[no.0 as usize] = self.taken;
    }

    /// Keeps the first row that isn't taken as the unit's. Where the row of this place says the same, the unit has
    /// that one.
    fn keep_row(&mut self, no: UnitNo, place: u32)
        requires known { no.0 < length self.old.places }
        requires spare { (self.old.taken + 1) * self.old.rows.validators ≤ length self.old.rows.slots }
        requires fits { self.old.taken + 1 < 2 ^ 32 }
        requires within { place ≤ self.old.taken }
        ensures { IsRowKept self.old no.0 self.new }
    {
        if place > 0 && self.rows.is_same(place - 1, self.taken) {
            self.give(no, place);
        } else {
            self.take(no);
        }
    }

    /// The place of the row of the unit that is observed in the slot, or 0 where there is none.
    fn place_seen(&self, sight: &Sight<'_>, slot: u32) -> u32
        requires sight { IsSight sight.now.dag.now sight.now.panorama.now sight.now.validators }
        requires slot { slot < sight.now.validators }
        requires tips { HasTips sight.now.dag.now sight.now.panorama.now self.now }
        ensures { result ≡ place_seen self.now (view_at sight.now.panorama.now slot) }
    {
        match sight.panorama.get(slot) {
            View::Correct(cited) => self.places[cited.0 as usize],
            View::Absent | View::Faulty => 0,
        }
    }

    /// A slot whose unit has the latest row of all that the observed units have.
    fn newest(&self, sight: &Sight<'_>) -> Source
        requires sight { IsSight sight.now.dag.now sight.now.panorama.now sight.now.validators }
        requires rows { AreRows sight.now.validators self.now }
        requires tips { HasTips sight.now.dag.now sight.now.panorama.now self.now }
        ensures { IsSource sight.now.validators sight.now.panorama.now self.now result }
    {
        let mut source = Source { slot: 0, place: 0 };
        for slot in 0..sight.validators {
            let place = self.place_seen(sight, slot);
            if place > source.place {
                source = Source { slot, place };
            }
        }
        source
    }

    /// Whether the unit that is observed in the slot, if there is one, has the row of this place.
    fn has_place(&self, sight: &Sight<'_>, slot: u32, place: u32) -> bool
        requires sight { IsSight sight.now.dag.now sight.now.panorama.now sight.now.validators }
        requires slot { slot < sight.now.validators }
        requires tips { HasTips sight.now.dag.now sight.now.panorama.now self.now }
        ensures { IsTrue result → HasPlace sight.now.panorama.now self.now place slot }
    {
        match sight.panorama.get(slot) {
            View::Correct(cited) => self.places[cited.0 as usize] == place,
            View::Absent | View::Faulty => true,
        }
    }

    /// The span of the slots whose units haven't the row of this place.
    fn span_apart(&self, sight: &Sight<'_>, place: u32) -> Span
        requires sight { IsSight sight.now.dag.now sight.now.panorama.now sight.now.validators }
        requires tips { HasTips sight.now.dag.now sight.now.panorama.now self.now }
        ensures { HavePlace sight.now.validators sight.now.panorama.now self.now place result }
    {
        let mut first = sight.validators;
        let mut end = 0;
        for slot in 0..sight.validators {
            if !self.has_place(sight, slot, place) {
                first = first.min(slot);
                end = slot + 1;
            }
        }
        Span { first, end }
    }

    /// Which of the observed units have one row. Where no validator has two lanes nobody asks for it.
    pub fn shared(&self, sight: &Sight<'_>) -> Shared
        requires sight { IsSight sight.now.dag.now sight.now.panorama.now sight.now.validators }
        requires rows { AreRows sight.now.validators self.now }
        requires tips { HasTips sight.now.dag.now sight.now.panorama.now self.now }
        ensures { IsShared sight.now.validators sight.now.panorama.now self.now result }
    {
        if sight.dag.is_forked() {
            let source = self.newest(sight);
            let span = self.span_apart(sight, source.place);
            Shared { source, span }
        } else {
            let source = Source { slot: 0, place: 0 };
            let span = Span {
                first: 0,
                end: sight.validators,
            };
            Shared { source, span }
        }
    }

    /// The slots whose units have to be looked at for the tip of the creator. Where the creator is marked and the
    /// row that is shared says its tip, the unit of the source stands for those of all other slots.
    fn span_for(&self, sight: &Sight<'_>, creator: u32, shared: &Shared) -> Span
        requires sight { IsSight sight.now.dag.now sight.now.panorama.now sight.now.validators }
        requires creator { creator < sight.now.validators }
        requires rows { AreRows sight.now.validators self.now }
        requires shared { IsShared sight.now.validators sight.now.panorama.now self.now shared.now }
        ensures { StandsFor sight.now.validators sight.now.dag.now sight.now.panorama.now self.now creator shared.now.source.slot result }
    {
        match sight.panorama.get(creator) {
            View::Faulty if self.says(shared.source.place, creator) != View::Absent => shared.span,
            _ => Span {
                first: 0,
                end: sight.validators,
            },
        }
    }

    /// The unit on whose lane all naive units are that the observed unit is or has below it.
    fn candidate(&self, sight: &Sight<'_>, creator: u32, slot: u32, cited: UnitNo) -> Option<UnitNo>
        requires sight { IsSight sight.now.dag.now sight.now.panorama.now sight.now.validators }
        requires creator { creator < sight.now.validators }
        requires rows { AreRows sight.now.validators self.now }
        requires known { cited.0 < count_of sight.now.dag.now }
        requires noted { cited.0 < length self.now.places }
        ensures { result ≡ (if slot == creator then Some cited else tip_at sight.now.dag.now self.now cited.0 creator) }
    {
        if slot == creator {
            Some(cited)
        } else {
            self.at(sight, cited, creator)
        }
    }

    /// The tip that stands for what the observed unit is or has below it too, or a fork.
    fn raise_over(
        &self,
        sight: &Sight<'_>,
        creator: u32,
        slot: u32,
        tip: Option<UnitNo>,
        listed: &Listed,
        marks: &mut Marks,
    ) -> Result<Option<UnitNo>, NaiveFork>
        requires sight { IsSight sight.now.dag.now sight.now.panorama.now sight.now.validators }
        requires room { HasRoom sight.now.panorama.now marks.old }
        requires creator { creator < sight.now.validators }
        requires slot { slot < sight.now.validators }
        requires rows { AreRows sight.now.validators self.now }
        requires tips { HasTips sight.now.dag.now sight.now.panorama.now self.now }
        requires lists { HasLists sight.now.dag.now sight.now.panorama.now sight.now.endorsed.now }
        requires listed { IsListed sight.now.dag.now sight.now.panorama.now sight.now.endorsed.now listed.now }
        requires tip { IsNaiveTip sight.now.dag.now sight.now.panorama.now sight.now.endorsed.now creator tip }
        ensures raised { IfOk result (IsRaisedOver sight.now.dag.now sight.now.panorama.now sight.now.endorsed.now creator slot tip) }
        ensures fork { IfErr result (IsNaiveFork sight.now.dag.now sight.now.panorama.now sight.now.endorsed.now creator) }
        ensures room { marks.new ≡ marks.old }
    {
        let View::Correct(cited) = sight.panorama.get(slot) else {
            return Ok(tip);
        };
        match self.candidate(sight, creator, slot, cited) {
            Some(candidate) => sight.raise(creator, tip, candidate, listed, marks),
            None => Ok(tip),
        }
    }

    /// The tip of the observed units' tips, or a fork of the creator.
    pub fn tip_over(
        &self,
        sight: &Sight<'_>,
        creator: u32,
        shared: &Shared,
        listed: &Listed,
        marks: &mut Marks,
    ) -> Result<Option<UnitNo>, NaiveFork>
        requires sight { IsSight sight.now.dag.now sight.now.panorama.now sight.now.validators }
        requires room { HasRoom sight.now.panorama.now marks.old }
        requires creator { creator < sight.now.validators }
        requires rows { AreRows sight.now.validators self.now }
        requires tips { HasTips sight.now.dag.now sight.now.panorama.now self.now }
        requires lists { HasLists sight.now.dag.now sight.now.panorama.now sight.now.endorsed.now }
        requires shared { IsShared sight.now.validators sight.now.panorama.now self.now shared.now }
        requires listed { IsListed sight.now.dag.now sight.now.panorama.now sight.now.endorsed.now listed.now }
        ensures tip { IfOk result (IsTip sight.now.dag.now sight.now.panorama.now sight.now.endorsed.now creator) }
        ensures fork { IfErr result (IsNaiveFork sight.now.dag.now sight.now.panorama.now sight.now.endorsed.now creator) }
        ensures room { marks.new ≡ marks.old }
    {
        let span = self.span_for(sight, creator, shared);
        let mut tip = self.raise_over(sight, creator, shared.source.slot, None, listed, marks)?;
        for slot in span.first..span.end {
            tip = self.raise_over(sight, creator, slot, tip, listed, marks)?;
        }
        Ok(tip)
    }

    /// The tip of a creator of whom a settled unit observes this one: all that it has below it of the creator is
    /// on that one's lane. Where its creator's previous unit observed the same one, under the same list, that
    /// unit's tip is taken over.
    fn tip_on(
        &self,
        sight: &Sight<'_>,
        no: UnitNo,
        creator: u32,
        last: UnitNo,
        listed: &Listed,
        marks: &mut Marks,
    ) -> Option<UnitNo>
        requires sight { IsSight sight.now.dag.now sight.now.panorama.now sight.now.validators }
        requires unit { IsSightOf sight.now.dag.now no.0 sight.now.panorama.now sight.now.endorsed.now }
        requires room { HasRoom sight.now.panorama.now marks.old }
        requires creator { creator < sight.now.validators }
        requires rows { AreRows sight.now.validators self.now }
        requires tips { HasTips sight.now.dag.now sight.now.panorama.now self.now }
        requires lists { HasLists sight.now.dag.now sight.now.panorama.now sight.now.endorsed.now }
        requires listed { IsListed sight.now.dag.now sight.now.panorama.now sight.now.endorsed.now listed.now }
        requires last { view_at sight.now.panorama.now creator ≡ view.Correct last }
        ensures tip { IsTip sight.now.dag.now sight.now.panorama.now sight.now.endorsed.now creator result }
        ensures room { marks.new ≡ marks.old }
    {
        match listed.heir {
            Some(before) if sight.is_seen_by(last, creator, before) => self.at(
                sight, before, creator,
            ),
            _ if sight.is_covered(last, listed, marks) => None,
            _ => Some(last),
        }
    }

    /// The tip of a settled unit that has no fork.
    fn tip_of(
        &self,
        sight: &Sight<'_>,
        no: UnitNo,
        creator: u32,
        shared: &Shared,
        listed: &Listed,
        marks: &mut Marks,
    ) -> Option<UnitNo>
        requires sight { IsSight sight.now.dag.now sight.now.panorama.now sight.now.validators }
        requires unit { IsSightOf sight.now.dag.now no.0 sight.now.panorama.now sight.now.endorsed.now }
        requires room { HasRoom sight.now.panorama.now marks.old }
        requires creator { creator < sight.now.validators }
        requires rows { AreRows sight.now.validators self.now }
        requires tips { HasTips sight.now.dag.now sight.now.panorama.now self.now }
        requires lists { HasLists sight.now.dag.now sight.now.panorama.now sight.now.endorsed.now }
        requires forkless { IsForkless sight.now.dag.now sight.now.panorama.now sight.now.endorsed.now }
        requires shared { IsShared sight.now.validators sight.now.panorama.now self.now shared.now }
        requires listed { IsListed sight.now.dag.now sight.now.panorama.now sight.now.endorsed.now listed.now }
        ensures tip { IsTip sight.now.dag.now sight.now.panorama.now sight.now.endorsed.now creator result }
        ensures room { marks.new ≡ marks.old }
    {
        match sight.panorama.get(creator) {
            View::Absent => None,
            View::Correct(last) => self.tip_on(sight, no, creator, last, listed, marks),
            View::Faulty => match self.tip_over(sight, creator, shared, listed, marks) {
                Ok(tip) => tip,
                Err(_) => unreachable!(),
            },
        }
    }

    /// Puts the tips of a settled unit that has no fork into the first row that isn't taken.
    fn fill_row(&mut self, sight: &Sight<'_>, no: UnitNo, shared: &Shared, marks: &mut Marks)
        requires sight { IsSight sight.now.dag.now sight.now.panorama.now sight.now.validators }
        requires unit { IsSightOf sight.now.dag.now no.0 sight.now.panorama.now sight.now.endorsed.now }
        requires room { HasRoom sight.now.panorama.now marks.old }
        requires rows { AreRows sight.now.validators self.old }
        requires spare { (self.old.taken + 1) * self.old.rows.validators ≤ length self.old.rows.slots }
        requires tips { HasTips sight.now.dag.now sight.now.panorama.now self.old }
        requires lists { HasLists sight.now.dag.now sight.now.panorama.now sight.now.endorsed.now }
        requires forkless { IsForkless sight.now.dag.now sight.now.panorama.now sight.now.endorsed.now }
        requires shared { IsShared sight.now.validators sight.now.panorama.now self.old shared.now }
        ensures filled { (creator : ℕ) → creator < sight.now.validators → IsTip sight.now.dag.now sight.now.panorama.now sight.now.endorsed.now creator (said_tip (view_at sight.now.panorama.now creator) (row_slot self.new.rows self.new.taken creator)) }
        ensures kept { AreKept self.old self.new }
        ensures room { marks.new ≡ marks.old }
    {
        let own = sight.dag.unit(no).signed().unit.creator;
        let listed = sight.listed(own, marks);
        for creator in 0..sight.validators {
            let tip = self.tip_of(sight, no, creator, shared, &listed, marks);
            self.put(creator, said(sight.panorama.get(creator), tip));
        }
    }

    /// Keeps the tips of a settled unit that has no fork.
    pub fn fill(&mut self, sight: &Sight<'_>, no: UnitNo, marks: &mut Marks)
        requires sight { IsSight sight.now.dag.now sight.now.panorama.now sight.now.validators }
        requires unit { IsSightOf sight.now.dag.now no.0 sight.now.panorama.now sight.now.endorsed.now }
        requires room { HasRoom sight.now.panorama.now marks.old }
        requires known { no.0 < length self.old.places }
        requires rows { AreRows sight.now.validators self.old }
        requires roomy { IsRoomy self.old no.0 }
        requires tips { HasTips sight.now.dag.now sight.now.panorama.now self.old }
        requires lists { HasLists sight.now.dag.now sight.now.panorama.now sight.now.endorsed.now }
        requires forkless { IsForkless sight.now.dag.now sight.now.panorama.now sight.now.endorsed.now }
        ensures filled { (creator : ℕ) → creator < sight.now.validators → IsTip sight.now.dag.now sight.now.panorama.now sight.now.endorsed.now creator (tip_at sight.now.dag.now self.new no.0 creator) }
        ensures kept { (n creator : ℕ) → n ≢ no.0 → creator < sight.now.validators → tip_at sight.now.dag.now self.new n creator ≡ tip_at sight.now.dag.now self.old n creator }
        ensures rows { AreRows sight.now.validators self.new }
        ensures roomy { IsRoomy self.new (no.0 + 1) }
        ensures length { length self.new.places ≡ length self.old.places }
        ensures room { marks.new ≡ marks.old }
    {
        if sight.is_plain() {
            self.give(no, 0);
        } else {
            let shared = self.shared(sight);
            self.fill_row(sight, no, &shared, marks);
            self.keep_row(no, shared.source.place);
        }
    }
}
