//! What a unit has below it, and which of it is naive.

ghost use Rattle.std.specs.Prelude.{◌≡◌, ◌<◌, ◌≤◌, ◌↔◌, Some, IsTrue, IfOk, IfErr};
ghost use Rattle.hw_dag.specs.Dag.{unit_at, count_of, creator_of};
ghost use Rattle.hw_naivety.specs.Tips.{IsBelow, IsBelowNamed, IsBelowEndorsed, IsNaiveTip, IsSight, IsEndOfList, IsPlain, HasRoom, IsRaised};
ghost use Rattle.hw_naivety.specs.Forks.{IsNaiveFork};
ghost use Rattle.hw_naivety.specs.Heirs.{HasListBelow, IsListed};

use crate::fork::NaiveFork;
use crate::heir::Listed;
use hw_dag::{Dag, Marks, Panorama, UnitNo, View};
use hw_types::Digest;

/// What a unit of a graph observes, and the units that it endorses.
#[derive(Drop)]
pub struct Sight<'a> {
    pub dag: &'a Dag,
    pub panorama: &'a Panorama,
    pub endorsed: &'a [Digest],
    pub validators: u32,
}

impl Sight<'_> {
    /// Whether the unit marks nobody and endorses nothing, as mostly. Then the tip of each creator is what the
    /// unit observes of it.
    pub fn is_plain(&self) -> bool
        requires { IsSight self.now.dag.now self.now.panorama.now self.now.validators }
        ensures { IsTrue result → IsPlain self.now.panorama.now self.now.endorsed.now }
    {
        for slot in self.panorama.views() {
            if let View::Faulty = slot.view() {
                return false;
            }
        }
        self.endorsed.is_empty()
    }

    /// Whether the unit has another one strictly below it.
    pub fn has_below(&self, no: UnitNo, marks: &mut Marks) -> bool
        requires sight { IsSight self.now.dag.now self.now.panorama.now self.now.validators }
        requires known { no.0 < count_of self.now.dag.now }
        requires room { HasRoom self.now.panorama.now marks.old }
        ensures below { IsTrue result ↔ IsBelow self.now.dag.now self.now.panorama.now no.0 }
        ensures room { marks.new ≡ marks.old }
    {
        self.has_on_lane(no) || self.dag.is_below_any(self.panorama, no, marks)
    }

    /// Whether another one is on the lane of the unit that it observes of the same creator, as units below
    /// mostly are.
    fn has_on_lane(&self, no: UnitNo) -> bool
        requires sight { IsSight self.now.dag.now self.now.panorama.now self.now.validators }
        requires known { no.0 < count_of self.now.dag.now }
        ensures { IsTrue result → IsBelow self.now.dag.now self.now.panorama.now no.0 }
    {
        let creator = self.dag.unit(no).signed().unit.creator;
        match self.panorama.get(creator) {
            View::Correct(cited) => self.dag.on_lane(no, cited),
            View::Absent | View::Faulty => false,
        }
    }

    /// Whether another one is below the unit of this name, which is looked up among the units below.
    fn is_below_named(&self, name: &Digest, no: UnitNo, marks: &mut Marks) -> bool
        requires sight { IsSight self.now.dag.now self.now.panorama.now self.now.validators }
        requires known { no.0 < count_of self.now.dag.now }
        requires room { HasRoom self.now.panorama.now marks.old }
        ensures below { IsTrue result ↔ IsBelowNamed self.now.dag.now self.now.panorama.now name.now no.0 }
        ensures room { marks.new ≡ marks.old }
    {
        let Some(named) = self.dag.find(name) else {
            return false;
        };
        self.has_below(named, marks) && self.dag.sees(named, no, marks)
    }

    /// `is_covered`, where all of the list is below.
    fn is_below_whole(&self, no: UnitNo, listed: &Listed, marks: &mut Marks) -> bool
        requires sight { IsSight self.now.dag.now self.now.panorama.now self.now.validators }
        requires known { no.0 < count_of self.now.dag.now }
        requires room { HasRoom self.now.panorama.now marks.old }
        requires listed { IsListed self.now.dag.now self.now.panorama.now self.now.endorsed.now listed.now }
        requires below { HasListBelow self.now.dag.now self.now.panorama.now self.now.endorsed.now }
        ensures below { IsTrue result ↔ IsBelowEndorsed self.now.dag.now self.now.panorama.now self.now.endorsed.now no.0 }
        ensures room { marks.new ≡ marks.old }
    {
        match listed.only {
            Some(only) => self.dag.sees(only, no, marks),
            None => self.dag.is_below_named(self.endorsed, no, marks),
        }
    }

    /// `is_covered`, name by name.
    fn is_below_one_by_one(&self, no: UnitNo, marks: &mut Marks) -> bool
        requires sight { IsSight self.now.dag.now self.now.panorama.now self.now.validators }
        requires known { no.0 < count_of self.now.dag.now }
        requires room { HasRoom self.now.panorama.now marks.old }
        ensures below { IsTrue result ↔ IsBelowEndorsed self.now.dag.now self.now.panorama.now self.now.endorsed.now no.0 }
        ensures room { marks.new ≡ marks.old }
    {
        for name in self.endorsed {
            if self.is_below_named(name, no, marks) {
                return true;
            }
        }
        false
    }

    /// One more than the greatest number of a unit of the endorsed list, or 0 where no unit of it is there.
    pub fn end_of_list(&self) -> u32
        requires { IsSight self.now.dag.now self.now.panorama.now self.now.validators }
        ensures { IsEndOfList self.now.dag.now self.now.endorsed.now result }
    {
        let mut end = 0;
        for name in self.endorsed {
            if let Some(no) = self.dag.find(name) {
                end = end.max(no.0 + 1);
            }
        }
        end
    }

    /// Whether another one is below a unit of the endorsed list. A unit from the end of the list on is below none
    /// of it. Where all of the list is known to be below, one walk at most tells of all names together.
    pub fn is_covered(&self, no: UnitNo, listed: &Listed, marks: &mut Marks) -> bool
        requires sight { IsSight self.now.dag.now self.now.panorama.now self.now.validators }
        requires known { no.0 < count_of self.now.dag.now }
        requires room { HasRoom self.now.panorama.now marks.old }
        requires listed { IsListed self.now.dag.now self.now.panorama.now self.now.endorsed.now listed.now }
        ensures below { IsTrue result ↔ IsBelowEndorsed self.now.dag.now self.now.panorama.now self.now.endorsed.now no.0 }
        ensures room { marks.new ≡ marks.old }
    {
        if no.0 >= listed.end {
            false
        } else if listed.is_below {
            self.is_below_whole(no, listed, marks)
        } else {
            self.is_below_one_by_one(no, marks)
        }
    }

    /// The tip that stands for the candidate's lane too, or the fork that the two are.
    pub fn raise(
        &self,
        creator: u32,
        tip: Option<UnitNo>,
        candidate: UnitNo,
        listed: &Listed,
        marks: &mut Marks,
    ) -> Result<Option<UnitNo>, NaiveFork>
        requires sight { IsSight self.now.dag.now self.now.panorama.now self.now.validators }
        requires room { HasRoom self.now.panorama.now marks.old }
        requires listed { IsListed self.now.dag.now self.now.panorama.now self.now.endorsed.now listed.now }
        requires tip { IsNaiveTip self.now.dag.now self.now.panorama.now self.now.endorsed.now creator tip }
        requires known { candidate.0 < count_of self.now.dag.now }
        requires creator { creator_of (unit_at self.now.dag.now candidate.0) ≡ creator }
        requires below { IsBelow self.now.dag.now self.now.panorama.now candidate.0 }
        ensures raised { IfOk result (IsRaised self.now.dag.now self.now.panorama.now self.now.endorsed.now creator tip (Some candidate)) }
        ensures fork { IfErr result (IsNaiveFork self.now.dag.now self.now.panorama.now self.now.endorsed.now creator) }
        ensures room { marks.new ≡ marks.old }
    {
        let Some(low) = tip else {
            return if self.is_covered(candidate, listed, marks) {
                Ok(None)
            } else {
                Ok(Some(candidate))
            };
        };
        if self.dag.on_lane(candidate, low) || self.is_covered(candidate, listed, marks) {
            return Ok(tip);
        }
        if self.dag.on_lane(low, candidate) {
            Ok(Some(candidate))
        } else {
            Err(NaiveFork {
                creator,
                left: low,
                right: candidate,
            })
        }
    }
}
