//! What a unit takes over from its creator's previous one.

ghost use Rattle.std.specs.Prelude.{◌≡◌, ◌<◌, ◌≤◌, IsTrue, IfSome};
ghost use Rattle.hw_dag.specs.Dag.{count_of, unit_at, view_at};
ghost use Rattle.hw_dag.specs.declared.numbers.View.TheVariants as view;
ghost use Rattle.hw_naivety.specs.{Tips.{IsSight, HasRoom}, Heirs.{HasListBelow, IsBequeathed, IsListed, IsOnly}};

use crate::sight::Sight;
use hw_dag::{Marks, UnitNo, View};

/// What is known of an endorsed list before the slots of its unit are gone through.
#[derive(Clone, Copy, Debug, PartialEq, Eq)]
pub struct Listed {
    /// One more than the greatest number of a unit of the list, or 0 where no unit of it is there.
    pub end: u32,
    /// The unit of the list, where the list has one name and a unit of that name is there. Mostly a list that units
    /// carry on has one name, which then isn't looked up for each slot.
    pub only: Option<UnitNo>,
    /// The creator's previous unit, where it has the same list and all of it below.
    pub heir: Option<UnitNo>,
    /// Whether all of the list is known to be below.
    pub is_below: bool,
}

impl Sight<'_> {
    /// What is known of the list of the creator's unit.
    pub fn listed(&self, creator: u32, marks: &mut Marks) -> Listed
        requires sight { IsSight self.now.dag.now self.now.panorama.now self.now.validators }
        requires creator { creator < self.now.validators }
        requires room { HasRoom self.now.panorama.now marks.old }
        ensures listed { IsListed self.now.dag.now self.now.panorama.now self.now.endorsed.now result }
        ensures room { marks.new ≡ marks.old }
    {
        let heir = self.heir(creator, marks);
        Listed {
            end: self.end_of_list(),
            only: self.only(),
            heir,
            is_below: heir.is_some() || self.has_list(marks),
        }
    }

    /// What is known of a list where nothing is taken over. Nobody asks unless some validator's units may be on two
    /// lanes, so else the list isn't gone through.
    pub fn listed_alone(&self, marks: &mut Marks) -> Listed
        requires sight { IsSight self.now.dag.now self.now.panorama.now self.now.validators }
        requires room { HasRoom self.now.panorama.now marks.old }
        ensures listed { IsListed self.now.dag.now self.now.panorama.now self.now.endorsed.now result }
        ensures room { marks.new ≡ marks.old }
    {
        if self.dag.is_forked() {
            Listed {
                end: self.end_of_list(),
                only: self.only(),
                heir: None,
                is_below: self.has_list(marks),
            }
        } else {
            Listed {
                end: self.dag.count(),
                only: None,
                heir: None,
                is_below: false,
            }
        }
    }

    /// The unit of the list, where the list has one name and a unit of that name is there.
    fn only(&self) -> Option<UnitNo>
        requires sight { IsSight self.now.dag.now self.now.panorama.now self.now.validators }
        ensures only { IfSome result (IsOnly self.now.dag.now self.now.endorsed.now) }
    {
        match self.endorsed {
            [name] => self.dag.find(name),
            _ => None,
        }
    }

    /// Whether the other unit observes this one of the creator.
    pub fn is_seen_by(&self, last: UnitNo, creator: u32, other: UnitNo) -> bool
        requires sight { IsSight self.now.dag.now self.now.panorama.now self.now.validators }
        requires known { other.0 < count_of self.now.dag.now }
        requires creator { creator < self.now.validators }
        ensures { IsTrue result → (view_at (unit_at self.now.dag.now other.0).panorama creator ≡ view.Correct last) }
    {
        self.dag.unit(other).panorama().get(creator) == View::Correct(last)
    }

    /// Whether each name of the endorsed list is that of a unit below. Names that look-ups don't tell of are told
    /// by one walk together.
    fn has_list(&self, marks: &mut Marks) -> bool
        requires sight { IsSight self.now.dag.now self.now.panorama.now self.now.validators }
        requires room { HasRoom self.now.panorama.now marks.old }
        ensures below { IsTrue result → HasListBelow self.now.dag.now self.now.panorama.now self.now.endorsed.now }
        ensures room { marks.new ≡ marks.old }
    {
        self.dag.has_all_below(self.panorama, self.endorsed, marks)
    }

    /// The creator's previous unit, where it has the same endorsed list and all of it below. Then the tip of
    /// each slot that the two have in common is taken over, and the list isn't gone through for it again.
    fn heir(&self, creator: u32, marks: &mut Marks) -> Option<UnitNo>
        requires sight { IsSight self.now.dag.now self.now.panorama.now self.now.validators }
        requires creator { creator < self.now.validators }
        requires room { HasRoom self.now.panorama.now marks.old }
        ensures heir { IfSome result (IsBequeathed self.now.dag.now self.now.panorama.now self.now.endorsed.now) }
        ensures room { marks.new ≡ marks.old }
    {
        let View::Correct(last) = self.panorama.get(creator) else {
            return None;
        };
        let unit = self.dag.unit(last);
        let endorsed = unit.signed().unit.endorsed.as_slice();
        let before = Sight {
            dag: self.dag,
            panorama: unit.panorama(),
            endorsed,
            validators: self.validators,
        };
        if endorsed == self.endorsed && before.has_list(marks) {
            Some(last)
        } else {
            None
        }
    }
}
