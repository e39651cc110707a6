//! What is kept of settled units to find naive forks.

ghost use Rattle.std.specs.Prelude.{◌≡◌, ℕ, ◌+◌, ◌<◌, ◌≤◌, ◌↔◌, true, false, length, OnOk, IfOk, IfSome, IsNone};
ghost use Rattle.hw_types.specs.Graph.{Node, is_consistent};
ghost use Rattle.hw_dag.specs.declared.numbers.View.TheVariants as view;
ghost use Rattle.hw_dag.specs.Dag.{UnitGraph, graph, count_of, node_at, view_at, observations, IsPanorama};
ghost use Rattle.hw_dag.specs.Admission.{IsGraph, IsResolved, node_prepared};
ghost use Rattle.hw_naivety.specs.{Naivety.{KeepsEndorsed, HasNoNaiveFork, HasSight, IsLeastNaiveFork, IsNoted}, Tips.{HasLists, LanesAre}};

use crate::fork::NaiveFork;
use crate::sight::Sight;
use crate::tips::Tips;
use hw_dag::{Dag, Marks, Panorama, Prepared, UnitNo, View};
use hw_types::{Digest, OutOfMemory};
use std::alloc::Global;
use std::marker::Model;

/// What is kept of settled units to find naive forks: the tips of each that marks somebody or endorses
/// something; those of another one are read off its panorama. Of each validator it keeps the lane that all
/// its noted units are on, or Faulty where they aren't on one.
#[derive(Drop)]
pub struct Naivety {
    validators: u32,
    count: u32,
    tips: Tips,
    lanes: Panorama,
    marks: Marks,
}

impl Model for Naivety {
    ghost use Rattle.std.specs.Prelude.{◌≡◌, ◌-◌, ◌≤◌, length};
    ghost use Rattle.hw_naivety.specs.{Naivety.{NaiveTips}, Tips.{AreRows, IsRoomy}};

    ghost Value = { NaiveTips };

    ghost view = { λ n. record {
      validators = n.validators;
      spare = length n.tips.places - n.count;
      count = n.count;
      tips = n.tips;
      lanes = n.lanes;
    } };

    ghost invariant = { λ n. AreRows n.validators n.tips × IsRoomy n.tips n.count × (length n.tips.places ≤ n.marks) × (length n.lanes ≡ n.validators) };
}

impl Naivety {
    /// Nothing was noted so far, of a graph of so many validators.
    pub fn new(alloc: Global, validators: u32) -> Result<Naivety, OutOfMemory>
        ensures none { IfOk result (λ naivety. naivety.count ≡ 0) }
        ensures validators { IfOk result (λ naivety. naivety.validators ≡ validators) }
        ensures noted { IfOk result (λ naivety. (dag : UnitGraph) → dag.validators ≡ validators → IsNoted naivety dag) }
    {
        Ok(Naivety {
            validators,
            count: 0,
            tips: Tips::new(alloc, validators),
            lanes: Panorama::new(alloc, validators)?,
            marks: Marks::new(alloc),
        })
    }

    /// Makes room for at least `count` more units, even if each of them has a row of tips. What was noted stays,
    /// and the room never shrinks. Units without a row use up none of the rows.
    pub fn reserve(&mut self, count: u32) -> Result<(), OutOfMemory>
        ensures room { OnOk result (count ≤ self.new.spare) }
        ensures kept { self.old.spare ≤ self.new.spare }
        ensures count { self.new.count ≡ self.old.count }
        ensures validators { self.new.validators ≡ self.old.validators }
        ensures noted { (dag : UnitGraph) → IsNoted self.old dag → IsNoted self.new dag }
    {
        // Units have numbers below 2^32, so no graph has more of them.
        let wanted = self.count.checked_add(count).ok_or(OutOfMemory)?;
        self.marks.reserve(wanted)?;
        self.tips.grow(self.count, count)
    }

    /// None where any two naive units of one creator are comparable, else two of the least creator that
    /// aren't. The unit's endorsed list has those of the units that it cites.
    pub fn check(&self, dag: &Dag, prepared: &Prepared, marks: &mut Marks) -> Option<NaiveFork>
        requires noted { IsNoted self.now dag.now }
        requires all { self.now.count ≡ count_of dag.now }
        requires resolved { IsResolved dag.now prepared.now }
        requires panorama { IsPanorama dag.now prepared.now.panorama }
        requires endorsed { KeepsEndorsed (graph dag.now) (node_prepared prepared.now) }
        requires room { count_of dag.now ≤ marks.old }
        ensures none { IsNone result ↔ HasNoNaiveFork (graph dag.now) (node_prepared prepared.now) }
        ensures least { IfSome result (λ fork. IsLeastNaiveFork dag.now (node_prepared prepared.now) fork) }
        ensures room { marks.new ≡ marks.old }
    {
        dag.recall_graph();
        let endorsed = prepared.signed().unit.endorsed.as_slice();
        self.check_over(dag, prepared.panorama(), endorsed, marks)
    }

    /// What `check` answers for each unit with this panorama and this endorsed list. The list has those of
    /// the units that the panorama cites. Only creators whose noted units aren't on one lane are looked at.
    pub fn check_over(
        &self,
        dag: &Dag,
        panorama: &Panorama,
        endorsed: &[Digest],
        marks: &mut Marks,
    ) -> Option<NaiveFork>
        requires noted { IsNoted self.now dag.now }
        requires all { self.now.count ≡ count_of dag.now }
        requires panorama { IsPanorama dag.now panorama.now }
        requires lists { HasLists dag.now panorama.now endorsed.now }
        requires room { count_of dag.now ≤ marks.old }
        ensures none { (u : Node) → HasSight dag.now panorama.now endorsed.now u → (IsNone result ↔ HasNoNaiveFork (graph dag.now) u) }
        ensures least { (u : Node) → HasSight dag.now panorama.now endorsed.now u → IfSome result (λ fork. IsLeastNaiveFork dag.now u fork) }
        ensures room { marks.new ≡ marks.old }
    {
        dag.recall_graph();
        let sight = Sight {
            dag,
            panorama,
            endorsed,
            validators: self.validators,
        };
        let listed = sight.listed_alone(marks);
        let shared = self.tips.shared(&sight);
        for creator in 0..self.validators {
            if let View::Faulty = self.lanes.get(creator) {
                if let Err(fork) = self.tips.tip_over(&sight, creator, &shared, &listed, marks) {
                    return Some(fork);
                }
            }
        }
        None
    }

    /// What `check` answers of a unit whose panorama is consistent: all that is below it of a creator that it doesn't
    /// mark is on the lane of the unit that it observes. So only creators that it marks are looked at.
    pub fn check_consistent(
        &self,
        dag: &Dag,
        prepared: &Prepared,
        marks: &mut Marks,
    ) -> Option<NaiveFork>
        requires noted { IsNoted self.now dag.now }
        requires all { self.now.count ≡ count_of dag.now }
        requires resolved { IsResolved dag.now prepared.now }
        requires panorama { IsPanorama dag.now prepared.now.panorama }
        requires consistent { is_consistent (graph dag.now) prepared.now.signed.unit.panorama ≡ true }
        requires endorsed { KeepsEndorsed (graph dag.now) (node_prepared prepared.now) }
        requires room { count_of dag.now ≤ marks.old }
        ensures none { IsNone result ↔ HasNoNaiveFork (graph dag.now) (node_prepared prepared.now) }
        ensures least { IfSome result (λ fork. IsLeastNaiveFork dag.now (node_prepared prepared.now) fork) }
        ensures room { marks.new ≡ marks.old }
    {
        dag.recall_graph();
        let endorsed = prepared.signed().unit.endorsed.as_slice();
        self.check_marked(dag, prepared.panorama(), endorsed, marks)
    }

    /// What `check_over` answers for a consistent panorama. Only creators that it marks are looked at.
    fn check_marked(
        &self,
        dag: &Dag,
        panorama: &Panorama,
        endorsed: &[Digest],
        marks: &mut Marks,
    ) -> Option<NaiveFork>
        requires noted { IsNoted self.now dag.now }
        requires all { self.now.count ≡ count_of dag.now }
        requires panorama { IsPanorama dag.now panorama.now }
        requires consistent { is_consistent (graph dag.now) (observations dag.now panorama.now) ≡ true }
        requires lists { HasLists dag.now panorama.now endorsed.now }
        requires room { count_of dag.now ≤ marks.old }
        ensures none { (u : Node) → HasSight dag.now panorama.now endorsed.now u → (IsNone result ↔ HasNoNaiveFork (graph dag.now) u) }
        ensures least { (u : Node) → HasSight dag.now panorama.now endorsed.now u → IfSome result (λ fork. IsLeastNaiveFork dag.now u fork) }
        ensures room { marks.new ≡ marks.old }
    {
        dag.recall_graph();
        let sight = Sight {
            dag,
            panorama,
            endorsed,
            validators: self.validators,
        };
        let listed = sight.listed_alone(marks);
        let shared = self.tips.shared(&sight);
        for creator in 0..self.validators {
            if !may_fork(&self.lanes, panorama, creator) {
                continue;
            }
            if let Err(fork) = self.tips.tip_over(&sight, creator, &shared, &listed, marks) {
                return Some(fork);
            }
        }
        None
    }

    /// Follows an admission: the unit is the first that wasn't noted. It keeps the rules of endorsed lists
    /// and of naive forks.
    pub fn note(&mut self, dag: &Dag, no: UnitNo)
        requires spare { 1 ≤ self.old.spare }
        requires noted { IsNoted self.old dag.now }
        requires next { self.old.count ≡ no.0 }
        requires known { no.0 < count_of dag.now }
        requires endorsed { KeepsEndorsed (graph dag.now) (node_at dag.now no.0) }
        requires forkless { HasNoNaiveFork (graph dag.now) (node_at dag.now no.0) }
        ensures noted { IsNoted self.new dag.now }
        ensures count { self.new.count ≡ self.old.count + 1 }
        ensures spare { self.new.spare + 1 ≡ self.old.spare }
    {
        dag.recall_graph();
        let unit = dag.unit(no);
        let sight = Sight {
            dag,
            panorama: unit.panorama(),
            endorsed: unit.signed().unit.endorsed.as_slice(),
            validators: self.validators,
        };
        self.tips.fill(&sight, no, &mut self.marks);
        follow(&mut self.lanes, dag, no);
        self.count += 1;
    }
}

/// Whether the creator's noted units aren't on one lane, and the panorama marks it.
fn may_fork(lanes: &Panorama, panorama: &Panorama, creator: u32) -> bool
    requires noted { creator < length lanes.now }
    requires observed { creator < length panorama.now }
    ensures { result ≡ false → view_at lanes.now creator ≡ view.Faulty → view_at panorama.now creator ≡ view.Faulty → ⊥ }
{
    matches!(
        (lanes.get(creator), panorama.get(creator)),
        (View::Faulty, View::Faulty)
    )
}

/// Takes a further unit into the lane of its creator.
fn follow(lanes: &mut Panorama, dag: &Dag, no: UnitNo)
    requires graph { IsGraph dag.now }
    requires known { no.0 < count_of dag.now }
    requires slots { length lanes.old ≡ dag.now.validators }
    requires lanes { LanesAre dag.now no.0 lanes.old }
    ensures lanes { LanesAre dag.now (no.0 + 1) lanes.new }
    ensures slots { length lanes.new ≡ length lanes.old }
{
    let creator = dag.unit(no).signed().unit.creator;
    let lane = match lanes.get(creator) {
        View::Absent => View::Correct(no),
        View::Correct(last) if dag.on_lane(last, no) => View::Correct(no),
        View::Correct(_) | View::Faulty => View::Faulty,
    };
    lanes.set(creator, lane);
}
