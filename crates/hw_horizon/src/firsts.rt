//! For each member the unit with which its start of the level below begins. Of two units of a lane the
//! one with the greater number comes later, so to see a member is to observe that unit or a greater
//! number, and no far unit is read.

ghost use Rattle.std.specs.Prelude.{◌≡◌, ℕ, ◌-◌, ◌^◌, ◌<◌, ◌↔◌, length, true, nat_le, slice_index_or, slice_set, IsTrue, IfOk};
ghost use Rattle.hw_dag.specs.{Dag.{count_of, unit_at, seq_of, IsPanorama}, Admission.{IsGraph}, Lanes.{is_lane_below}, declared.numbers.UnitNo.{UnitNo as Number}};
ghost use Rattle.hw_horizon.specs.Firsts.{AreFirsts, IsFirst, AreNumbers};

use crate::table::Table;
use hw_dag::{Dag, Panorama, UnitNo, View};
use hw_types::OutOfMemory;
use std::alloc::Global;
use std::marker::Model;

/// A number that no unit has.
pub const NO_UNIT: u32 = u32::MAX;

/// For each validator the number of a unit. Contracts see it as a list.
#[derive(Drop)]
pub struct Firsts {
    numbers: Vec<u32>,
}

impl Model for Firsts {
    ghost use Rattle.std.specs.Prelude.{List, ℕ};

    ghost Value = { List ℕ };

    ghost view = { λ f. f.numbers.items };

    ghost use Rattle.hw_horizon.specs.Firsts.{AreNumbers};

    ghost invariant = { λ f. AreNumbers f.numbers.items };
}

impl Firsts {
    /// For so many validators.
    pub(crate) fn new(alloc: Global, validators: u32) -> Result<Firsts, OutOfMemory>
        ensures { IfOk result (λ firsts. length firsts ≡ validators) }
    {
        let mut numbers = Vec::with_capacity(alloc, validators as usize)?;
        numbers.resize(validators as usize, NO_UNIT)?;
        Ok(Firsts { numbers })
    }

    /// The number for the validator.
    pub fn get(&self, validator: u32) -> u32
        requires { validator < length self.now }
        ensures { result ≡ slice_index_or self.now validator 0 }
    {
        self.numbers[validator as usize]
    }

    /// For the prover: recalls that each is a number of 32 bits. It does nothing.
    pub(crate) fn recall_numbers(&self)
        ensures { AreNumbers self.now }
    {
        let _ = &self.numbers;
    }

    /// Changes the number for the validator, and no other.
    pub(crate) fn set(&mut self, validator: u32, number: u32)
        requires { validator < length self.old }
        ensures { self.new ≡ slice_set self.old validator number }
    {
        self.numbers[validator as usize] = number;
    }

    /// Makes it the same as the other, which has as many validators.
    pub(crate) fn copy_from(&mut self, other: &Firsts)
        requires { length self.old ≡ length other.now }
        ensures { self.new ≡ other.now }
    {
        self.numbers
            .as_mut_slice()
            .copy_from_slice(other.numbers.as_slice());
    }

    /// Whether they are the same for each validator.
    pub(crate) fn is_same(&self, other: &Firsts) -> bool
        ensures { IsTrue result ↔ (self.now ≡ other.now) }
    {
        self.numbers.as_slice() == other.numbers.as_slice()
    }

    /// For nobody a unit is one.
    pub(crate) fn clear(&mut self)
        ensures length { length self.new ≡ length self.old }
        ensures none { (v : ℕ) → v < length self.new → slice_index_or self.new v 0 ≡ 2 ^ 32 - 1 }
    {
        for number in self.numbers.iter_mut() {
            *number = NO_UNIT;
        }
    }

    /// Finds the first unit of each member that is present. For the others no unit is one.
    pub(crate) fn find(&mut self, dag: &Dag, panorama: &Panorama, lower: &Table, present: &Table)
        requires panorama { IsPanorama dag.now panorama.now }
        requires length { length self.old ≡ dag.now.validators }
        ensures length { length self.new ≡ dag.now.validators }
        ensures firsts { AreFirsts dag.now panorama.now lower.now present.now self.new }
    {
        for v in 0..dag.validators() {
            let first = first_of(dag, panorama.get(v), lower, present, v);
            self.set(v, first);
        }
    }
}

// The first unit of the validator, whose slot this is. Where it isn't present, a number that no unit has.
fn first_of(dag: &Dag, view: View, lower: &Table, present: &Table, validator: u32) -> u32
    requires graph { IsGraph dag.now }
    requires known { (number : Number) → view ≡ View.Correct number → number.0 < count_of dag.now }
    ensures { IsFirst dag.now view lower.now present.now validator result }
{
    if present.get(validator).is_none() {
        return NO_UNIT;
    }
    match view {
        View::Correct(tip) => first_from(dag, tip, lower.get(validator).unwrap_or(0)),
        View::Absent | View::Faulty => NO_UNIT,
    }
}

// The unit of that number on the lane. Where the lane ends before it, a number that no unit has.
fn first_from(dag: &Dag, tip: UnitNo, start: u64) -> u32
    requires graph { IsGraph dag.now }
    requires known { tip.0 < count_of dag.now }
    ensures { (n : ℕ) → n < count_of dag.now → is_lane_below dag.now n tip.0 ≡ true → nat_le result n ≡ nat_le start (seq_of (unit_at dag.now n)) }
{
    if start <= dag.unit(tip).signed().unit.seq {
        dag.unit_on_lane(tip, start).0
    } else {
        NO_UNIT
    }
}
