//! Chains of units, and the pointers by which they are walked back in jumps.

ghost use Rattle.std.specs.Prelude.{◌≡◌, ℕ, ◌+◌, ◌-◌, ◌^◌, ◌<◌, ◌≤◌, [], ◌∷◌, ◌++◌, length, Some, None, OnOk, IfOk, vec_len, vec_capacity};
ghost use Rattle.hw_dag.specs.Jumps.{jump_count, pointer_count_of};
ghost use Rattle.hw_dag.specs.declared.numbers.UnitNo.{UnitNo as Number};
ghost use Rattle.hw_dag.specs.Skips.{back_from, backs_of, lists_of, IsDepth, IsSkipTable, IsAddedBehind};

use crate::numbers::UnitNo;
use crate::{Steps, jump, pointer_count};
use hw_types::OutOfMemory;
use std::alloc::Global;
use std::marker::Model;
use std::sync::ledger::Ledger;

/// How many pointers a unit has at most, since depths are below 2^32.
const MOST_POINTERS: usize = 32;

/// What comes before each unit on its chain, with pointers that lead further back.
///
/// Contracts see the step back of each unit, and the room for more units.
#[derive(Drop)]
pub struct SkipTable {
    /// For how many more units there is room, whatever their depths.
    spare: usize,
    /// Where the pointers of each unit begin.
    starts: Vec<usize>,
    /// The pointers of all units. Those of the first on a chain are none.
    pointers: Vec<UnitNo>,
}

impl Model for SkipTable {
    ghost use Rattle.std.specs.Prelude.{◌-◌, vec_len, vec_capacity};
    ghost use Rattle.hw_dag.specs.Skips.{BackLinks, IsArena, lists_of, backs_of};

    ghost Value = { BackLinks };

    ghost view = { λ t. record {
      spare = t.spare;
      backs = backs_of (lists_of t.starts.items t.pointers.items);
    } };

    ghost invariant = { λ t. IsArena t.spare t.starts.items (vec_capacity t.starts - vec_len t.starts) t.pointers.items (vec_capacity t.pointers - vec_len t.pointers) };
}

impl SkipTable {
    /// No unit so far. It takes its memory from `alloc` as it grows.
    pub fn new(alloc: Global) -> SkipTable
        ensures { result.backs ≡ [] }
    {
        SkipTable {
            spare: 0,
            starts: Vec::new(alloc),
            pointers: Vec::new(alloc),
        }
    }

    /// Makes room for at least `count` more units, whatever their depths.
    pub fn reserve(&mut self, count: usize) -> Result<(), OutOfMemory>
        ensures room { OnOk result (count ≤ self.new.spare) }
        ensures kept { self.old.spare ≤ self.new.spare }
        ensures backs { self.new.backs ≡ self.old.backs }
    {
        if self.spare < count {
            let pointers = count.checked_mul(MOST_POINTERS).ok_or(OutOfMemory)?;
            self.starts.reserve(count)?;
            self.pointers.reserve(pointers)?;
            self.spare = count;
        }
        Ok(())
    }

    /// Where the unit is that stands at depth `to` on the chain of a unit at depth `from`. It ticks once
    /// for each jump.
    pub fn walk<L: Ledger>(&self, no: UnitNo, from: u64, to: u64, steps: &mut Steps<L>) -> UnitNo
        requires known { no.0 < length self.now.backs }
        requires depth { IsDepth self.now.backs no.0 from }
        requires within { to ≤ from }
        ensures found { back_from self.now.backs (from - to) no.0 ≡ Some result.0 }
        ensures jumps { steps.new ≡ steps.old + jump_count from to }
    {
        let mut at = no;
        let mut depth = from;
        while to < depth {
            let pointer = jump(depth, to);
            let start = self.starts[at.0 as usize];
            at = self.pointers[start + pointer as usize];
            depth -= 1 << pointer;
            steps.tick();
        }
        at
    }

    /// One more unit, which stands at this depth behind `back`, or first on its chain.
    pub fn push(&mut self, back: Option<UnitNo>, depth: u64)
        requires spare { 1 ≤ self.old.spare }
        requires small { depth < 2 ^ 32 }
        requires known { (p : Number) → back ≡ Some p → p.0 < length self.old.backs }
        requires first { back ≡ None → depth ≡ 0 }
        requires next { (p : Number) → back ≡ Some p → (1 ≤ depth) × IsDepth self.old.backs p.0 (depth - 1) }
        ensures backs { self.new.backs ≡ self.old.backs ++ back ∷ [] }
        ensures spare { self.old.spare ≤ self.new.spare + 1 }
    {
        let start = self.pointers.len();
        if let Some(back) = back {
            push_pointers(self.starts.as_slice(), &mut self.pointers, back, depth);
        }
        self.starts.push_reserved(start);
        self.spare -= 1;
    }
}

/// Puts the pointers of a unit at this depth last, of which the first leads to `back`.
fn push_pointers(starts: &[usize], pointers: &mut Vec<UnitNo>, back: UnitNo, depth: u64)
    requires table { IsSkipTable (lists_of starts.now pointers.old.items) }
    requires room { vec_len pointers.old + pointer_count_of depth ≤ vec_capacity pointers.old }
    requires known { back.0 < length starts.now }
    requires some { 1 ≤ depth }
    requires depth { IsDepth (backs_of (lists_of starts.now pointers.old.items)) back.0 (depth - 1) }
    ensures added { IsAddedBehind (backs_of (lists_of starts.now pointers.old.items)) back.0 (pointer_count_of depth) pointers.old.items pointers.new.items }
    ensures len { vec_len pointers.new ≡ vec_len pointers.old + pointer_count_of depth }
    ensures capacity { vec_capacity pointers.new ≡ vec_capacity pointers.old }
{
    let mut at = back;
    for i in 0..pointer_count(depth) {
        if i > 0 {
            let start = starts[at.0 as usize];
            at = pointers[start + i as usize - 1];
        }
        pointers.push_reserved(at);
    }
}
