//! What is kept of the walks down the lanes towards higher blocks, so that a search that goes up block by
//! block doesn't walk down the same lane anew for each.
//!
//! A fence says that from one unit of a lane on each unit up to another votes for a block or a descendant of
//! it. So they vote for each ancestor of it too, and the walk for an ancestor can begin at that unit. A walk
//! for a block leaves fences for the blocks 1, 2, 4, and so on above it, on the way to what the latest unit
//! votes for. The walk for the next block begins at the lowest fence that is still above it, and leaves
//! fences between the two. So however many heights are asked one after the other, each unit of a lane is
//! passed about once for each slot.

ghost use Rattle.std.specs.Prelude.{◌≡◌, ℕ, ◌⊎◌, Some, None, slice_index_or, IfOk};
ghost use Rattle.hw_horizon.specs.declared.fences.Fence.{Fence as Fenced};

use hw_dag::UnitNo;
use hw_types::OutOfMemory;
use std::alloc::Global;
use std::marker::Model;

/// From `first` on each unit of the lane, up to `tip`, votes for the block or a descendant of it.
#[derive(Clone, Copy)]
pub struct Fence {
    pub block: UnitNo,
    pub tip: UnitNo,
    pub first: UnitNo,
}

/// How many fences each validator has. Slot `k` is for a block `2^k` above the one that was asked, so these
/// serve a climb over a million heights; a longer one begins at the tip once for each half million.
pub const SLOTS: u32 = 20;

/// The fences of each validator, 320 bytes for each. Contracts see them as a list, in which any fence may be
/// used wherever a walk comes to its tip.
#[derive(Drop)]
pub struct Fences {
    fences: Vec<Option<Fence>>,
}

impl Model for Fences {
    ghost use Rattle.std.specs.Prelude.{List, Option};
    ghost use Rattle.hw_horizon.specs.declared.fences.Fence.{Fence as Fenced};

    ghost Value = { List (Option Fenced) };

    ghost view = { λ f. f.fences.items };
}

impl Fences {
    /// No fences. All their memory is taken here.
    ///
    /// Want of memory is the only error.
    pub fn new(alloc: Global, validators: u32) -> Result<Fences, OutOfMemory>
        ensures { IfOk result (λ fences. (k : ℕ) → slice_index_or fences k None ≡ None) }
    {
        let count = place(validators, 0);
        let mut fences = Vec::with_capacity(alloc, count)?;
        fences.resize(count, None)?;
        Ok(Fences { fences })
    }

    /// The fence in that slot of the validator, if there is one.
    pub fn get(&self, validator: u32, slot: u32) -> Option<Fence>
        ensures { (fence : Fenced) → result ≡ Some fence → (k : ℕ) × (slice_index_or self.now k None ≡ Some fence) }
    {
        let place = place(validator, slot);
        if slot < SLOTS && place < self.fences.len() {
            self.fences[place]
        } else {
            None
        }
    }

    /// Puts a fence into that slot, in place of the one there. Where there is no such slot nothing happens.
    pub fn put(&mut self, validator: u32, slot: u32, fence: Fence)
        ensures { (k : ℕ) (other : Fenced) → slice_index_or self.new k None ≡ Some other → (other ≡ fence) ⊎ (slice_index_or self.old k None ≡ Some other) }
    {
        let place = place(validator, slot);
        if slot < SLOTS && place < self.fences.len() {
            self.fences[place] = Some(fence);
        }
    }
}

// Where the slot is in the list.
fn place(validator: u32, slot: u32) -> usize {
    validator as usize * SLOTS as usize + slot as usize
}
