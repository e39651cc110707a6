//! What is kept of the walks down the lanes for one block, so that only new units are looked at when
//! the same block is asked again.

ghost use Rattle.std.specs.Prelude.{◌≡◌, ℕ, ◌<◌, ◌⊎◌, length, Some, None, slice_set, slice_index_or, IfOk};
ghost use Rattle.hw_horizon.specs.{declared.fences.Fence.{Fence as Fenced}, declared.kept.Walk.{Walk as Walked}, Kept.{walk_of, walk_from}};

use crate::fences::{Fence, Fences};
use hw_dag::UnitNo;
use hw_types::OutOfMemory;
use std::alloc::Global;
use std::marker::Model;

/// From `start` on each unit of the lane up to `tip` votes for the block.
#[derive(Clone, Copy)]
pub struct Walk {
    pub tip: UnitNo,
    pub start: u64,
}

/// The block that was asked last, a walk for each validator, and the fences of each.
#[derive(Drop)]
pub struct Walks {
    block: Option<UnitNo>,
    walks: Vec<Option<Walk>>,
    fences: Fences,
}

impl Model for Walks {
    ghost use Rattle.hw_horizon.specs.Kept.{AskedWalks};

    ghost Value = { AskedWalks };

    ghost view = { λ w. record { block = w.block; walks = w.walks.items; fences = w.fences } };
}

impl Walks {
    /// No block was asked.
    pub fn new(alloc: Global, validators: u32) -> Result<Walks, OutOfMemory>
        ensures block { IfOk result (λ walks. walks.block ≡ None) }
        ensures length { IfOk result (λ walks. length walks.walks ≡ validators) }
        ensures fences { IfOk result (λ walks. (k : ℕ) → slice_index_or walks.fences k None ≡ None) }
    {
        let mut walks = Vec::with_capacity(alloc, validators as usize)?;
        walks.resize(validators as usize, None)?;
        Ok(Walks {
            block: None,
            walks,
            fences: Fences::new(alloc, validators)?,
        })
    }

    /// Forgets all walks, unless they are for this block.
    pub fn ask(&mut self, block: UnitNo)
        ensures block { self.new.block ≡ Some block }
        ensures length { length self.new.walks ≡ length self.old.walks }
        ensures before { (v : ℕ) (walk : Walked) → walk_of self.new v ≡ Some walk → self.old.block ≡ Some block }
        ensures same { (v : ℕ) (walk : Walked) → walk_of self.new v ≡ Some walk → walk_of self.old v ≡ Some walk }
        ensures fences { self.new.fences ≡ self.old.fences }
    {
        if self.block != Some(block) {
            forget(self.walks.as_mut_slice());
            self.block = Some(block);
        }
    }

    /// The walk of the validator.
    pub fn get(&self, validator: u32) -> Option<Walk>
        requires { validator < length self.now.walks }
        ensures { result ≡ walk_of self.now validator }
    {
        self.walks[validator as usize]
    }

    /// The fence in that slot of the validator, if there is one.
    pub fn fence(&self, validator: u32, slot: u32) -> Option<Fence>
        ensures { (fence : Fenced) → result ≡ Some fence → (k : ℕ) × (slice_index_or self.now.fences k None ≡ Some fence) }
    {
        self.fences.get(validator, slot)
    }

    /// Puts a fence into that slot, in place of the one there. Where there is no such slot nothing happens.
    pub fn put_fence(&mut self, validator: u32, slot: u32, fence: Fence)
        ensures fences { (k : ℕ) (other : Fenced) → slice_index_or self.new.fences k None ≡ Some other → (other ≡ fence) ⊎ (slice_index_or self.old.fences k None ≡ Some other) }
        ensures rest { self.new ≡ record self.old { fences = self.new.fences } }
    {
        self.fences.put(validator, slot, fence);
    }

    /// Keeps where the lane of this tip begins to vote for the block, if it does.
    pub fn keep(&mut self, validator: u32, tip: UnitNo, start: Option<u64>)
        requires { validator < length self.old.walks }
        ensures block { self.new.block ≡ self.old.block }
        ensures walks { self.new.walks ≡ slice_set self.old.walks validator (walk_from tip start) }
        ensures fences { self.new.fences ≡ self.old.fences }
    {
        self.walks[validator as usize] = start.map(|start| Walk { tip, start });
    }
}

// No walk is left.
fn forget(walks: &mut [Option<Walk>])
    ensures { (v : ℕ) → slice_index_or walks.new v None ≡ None }
{
    for walk in walks.iter_mut() {
        *walk = None;
    }
}
