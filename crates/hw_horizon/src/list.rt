//! The blocks found so far, with room for more.

ghost use Rattle.std.specs.{Prelude.{◌≡◌, ◌+◌, ◌^◌, ◌<◌, ◌≤◌, [], ◌∷◌, ◌++◌, length, OnOk, Some}, Prelude.{slice_get}};

use crate::found::Found;
use hw_types::OutOfMemory;
use std::alloc::Global;
use std::marker::Model;

/// The blocks found so far, in order.
#[derive(Drop)]
pub(crate) struct FoundList {
    blocks: Vec<Found>,
    /// Room for so many more.
    spare: u32,
}

impl Model for FoundList {
    ghost use Rattle.std.specs.Prelude.{◌+◌, ◌^◌, ◌<◌, ◌≤◌, length, vec_capacity};
    ghost use Rattle.hw_horizon.specs.Blocks.{FoundBlocks};

    ghost Value = { FoundBlocks };

    ghost view = { λ l. record { blocks = l.blocks.items; spare = l.spare } };

    ghost invariant = { λ l. (length l.blocks.items + l.spare ≤ vec_capacity l.blocks) × (length l.blocks.items + l.spare < 2 ^ 32) };
}

impl FoundList {
    /// None so far, and no room.
    pub(crate) fn new(alloc: Global) -> FoundList
        ensures { result ≡ record { blocks = []; spare = 0 } }
    {
        FoundList {
            blocks: Vec::new(alloc),
            spare: 0,
        }
    }

    /// Makes room for at least `count` more. The room never shrinks.
    pub(crate) fn reserve(&mut self, count: u32) -> Result<(), OutOfMemory>
        requires { length self.old.blocks + count < 2 ^ 32 }
        ensures room { OnOk result (count ≤ self.new.spare) }
        ensures kept { self.old.spare ≤ self.new.spare }
        ensures blocks { self.new.blocks ≡ self.old.blocks }
    {
        if self.spare < count {
            self.blocks.reserve(count as usize)?;
            self.spare = count;
        }
        Ok(())
    }

    /// How many there are.
    pub(crate) fn count(&self) -> u32
        ensures count { result ≡ length self.now.blocks }
    {
        self.blocks.len() as u32
    }

    /// The block at that place.
    pub(crate) fn get(&self, index: u32) -> &Found
        requires { index < length self.now.blocks }
        ensures { Some result.now ≡ slice_get self.now.blocks index }
    {
        &self.blocks[index as usize]
    }

    /// Puts one block last, for which there is room.
    pub(crate) fn push(&mut self, found: Found)
        requires { 1 ≤ self.old.spare }
        ensures blocks { self.new.blocks ≡ self.old.blocks ++ found ∷ [] }
        ensures room { self.new.spare + 1 ≡ self.old.spare }
    {
        self.spare -= 1;
        if self.blocks.push(found).is_err() {
            unreachable!()
        }
    }
}
