//! Scratch for walks over the graph.

ghost use Rattle.std.specs.Prelude.{◌≡◌, ◌≤◌, OnOk};

use hw_types::OutOfMemory;
use std::alloc::Global;
use std::marker::Model;

/// Scratch for walks. Contracts see it as its room: how many units a graph may have for it to serve.
#[derive(Drop)]
pub struct Marks {
    pub(crate) marked: Vec<bool>,
}

impl Model for Marks {
    ghost use Rattle.std.specs.Prelude.{ℕ, vec_len};

    ghost Value = { ℕ };

    ghost view = { λ m. vec_len m.marked };
}

impl Marks {
    /// Room for no unit. It takes its memory from `alloc` as it grows.
    pub fn new(alloc: Global) -> Marks
        ensures { result ≡ 0 }
    {
        Marks {
            marked: Vec::new(alloc),
        }
    }

    /// Makes room for a graph of `count` units. The room never shrinks.
    pub fn reserve(&mut self, count: u32) -> Result<(), OutOfMemory>
        ensures room { OnOk result (count ≤ self.new) }
        ensures kept { self.old ≤ self.new }
    {
        if self.marked.len() < count as usize {
            self.marked.resize(count as usize, false)?;
        }
        Ok(())
    }
}
