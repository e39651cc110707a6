//! The starts of the members of a committee.

ghost use Rattle.std.specs.{Prelude.{◌≡◌, ℕ, ◌<◌, None, length, slice_set, IfOk, is_some}, List.{list_any}};
ghost use Rattle.hw_horizon.specs.Tables.{entry};

use hw_types::OutOfMemory;
use std::alloc::Global;
use std::marker::Model;

/// For each validator its start, where it is in the committee. Contracts see it as a list.
#[derive(Drop)]
pub struct Table {
    starts: Vec<Option<u64>>,
}

impl Model for Table {
    ghost use Rattle.std.specs.Prelude.{List, Option, ℕ};

    ghost Value = { List (Option ℕ) };

    ghost view = { λ t. t.starts.items };
}

impl Table {
    /// Nobody of so many validators is in the committee.
    pub(crate) fn new(alloc: Global, validators: u32) -> Result<Table, OutOfMemory>
        ensures length { IfOk result (λ table. length table ≡ validators) }
        ensures nobody { IfOk result (λ table. (v : ℕ) → entry table v ≡ None) }
    {
        let mut starts = Vec::with_capacity(alloc, validators as usize)?;
        starts.resize(validators as usize, None)?;
        Ok(Table { starts })
    }

    /// The start of the validator. None for one outside the committee.
    pub fn get(&self, validator: u32) -> Option<u64>
        ensures { result ≡ entry self.now validator }
    {
        if (validator as usize) < self.starts.len() {
            self.starts[validator as usize]
        } else {
            None
        }
    }

    /// Whether somebody is in the committee.
    pub fn has_member(&self) -> bool
        ensures { result ≡ list_any is_some self.now }
    {
        self.starts.iter().any(|start| start.is_some())
    }

    /// Changes the start of the validator, and no other.
    pub(crate) fn set(&mut self, validator: u32, start: Option<u64>)
        requires { validator < length self.old }
        ensures { self.new ≡ slice_set self.old validator start }
    {
        self.starts[validator as usize] = start;
    }

    /// Takes everybody out of the committee.
    pub(crate) fn clear(&mut self)
        ensures length { length self.new ≡ length self.old }
        ensures nobody { (v : ℕ) → entry self.new v ≡ None }
    {
        for start in self.starts.iter_mut() {
            *start = None;
        }
    }

    /// Makes it the same as the other, which has as many validators.
    pub(crate) fn copy_from(&mut self, other: &Table)
        requires { length self.old ≡ length other.now }
        ensures { self.new ≡ other.now }
    {
        self.starts
            .as_mut_slice()
            .copy_from_slice(other.starts.as_slice());
    }
}
