//! Rows of tips, one after another in one list.

ghost use Rattle.std.specs.Prelude.{◌≡◌, ◌+◌, ◌*◌, ◌<◌, ◌≤◌, [], length, IsTrue, OnOk};
ghost use Rattle.hw_dag.specs.Slots.{HasCode};
ghost use Rattle.hw_naivety.specs.Rows.{IsLonger, IsSameRow, row_slot, with_slot};

use hw_dag::{Slot, View};
use hw_types::OutOfMemory;
use std::alloc::Global;
use std::marker::Model;

/// Rows with a slot for each validator, four bytes a slot. A slot of a row says what the tip is where it isn't what
/// the unit observes: another unit, or none. So units that observe different things can have one row.
#[derive(Drop)]
pub struct Rows {
    validators: u32,
    slots: Vec<Slot>,
}

impl Model for Rows {
    ghost use Rattle.hw_naivety.specs.Rows.{TipRows};

    ghost Value = { TipRows };

    ghost view = { λ rows. record { validators = rows.validators; slots = rows.slots.items } };
}

impl Rows {
    /// No rows, of so many slots each.
    pub fn new(alloc: Global, validators: u32) -> Rows
        ensures validators { result.validators ≡ validators }
        ensures none { result.slots ≡ [] }
    {
        Rows {
            validators,
            slots: Vec::new(alloc),
        }
    }

    /// Makes so many rows, where there are fewer. The rows so far stay.
    pub fn grow(&mut self, rows: u32) -> Result<(), OutOfMemory>
        ensures room { OnOk result (rows * self.new.validators ≤ length self.new.slots) }
        ensures longer { IsLonger self.old self.new }
    {
        let wanted = rows as usize * self.validators as usize;
        let length = wanted.max(self.slots.len());
        self.slots.resize(length, Slot::of(View::Absent))?;
        Ok(())
    }

    /// Where the row has the creator's slot.
    fn place(&self, row: u32, creator: u32) -> usize
        requires row { (row + 1) * self.now.validators ≤ length self.now.slots }
        requires creator { creator < self.now.validators }
        ensures place { result ≡ row * self.now.validators + creator }
        ensures there { result < length self.now.slots }
    {
        row as usize * self.validators as usize + creator as usize
    }

    /// The creator's slot of the row.
    fn slot(&self, row: u32, creator: u32) -> Slot
        requires row { (row + 1) * self.now.validators ≤ length self.now.slots }
        requires creator { creator < self.now.validators }
        ensures { result ≡ row_slot self.now row creator }
    {
        let place = self.place(row, creator);
        self.slots[place]
    }

    /// What the row says in the creator's slot.
    pub fn get(&self, row: u32, creator: u32) -> View
        requires row { (row + 1) * self.now.validators ≤ length self.now.slots }
        requires creator { creator < self.now.validators }
        ensures { result ≡ row_slot self.now row creator }
    {
        self.slot(row, creator).view()
    }

    /// Whether two rows say the same.
    pub fn is_same(&self, row: u32, other: u32) -> bool
        requires row { (row + 1) * self.now.validators ≤ length self.now.slots }
        requires other { (other + 1) * self.now.validators ≤ length self.now.slots }
        ensures { IsTrue result → IsSameRow self.now row other }
    {
        for creator in 0..self.validators {
            if !self.slot(row, creator).is(self.slot(other, creator)) {
                return false;
            }
        }
        true
    }

    /// Puts this into the creator's slot of the row.
    pub fn set(&mut self, row: u32, creator: u32, said: View)
        requires row { (row + 1) * self.old.validators ≤ length self.old.slots }
        requires creator { creator < self.old.validators }
        requires code { HasCode said }
        ensures { self.new ≡ with_slot self.old row creator said }
    {
        let place = self.place(row, creator);
        self.slots[place] = Slot::of(said);
    }
}
