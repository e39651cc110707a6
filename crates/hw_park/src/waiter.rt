//! The parked items, each in its place of the slab.

ghost use Rattle.std.specs.Prelude.{◌≡◌, ◌≢◌, ◌⊎◌, ℕ, ◌≤◌, ◌-◌, ◌==◌, List, [], Option, length, take, true, false, Some, None, OnOk, OnErr, IfErr, IfSome, IfNone, if◌then◌else◌};
ghost use Rattle.std.specs.Option.{option_map};
ghost use Rattle.hw_types.specs.declared.unit.Need.{Need as Wanted};
ghost use Rattle.hw_park.specs.{Held.{held, found, ready_at, slot_at, struck_by, IsPutAt, HasBecome}, Kept.{listed}, Numbers.{numbers_at, SameNumbers}, Parked.{awaited}};

use crate::first::put_left;
use crate::waits::{Waits, register, withdraw};
use hw_types::Need;
use slab::Slab;
use std::alloc::Global;
use std::collections::BTreeMap;
use std::marker::Model;

/// An item that waits, with its number.
#[derive(Drop)]
pub struct Waiter<T> {
    pub number: u64,
    /// All needs that it was parked with.
    pub needs: Vec<Need>,
    /// How many of them are left.
    pub left: usize,
    pub item: T,
}

impl<T: Drop> Waiter<T> {
    /// The item alone.
    pub fn into_item(self) -> T
        ensures { result ≡ self.item }
    {
        let Waiter { item, .. } = self;
        item
    }
}

/// The parked items by number. Numbers rise from one parking to the next, and places in the slab are
/// taken again.
#[derive(Drop)]
pub struct Waiters<T> {
    places: BTreeMap<u64, usize>,
    items: Slab<Waiter<T>>,
}

impl<T> Model for Waiters<T> {
    ghost use Rattle.hw_park.specs.Held.{Held, ArePlaced};

    ghost Value = { Held T };

    ghost view = { λ w. record { places = w.places.entries; slots = w.items.slots } };

    ghost invariant = { λ w. ArePlaced w.places.entries w.items.slots };
}

impl<T: Drop> Waiters<T> {
    /// No item.
    pub fn new(alloc: Global) -> Waiters<T>
        ensures places { result.places ≡ [] }
        ensures slots { result.slots ≡ [] }
    {
        Waiters {
            places: BTreeMap::new(alloc),
            items: Slab::new(alloc),
        }
    }

    /// Puts an item into a place, which is noted for its needs. Where there is no memory, it comes back and
    /// nothing has changed.
    pub fn insert(
        &mut self,
        waits: &mut Waits,
        alloc: Global,
        waiter: Waiter<T>,
    ) -> Result<(), Waiter<T>>
        requires { ready_at self.old waiter.number ≡ None }
        ensures put { OnOk result (IsPutAt self.old self.new (numbers_at waits.old.entries) (numbers_at waits.new.entries) waiter) }
        ensures unchanged { OnErr result (self.new ≡ self.old) }
        ensures unnoted { OnErr result (SameNumbers waits.old.entries waits.new.entries) }
        ensures returned { IfErr result (λ back. back ≡ waiter) }
    {
        if self.items.reserve(1).is_err() {
            return Err(waiter);
        }
        let place = self.items.vacant_key();
        if register(waits, alloc, waiter.needs.as_slice(), place).is_err() {
            return Err(waiter);
        }
        if self.places.insert(waiter.number, place).is_err() {
            withdraw(waits, waiter.needs.as_slice());
            return Err(waiter);
        }
        self.items.insert_reserved(waiter);
        Ok(())
    }

    /// Takes out the item of a number.
    pub fn remove(&mut self, number: u64) -> Option<Waiter<T>>
        ensures item { result ≡ found self.old number }
        ensures ready { (k : ℕ) → ready_at self.new k ≡ (if k == number then None else ready_at self.old k) }
        ensures held { (notes : Wanted → List ℕ) (k : ℕ) → held self.new notes k ≡ (if k == number then None else held self.old notes k) }
        ensures slots { (place : ℕ) → (slot_at self.new.slots place ≡ slot_at self.old.slots place) ⊎ ((slot_at self.new.slots place ≡ None) × (slot_at self.old.slots place ≡ result)) }
    {
        let place = self.places.remove(&number)?;
        self.items.try_remove(place)
    }

    /// Puts the first needs that items have left into the list, by number, each once and as many as it has
    /// room for. Says how many these are.
    pub fn first_needs(&self, waits: &Waits, list: &mut [Need]) -> usize
        ensures within { result ≤ length list.old }
        ensures put { (n : ℕ) → ((k : ℕ) → n ≤ k → ready_at self.now k ≡ None) → take result list.new ≡ take (length list.old) (awaited (listed (held self.now (numbers_at waits.now.entries)) n)) }
    {
        let mut filled = 0;
        for place in self.places.values() {
            // Once each need of the table is in the list, no item has another.
            if filled == waits.len() {
                return filled;
            }
            if let Some(waiter) = self.items.get(*place) {
                filled = put_left(list, filled, waits, *place, waiter.needs.as_slice());
            }
        }
        filled
    }

    /// Counts one need less for the item in a place. Says its number where that was the last one.
    pub fn strike(&mut self, place: usize) -> Option<u64>
        ensures places { self.new.places ≡ self.old.places }
        ensures slots { (q : ℕ) → slot_at self.new.slots q ≡ (if q == place then option_map (struck_by 1) (slot_at self.old.slots q) else slot_at self.old.slots q) }
        ensures same { IfNone result ((k : ℕ) → ready_at self.new k ≡ ready_at self.old k) }
        ensures last { IfSome result (λ number. HasBecome (ready_at self.old) (ready_at self.new) number) }
    {
        let Some(waiter) = self.items.get_mut(place) else {
            return None;
        };
        count_down(waiter)
    }
}

// Counts one need less. Says the item's number where that was the last one.
fn count_down<T>(waiter: &mut Waiter<T>) -> Option<u64>
    ensures less { waiter.new ≡ struck_by 1 waiter.old }
    ensures last { result ≡ (if waiter.old.left == 1 then Some waiter.old.number else None) }
{
    if waiter.left == 0 {
        return None;
    }
    waiter.left -= 1;
    if waiter.left == 0 {
        Some(waiter.number)
    } else {
        None
    }
}
