//! The parked items.

ghost use Rattle.std.specs.Prelude.{◌≡◌, ◌+◌, ◌<◌, ◌≤◌, ◌++◌, ◌∷◌, [], ◌↔◌, ◌≢◌, length, take, All, OnOk, OnErr, IfOk, IfErr, IfNone, IsNone};
ghost use Rattle.std.specs.BinaryHeap.{heap_items, heap_len, heap_capacity};
ghost use Rattle.hw_park.specs.Parked.{struck, next_item, without_next, awaited};

use crate::key::key_of;
use crate::waiter::{Waiter, Waiters};
use crate::waits::Waits;
use hw_types::{Need, OutOfMemory};
use std::alloc::Global;
use std::cmp::Reverse;
use std::collections::{BTreeMap, BinaryHeap};
use std::marker::Model;

/// Why an item wasn't parked.
#[derive(Clone, Copy)]
pub enum ParkCause {
    /// As many items are parked as may be.
    Full,
    /// There was no memory.
    OutOfMemory,
}

/// An item that wasn't parked, and why.
#[derive(Drop)]
pub struct ParkRefused<T> {
    pub cause: ParkCause,
    pub item: T,
}

// The numbers of the items without a need left. The least comes first.
type Ready = BinaryHeap<Reverse<u64>>;

/// The items that wait.
#[derive(Drop)]
pub struct Park<T> {
    alloc: Global,
    limit: u32,
    count: u32,
    // The number of the next item that is parked.
    next: u64,
    waiters: Waiters<T>,
    waits: Waits,
    ready: Ready,
}

impl<T> Model for Park<T> {
    ghost use Rattle.hw_park.specs.Parked.{Parked};

    ghost Value = { Parked T };

    ghost use Rattle.std.specs.BinaryHeap.{heap_items, heap_len, heap_capacity};
    ghost use Rattle.hw_park.specs.{Numbers.{numbers_at}, Kept.{parked_by, IsKept}};

    ghost view = { λ p. parked_by p.limit p.next p.waiters (numbers_at p.waits.entries) };

    ghost invariant = { λ p. IsKept p.limit p.count p.next p.waiters (numbers_at p.waits.entries) (heap_items p.ready) (heap_len p.ready) (heap_capacity p.ready) };
}

impl<T: Drop> Park<T> {
    /// Nothing is parked so far, and at most so many items may be.
    pub fn new(alloc: Global, limit: u32) -> Result<Park<T>, OutOfMemory>
        ensures { IfOk result (λ park. park ≡ record { limit = limit; waiting = [] }) }
    {
        Ok(Park {
            alloc,
            limit,
            count: 0,
            next: 0,
            waiters: Waiters::new(alloc),
            waits: BTreeMap::new(alloc),
            ready: BinaryHeap::new(alloc),
        })
    }

    /// How many items are parked.
    pub fn count(&self) -> u32
        ensures { result ≡ length self.now.waiting }
    {
        self.count
    }

    /// Puts the first needs that items have left into the list, those of the longest parked first, each
    /// once and as many as the list has places for. Says how many these are. It takes no memory.
    pub fn first_needs(&self, list: &mut [Need]) -> usize
        ensures within { result ≤ length list.old }
        ensures first { take result list.new ≡ take (length list.old) (awaited self.now.waiting) }
    {
        self.waiters.first_needs(&self.waits, list)
    }

    /// Strikes a need from those of all items. It takes no memory.
    pub fn met(&mut self, need: &Need)
        ensures { self.new ≡ record self.old { waiting = struck need.now self.old.waiting } }
    {
        // Mostly nothing is parked, and then there is nothing to look up.
        if self.count == 0 {
            return;
        }
        let Some(places) = self.waits.remove(&key_of(need)) else {
            return;
        };
        for place in &places {
            if let Some(number) = self.waiters.strike(*place) {
                // There is room, which was made when the item was parked.
                let _ = self.ready.push(Reverse(number));
            }
        }
    }

    /// Hands out the longest parked of the items that have no need left. It takes no memory.
    pub fn next_ready(&mut self) -> Option<T>
        ensures item { result ≡ next_item self.old.waiting }
        ensures others { self.new ≡ record self.old { waiting = without_next self.old.waiting } }
        ensures none { IsNone result ↔ All (λ w. w.needs ≢ []) self.old.waiting }
        ensures unchanged { IfNone result (self.new ≡ self.old) }
    {
        let Reverse(number) = self.ready.pop()?;
        let waiter = self.waiters.remove(number)?;
        self.count -= 1;
        Some(waiter.into_item())
    }

    /// Parks an item until all of its needs are met. Where it is refused, it comes back and nothing has
    /// changed.
    pub fn park(&mut self, needs: &[Need], item: T) -> Result<(), ParkRefused<T>>
        requires { 0 < length needs.now }

        // The item goes last, with these needs.
        ensures parked { OnOk result (self.new ≡ record self.old { waiting = self.old.waiting ++ record { needs = needs.now; item = item } ∷ [] }) }
        ensures room { OnOk result (length self.old.waiting < self.old.limit) }

        // A refusal changes nothing.
        ensures unchanged { OnErr result (self.new ≡ self.old) }
        ensures returned { IfErr result (λ refused. refused.item ≡ item) }
        ensures full { IfErr result (λ refused. refused.cause ≡ ParkCause.Full → length self.old.waiting ≡ self.old.limit) }
    {
        if self.count == self.limit {
            return Err(refused(ParkCause::Full, item));
        }
        let number = self.next;
        // After 2^64 - 1 parkings there is no number left, which is answered as want of memory.
        let Some(next) = number.checked_add(1) else {
            return Err(refused(ParkCause::OutOfMemory, item));
        };
        let Ok(own) = prepare(&mut self.ready, self.alloc, needs, self.count) else {
            return Err(refused(ParkCause::OutOfMemory, item));
        };
        let waiter = Waiter {
            number,
            needs: own,
            left: needs.len(),
            item,
        };
        match self.waiters.insert(&mut self.waits, self.alloc, waiter) {
            Ok(()) => {
                self.count += 1;
                self.next = next;
                Ok(())
            }
            Err(waiter) => Err(refused(ParkCause::OutOfMemory, waiter.into_item())),
        }
    }
}

// Takes the memory that one item more will need, but for its own place and its notes, and copies its needs.
fn prepare(
    ready: &mut Ready,
    alloc: Global,
    needs: &[Need],
    count: u32,
) -> Result<Vec<Need>, OutOfMemory>
    requires { heap_len ready.old ≤ count }
    ensures items { heap_items ready.new ≡ heap_items ready.old }
    ensures len { heap_len ready.new ≡ heap_len ready.old }
    ensures capacity { heap_capacity ready.old ≤ heap_capacity ready.new }
    ensures room { OnOk result (count + 1 ≤ heap_capacity ready.new) }
    ensures copied { IfOk result (λ own. own.items ≡ needs.now) }
{
    ready.reserve(count as usize + 1)?;
    Ok(Vec::from_slice(alloc, needs)?)
}

fn refused<T>(cause: ParkCause, item: T) -> ParkRefused<T>
    ensures { result ≡ record { cause = cause; item = item } }
{
    ParkRefused { cause, item }
}
