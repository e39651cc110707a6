//! Items that wait for needs: for a unit, for evidence against a validator, for a unit to be endorsed.
//! What an item is doesn't matter here. Source: ours.
//!
//! When a need is met it is struck from all that wait for it. Items without a need left are handed out,
//! the longest parked first. Contracts see a record: how many items may be parked, and the list of those
//! that are, in the order of parking, each with the needs that it has left.
//!
//! Items have numbers that rise from one parking to the next, and each stands in a place of a slab, which
//! is taken again once the item is gone. An ordered table has the places by number, one the places that
//! wait for each need, and a heap has the numbers of the items without a need left. Peers choose what is
//! needed, so no table's cost depends on it. An item keeps the list of its needs and how many of them are
//! left: which these are, the table of needs knows. So to meet a need costs one look-up, and a count down
//! for each item that waits for it. To hand one out costs the logarithm of how many are parked. All memory
//! is taken when an item is parked; where it isn't enough, what was noted for the item is taken back.
#![tactic(auto)]

mod first;
mod key;
mod park;
mod waiter;
mod waits;

pub use key::{NeedKey, key_of};
pub use park::{Park, ParkCause, ParkRefused};
