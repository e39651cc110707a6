//! The graph of settled units that all layers above share.
//!
//! A [`Dag`] is a list of units that only grows. A unit's number is its place in the list, and no unit
//! in it ever changes: each has its name, the signed unit, its panorama in numbers, its vote and,
//! where it is a block, its parent and its height. The definitions see the same units by name
//! (`graph`), and each graph keeps the rules that make it lawful (`IsGraph`).
//!
//! A unit comes in by three steps. `prepare` takes the memory for what it observes, beside the room in
//! the graph that `reserve` makes. `resolve` turns the names that it observes into numbers, once they
//! are all settled. `admit` puts it last, and takes no memory.
//!
//! Look-ups along lanes and along parents jump, so they take logarithmic time. Of the tables and
//! pointers that they use nothing is seen from outside.
//!
//! Panoramas have an order: one is at most another where the other observes all that it observes, or has the mark of a
//! fault in its place. [`at_most`] decides it, [`join`] makes the least panorama that two are at most, and
//! [`consistent`] asks whether the panorama of each cited unit is at most the panorama that cites it. They take no
//! memory. Two slots are compared by their numbers, unless their validator has units on two lanes.
#![tactic(auto)]

mod consistency;
mod counter;
mod graph;
mod joining;
mod jump_laws;
mod jumps;
mod laws;
mod numbers;
mod order;
mod preparing;
mod scratch;
mod settled;
mod shared_unit;
mod skips;

pub use consistency::consistent;
pub use counter::Steps;
pub use graph::Dag;
pub use joining::join;
pub use jump_laws::{
    jumps_are_few, jumps_are_one_more, jumps_keep_to_pointers, logarithm_is_rounded_down,
    pointers_lead_to_pointers,
};
pub use jumps::{jump, pointer_count};
pub use laws::{
    apart_is_fork, graph_is_lawful, rules_are_kept, seen_by_entry, seen_is_on_lane, votes_stay,
};
pub use numbers::{Panorama, Slot, UnitNo, View};
pub use order::at_most;
pub use preparing::{NoRoom, Prepared};
pub use scratch::Marks;
pub use settled::Unit;
pub use shared_unit::SharedUnit;
