//! Samples of a host of the library: what it gets by the contracts of the calls that it makes.
//!
//! A host delivers what peers send to a node, stores the node's journal, and starts again from it. For a validator it
//! plans units, and takes no vertex of a peer that brings a new unit by the validator. Each function promises its own
//! caller what follows.
#![tactic(auto)]

mod decided;
mod feeding;
mod own_units;
mod owner;
mod stored;

pub use decided::follow;
pub use feeding::{feeding_order_does_not_count, forks_are_one};
pub use own_units::{brings_no_new, has_unit};
pub use owner::{Heard, Proposed, hear, hosts_never_equivocate, propose};
pub use stored::{Broken, restore};
