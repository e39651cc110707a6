//! What a node has of a need: the vertices with which it answers a peer that asks for it.
//!
//! - A unit: the unit, where the journal holds it.
//! - That a validator is faulty: the journal's evidence against it, or else one of two settled units. At the
//!   least sequence number at which it has two, these are the two of the least digests, the lesser one left.
//! - That a unit is endorsed: the journal's endorsements of the unit, in order.
//!
//! So there is evidence against a validator exactly where it is faulty, be it by evidence that came or by
//! units that settled.
#![tactic(auto)]

mod evidence;
mod forks;
mod laws;
mod pairs;
mod vertices;

pub use evidence::evidence_of;
pub use laws::evidence_is_taken;
pub use pairs::{KnownPairs, PairNames};
pub use vertices::{VertexList, vertices_of, vertices_with};
