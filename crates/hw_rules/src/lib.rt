//! The rules that a unit keeps, tested in their order: the first that is broken is answered.
//!
//! `local` tests the rules of the unit alone, and a [`Judge`] those over the units below it. A unit that
//! breaks none is answered with the fork choice of its panorama, with which it is admitted to the graph.
//!
//! The definitions state each rule as a test over the units below, by name. The graph answers it by
//! number: units in slots, steps back along a lane, a walk over what is cited. Nothing here takes memory.
//!
//! A settled unit keeps the rules. So where a unit cites what the newest unit of the graph cites, as most
//! do in nearly all slots, the one that it cites there isn't looked at again. And where a unit has the
//! endorsed list of the one before it on its lane, as most do, its digests aren't looked for again.
#![tactic(auto)]

mod alone;
mod citations;
mod endorsed;
mod judge;
mod laws;
mod lists;
mod lookups;
mod rounds;

pub use alone::local;
pub use judge::Judge;
pub use laws::{endorsed_is_kept, endorsed_is_seen};
pub use lookups::wire_unit;
pub use rounds::may_follow;
