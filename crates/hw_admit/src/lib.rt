//! The state of one node: the graph of its settled units, what it observes of each validator, whom it
//! knows to be faulty, and the endorsements that it was told.
//!
//! A [`State`] is moved by three calls: `admit` puts a unit last that keeps all rules, `mark` takes note
//! of evidence against a validator, and `endorse` counts an endorsement. It never has to look back: each
//! call moves one slot of the panorama at most, and the panorama stays the one that the definitions give
//! from scratch, for the settled units and the faulty validators.
//!
//! `reserve` takes the memory for units ahead, so that admission needs none.
#![tactic(auto)]

mod kept;
mod start;
mod state;

pub use hw_rules::local;
pub use start::StateFault;
pub use state::State;
