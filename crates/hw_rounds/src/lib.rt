//! Rounds: which one a moment lies in, when its witness units are due, and when a validator may change
//! their length.
//!
//! A round of exponent `e` lasts `2^e` milliseconds, and its number is the moment at which it begins.
//! Moments are in milliseconds, below 2^63, and exponents are at most 40, so that nothing overflows.
//!
//! Nothing here takes memory.
#![tactic(auto)]

mod drawing;
mod evidence;
mod leaders;
mod rounds;

pub use evidence::check_pair;
pub use leaders::LeaderTable;
pub use rounds::{changes_lawfully, round_id, witness_time};
