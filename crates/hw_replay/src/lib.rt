//! The replay of a log: each entry is delivered to a node, in order. Consumers are given the decided blocks
//! meanwhile.
//!
//! A replay goes on entry by entry, so that its caller can look at the node after each. A limit or a clash
//! stops it, and other refusals are counted. [`Fanout`] hands the decided chain to consumers, block by block,
//! and drops those that fail.
#![tactic(auto)]

mod chain;
mod ending;
mod fanout;
mod fault;
mod feed;
mod laws;
mod lines;
mod one;
mod replay;
mod telling;
mod told_laws;
mod value;

pub use fanout::{Fanout, FanoutOf};
pub use fault::StartFault;
pub use feed::replay_fed;
pub use laws::{a_replay_delivers, a_replay_is_led_on};
pub use lines::put_drops;
pub use replay::{Replay, Replayed, replay_log, spelling_of};
pub use told_laws::what_was_told_stays;
