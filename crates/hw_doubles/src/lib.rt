//! The outside in memory, for the programs of cases alone: each trait of `hw_io` by a type that tells its content.
//!
//! The files, the sink, the door and the consumer fail at the calls that are planned to fail. Where none is, they
//! fail only where the rules of their trait say so, or for want of memory. A paced door fails too where its peer
//! waits for what isn't written.
#![tactic(auto)]

mod book;
mod consumer;
mod door;
mod memory;
mod moments;
mod paced;
mod plan;
mod session;
mod shelf;
mod watched;

pub use consumer::{ListConsumer, TakenBlock};
pub use door::MemDoor;
pub use memory::{MemFiles, MemSink, Planned};
pub use moments::SetClock;
pub use paced::PacedDoor;
pub use plan::Plan;
pub use session::MemSession;
pub use watched::{MemAsk, WatchedDoor};
