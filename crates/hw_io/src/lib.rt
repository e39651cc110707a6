//! The outside of the program: files, output, the clock, the link to a peer, and consumers.
//!
//! Each is a trait, so that everything above is proved for any outside. A trait tells, for contracts
//! alone, what it holds, and counts its faults: the count rises in a call that answers `Failed`, and
//! in no other. A count stops at the end of a `u64` and is said to rise there too. Want of memory is
//! `OutOfMemory`; a sink counts it apart.
#![tactic(auto)]

mod buffer;
mod numbers;
mod outside;
mod pieces;

pub use buffer::{MOST_AT_ONCE, ReadBuffer};
pub use numbers::DoorNumbers;
pub use outside::{Clock, Consumer, Door, Files, IoFault, READ_LIMIT, Sink};
pub use pieces::write_all;
