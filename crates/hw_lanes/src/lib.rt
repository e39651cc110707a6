//! SHA-256 (FIPS 180-4) of many parts of a buffer, four at a time: each is in one lane of vectors of 128 bits, which
//! every x86-64 processor has.
//!
//! Each digest is the one that `sha2` specifies. A lane that is done with its part takes the next one, so that parts of
//! unlike lengths may stand in any order. It takes no memory; [`Messages`] are put together in a buffer. Fewer than four
//! parts go to `sha2`, one after the other.
#![tactic(auto)]

mod block;
mod messages;
mod padded;
mod pieces;
mod rounds;
mod state;
mod words;
mod work;

pub use messages::{Messages, digests_in};
pub use pieces::{Part, digests_of};
