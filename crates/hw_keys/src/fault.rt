//! What is wrong with a text of keys.

use hw_types::OutOfMemory;
use std::alloc::{AllocError, AllocFailed};

/// Why a text of keys isn't read.
#[derive(Clone, Copy, Debug, PartialEq, Eq)]
pub enum KeysFault {
    /// The byte at this place, counted from 0, can't stand there, or the text ends at this place
    /// and is too short.
    At(u64),
    /// There was no memory.
    OutOfMemory,
}

impl From<OutOfMemory> for KeysFault {
    ghost use Rattle.std.specs.Prelude.{◌≡◌};
    ghost use Rattle.hw_keys.specs.declared.fault.KeysFault.TheVariants as fault;

    ghost from_gives = { λ _ e. e ≡ fault.OutOfMemory };

    fn from(_e: OutOfMemory) -> KeysFault {
        KeysFault::OutOfMemory
    }
}
