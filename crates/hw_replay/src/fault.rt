//! Why a replay stops.

ghost use Rattle.std.specs.Prelude.{◌≡◌};
ghost use Rattle.hw_replay.specs.Faults.{fault_of};
ghost use Rattle.hw_replay.specs.declared.fault.StartFault.TheVariants as fault;

use hw_log::LogError;
use hw_types::{Bytes, OutOfMemory};

/// Why a node can't start from its log. A number is the place in the file of an entry's first byte.
#[derive(Drop)]
pub enum StartFault {
    /// The log can't be read to its end.
    Log(LogError),
    /// The log is of another configuration than the one that is wanted.
    OtherConfig,
    /// Two different units have one digest: the known one and the other, as they are spelled.
    Clash { known: Bytes, other: Bytes },
    /// The journal is as long as it may be, and this entry would be one more.
    RecordsFull(u64),
    /// As many units are parked as may be, and that of this entry would be one more.
    ParkFull(u64),
    /// There was no memory.
    OutOfMemory,
}

impl From<OutOfMemory> for StartFault {
    ghost from_gives = { λ _ e. e ≡ fault.OutOfMemory };

    fn from(_error: OutOfMemory) -> StartFault {
        StartFault::OutOfMemory
    }
}

/// An error of the log as one of the replay. Out of memory is the same in both.
pub fn fault_of(error: LogError) -> StartFault
    ensures { result ≡ fault_of error }
{
    match error {
        LogError::OutOfMemory => StartFault::OutOfMemory,
        error => StartFault::Log(error),
    }
}
