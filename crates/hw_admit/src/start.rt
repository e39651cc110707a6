//! How a state begins.

ghost use Rattle.std.specs.Prelude.{◌≡◌};
ghost use Rattle.hw_admit.specs.declared.start.StateFault.TheVariants as StateFaults;

use hw_types::{ConfigFault, OutOfMemory};

/// Why there is no state.
#[derive(Clone, Copy, Debug, PartialEq, Eq)]
pub enum StateFault {
    /// The configuration breaks this limit.
    Fault(ConfigFault),
    /// There was no memory.
    OutOfMemory,
}

impl From<OutOfMemory> for StateFault {
    ghost from_gives = { λ _ e. e ≡ StateFaults.OutOfMemory };

    fn from(_e: OutOfMemory) -> StateFault {
        StateFault::OutOfMemory
    }
}
