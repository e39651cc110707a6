//! Why a run over logs of eras stops.

ghost use Rattle.std.specs.Prelude.{◌≡◌};
ghost use Rattle.hw_eras.specs.declared.stop.EraFault.TheVariants as EraFaults;

use hw_replay::StartFault;
use hw_types::OutOfMemory;

/// Why a run over logs of eras stops. A text is the log's name.
#[derive(Drop)]
pub enum EraFault<'a> {
    /// The era of this log isn't there.
    NoEra(&'a str),
    /// The replay of this log stopped.
    Stopped(&'a str, StartFault),
    /// There was no memory.
    OutOfMemory,
}

impl From<OutOfMemory> for EraFault<'_> {
    ghost from_gives = { λ _ stop. stop ≡ EraFaults.OutOfMemory };

    fn from(_error: OutOfMemory) -> Self {
        EraFault::OutOfMemory
    }
}
