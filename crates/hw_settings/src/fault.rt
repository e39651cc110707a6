//! What is wrong with settings.

ghost use Rattle.std.specs.Prelude.{◌≡◌};
ghost use Rattle.hw_settings.specs.declared.fault.SettingsFault.TheVariants as Faults;

use hw_types::{ConfigFault, OutOfMemory};

/// Why settings give no configuration.
#[derive(Clone, Copy, Debug, PartialEq, Eq)]
pub enum SettingsFault {
    /// The bytes aren't the JSON text of an object with the members that settings have.
    Form,
    /// The configuration breaks this limit, the first one that it breaks.
    Fault(ConfigFault),
    /// There was no memory.
    OutOfMemory,
}

impl From<OutOfMemory> for SettingsFault {
    ghost from_gives = { λ _ fault. fault ≡ Faults.OutOfMemory };

    fn from(_error: OutOfMemory) -> SettingsFault {
        SettingsFault::OutOfMemory
    }
}
