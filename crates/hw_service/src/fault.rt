//! Why a node's run ends before its report.

ghost use Rattle.std.specs.Prelude.{◌≡◌};
ghost use Rattle.hw_service.specs.declared.fault.ServiceFault.TheVariants as fault;

use hw_replay::StartFault;
use hw_session::ClashUnits;
use hw_settings::SettingsFault;
use hw_types::OutOfMemory;

/// Why a node's run ends before its report.
#[derive(Drop)]
pub enum ServiceFault {
    /// The settings give no configuration.
    Settings(SettingsFault),
    /// The validator that is to make units isn't in the configuration.
    NoValidator,
    /// The text of the keys is wrong, first at this byte.
    Keys(u64),
    /// The log gives no node, because of what is in it.
    Log(StartFault),
    /// Two different units have one digest. A peer's vertex brought one of them.
    Clash(ClashUnits),
    /// A read of a file failed.
    Read,
    /// An append to the log failed.
    Append,
    /// A write of the output failed.
    Write,
    /// Out of memory.
    OutOfMemory,
}

impl From<OutOfMemory> for ServiceFault {
    ghost from_gives = { λ _ e. e ≡ fault.OutOfMemory };

    fn from(_error: OutOfMemory) -> ServiceFault {
        ServiceFault::OutOfMemory
    }
}
