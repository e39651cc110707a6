//! Why no log was written anew.

ghost use Rattle.std.specs.Prelude.{◌≡◌};
ghost use Rattle.hw_log.specs.declared.error.LogError.TheVariants as LogErrors;
ghost use Rattle.hw_log.specs.declared.fault.RewriteFault.TheVariants as RewriteFaults;

use crate::LogError;
use hw_types::OutOfMemory;

/// Why no log was written anew.
#[derive(Clone, Copy, Debug, PartialEq, Eq)]
pub enum RewriteFault {
    /// The file that was to be made is there already.
    Exists,
    /// The log's first error; or `ReadFault`, where a read of either file failed, `WriteFault`, where an append to the
    /// new one failed, or want of memory.
    Log(LogError),
}

impl From<LogError> for RewriteFault {
    ghost from_gives = { λ e fault. fault ≡ RewriteFaults.Log e };

    fn from(error: LogError) -> RewriteFault {
        RewriteFault::Log(error)
    }
}

impl From<OutOfMemory> for RewriteFault {
    ghost from_gives = { λ _ fault. fault ≡ RewriteFaults.Log LogErrors.OutOfMemory };

    fn from(_error: OutOfMemory) -> RewriteFault {
        RewriteFault::Log(LogError::OutOfMemory)
    }
}
