//! Why a log can't be read or written.

ghost use Rattle.std.specs.Prelude.{◌≡◌};
ghost use Rattle.hw_log.specs.Causes.{error_of_read, error_of_append};
ghost use Rattle.hw_log.specs.declared.error.LogError.TheVariants as LogErrors;

use hw_io::IoFault;
use hw_types::{CodecError, ConfigFault, OutOfMemory};

/// Why a log can't be read or written. A number is a place in the file, counted from 0: that of the
/// entry's first byte, or in the header that of the field.
#[derive(Clone, Copy, Debug, PartialEq, Eq)]
pub enum LogError {
    /// The file doesn't begin with `HWLG`.
    BadMagic,
    /// The version is neither 1 nor 2.
    Version(u8),
    /// The file ends inside the field or the entry that begins here.
    Torn(u64),
    /// The configuration or the vertex whose length stands here has more than 1,048,576 bytes.
    TooLong(u64),
    /// The bytes of the configuration are no spelling. The place in it counts from its first byte.
    BadConfig(CodecError),
    /// The configuration breaks this limit.
    ConfigFault(ConfigFault),
    /// The entry's kind of event is another than 1.
    BadEvent(u64),
    /// The entry's verdict is neither 0 nor 1.
    BadVerdict(u64),
    /// The entry's vertex is no spelling. The place in it counts from its kind byte.
    BadVertex(u64, CodecError),
    /// A read failed.
    ReadFault,
    /// An append failed.
    WriteFault,
    /// There was no memory.
    OutOfMemory,
}

impl From<OutOfMemory> for LogError {
    ghost from_gives = { λ _ e. e ≡ LogErrors.OutOfMemory };

    fn from(_e: OutOfMemory) -> LogError {
        LogError::OutOfMemory
    }
}

/// What a failed read is answered as.
pub fn error_of_read(fault: IoFault) -> LogError
    ensures { result ≡ error_of_read fault }
{
    match fault {
        IoFault::Failed => LogError::ReadFault,
        IoFault::OutOfMemory => LogError::OutOfMemory,
    }
}

/// What a failed append is answered as.
pub fn error_of_append(fault: IoFault) -> LogError
    ensures { result ≡ error_of_append fault }
{
    match fault {
        IoFault::Failed => LogError::WriteFault,
        IoFault::OutOfMemory => LogError::OutOfMemory,
    }
}
