//! Why bytes are no certificate.

ghost use Rattle.std.specs.Prelude.{◌≡◌};
ghost use Rattle.hw_light.specs.declared.error.CertError.TheVariants as CertErrors;

use hw_types::{CodecError, OutOfMemory};

/// Why bytes are no certificate. A number is a place, counted from 0 at the first byte.
#[derive(Clone, Copy, Debug, PartialEq, Eq)]
pub enum CertError {
    /// The bytes don't begin with `HWCT`.
    BadMagic,
    /// The version isn't 1.
    Version(u8),
    /// The bytes end inside the field that begins here.
    Torn(u64),
    /// A configuration or a vertex, whose length is here, has more than 1,048,576 bytes. Or there are
    /// more than 131,072 vertices, whose count is here.
    TooLong(u64),
    /// The bytes of the configuration are no spelling. The place in it counts from its first byte.
    BadConfig(CodecError),
    /// The vertex whose length is here is no spelling. The place in it counts from its kind byte.
    BadVertex(u64, CodecError),
    /// The certificate ended, and this is the first byte after it.
    Trailing(u64),
    /// Out of memory.
    OutOfMemory,
}

impl From<OutOfMemory> for CertError {
    ghost from_gives = { λ _ e. e ≡ CertErrors.OutOfMemory };

    fn from(_e: OutOfMemory) -> CertError {
        CertError::OutOfMemory
    }
}
