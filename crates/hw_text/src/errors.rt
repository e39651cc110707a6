//! The texts of what is wrong with bytes and with configurations.

ghost use Rattle.std.specs.Prelude.{◌≡◌, ◌++◌, OnOk};
ghost use Rattle.hw_text.specs.Errors.{codec_text, limit_text};

use crate::parts::{put_numbered, put_word};
use hw_types::{Bytes, CodecError, ConfigFault, OutOfMemory};

/// Puts the text of why bytes are no spelling last. Want of memory has none.
#[tactic(auto, using(std::proofs::Common::append_assoc), unfolding(crate::specs::Errors::codec_text))]
pub fn put_codec(text: &mut Bytes, error: CodecError) -> Result<(), OutOfMemory>
    ensures { OnOk result (text.new ≡ text.old ++ codec_text error) }
{
    match error {
        CodecError::Truncated(at) => put_numbered(text, "truncated at ", at),
        CodecError::Trailing(at) => put_numbered(text, "trailing at ", at),
        CodecError::BadTag(at) => put_numbered(text, "bad tag at ", at),
        CodecError::TooLong(at) => put_numbered(text, "too long at ", at),
        CodecError::OutOfRange(at) => put_numbered(text, "out of range at ", at),
        CodecError::OutOfMemory => Ok(()),
    }
}

/// Puts the name of a limit of configurations last.
#[tactic(auto, unfolding(crate::specs::Errors::limit_text))]
pub fn put_limit(text: &mut Bytes, fault: ConfigFault) -> Result<(), OutOfMemory>
    ensures { OnOk result (text.new ≡ text.old ++ limit_text fault) }
{
    match fault {
        ConfigFault::Validators => put_word(text, "validators"),
        ConfigFault::ZeroWeight(v) => put_numbered(text, "zero weight ", u64::from(v)),
        ConfigFault::Total => put_word(text, "total"),
        ConfigFault::Threshold => put_word(text, "threshold"),
        ConfigFault::Levels => put_word(text, "levels"),
        ConfigFault::Exponents => put_word(text, "exponents"),
        ConfigFault::LeaderTable => put_word(text, "leader table"),
        ConfigFault::Records => put_word(text, "records"),
        ConfigFault::Parked => put_word(text, "parked"),
    }
}
