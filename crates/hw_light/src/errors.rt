//! The texts of what is wrong with the bytes of a certificate.

ghost use Rattle.std.specs.Prelude.{◌≡◌, ◌++◌, OnOk};
ghost use Rattle.hw_light.specs.Texts.{error_text};

use crate::CertError;
use hw_text::{put_codec, put_numbered, put_word};
use hw_types::{Bytes, OutOfMemory};

/// Puts the text of the error last. Out of memory has none.
#[tactic(auto, using(std::proofs::Common::append_assoc), unfolding(crate::specs::Texts::error_text))]
pub fn put_error(text: &mut Bytes, error: CertError) -> Result<(), OutOfMemory>
    ensures { OnOk result (text.new ≡ text.old ++ error_text error) }
{
    match error {
        CertError::BadMagic => put_word(text, "bad magic"),
        CertError::Version(version) => put_numbered(text, "version ", u64::from(version)),
        CertError::Torn(at) => put_numbered(text, "torn at ", at),
        CertError::TooLong(at) => put_numbered(text, "too long at ", at),
        CertError::BadConfig(error) => {
            put_word(text, "config ")?;
            put_codec(text, error)
        }
        CertError::BadVertex(at, error) => {
            put_numbered(text, "bad vertex at ", at)?;
            put_word(text, ": ")?;
            put_codec(text, error)
        }
        CertError::Trailing(at) => put_numbered(text, "trailing at ", at),
        CertError::OutOfMemory => Ok(()),
    }
}
