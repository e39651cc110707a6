//! The text of what is wrong with a file.

ghost use Rattle.std.specs.Prelude.{◌≡◌, ◌++◌, OnOk};
ghost use Rattle.hw_commands.specs.Texts.{log_text, wrong_text};

use hw_light::{CertError, put_error};
use hw_log::LogError;
use hw_text::{put_codec, put_limit, put_numbered, put_word};
use hw_types::{Bytes, OutOfMemory};

/// What is wrong with a file.
#[derive(Clone, Copy)]
pub enum Wrong<'w> {
    /// What the words say.
    Words(&'w str),
    /// What the words say, with a number after them.
    Numbered(&'w str, u64),
    /// It can't be read on as a log.
    Log(LogError),
    /// It is no certificate.
    Certificate(CertError),
}

/// Puts the text of what is wrong with a file last.
pub fn put_wrong(text: &mut Bytes, wrong: Wrong<'_>) -> Result<(), OutOfMemory>
    ensures { OnOk result (text.new ≡ text.old ++ wrong_text wrong.entry) }
{
    match wrong {
        Wrong::Words(words) => put_word(text, words),
        Wrong::Numbered(words, number) => put_numbered(text, words, number),
        Wrong::Log(error) => put_log(text, error),
        Wrong::Certificate(error) => put_error(text, error),
    }
}

/// Puts the text of what is wrong with a log last. Errors of the outside have none.
#[tactic(auto, using(std::proofs::Common::append_assoc), unfolding(crate::specs::Texts::log_text))]
fn put_log(text: &mut Bytes, error: LogError) -> Result<(), OutOfMemory>
    ensures { OnOk result (text.new ≡ text.old ++ log_text error) }
{
    match error {
        LogError::BadMagic => put_word(text, "bad magic"),
        LogError::Version(version) => put_numbered(text, "version ", u64::from(version)),
        LogError::Torn(at) => put_numbered(text, "torn at ", at),
        LogError::TooLong(at) => put_numbered(text, "too long at ", at),
        LogError::BadConfig(error) => {
            put_word(text, "config ")?;
            put_codec(text, error)
        }
        LogError::ConfigFault(fault) => {
            put_word(text, "config ")?;
            put_limit(text, fault)
        }
        LogError::BadEvent(at) => put_numbered(text, "bad event at ", at),
        LogError::BadVerdict(at) => put_numbered(text, "bad verdict at ", at),
        LogError::BadVertex(at, error) => {
            put_numbered(text, "bad vertex at ", at)?;
            put_word(text, ": ")?;
            put_codec(text, error)
        }
        LogError::ReadFault | LogError::WriteFault | LogError::OutOfMemory => Ok(()),
    }
}
