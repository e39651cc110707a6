//! The lines of answers.

ghost use Rattle.std.specs.Prelude.{◌≡◌, ◌++◌, codes, OnOk};
ghost use Rattle.hw_text.specs.{Text.{number_text}, Lines.{line_feed}, Errors.{limit_text}};
ghost use Rattle.hw_light.specs.{Asked.{told_in}, Texts.{told_line, fault_line}};
ghost use Rattle.hw_light.specs.declared.asked.Asked.TheVariants as Answers;

use crate::asked::Asked;
use crate::{Certified, CheckFault};
use hw_text::{end_line, put_limit, put_numbered, put_word};
use hw_types::{Bytes, ConfigFault, OutOfMemory};

/// Puts the line of what is answered of a block last.
#[tactic(auto, unfolding(crate::specs::Texts::told_line))]
pub fn put_asked(text: &mut Bytes, asked: &Asked) -> Result<(), OutOfMemory>
    ensures { OnOk result (text.new ≡ text.old ++ told_line (told_in asked.now)) }
{
    match asked {
        Asked::NoDecision => put_line(text, "no decision"),
        Asked::Answered(certified) => put_certified(text, certified),
    }
}

/// Puts the line of what the making of a certificate was answered last.
#[tactic(auto, unfolding(crate::specs::Texts::told_line))]
fn put_certified(text: &mut Bytes, certified: &Certified) -> Result<(), OutOfMemory>
    ensures { OnOk result (text.new ≡ text.old ++ told_line (told_in (Answers.Answered certified.now))) }
{
    match certified {
        Certified::Made(certificate) => {
            put_count(text, "certified ", certificate.vertices.len() as u64)
        }
        Certified::NotNow => put_line(text, "no standing"),
        Certified::TooLong(count) => put_count(text, "no length ", *count),
    }
}

/// Puts the line of why a certificate shows nothing last.
#[tactic(auto, unfolding(crate::specs::Texts::fault_line))]
pub fn put_fault(text: &mut Bytes, fault: CheckFault) -> Result<(), OutOfMemory>
    ensures { OnOk result (text.new ≡ text.old ++ fault_line fault) }
{
    match fault {
        CheckFault::Config(fault) => put_limit_line(text, fault),
        CheckFault::Refused(number, _why) => put_count(text, "no refused ", u64::from(number)),
        CheckFault::Exceeded(weight) => put_count(text, "no exceeded ", weight),
        CheckFault::Unstood => put_line(text, "no standing"),
    }
}

/// Puts a line that names a limit of configurations last.
#[tactic(auto, using(std::proofs::Common::append_assoc))]
fn put_limit_line(text: &mut Bytes, fault: ConfigFault) -> Result<(), OutOfMemory>
    ensures { OnOk result (text.new ≡ text.old ++ (codes "no config " ++ limit_text fault ++ line_feed)) }
{
    put_word(text, "no config ")?;
    put_limit(text, fault)?;
    end_line(text)
}

/// Puts a line of a word and a number last.
#[tactic(auto, using(std::proofs::Common::append_assoc))]
fn put_count(text: &mut Bytes, word: &str, number: u64) -> Result<(), OutOfMemory>
    ensures { OnOk result (text.new ≡ text.old ++ (word.now ++ number_text number ++ line_feed)) }
{
    put_numbered(text, word, number)?;
    end_line(text)
}

/// Puts a line of these words last.
#[tactic(auto, using(std::proofs::Common::append_assoc))]
fn put_line(text: &mut Bytes, words: &str) -> Result<(), OutOfMemory>
    ensures { OnOk result (text.new ≡ text.old ++ (words.now ++ line_feed)) }
{
    put_word(text, words)?;
    end_line(text)
}
