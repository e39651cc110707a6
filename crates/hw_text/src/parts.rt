//! The parts of a line.

ghost use Rattle.std.specs.Prelude.{◌≡◌, ◌++◌, OnOk, OnErr};
ghost use Rattle.hw_text.specs.{Text.{number_text, digest_text}, Lines.{line_feed, AddsFront}};

use hw_types::{Bytes, Digest, OutOfMemory};
use itoa::Buffer;

/// How many hexadecimal digits a digest has.
const DIGEST_DIGITS: usize = 64;

/// Puts the decimal digits of the number last.
pub fn put_number(out: &mut Bytes, number: u64) -> Result<(), OutOfMemory>
    ensures ok { OnOk result (out.new ≡ out.old ++ number_text number) }
    ensures err { OnErr result (out.new ≡ out.old) }
{
    let mut digits = Buffer::new();
    out.extend(digits.format(number).as_bytes())
}

/// Puts the 64 lower-case hexadecimal digits of the digest last.
pub fn put_digest(out: &mut Bytes, digest: &Digest) -> Result<(), OutOfMemory>
    ensures ok { OnOk result (out.new ≡ out.old ++ digest_text digest.now) }
    ensures err { OnErr result (out.new ≡ out.old) }
{
    let mut digits = [0u8; DIGEST_DIGITS];
    hex::encode_to_slice(digest.0.as_slice(), &mut digits).unwrap();
    out.extend(&digits)
}

/// Puts the bytes of the word last.
pub fn put_word(out: &mut Bytes, word: &str) -> Result<(), OutOfMemory>
    ensures ok { OnOk result (out.new ≡ out.old ++ word.now) }
    ensures err { OnErr result (out.new ≡ out.old) }
{
    out.extend(word.as_bytes())
}

/// Puts the word and then the decimal digits of the number last. Where memory ends between them, the
/// word stays.
#[tactic(auto, using(std::proofs::Common::append_assoc))]
pub fn put_numbered(out: &mut Bytes, word: &str, number: u64) -> Result<(), OutOfMemory>
    ensures ok { OnOk result (out.new ≡ out.old ++ (word.now ++ number_text number)) }
    ensures err { OnErr result (AddsFront out.old out.new (word.now ++ number_text number)) }
{
    put_word(out, word)?;
    put_number(out, number)
}

/// Ends the line.
pub fn end_line(out: &mut Bytes) -> Result<(), OutOfMemory>
    ensures ok { OnOk result (out.new ≡ out.old ++ line_feed) }
    ensures err { OnErr result (out.new ≡ out.old) }
{
    put_word(out, "\n")
}
