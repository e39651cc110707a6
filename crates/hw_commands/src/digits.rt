//! Digests as words.

ghost use Rattle.std.specs.Prelude.{◌≡◌};
ghost use Rattle.hw_commands.specs.Commands.{digest_in_word};

use hex::FromHex;
use hw_text::are_lower_digits;
use hw_types::Digest;

/// The digest that the word spells by 64 hexadecimal digits in lower case. None where it is of another form.
#[tactic(auto, unfolding(crate::specs::Commands::digest_in_word))]
pub fn digest_in_word(word: &str) -> Option<Digest>
    ensures { result ≡ digest_in_word word.now }
{
    if !are_lower_digits(word.as_bytes()) {
        return None;
    }
    match <[u8; 32]>::from_hex(word) {
        Ok(bytes) => Some(Digest(bytes)),
        Err(_) => None,
    }
}
