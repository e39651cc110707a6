//! Which bytes stand where in a text of keys, and the keys that it tells.

ghost use Rattle.std.specs.{Prelude.{◌≡◌, length, MatchOption}, List.{AllPass}};
ghost use Rattle.hex.specs.Hex.{encode_lower};
ghost use Rattle.hw_codec.specs.Ranges.{AreBytesOf};
ghost use Rattle.hw_text.specs.Digits.{is_lower_digit};
ghost use Rattle.hw_keys.specs.Keys.{may_stand, IsFirstFault, HasNoFault};

use hw_text::is_lower_digit;

/// How many digits a key has in the text.
pub(crate) const DIGITS: usize = 64;

/// How many bytes the line of a key has.
pub(crate) const LINE: usize = DIGITS + 1;

/// Whether the byte may stand at the place of a text of so many keys.
fn may_stand(validators: u32, place: usize, byte: u8) -> bool
    ensures { result ≡ may_stand validators place byte }
{
    if place >= LINE * validators as usize {
        return false;
    }
    if place % LINE == DIGITS {
        byte == b'\n'
    } else {
        is_lower_digit(byte)
    }
}

/// The first place at which the text isn't one of so many keys, if there is one.
pub(crate) fn first_fault(validators: u32, text: &[u8]) -> Option<usize>
    ensures { MatchOption result (HasNoFault validators text.now) (IsFirstFault validators text.now) }
{
    for (place, byte) in text.iter().enumerate() {
        if !may_stand(validators, place, *byte) {
            return Some(place);
        }
    }
    if text.len() < LINE * validators as usize {
        return Some(text.len());
    }
    None
}

/// The key that 64 digits tell.
pub(crate) fn key_of(digits: &[u8]) -> [u8; 32]
    requires each { AllPass is_lower_digit digits.now }
    requires size { length digits.now ≡ DIGITS }
    ensures is { encode_lower result ≡ digits.now }
    ensures bytes { AreBytesOf 32 result }
{
    let mut key = [0u8; 32];
    hex::decode_to_slice(digits, &mut key).unwrap();
    key
}
