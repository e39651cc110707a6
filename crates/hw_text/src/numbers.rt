//! Decimal numbers, as they are read.

ghost use Rattle.std.specs.{Prelude.{◌≡◌, ◌+◌, ◌-◌, ◌*◌, ◌<◌, ◌≤◌, ◌^◌, IfSome}, Option.{SomeIff}, List.{list_all}};
ghost use Rattle.hw_text.specs.Numbers.{is_digit, is_number, with_digit, value_of, number_below};

/// The number that the word is, in decimal digits without a zero in front, where it is at most this.
///
/// Numbers of scripts and numbers of a command line are written so.
#[tactic(auto, unfolding(crate::specs::Numbers::number_below))]
pub fn number_up_to(most: u64, word: &[u8]) -> Option<u64>
    ensures number { result ≡ number_below (most + 1) word.now }
    ensures most { IfSome result (λ n. n ≤ most) }
{
    if !is_number(word) {
        return None;
    }
    match value_of(word) {
        Some(value) if value <= most => Some(value),
        _ => None,
    }
}

/// Whether these are decimal digits, and no zero stands before another one.
fn is_number(word: &[u8]) -> bool
    ensures { result ≡ is_number word.now }
{
    match word {
        [] => false,
        [first, rest @ ..] => {
            is_digit(*first) && are_digits(rest) && (*first != b'0' || rest.is_empty())
        }
    }
}

/// Whether all of these are decimal digits.
fn are_digits(word: &[u8]) -> bool
    ensures { result ≡ list_all is_digit word.now }
{
    word.iter().all(|c| is_digit(*c))
}

/// Whether the byte is a decimal digit.
pub fn is_digit(c: u8) -> bool
    ensures { result ≡ is_digit c }
{
    b'0' <= c && c <= b'9'
}

/// What the digits stand for, where that is a u64.
#[tactic(auto, using(crate::proofs::NumberLaws::too_great, crate::proofs::NumberLaws::one_more))]
fn value_of(digits: &[u8]) -> Option<u64>
    ensures { SomeIff result (value_of digits.now < 2 ^ 64) (value_of digits.now) }
{
    let mut value = 0;
    for digit in digits {
        value = with_digit(value, *digit)?;
    }
    Some(value)
}

/// The number with one more digit, where that is a u64.
fn with_digit(number: u64, digit: u8) -> Option<u64>
    ensures { SomeIff result (with_digit number digit < 2 ^ 64) (with_digit number digit) }
{
    let tens = number.checked_mul(10)?;
    tens.checked_add(u64::from(digit.saturating_sub(b'0')))
}
