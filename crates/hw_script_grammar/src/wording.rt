//! Names, values, and the words that are neither.

ghost use Rattle.std.specs.{Prelude.{◌≡◌, bytes_eq}, List.{list_all}};
ghost use Rattle.hw_script_grammar.specs.Words.{words_of};
ghost use Rattle.hw_script_grammar.specs.Wording.{is_one_of, is_reserved, is_setting_word, is_line_word, is_answer_word, is_lower, is_upper, is_name_byte, is_value_byte, is_name, is_value};

use crate::words::Words;
use hw_text::is_digit;

/// The words that begin a settings line.
const SETTING_WORDS: &[u8] = b"weights ftt levels exponents leaders records parked end";

/// The words of the other lines, and of what is printed.
const LINE_WORDS: &[u8] =
    b"unit by at exp seq cites block endorsed evidence of deliver endorse show fork panorama faulty final";

/// The further words of answers.
const ANSWER_WORDS: &[u8] =
    b"admitted dropped repeat refused local pair creator sequence instance same clash full check";

/// The most bytes of a name.
const MAX_NAME: usize = 16;

/// The most bytes of a value.
const MAX_VALUE: usize = 64;

/// Whether the word is this one.
pub(crate) fn is_word(word: &[u8], other: &str) -> bool
    ensures { result ≡ bytes_eq word.now other.now }
{
    word == other.as_bytes()
}

/// Whether the word begins a settings line.
#[tactic(auto, unfolding(crate::specs::Wording::is_setting_word))]
pub(crate) fn is_setting_word(word: &[u8]) -> bool
    ensures { result ≡ is_setting_word word.now }
{
    is_one_of(word, SETTING_WORDS)
}

/// Whether the word may be a name: a lower-case letter and up to 15 lower-case letters and digits, but no word of the
/// language.
#[tactic(auto, unfolding(crate::specs::Wording::is_name))]
pub(crate) fn is_name(word: &[u8]) -> bool
    ensures { result ≡ is_name word.now }
{
    match word {
        [] => false,
        [first, rest @ ..] => {
            is_lower(*first) && rest.len() < MAX_NAME && are_name_bytes(rest) && !is_reserved(word)
        }
    }
}

/// Whether the word is a word of the language.
fn is_reserved(word: &[u8]) -> bool
    ensures { result ≡ is_reserved word.now }
{
    is_setting_word(word) || is_line_word(word) || is_answer_word(word)
}

/// Whether the word is one of the other lines, or of what is printed.
#[tactic(auto, unfolding(crate::specs::Wording::is_line_word))]
fn is_line_word(word: &[u8]) -> bool
    ensures { result ≡ is_line_word word.now }
{
    is_one_of(word, LINE_WORDS)
}

/// Whether the word is one of the further words of answers.
#[tactic(auto, unfolding(crate::specs::Wording::is_answer_word))]
fn is_answer_word(word: &[u8]) -> bool
    ensures { result ≡ is_answer_word word.now }
{
    is_one_of(word, ANSWER_WORDS)
}

/// Whether the word is one of these words, which single spaces separate.
#[tactic(auto, unfolding(crate::specs::Wording::is_one_of))]
fn is_one_of(word: &[u8], words: &[u8]) -> bool
    ensures { result ≡ is_one_of word.now (words_of words.now) }
{
    let mut words = Words::new(words);
    while let Some(other) = words.next() {
        if word == other {
            return true;
        }
    }
    false
}

/// Whether the word may be a value: 1 to 64 letters and digits.
#[tactic(auto, unfolding(crate::specs::Wording::is_value))]
pub(crate) fn is_value(word: &[u8]) -> bool
    ensures { result ≡ is_value word.now }
{
    1 <= word.len() && word.len() <= MAX_VALUE && are_value_bytes(word)
}

fn are_name_bytes(word: &[u8]) -> bool
    ensures { result ≡ list_all is_name_byte word.now }
{
    word.iter().all(|c| is_name_byte(*c))
}

fn are_value_bytes(word: &[u8]) -> bool
    ensures { result ≡ list_all is_value_byte word.now }
{
    word.iter().all(|c| is_value_byte(*c))
}

fn is_value_byte(c: u8) -> bool
    ensures { result ≡ is_value_byte c }
{
    is_name_byte(c) || is_upper(c)
}

fn is_name_byte(c: u8) -> bool
    ensures { result ≡ is_name_byte c }
{
    is_lower(c) || is_digit(c)
}

fn is_lower(c: u8) -> bool
    ensures { result ≡ is_lower c }
{
    b'a' <= c && c <= b'z'
}

fn is_upper(c: u8) -> bool
    ensures { result ≡ is_upper c }
{
    b'A' <= c && c <= b'Z'
}
