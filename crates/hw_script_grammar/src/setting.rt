//! What one settings line sets.

ghost use Rattle.std.specs.Prelude.{◌≡◌, ◌+◌, ◌^◌};
ghost use Rattle.hw_text.specs.Numbers.{number_below};
ghost use Rattle.hw_script_grammar.specs.Words.{next_word, one_or_more};
ghost use Rattle.hw_script_grammar.specs.Settings.{kind_of, one_number, two_exponents, setting_behind, setting_of};
ghost use Rattle.hw_script_grammar.specs.Answers.{Gives};

use crate::fault::Fault;
use crate::lists::{counts, weights};
use crate::wording::is_word;
use crate::words::Words;
use hw_types::{IndexList, WeightList};
use std::alloc::Global;

/// The kinds of settings lines.
#[derive(Clone, Copy, Debug, PartialEq, Eq)]
pub(crate) enum Kind {
    Weights,
    Threshold,
    Levels,
    Exponents,
    Leaders,
    Records,
    Parked,
    End,
}

/// What one settings line sets.
#[derive(Drop)]
pub(crate) enum Setting {
    Weights(WeightList),
    Threshold(u64),
    Levels(u8),
    Exponents(u8, u8),
    Leaders(IndexList),
    Records(u32),
    Parked(u32),
    End(u64),
}

/// Reads the words of a settings line. `Grammar` where the line is outside the grammar.
#[tactic(auto, unfolding(crate::specs::Settings::setting_of))]
pub(crate) fn setting_of(alloc: Global, words: &mut Words<'_>) -> Result<Setting, Fault>
    ensures { Gives (λ setting. setting) result (setting_of words.old) }
{
    let word = words.word()?;
    match kind_of(word) {
        Some(kind) => setting_behind(alloc, kind, words),
        None => Err(Fault::Grammar),
    }
}

/// The kind of a settings line by its first word.
#[tactic(auto, unfolding(crate::specs::Settings::kind_of))]
fn kind_of(word: &[u8]) -> Option<Kind>
    ensures { result ≡ kind_of word.now }
{
    if is_word(word, "weights") {
        Some(Kind::Weights)
    } else if is_word(word, "ftt") {
        Some(Kind::Threshold)
    } else if is_word(word, "levels") {
        Some(Kind::Levels)
    } else if is_word(word, "exponents") {
        Some(Kind::Exponents)
    } else if is_word(word, "leaders") {
        Some(Kind::Leaders)
    } else if is_word(word, "records") {
        Some(Kind::Records)
    } else if is_word(word, "parked") {
        Some(Kind::Parked)
    } else if is_word(word, "end") {
        Some(Kind::End)
    } else {
        None
    }
}

/// What a line of this kind sets, by its words after the first.
#[tactic(auto, unfolding(crate::specs::Settings::setting_behind))]
fn setting_behind(alloc: Global, kind: Kind, words: &mut Words<'_>) -> Result<Setting, Fault>
    ensures { Gives (λ setting. setting) result (setting_behind kind words.old) }
{
    match kind {
        Kind::Weights => Ok(Setting::Weights(weights(alloc, words)?)),
        Kind::Threshold => Ok(Setting::Threshold(one_number(words)?)),
        Kind::Levels => Ok(Setting::Levels(one_byte(words)?)),
        Kind::Exponents => two_exponents(words),
        Kind::Leaders => Ok(Setting::Leaders(counts(alloc, words)?)),
        Kind::Records => Ok(Setting::Records(one_count(words)?)),
        Kind::Parked => Ok(Setting::Parked(one_count(words)?)),
        Kind::End => Ok(Setting::End(one_number(words)?)),
    }
}

/// Reads the least and the greatest exponent, and no more.
#[tactic(auto, unfolding(crate::specs::Settings::two_exponents))]
fn two_exponents(words: &mut Words<'_>) -> Result<Setting, Fault>
    ensures { Gives (λ setting. setting) result (two_exponents words.old) }
{
    let least = words.number(u64::from(u8::MAX))?;
    let greatest = one_byte(words)?;
    Ok(Setting::Exponents(least as u8, greatest))
}

/// Reads one number below 2^64, and no more.
#[tactic(auto, unfolding(crate::specs::Settings::one_number))]
fn one_number(words: &mut Words<'_>) -> Result<u64, Fault>
    ensures { Gives (λ n. n) result (one_number (2 ^ 64) words.old) }
{
    let number = words.number(u64::MAX)?;
    words.end()?;
    Ok(number)
}

/// Reads one number below 2^32, and no more.
#[tactic(auto, unfolding(crate::specs::Settings::one_number))]
fn one_count(words: &mut Words<'_>) -> Result<u32, Fault>
    ensures { Gives (λ n. n) result (one_number (2 ^ 32) words.old) }
{
    let number = words.number(u64::from(u32::MAX))?;
    words.end()?;
    Ok(number as u32)
}

/// Reads one number below 256, and no more.
#[tactic(auto, unfolding(crate::specs::Settings::one_number))]
fn one_byte(words: &mut Words<'_>) -> Result<u8, Fault>
    ensures { Gives (λ n. n) result (one_number (2 ^ 8) words.old) }
{
    let number = words.number(u64::from(u8::MAX))?;
    words.end()?;
    Ok(number as u8)
}
