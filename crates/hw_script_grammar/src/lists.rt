//! Lists of words up to the end of a line, and what they mean.

ghost use Rattle.std.specs.Prelude.{◌^◌};
ghost use Rattle.hw_text.specs.Numbers.{number_below};
ghost use Rattle.hw_script_grammar.specs.{Words.{one_or_more, each}, Answers.{Gives}};

use crate::fault::Fault;
use crate::words::Words;
use hw_text::number_up_to;
use hw_types::{IndexList, Items, WeightList};
use std::alloc::Global;

/// How the words of a list are read.
pub(crate) trait Meaning {
    ghost use Rattle.std.specs.Prelude.{Option};
    ghost use Rattle.hw_script_grammar.specs.Words.{Word};

    type Item: Copy;

    /// For the prover: what one word means.
    ghost of: { Self → Word → Option Self.Item };

    /// What the word means. `Grammar` where it means nothing.
    fn read(&self, word: &[u8]) -> Result<Self::Item, Fault>
        ensures { Gives (λ item. item) result (of self.now word.now) };
}

/// Reads one or more words, up to the end of the line, and answers what they mean.
#[tactic(auto, using(crate::proofs::EachLaws::some_words, crate::proofs::EachLaws::no_words))]
pub(crate) fn one_or_more<M: Meaning>(
    alloc: Global,
    meaning: &M,
    words: &mut Words<'_>,
) -> Result<Items<M::Item>, Fault>
    ensures { Gives (λ list. list) result (one_or_more (M.of meaning.now) words.old) }
{
    if words.is_end() {
        return Err(Fault::Grammar);
    }
    each(alloc, meaning, words)
}

/// Reads all remaining words, and answers what each one means.
#[tactic(auto, using(crate::proofs::EachLaws::goes_on, crate::proofs::EachLaws::stops, crate::proofs::EachLaws::is_done, crate::proofs::EachLaws::begins))]
fn each<M: Meaning>(
    alloc: Global,
    meaning: &M,
    words: &mut Words<'_>,
) -> Result<Items<M::Item>, Fault>
    ensures { Gives (λ list. list) result (each (M.of meaning.now) words.old) }
{
    let mut list = Items::new(alloc);
    while let Some(word) = words.next() {
        list.push(meaning.read(word)?)?;
    }
    Ok(list)
}

/// Reads one or more numbers below 2^64.
pub(crate) fn weights(alloc: Global, words: &mut Words<'_>) -> Result<WeightList, Fault>
    ensures { Gives (λ list. list) result (one_or_more (number_below (2 ^ 64)) words.old) }
{
    one_or_more(alloc, &Weight, words)
}

/// Reads one or more numbers below 2^32.
pub(crate) fn counts(alloc: Global, words: &mut Words<'_>) -> Result<IndexList, Fault>
    ensures { Gives (λ list. list) result (one_or_more (number_below (2 ^ 32)) words.old) }
{
    one_or_more(alloc, &Count, words)
}

/// Each word means a number below 2^64.
struct Weight;

impl Meaning for Weight {
    type Item = u64;

    ghost of = { λ _. number_below (2 ^ 64) };

    fn read(&self, word: &[u8]) -> Result<u64, Fault> {
        number_up_to(u64::MAX, word).ok_or(Fault::Grammar)
    }
}

/// Each word means a number below 2^32.
struct Count;

impl Meaning for Count {
    type Item = u32;

    ghost of = { λ _. number_below (2 ^ 32) };

    fn read(&self, word: &[u8]) -> Result<u32, Fault> {
        let number = number_up_to(u64::from(u32::MAX), word).ok_or(Fault::Grammar)?;
        Ok(number as u32)
    }
}
