//! The words of a line, one after another.

ghost use Rattle.std.specs.Prelude.{◌≡◌, ◌+◌, ◌≤◌, ◌==◌, ◌∷◌, [], length, drop, Some, None, MatchOption, IfOk, if◌then◌else◌};
ghost use Rattle.std.specs.List.{slice_split, position};
ghost use Rattle.std.specs.Option.{option_copied};
ghost use Rattle.hw_script_grammar.specs.Words.{words_of, pieces, next_word, begins_with, keyword, number, number_behind, is_end, nothing_more};
ghost use Rattle.hw_script_grammar.specs.Wording.{is_setting};
ghost use Rattle.hw_script_grammar.specs.Texts.{most_lines};
ghost use Rattle.hw_script_grammar.specs.Answers.{Gives};

use crate::fault::Fault;
use crate::wording::{is_setting_word, is_word};
use hw_text::number_up_to;
use std::marker::Model;

/// The words of a line that were not read yet.
#[derive(Drop)]
pub(crate) struct Words<'a> {
    rest: Option<&'a [u8]>,
}

impl<'a> Model for Words<'a> {
    ghost use Rattle.std.specs.{Prelude.{List, ℕ}, Option.{option_copied}};
    ghost use Rattle.hw_script_grammar.specs.Words.{pieces};

    ghost Value = { List (List ℕ) };

    ghost view = { λ words. pieces 32 (option_copied words.rest) };
}

impl<'a> Words<'a> {
    /// All words of a line.
    pub(crate) fn new(line: &'a [u8]) -> Words<'a>
        ensures { result ≡ words_of line.now }
    {
        Words { rest: Some(line) }
    }

    /// Takes the next word, if there is one.
    pub(crate) fn next(&mut self) -> Option<&'a [u8]>
        ensures { MatchOption result ((self.old ≡ []) × (self.new ≡ [])) (λ word. self.old ≡ word.now ∷ self.new) }
    {
        let rest = self.rest?;
        let (word, behind) = cut(rest, b' ');
        self.rest = behind;
        Some(word)
    }

    /// Takes the next word. `Grammar` where there is none.
    pub(crate) fn word(&mut self) -> Result<&'a [u8], Fault>
        ensures { Gives (λ word. (word.now, self.new)) result (next_word self.old) }
    {
        match self.next() {
            Some(word) => Ok(word),
            None => Err(Fault::Grammar),
        }
    }

    /// Whether there are no more words.
    #[tactic(auto, using(crate::proofs::Pieces::some_piece))]
    pub(crate) fn is_end(&self) -> bool
        ensures { result ≡ is_end self.now }
    {
        self.rest.is_none()
    }

    /// Whether these are the words of a settings line.
    pub(crate) fn is_setting(&self) -> bool
        ensures { result ≡ is_setting self.now }
    {
        match self.rest {
            None => false,
            Some(rest) => is_setting_word(cut(rest, b' ').0),
        }
    }

    /// Takes this word if it comes next, and answers whether it did.
    pub(crate) fn skip(&mut self, word: &str) -> bool
        ensures told { result ≡ begins_with word.now self.old }
        ensures left { self.new ≡ (if begins_with word.now self.old then drop 1 self.old else self.old) }
    {
        let Some(rest) = self.rest else {
            return false;
        };
        let (first, behind) = cut(rest, b' ');
        if !is_word(first, word) {
            return false;
        }
        self.rest = behind;
        true
    }

    /// Takes this word. `Grammar` where another word or none comes next.
    #[tactic(auto, unfolding(crate::specs::Words::keyword))]
    pub(crate) fn keyword(&mut self, word: &str) -> Result<(), Fault>
        ensures { Gives (λ _. self.new) result (keyword word.now self.old) }
    {
        if self.skip(word) {
            Ok(())
        } else {
            Err(Fault::Grammar)
        }
    }

    /// Takes a number that is at most this. `Grammar` where the next word is none.
    #[tactic(auto, unfolding(crate::specs::Words::number))]
    pub(crate) fn number(&mut self, most: u64) -> Result<u64, Fault>
        ensures number { Gives (λ n. (n, self.new)) result (number (most + 1) self.old) }
        ensures most { IfOk result (λ n. n ≤ most) }
    {
        let word = self.word()?;
        match number_up_to(most, word) {
            Some(number) => Ok(number),
            None => Err(Fault::Grammar),
        }
    }

    /// Takes this word and a number that is at most this.
    #[tactic(auto, unfolding(crate::specs::Words::number_behind))]
    pub(crate) fn number_behind(&mut self, word: &str, most: u64) -> Result<u64, Fault>
        ensures number { Gives (λ n. (n, self.new)) result (number_behind word.now (most + 1) self.old) }
        ensures most { IfOk result (λ n. n ≤ most) }
    {
        self.keyword(word)?;
        self.number(most)
    }

    /// Checks that there are no more words. `Grammar` where there are.
    pub(crate) fn end(&self) -> Result<(), Fault>
        ensures { Gives (λ _. self.now) result (nothing_more self.now) }
    {
        if self.is_end() {
            Ok(())
        } else {
            Err(Fault::Grammar)
        }
    }
}

/// The bytes before the first one that equals `at`, and those after it, where there is one.
#[tactic(auto, using(crate::proofs::Pieces::cut_nowhere, crate::proofs::Pieces::cut_there))]
pub(crate) fn cut(bytes: &[u8], at: u8) -> (&[u8], Option<&[u8]>)
    ensures pieces { slice_split (λ c. c == at) bytes.now ≡ result.0.now ∷ pieces at (option_copied result.1) }
    ensures lines { most_lines (option_copied result.1) + length result.0.now ≡ length bytes.now }
{
    match first_like(bytes, at) {
        None => (bytes, None),
        Some(place) => (&bytes[..place], Some(&bytes[place + 1..])),
    }
}

/// The place of the first byte that equals `at`.
fn first_like(bytes: &[u8], at: u8) -> Option<usize>
    ensures { result ≡ position (λ c. c == at) bytes.now }
{
    bytes.iter().position(|c| *c == at)
}
