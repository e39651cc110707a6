//! The lines of a text, one after another.

ghost use Rattle.std.specs.Prelude.{◌≡◌, ◌+◌, ◌∷◌, [], length, true, false, Some, MatchOption, IfNone};
ghost use Rattle.hw_script_grammar.specs.{Texts.{texts_of}, Lines.{lines_in, is_skipped, begin_with_setting}, Wording.{is_setting}};

use crate::words::{Words, cut};
use std::marker::Model;

/// The lines of a text that were not read yet.
#[derive(Drop)]
pub(crate) struct Lines<'a> {
    /// How many lines were read.
    before: u64,
    rest: Option<&'a [u8]>,
}

impl<'a> Model for Lines<'a> {
    ghost use Rattle.std.specs.{Prelude.{◌+◌, ◌≤◌, ◌^◌}, Option.{option_copied}};
    ghost use Rattle.hw_script_grammar.specs.Texts.{Rest, texts_of, most_lines};

    ghost Value = { Rest };

    ghost view = { λ lines. record { before = lines.before; texts = texts_of (option_copied lines.rest) } };

    ghost invariant = { λ lines. lines.before + most_lines (option_copied lines.rest) ≤ 2 ^ 63 };
}

/// A line that isn't skipped, with its number, counted from 1.
#[derive(Drop)]
pub(crate) struct Line<'a> {
    pub(crate) number: u64,
    pub(crate) words: Words<'a>,
}

impl<'a> Lines<'a> {
    /// All lines of a text.
    pub(crate) fn new(text: &'a [u8]) -> Lines<'a>
        ensures { result ≡ record { before = 0; texts = texts_of (Some text.now) } }
    {
        Lines {
            before: 0,
            rest: Some(text),
        }
    }

    /// The number of the line after those that were read.
    pub(crate) fn next_number(&self) -> u64
        ensures { result ≡ self.now.before + 1 }
    {
        self.before + 1
    }

    /// Takes the next line, if there is one, and answers its text.
    #[tactic(auto, using(crate::proofs::Pieces::one_text), unfolding(crate::specs::Texts::texts_of))]
    fn text(&mut self) -> Option<&'a [u8]>
        ensures text { MatchOption result ((self.old.texts ≡ []) × (self.new ≡ self.old)) (λ text. (self.old.texts ≡ text.now ∷ self.new.texts) × (self.new.before ≡ self.old.before + 1)) }
        ensures number { self.new.before + length self.new.texts ≡ self.old.before + length self.old.texts }
    {
        let Some(rest) = self.rest else {
            return None;
        };
        let (text, behind) = cut(rest, b'\n');
        if text.is_empty() && behind.is_none() {
            return None;
        }
        self.before += 1;
        self.rest = behind;
        Some(text)
    }

    /// Takes the next line that isn't skipped, if there is one.
    #[tactic(auto, using(crate::proofs::LineLaws::line_taken, crate::proofs::LineLaws::none_left))]
    pub(crate) fn next(&mut self) -> Option<Line<'a>>
        ensures line { MatchOption result (lines_in self.old ≡ []) (λ line. lines_in self.old ≡ line ∷ lines_in self.new) }
        ensures end { IfNone result (self.new.texts ≡ []) }
        ensures number { self.new.before + length self.new.texts ≡ self.old.before + length self.old.texts }
    {
        while let Some(text) = self.text() {
            if !is_skipped(text) {
                return Some(Line {
                    number: self.before,
                    words: Words::new(text),
                });
            }
        }
        None
    }

    /// Takes the next line that isn't skipped, if it is a settings line.
    #[tactic(auto, using(crate::proofs::LineLaws::none_left))]
    pub(crate) fn setting(&mut self) -> Option<Line<'a>>
        ensures line { MatchOption result ((lines_in self.new ≡ lines_in self.old) × (begin_with_setting (lines_in self.old) ≡ false)) (λ line. (lines_in self.old ≡ line ∷ lines_in self.new) × (is_setting line.words ≡ true)) }
        ensures number { self.new.before + length self.new.texts ≡ self.old.before + length self.old.texts }
    {
        let (before, rest) = (self.before, self.rest);
        let Some(line) = self.next() else {
            return None;
        };
        if !line.words.is_setting() {
            self.before = before;
            self.rest = rest;
            return None;
        }
        Some(line)
    }
}

/// Whether the reader skips the line: it is empty or begins with `#`.
fn is_skipped(text: &[u8]) -> bool
    ensures { result ≡ is_skipped text.now }
{
    match text {
        [] => true,
        [first, ..] => *first == b'#',
    }
}
