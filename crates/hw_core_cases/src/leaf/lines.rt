//! Lines of words.

use crate::leaf::configs::{checked, led};
use crate::leaf::endorsing::{endorsed, endorsers};
use crate::leaf::keys::keyed;
use crate::leaf::numbers::{
    change_text, pair_text, pointers_text, quorum_text, round_text, way_text,
};
use crate::leaf::parking::{parked, parks};
use crate::leaf::printed::{digest_text, number_text, rule_text};
use crate::leaf::settings::settings_text;
use crate::leaf::spelled::{cut_text, patched_text, spelled_text};
use hw_case_words::{Answer, number, small};

/// Answers a line.
pub fn tell(answer: &mut Answer, line: &str) {
    match line.strip_prefix("settings ") {
        Some(text) => settings_text(answer, text),
        None => {
            let words = answer.words(line, ' ');
            tell_words(answer, words.as_slice());
        }
    }
}

/// Answers a line of these words.
fn tell_words(answer: &mut Answer, words: &[&str]) {
    match words {
        [kind, word] => of_one(answer, kind, word),
        [kind, first, words @ ..] => of_more(answer, kind, first, words),
        _ => answer.refuse(),
    }
}

/// Answers a line with one word after its kind.
fn of_one(answer: &mut Answer, kind: &str, word: &str) {
    match kind {
        "pointers" => pointers_text(answer, number(word)),
        "print" => number_text(answer, number(word)),
        "digest" => digest_text(answer, word),
        "rule" => rule_text(answer, small(word)),
        "parks" => parks(answer, small(word)),
        "endorsers" => endorsers(answer, small(word)),
        _ => spelled_text(answer, kind, word),
    }
}

/// Answers a line with more words after its kind.
fn of_more(answer: &mut Answer, kind: &str, first: &str, words: &[&str]) {
    match kind {
        "park" => parked(answer, small(first), words),
        "endorse" => endorsed(answer, small(first), words),
        "check" => checked(answer, first, words),
        "keys" => keyed(answer, first, words),
        "change" => change_text(answer, number(first), words),
        _ => of_few(answer, kind, first, words),
    }
}

/// Answers a line with two or three words after its kind.
fn of_few(answer: &mut Answer, kind: &str, first: &str, words: &[&str]) {
    match words {
        [second] => of_two(answer, kind, first, second),
        [second, third] => of_three(answer, kind, first, second, third),
        _ => answer.refuse(),
    }
}

/// Answers a line with two words after its kind.
fn of_two(answer: &mut Answer, kind: &str, first: &str, second: &str) {
    match kind {
        "cut" => cut_text(answer, first, second),
        "round" => round_text(answer, number(first), small(second)),
        _ => way_text(answer, number(first), number(second)),
    }
}

/// Answers a line with three words after its kind.
fn of_three(answer: &mut Answer, kind: &str, first: &str, second: &str, third: &str) {
    match kind {
        "quorum" => quorum_text(answer, number(first), number(second), small(third)),
        "leaders" => led(answer, first, second, number(third)),
        "pair" => pair_text(answer, small(first), second, third),
        _ => patched_text(answer, kind, first, second, third),
    }
}
