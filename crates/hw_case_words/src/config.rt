//! The configuration of a line that begins a case.

use crate::answer::Answer;
use crate::words::{after, number_of};
use hw_types::{Config, IndexList, Items, Leaders};
use std::str::FromStr;

/// The configuration that the words give: `weights` with its numbers, and `ftt`, `levels`, `exponents`, `leaders`,
/// `records`, `parked` and `end` with theirs, where they are there.
pub fn config_of(answer: &mut Answer, words: &[&str]) -> Config {
    let (min_exponent, max_exponent) = exponents_of(words);
    Config {
        weights: numbers_of(answer, after(words, "weights")),
        ftt: number_of(words, "ftt"),
        levels: levels_of(words),
        min_exponent,
        max_exponent,
        leaders: Leaders::Table(leaders_of(answer, after(words, "leaders"))),
        max_records: limit_of(words, "records", 100_000),
        max_parked: limit_of(words, "parked", 16_384),
        end: end_of(words),
    }
}

/// The leaders by round, up to the first word that is no number; validator 0 alone where none are given.
fn leaders_of(answer: &mut Answer, words: &[&str]) -> IndexList {
    let mut leaders = numbers_of(answer, words);
    if leaders.len() == 0 {
        answer.push(&mut leaders, 0);
    }
    leaders
}

/// The numbers up to the first word that is none.
fn numbers_of<T: FromStr<Err: Drop> + Drop>(answer: &mut Answer, words: &[&str]) -> Items<T> {
    let mut numbers = Items::new(answer.alloc());
    for word in words {
        let Ok(number) = word.parse::<T>() else {
            break;
        };
        answer.push(&mut numbers, number);
    }
    numbers
}

fn levels_of(words: &[&str]) -> u8 {
    match after(words, "levels") {
        [levels, ..] => levels.parse().unwrap_or(0),
        [] => 1,
    }
}

/// The least and the greatest exponent of a round; 4 and 8 where none are given.
fn exponents_of(words: &[&str]) -> (u8, u8) {
    match after(words, "exponents") {
        [least, greatest, ..] => (least.parse().unwrap_or(0), greatest.parse().unwrap_or(0)),
        _ => (4, 8),
    }
}

/// The limit after this word, else the usual one.
fn limit_of(words: &[&str], key: &str, usual: u32) -> u32 {
    match after(words, key) {
        [limit, ..] => limit.parse().unwrap_or(usual),
        [] => usual,
    }
}

fn end_of(words: &[&str]) -> Option<u64> {
    match after(words, "end") {
        [end, ..] => end.parse().ok(),
        [] => None,
    }
}
