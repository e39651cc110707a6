//! Configurations, and the leaders of their rounds.

ghost use Rattle.std.specs.Prelude.{◌≡◌, None};
ghost use Rattle.hw_types.specs.Limits.{config_fault};

use hw_case_words::{Answer, byte, number, small};
use hw_rounds::LeaderTable;
use hw_types::{Config, IndexList, Items, Leaders, WeightList};

/// The numbers of words `COUNTxNUMBER` joined by `+`.
fn numbers_of(answer: &mut Answer, word: &str) -> WeightList {
    let mut numbers = Items::new(answer.alloc());
    for part in word.split('+') {
        if let Some((count, of)) = part.split_once('x') {
            put_times(answer, &mut numbers, small(count), number(of));
        }
    }
    numbers
}

fn put_times(answer: &mut Answer, numbers: &mut WeightList, count: u32, of: u64) {
    for _ in 0..count {
        answer.push(numbers, of);
    }
}

fn entries_of(answer: &mut Answer, numbers: &WeightList) -> IndexList {
    let mut entries = Items::new(answer.alloc());
    for of in numbers.as_slice() {
        answer.push(&mut entries, u32::try_from(*of).unwrap_or(u32::MAX));
    }
    entries
}

/// A key of 64 digits, or else a table.
fn leaders_of(answer: &mut Answer, word: &str) -> Leaders {
    if word.len() != 64 {
        let numbers = numbers_of(answer, word);
        return Leaders::Table(entries_of(answer, &numbers));
    }
    let bytes = answer.bytes(word);
    match bytes.as_slice().first_chunk::<32>() {
        Some(key) => Leaders::Drawn(*key),
        None => Leaders::Table(Items::new(answer.alloc())),
    }
}

/// A configuration with these weights and leaders.
pub fn config_of(answer: &mut Answer, weights: &str, leaders: &str) -> Config {
    let weights = numbers_of(answer, weights);
    Config {
        weights,
        ftt: 0,
        levels: 1,
        min_exponent: 4,
        max_exponent: 8,
        leaders: leaders_of(answer, leaders),
        max_records: 32_768,
        max_parked: 4_096,
        end: None,
    }
}

/// Whether a configuration keeps all limits, or the first one that it breaks.
pub fn checked(answer: &mut Answer, weights: &str, words: &[&str]) {
    let [ftt, levels, least, greatest, leaders, records, most] = words else {
        return answer.refuse();
    };
    let mut config = config_of(answer, weights, leaders);
    config.ftt = number(ftt);
    config.levels = byte(levels);
    config.min_exponent = byte(least);
    config.max_exponent = byte(greatest);
    config.max_records = small(records);
    config.max_parked = small(most);
    answer.debug(&config.check());
}

/// The threshold, the levels, and the least and the greatest exponent, after their words.
pub fn limits_text(answer: &mut Answer, ftt: u64, levels: u8, least: u8, greatest: u8) {
    answer.labelled(" threshold ", ftt);
    answer.labelled(" levels ", levels as u64);
    answer.labelled(" exponents ", least as u64);
    answer.labelled(" ", greatest as u64);
}

pub fn led(answer: &mut Answer, weights: &str, leaders: &str, count: u64) {
    let config = config_of(answer, weights, leaders);
    match config.check() {
        Ok(()) => led_in(answer, &config, count),
        Err(fault) => answer.debug(&fault),
    }
}

/// The leaders in an instance that keeps its limits.
fn led_in(answer: &mut Answer, config: &Config, count: u64)
    requires { config_fault config.now ≡ None }
{
    match LeaderTable::new(answer.alloc(), config) {
        Ok(table) => leaders_text(answer, &table, count),
        Err(_) => answer.refuse(),
    }
}

fn leaders_text(answer: &mut Answer, table: &LeaderTable, count: u64) {
    for place in 0..count.min(1_000) {
        answer.number(table.leader(16 * place) as u64);
        answer.put(" ");
    }
}
