//! The summit of a decided block, as a node gives it.

use hw_case_words::{Answer, number, small};
use hw_core::Core;
use hw_explain::explain_line;
use hw_types::Bytes;

/// Whether the decided block of each of these places, counted from 0, has a summit now.
pub fn summit(answer: &mut Answer, core: &mut Core, words: &[&str]) {
    for word in words {
        put_asked(answer, "summit ", word);
        answer.put(" ");
        put_stands(answer, core, number(word));
        answer.put("\n");
    }
}

fn put_asked(answer: &mut Answer, kind: &str, word: &str) {
    answer.put(kind);
    answer.put(word);
}

fn put_stands(answer: &mut Answer, core: &mut Core, index: u64) {
    if index < core.decision_count() {
        answer.truth(core.summit_now(index));
    } else {
        answer.put("undecided");
    }
}

/// Where each validator starts in the committee of this level, of the summit that was asked for last or of
/// that of a decided block.
pub fn starts(answer: &mut Answer, core: &mut Core, words: &[&str]) {
    match words {
        [level] => shown_starts(answer, core, level),
        [level, "of", index] => block_starts(answer, core, level, index),
        _ => answer.refuse(),
    }
}

fn shown_starts(answer: &mut Answer, core: &Core, word: &str) {
    put_asked(answer, "starts ", word);
    for validator in 0..core.state().config().weights.len() {
        put_start(answer, core, small(word), validator);
    }
    answer.put("\n");
}

fn put_start(answer: &mut Answer, core: &Core, level: u32, validator: usize) {
    match u32::try_from(validator) {
        Ok(validator) => put_optional(answer, core.summit_start(level, validator)),
        Err(_) => answer.refuse(),
    }
}

fn block_starts(answer: &mut Answer, core: &mut Core, word: &str, place: &str) {
    put_asked(answer, "starts ", word);
    put_asked(answer, " of ", place);
    let validators = core.state().config().weights.len();
    for validator in 0..validators {
        put_start_of(answer, core, number(place), small(word), validator);
    }
    answer.put("\n");
}

fn put_start_of(answer: &mut Answer, core: &mut Core, index: u64, level: u32, validator: usize) {
    match u32::try_from(validator) {
        Ok(validator) => put_optional(answer, start_of(core, index, level, validator)),
        Err(_) => answer.refuse(),
    }
}

/// None too where no block of that place is decided.
fn start_of(core: &mut Core, index: u64, level: u32, validator: u32) -> Option<u64> {
    if index < core.decision_count() {
        core.summit_start_of(index, level, validator)
    } else {
        None
    }
}

fn put_optional(answer: &mut Answer, start: Option<u64>) {
    answer.put(" ");
    match start {
        Some(start) => answer.number(start),
        None => answer.put("-"),
    }
}

/// The lines of the decided blocks of these places, which are there right after the vertex that decided them.
pub fn explain(answer: &mut Answer, core: &mut Core, words: &[&str]) {
    for word in words {
        put_asked(answer, "explain ", word);
        answer.put(" ");
        match explain_line(answer.alloc(), core, number(word)) {
            Ok(line) => put_line(answer, line),
            Err(_) => answer.refuse(),
        }
    }
}

/// The line, which ends itself.
fn put_line(answer: &mut Answer, line: Option<Bytes>) {
    match line {
        Some(line) => answer.characters(line.as_slice()),
        None => answer.put("-\n"),
    }
}
