//! Lists as words.

use hw_case_words::Answer;
use hw_meeting::LaneSummary;
use std::fmt::Display;

/// The summary of each validator.
pub fn put_parts(answer: &mut Answer, parts: &[LaneSummary]) {
    let mut between = "";
    for part in parts {
        answer.put(between);
        put_part(answer, part);
        between = ",";
    }
}

fn put_part(answer: &mut Answer, part: &LaneSummary) {
    match part {
        LaneSummary::Nothing => answer.put("-"),
        LaneSummary::Tangled => answer.put("!"),
        LaneSummary::Line(count, tip) => {
            answer.show(count);
            answer.put(":");
            answer.hex(tip.0.as_slice());
        }
    }
}

/// Numbers of validators, or places in a journal.
pub fn put_numbers<T: Display>(answer: &mut Answer, numbers: &[T]) {
    let mut between = "";
    for number in numbers {
        answer.put(between);
        answer.show(number);
        between = ",";
    }
}
