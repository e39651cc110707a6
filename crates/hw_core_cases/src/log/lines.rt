//! Lines of words.

use crate::log::consumers::consumer_text;
use crate::log::doors::{door_text, paced_text, watched_text};
use crate::log::files::{buffered, files_text};
use crate::log::logs::{both, copied, counted, cuts, faults, missing};
use crate::log::rewritten::{failed_in_turn, rewritten};
use crate::log::sinks::{clock_text, sink_text};
use hw_case_words::{Answer, number};

/// Answers a line.
pub fn tell(answer: &mut Answer, line: &str) {
    let words = answer.words(line, ' ');
    match words.as_slice() {
        [kind, word] => of_one(answer, kind, word),
        [kind, first, second] => of_two(answer, kind, first, second),
        [kind, first, second, third, fourth] => {
            of_four(answer, kind, first, second, third, fourth);
        }
        _ => answer.refuse(),
    }
}

/// Answers a line with one word after its kind.
fn of_one(answer: &mut Answer, kind: &str, word: &str) {
    match kind {
        "cuts" => cuts(answer, word),
        "faults" => faults(answer, word),
        "other" => missing(answer, word),
        "files" => files_text(answer, word),
        "sink" => sink_text(answer, word.parse().ok()),
        "buffer" => buffered(answer, number(word) as usize),
        "clock" => clock_text(answer, word),
        _ => answer.refuse(),
    }
}

/// Answers a line with two words after its kind.
fn of_two(answer: &mut Answer, kind: &str, first: &str, second: &str) {
    match kind {
        "both" => both(answer, first, second),
        "faults" => failed_in_turn(answer, first, second),
        "sure" => door_text(answer, usize::MAX, "-", first, second),
        "watched" => watched_text(answer, first, second),
        "consumer" => consumer_text(answer, first, second),
        _ => answer.refuse(),
    }
}

/// Answers a line with four words after its kind.
fn of_four(answer: &mut Answer, kind: &str, first: &str, second: &str, third: &str, fourth: &str) {
    match kind {
        "count" => counted(answer, first, second, third, fourth),
        "copy" => copied(answer, first, second, third, fourth),
        "door" => door_text(answer, number(first) as usize, second, third, fourth),
        "paced" => paced_text(answer, number(first) as usize, second, third, fourth),
        _ => rewritten(answer, kind, first, second, third, fourth),
    }
}
