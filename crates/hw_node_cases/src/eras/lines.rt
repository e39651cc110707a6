//! Lines of words.

use crate::eras::acts::{act, begin};
use crate::eras::audits::audited;
use crate::eras::configs::next;
use crate::eras::runs::logs_text;
use hw_case_words::Answer;
use hw_eras::Eras;

/// Answers a line, of the eras that began last.
pub fn tell(answer: &mut Answer, nodes: &mut Vec<Eras>, line: &str) {
    let words = answer.words(line, ' ');
    match words.as_slice() {
        ["#", ..] => answer.put(line),
        ["audit", words @ ..] => audited(answer, nodes, words),
        ["logs", kind, words @ ..] => logs_text(answer, kind, words),
        [_, config, block, value] => next(answer, config, block, value),
        ["begin", config] => begin(answer, nodes, config),
        [kind, words @ ..] => asked(answer, nodes.as_mut_slice(), kind, words),
        [] => answer.refuse(),
    }
}

/// The answer of the eras that began last.
fn asked(answer: &mut Answer, nodes: &mut [Eras], kind: &str, words: &[&str]) {
    match nodes {
        [.., eras] => act(answer, eras, kind, words),
        [] => answer.put("no eras"),
    }
}
