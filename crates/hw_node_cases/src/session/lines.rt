//! Lines of words.

use crate::session::nodes::session_text;
use crate::session::reunions::reunion_text;
use crate::session::services::service_text;
use hw_case_words::Answer;
use hw_session::Node;

/// Answers a line.
pub fn tell(answer: &mut Answer, nodes: &mut Vec<Node>, line: &str) {
    let words = answer.words(line, ' ');
    match words.as_slice() {
        ["session", words @ ..] => session_text(answer, nodes, words),
        ["service", words @ ..] => service_text(answer, words),
        ["reunion", words @ ..] => reunion_text(answer, words),
        _ => answer.refuse(),
    }
}
