//! Lines of words.

use crate::meeting::exchange::heard;
use crate::meeting::frames::frame_text;
use crate::meeting::pairs::met;
use crate::meeting::sessions::session_text;
use hw_case_words::{Answer, number, small};
use hw_core::Core;

/// Answers a line.
pub fn tell(answer: &mut Answer, nodes: &mut Vec<Core>, line: &str) {
    let words = answer.words(line, ' ');
    match words.as_slice() {
        [_, validators, body] => frame_text(answer, small(validators), body),
        ["meet", config, left, right] => met(answer, nodes, config, left, right),
        [_, validators, piece, said] => {
            heard(answer, small(validators), number(piece) as usize, said);
        }
        [_, side, config, words @ ..] => session_text(answer, nodes, side, config, words),
        _ => answer.refuse(),
    }
}
