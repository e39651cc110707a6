//! What scripts print, one script for each line.
//!
//! | Line | Script |
//! |---|---|
//! | `file NAME` | the file of that name in `data/` |
//! | `text LINES` | these lines, a `|` between them |
//!
//! The line is repeated before the output; for a text outside the grammar the output is `line N`.
//!
//! Covered, with the answers of an independent implementation:
//!
//! - thirteen worked scripts in `data/`, which are the picture book of the definitions;
//! - 22 scripts that show one thing each;
//! - 88 small texts, most of them with a line outside the grammar.

mod cases;

use hw_case_words::Answer;

/// Answers a line: the line again, and what its script prints.
pub fn tell(rt: HostRuntime, answer: &mut Answer, line: &str) {
    answer.put("> ");
    answer.put(line);
    answer.put("\n");
    if let Some((kind, word)) = line.split_once(' ') {
        cases::tell(rt, answer, kind, word);
    }
    answer.put("\n");
}
