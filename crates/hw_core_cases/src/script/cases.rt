//! The lines.

use hw_case_words::{Answer, lines_of};
use hw_script::{ScriptError, run_script};
use std::fs;

/// What the script of this word prints.
pub fn tell(rt: HostRuntime, answer: &mut Answer, kind: &str, word: &str) {
    let text = if kind == "file" {
        read(rt, answer, word)
    } else {
        lines_of(answer, word, b'|')
    };
    run(answer, text.as_slice());
}

/// The output, or the number of the line that is outside the grammar.
fn run(answer: &mut Answer, text: &[u8]) {
    match run_script(answer.alloc(), text) {
        Ok(output) => answer.utf8(output.as_slice()),
        Err(ScriptError::Line(number)) => {
            answer.labelled("line ", number as u64);
            answer.put("\n");
        }
        Err(ScriptError::OutOfMemory) => answer.refuse(),
    }
}

/// The bytes of a file.
fn read(rt: HostRuntime, answer: &mut Answer, name: &str) -> Vec<u8> {
    match fs::read(&rt, name) {
        Ok(bytes) => bytes,
        Err(_) => {
            answer.refuse();
            Vec::new(answer.alloc())
        }
    }
}
