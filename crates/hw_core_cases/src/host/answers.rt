//! Answers of the outside as words.

use hw_case_words::{Answer, number};
use hw_io::IoFault;
use std::io;

/// Puts the word last, with a space before it where it isn't the first.
pub fn put_word(answer: &mut Answer, word: &str) {
    if !answer.text.is_empty() {
        answer.put(" ");
    }
    answer.put(word);
}

/// Puts `done`, or what failed.
pub fn put_done(answer: &mut Answer, outcome: Result<(), IoFault>) {
    match outcome {
        Ok(()) => put_word(answer, "done"),
        Err(fault) => put_fault(answer, fault),
    }
}

/// Puts whether a file is there, or what failed.
pub fn put_found(answer: &mut Answer, outcome: Result<bool, IoFault>) {
    match outcome {
        Ok(true) => put_word(answer, "there"),
        Ok(false) => put_word(answer, "missing"),
        Err(fault) => put_fault(answer, fault),
    }
}

/// Puts the number of bytes, or what failed.
pub fn put_count(answer: &mut Answer, outcome: Result<usize, IoFault>) {
    match outcome {
        Ok(count) => {
            put_word(answer, "");
            answer.number(count as u64);
        }
        Err(fault) => put_fault(answer, fault),
    }
}

fn put_fault(answer: &mut Answer, fault: IoFault) {
    match fault {
        IoFault::Failed => put_word(answer, "failed"),
        IoFault::OutOfMemory => put_word(answer, "memory"),
    }
}

/// Puts what the system answers.
pub fn put_system(answer: &mut Answer, outcome: io::Result<()>) {
    put_word(answer, if outcome.is_ok() { "done" } else { "failed" });
}

/// Puts the answer to a read, and the bytes of its buffer.
pub fn put_read(answer: &mut Answer, outcome: Result<usize, IoFault>, buf: &[u8]) {
    put_count(answer, outcome);
    answer.put(":");
    put_bytes(answer, buf);
}

/// Puts the bytes as characters, with `/` for a line feed and `.` for 0.
pub fn put_bytes(answer: &mut Answer, bytes: &[u8]) {
    for byte in bytes {
        answer.character(shown(*byte));
    }
}

fn shown(byte: u8) -> u8 {
    match byte {
        b'\n' => b'/',
        0 => b'.',
        _ => byte,
    }
}

/// Puts whether the number is within these bounds.
pub fn put_within(answer: &mut Answer, found: u64, bounds: &str) {
    let Some((least, most)) = bounds.split_once('-') else {
        return answer.refuse();
    };
    let (least, most) = (number(least), number(most));
    if found < least {
        put_word(answer, "below ");
        answer.number(least);
    } else if found > most {
        put_word(answer, "above ");
        answer.number(most);
    } else {
        put_word(answer, "");
        answer.labelled("from ", least);
        answer.labelled(" to ", most);
    }
}
