//! Answers of the outside as words.

use hw_case_words::Answer;
use hw_io::IoFault;

pub type Count = Result<usize, IoFault>;

pub fn done(outcome: Result<(), IoFault>) -> Count {
    match outcome {
        Ok(()) => Ok(0),
        Err(fault) => Err(fault),
    }
}

pub fn asked(outcome: Result<bool, IoFault>) -> Count {
    match outcome {
        Ok(false) => Ok(0),
        Ok(true) => Ok(1),
        Err(fault) => Err(fault),
    }
}

/// The answer in a word: a number, `failed` or `memory`.
pub fn put_count(answer: &mut Answer, count: Count) {
    match count {
        Ok(count) => answer.number(count as u64),
        Err(IoFault::Failed) => answer.put("failed"),
        Err(IoFault::OutOfMemory) => answer.put("memory"),
    }
    answer.put(" ");
}

/// The bytes of a file, or that there is none.
pub fn put_file(answer: &mut Answer, bytes: Option<&[u8]>) {
    match bytes {
        None => answer.put("none"),
        Some(bytes) => answer.hex(bytes),
    }
}
