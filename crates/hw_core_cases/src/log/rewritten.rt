//! Logs that are written anew, over files in memory.

use hw_case_words::{Answer, number};
use hw_doubles::MemFiles;
use hw_log::{LogError, RewriteFault, mend, migrate};
use std::alloc::Global;

/// A read of the files gives at most this many bytes.
const PIECE: usize = 50;

/// No run makes as many calls of the files.
const MOST_CALLS: u64 = 200;

/// What a run answers, the faults counted, and what the new file holds then.
pub fn rewritten(answer: &mut Answer, command: &str, call: &str, left: &str, new: &str, log: &str) {
    let mut files = MemFiles::in_pieces(answer.alloc(), PIECE);
    put_file(answer, &mut files, "LOG", log);
    put_file(answer, &mut files, "NEW", new);
    if let Ok(call) = call.parse() {
        plan(answer, &mut files, call, number(left) as usize);
    }
    match run(answer.alloc(), &mut files, command) {
        Ok(count) => answer.number(count),
        Err(fault) => answer.debug(&fault),
    }
    files_text(answer, &files);
}

/// The faults counted, and what the new file holds.
fn files_text(answer: &mut Answer, files: &MemFiles) {
    answer.labelled(" faults ", files.read_faults());
    answer.labelled(" ", files.append_faults());
    answer.put(" ");
    match files.file("NEW") {
        Some(bytes) => answer.hex(bytes),
        None => answer.put("-"),
    }
}

/// How many runs end with a failed append, and how many with neither that nor a failed read, where each call
/// of the files fails in turn.
pub fn failed_in_turn(answer: &mut Answer, command: &str, log: &str) {
    let mut appends = 0u64;
    let mut others = 0u64;
    for call in 0..MOST_CALLS {
        match failed_at(answer, command, log, call) {
            None => break,
            Some(Err(RewriteFault::Log(LogError::ReadFault))) => {}
            Some(Err(RewriteFault::Log(LogError::WriteFault))) => {
                appends = appends.saturating_add(1);
            }
            Some(_) => others = others.saturating_add(1),
        }
    }
    answer.labelled("appends ", appends);
    answer.labelled(" others ", others);
}

/// What a run answers whose call of this number fails, None where it doesn't come to that call.
fn failed_at(
    answer: &mut Answer,
    command: &str,
    log: &str,
    call: u64,
) -> Option<Result<u64, RewriteFault>> {
    let mut files = MemFiles::in_pieces(answer.alloc(), PIECE);
    put_file(answer, &mut files, "LOG", log);
    plan(answer, &mut files, call, 0);
    let outcome = run(answer.alloc(), &mut files, command);
    if call >= files.calls() {
        None
    } else {
        Some(outcome)
    }
}

/// Mends the log, or else migrates it.
fn run(alloc: Global, files: &mut MemFiles, command: &str) -> Result<u64, RewriteFault> {
    if command == "mend" {
        mend(alloc, files, "LOG", "NEW")
    } else {
        migrate(alloc, files, "LOG", "NEW")
    }
}

fn plan(answer: &mut Answer, files: &mut MemFiles, call: u64, left: usize) {
    let planned = files.fail_at(call, left);
    answer.keep(planned);
}

/// Puts the file of that name there, unless the word is `-`.
fn put_file(answer: &mut Answer, files: &mut MemFiles, name: &str, word: &str) {
    if word != "-" {
        let bytes = answer.bytes(word);
        let put = files.put(name, bytes.as_slice());
        answer.keep(put);
    }
}
