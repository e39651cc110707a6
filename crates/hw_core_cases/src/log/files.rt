//! Files in memory, and a buffer over them.

ghost use Rattle.std.specs.Prelude.{◌≤◌};

use crate::log::counts::{Count, asked, done, put_count, put_file};
use hw_case_words::Answer;
use hw_doubles::MemFiles;
use hw_io::{Files, ReadBuffer};

/// Reads a file before it is there, makes it by two appends, and reads it to its end.
const EXCHANGE: [&str; 9] = [
    "read", "exists", "begin", "abc", "de", "exists", "begin", "read", "read",
];

/// One call of each kind, of files with a log of three bytes.
const CALLS: [&str; 4] = ["exists", "begin", "read", "def"];

/// Makes the calls of these steps, and puts down what is answered to each.
fn walk(answer: &mut Answer, files: &mut MemFiles, buf: &mut [u8], steps: &[&str]) {
    for step in steps {
        put_count(answer, take_step(files, buf, step));
    }
}

/// What the call of this step is answered. A step of no kind is appended.
fn take_step(files: &mut MemFiles, buf: &mut [u8], step: &str) -> Count {
    match step {
        "read" => files.read(buf),
        "exists" => asked(files.exists("log")),
        "begin" => done(files.begin("log")),
        bytes => done(files.append("log", bytes.as_bytes())),
    }
}

/// An exchange with files of which no call is to fail, or, for a number, four calls of which the one of that number
/// fails.
pub fn files_text(answer: &mut Answer, kind: &str) {
    match kind {
        "memory" | "sure" => exchange_text(answer, kind),
        _ => planned_text(answer, kind.parse().unwrap_or(u64::MAX)),
    }
}

/// The answers of an exchange, what was read in it, what is held then, and the counts that this kind has.
fn exchange_text(answer: &mut Answer, kind: &str) {
    let mut files = MemFiles::new(answer.alloc());
    let mut buf = answer.zeros(8);
    walk(answer, &mut files, buf.as_mut_slice(), EXCHANGE.as_slice());
    answer.put("read ");
    answer.hex(buf.as_slice());
    answer.put(" held ");
    put_file(answer, files.file("log"));
    match kind {
        "memory" => put_counts(answer, &files),
        _ => answer.labelled(" faults ", files.read_faults()),
    }
}

fn put_counts(answer: &mut Answer, files: &MemFiles) {
    answer.labelled(" calls ", files.calls());
    answer.labelled(" faults ", files.read_faults());
    answer.labelled(" ", files.append_faults());
}

fn planned_text(answer: &mut Answer, call: u64) {
    let mut files = MemFiles::new(answer.alloc());
    let put = files.put("log", b"abc");
    answer.keep(put);
    let planned = files.fail_at(call, 2);
    answer.keep(planned);
    let mut buf = answer.zeros(4);
    walk(answer, &mut files, buf.as_mut_slice(), CALLS.as_slice());
    answer.put("held ");
    put_file(answer, files.file("log"));
}

/// Asks for this many bytes.
fn ask(answer: &mut Answer, files: &mut MemFiles, buffer: &mut ReadBuffer, count: usize)
    requires { count ≤ 100000 }
{
    put_count(answer, buffer.available(files, count));
}

/// Asks for four bytes, and takes three of them.
fn take_three(answer: &mut Answer, files: &mut MemFiles, buffer: &mut ReadBuffer) {
    let count = buffer.available(files, 4);
    if let Ok(count) = count {
        if count >= 4 {
            buffer.consume(3);
        }
    }
    put_count(answer, count);
}

/// A buffer over files in such pieces, whose second read fails.
pub fn buffered(answer: &mut Answer, piece: usize) {
    let mut files = MemFiles::in_pieces(answer.alloc(), piece);
    let put = files.put("log", b"abcdefghij");
    answer.keep(put);
    let planned = files.fail_at(2, 0);
    answer.keep(planned);
    buffer_text(answer, &mut files);
}

/// What a buffer over these files answers, and what is left in it.
fn buffer_text(answer: &mut Answer, files: &mut MemFiles) {
    answer.put("begun ");
    answer.truth(files.begin("log").is_ok());
    answer.put(" ");
    let mut buffer = ReadBuffer::new(answer.alloc());
    // Each is asked for until it succeeds.
    ask(answer, files, &mut buffer, 4);
    take_three(answer, files, &mut buffer);
    ask(answer, files, &mut buffer, 100_000);
    ask(answer, files, &mut buffer, 100_000);
    answer.put("left ");
    answer.hex(buffer.as_slice());
}
