//! The outside of one run.

ghost use Rattle.std.specs.Prelude.{◌≤◌, length};

use crate::moments::Moments;
use hw_case_words::{Answer, number, patch};
use hw_doubles::{MemDoor, MemFiles, MemSink};
use hw_host::HostFiles;
use hw_io::{Consumer, Files, IoFault};
use hw_program::{Words, highway};
use std::alloc::Global;

/// Files in memory with these of the real ones, changed at places. A read gives at most as many bytes as the word says,
/// or as many as there is room for.
pub fn files_of(
    rt: HostRuntime,
    answer: &mut Answer,
    names: &str,
    piece: &str,
    patches: &str,
) -> MemFiles {
    let mut files = MemFiles::in_pieces(answer.alloc(), most(piece));
    for pair in names.split(',') {
        put_pair(rt, answer, &mut files, pair, patches);
    }
    files
}

/// The number that the word spells, or the greatest.
fn most(word: &str) -> usize {
    word.parse().unwrap_or(usize::MAX)
}

/// Puts a real file under the name before it.
fn put_pair(rt: HostRuntime, answer: &mut Answer, files: &mut MemFiles, pair: &str, patches: &str) {
    if let Some((name, file)) = pair.split_once('=') {
        let mut bytes = Vec::new(answer.alloc());
        read(rt, answer, &mut bytes, file);
        patch(bytes.as_mut_slice(), patches);
        let put = files.put(name, bytes.as_slice());
        answer.keep(put);
    }
}

/// The bytes of the real file that a word names, as many as it says.
fn read(rt: HostRuntime, answer: &mut Answer, bytes: &mut Vec<u8>, word: &str) {
    match word.split_once('@') {
        Some((file, length)) => {
            read_file(rt, answer, bytes, file);
            bytes.truncate(number(length) as usize);
        }
        None => read_file(rt, answer, bytes, word),
    }
}

fn read_file(rt: HostRuntime, answer: &mut Answer, bytes: &mut Vec<u8>, name: &str) {
    let mut real = HostFiles::new(&rt);
    let mut piece = answer.zeros(4_096);
    if read_all(&mut real, name, bytes, piece.as_mut_slice()).is_err() {
        answer.refuse();
    }
}

/// Reads at most a thousand pieces of the file.
fn read_all<F: Files>(
    files: &mut F,
    name: &str,
    bytes: &mut Vec<u8>,
    piece: &mut [u8],
) -> Result<(), IoFault> {
    files.begin(name)?;
    for _ in 0..1_000 {
        let count = files.read(piece)?;
        bytes.extend_from_slice(&piece[..count])?;
    }
    Ok(())
}

/// Plans the call of the files that the word says is to fail, if it says one, and how many bytes it writes if it is an
/// append.
pub fn fail_call(answer: &mut Answer, files: &mut MemFiles, call: &str, left: usize) {
    if let Ok(call) = call.parse() {
        plan(answer, files, call, left);
    }
}

/// Plans that this call of the files fails.
pub fn plan(answer: &mut Answer, files: &mut MemFiles, call: u64, left: usize) {
    let planned = files.fail_at(call, left);
    answer.keep(planned);
}

/// Plans the write that the word says is to fail, if it says one.
pub fn fail_write(answer: &mut Answer, out: &mut MemSink, write: &str) {
    if let Ok(write) = write.parse() {
        let planned = out.plan.fail_at(write);
        answer.keep(planned);
    }
}

/// The status of the program with these words, and no consumers.
pub fn run(answer: &mut Answer, files: &mut MemFiles, out: &mut MemSink, command: &[&str]) -> u64 {
    let mut consumers = Vec::new(answer.alloc());
    run_with(answer, files, out, &mut consumers, command)
}

/// The same with these consumers.
pub fn run_with(
    answer: &mut Answer,
    files: &mut MemFiles,
    out: &mut MemSink,
    consumers: &mut Vec<Box<dyn Consumer>>,
    command: &[&str],
) -> u64
    // It asks for nothing. With a `requires` the proof is for whatever consumers the caller has.
    requires { 0 ≤ length consumers.old.items }
{
    let words = words_of(answer, command);
    let mut clock = Moments::new(Vec::new(answer.alloc()));
    let mut door = MemDoor::new(answer.alloc());
    run_among(
        answer.alloc(),
        &words,
        files,
        out,
        &mut clock,
        &mut door,
        consumers,
    )
}

/// The status of the program with these words and this outside.
pub fn run_among(
    alloc: Global,
    words: &Words,
    files: &mut MemFiles,
    out: &mut MemSink,
    clock: &mut Moments,
    door: &mut MemDoor,
    consumers: &mut Vec<Box<dyn Consumer>>,
) -> u64
    // It asks for nothing, as above.
    requires { 0 ≤ length consumers.old.items }
{
    u64::from(highway(alloc, words, files, out, clock, door, consumers))
}

/// The words of a command line.
pub fn words_of(answer: &mut Answer, command: &[&str]) -> Words {
    let mut words = Words::new(answer.alloc());
    for word in command {
        if words.push(word).is_err() {
            answer.refuse();
        }
    }
    words
}
