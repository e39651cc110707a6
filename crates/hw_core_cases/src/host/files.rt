//! The real files.

use crate::host::answers::{put_done, put_found, put_read, put_system};
use hw_case_words::{Answer, number, with_line_feeds};
use hw_host::HostFiles;
use hw_io::Files;
use std::fs;
use std::os::unix;

/// What files of this machine answer to the steps.
pub fn files_text(rt: HostRuntime, answer: &mut Answer, steps: &str) {
    let mut files = HostFiles::new(rt);
    walk(rt, answer, &mut files, steps);
}

/// Takes the steps.
fn walk<F: Files>(rt: HostRuntime, answer: &mut Answer, files: &mut F, steps: &str) {
    for step in steps.split(',') {
        take_step(rt, answer, files, step);
    }
}

/// Takes a step, and puts down what is answered to it.
pub fn take_step<F: Files>(rt: HostRuntime, answer: &mut Answer, files: &mut F, step: &str) {
    match step.split_once(':') {
        Some((call, words)) => take_call(rt, answer, files, call, words),
        None => answer.refuse(),
    }
}

fn take_call<F: Files>(
    rt: HostRuntime,
    answer: &mut Answer,
    files: &mut F,
    call: &str,
    words: &str,
) {
    match call {
        "read" => read(answer, files, number(words) as usize),
        "exists" => put_found(answer, files.exists(words)),
        "begin" => put_done(answer, files.begin(words)),
        "remove" => put_system(answer, fs::remove_file(&rt, words)),
        _ => take_pair(rt, answer, files, call, words),
    }
}

/// Takes a step with two arguments.
fn take_pair<F: Files>(
    rt: HostRuntime,
    answer: &mut Answer,
    files: &mut F,
    call: &str,
    words: &str,
) {
    match (call, words.split_once(':')) {
        ("append", Some((name, text))) => append(answer, files, name, text),
        ("rename", Some((old, new))) => put_system(answer, fs::rename(&rt, old, new)),
        ("link", Some((target, name))) => put_system(answer, unix::fs::symlink(&rt, target, name)),
        _ => answer.refuse(),
    }
}

/// Reads at most this many bytes, or sixteen.
fn read<F: Files>(answer: &mut Answer, files: &mut F, count: usize) {
    let mut piece = answer.zeros(count.min(16));
    let outcome = files.read(piece.as_mut_slice());
    put_read(answer, outcome, piece.as_slice());
}

fn append<F: Files>(answer: &mut Answer, files: &mut F, name: &str, text: &str) {
    match with_line_feeds(answer.alloc(), text) {
        Some(bytes) => put_done(answer, files.append(name, bytes.as_slice())),
        None => answer.refuse(),
    }
}
