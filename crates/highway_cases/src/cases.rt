//! The lines.

use crate::nodes::node_run;
use crate::outside::{fail_call, fail_write, files_of, plan, run, run_with};
use crate::planned::Planned;
use hw_case_words::{Answer, number};
use hw_doubles::{MemFiles, MemSink};
use hw_io::Consumer;

/// Answers a line.
pub fn tell(rt: HostRuntime, answer: &mut Answer, line: &str) {
    let words = answer.words(line, ' ');
    match words.as_slice() {
        [kind, files, words @ ..] => tell_kind(rt, answer, kind, files, words),
        _ => answer.refuse(),
    }
}

/// Answers a line of this kind.
fn tell_kind(rt: HostRuntime, answer: &mut Answer, kind: &str, files: &str, words: &[&str]) {
    match kind {
        "run" => ran(rt, answer, files, words),
        "reads" => each_read(rt, answer, files, words),
        "writes" => each_write(rt, answer, files, words),
        "wants" => each_want(rt, answer, files, words),
        "anew" => anew(rt, answer, files, words),
        "node" => node_run(rt, answer, files, words),
        "fed" => fed(rt, answer, files, words),
        _ => answer.refuse(),
    }
}

/// The status, the counts of faults, and what was written.
fn ran(rt: HostRuntime, answer: &mut Answer, names: &str, words: &[&str]) {
    let [piece, call, take, write, patches, command @ ..] = words else {
        return answer.refuse();
    };
    let mut files = files_of(rt, answer, names, piece, patches);
    fail_call(answer, &mut files, call, 0);
    put_ran(answer, &mut files, take, write, command);
}

/// The same over these files.
fn put_ran(answer: &mut Answer, files: &mut MemFiles, take: &str, write: &str, command: &[&str]) {
    let mut out = MemSink::in_pieces(answer.alloc(), number(take) as usize);
    fail_write(answer, &mut out, write);
    let status = run(answer, files, &mut out, command);
    put_faults(answer, status, files.read_faults(), out.faults());
    answer.utf8(out.taken());
}

/// The status, and the counts of faults.
fn put_faults(answer: &mut Answer, status: u64, reads: u64, writes: u64) {
    answer.number(status);
    answer.labelled(" faults ", reads);
    answer.labelled(" ", writes);
    answer.put("\n");
}

/// The status, the counts of faults, what was written, and the bytes of the file of that name then.
fn anew(rt: HostRuntime, answer: &mut Answer, names: &str, words: &[&str]) {
    let [piece, call, left, patches, name, command @ ..] = words else {
        return answer.refuse();
    };
    let mut files = files_of(rt, answer, names, piece, patches);
    fail_call(answer, &mut files, call, number(left) as usize);
    put_anew(answer, &mut files, command);
    answer.put(name);
    answer.put(" ");
    put_file(answer, &files, name);
}

/// The status, the counts of faults, and what was written.
fn put_anew(answer: &mut Answer, files: &mut MemFiles, command: &[&str]) {
    let mut out = MemSink::new(answer.alloc());
    let status = run(answer, files, &mut out, command);
    put_faults(answer, status, files.read_faults(), files.append_faults());
    answer.utf8(out.taken());
}

/// The bytes of the file of that name, a dash where there is none.
pub fn put_file(answer: &mut Answer, files: &MemFiles, name: &str) {
    match files.file(name) {
        Some(bytes) => answer.hex(bytes),
        None => answer.put("-"),
    }
}

/// The statuses where each of the first calls of the files fails in turn.
fn each_read(rt: HostRuntime, answer: &mut Answer, names: &str, words: &[&str]) {
    let [piece, calls, command @ ..] = words else {
        return answer.refuse();
    };
    for call in 0..number(calls) {
        let mut files = files_of(rt, answer, names, piece, "-");
        put_read(answer, &mut files, call, command);
    }
}

/// The status where this call of the files fails.
fn put_read(answer: &mut Answer, files: &mut MemFiles, call: u64, command: &[&str]) {
    plan(answer, files, call, 0);
    let mut out = MemSink::new(answer.alloc());
    let status = run(answer, files, &mut out, command);
    answer.number(status);
    answer.put(" ");
}

/// The statuses where each of the first writes fails in turn, each with the number of bytes that were taken.
fn each_write(rt: HostRuntime, answer: &mut Answer, names: &str, words: &[&str]) {
    let [take, writes, command @ ..] = words else {
        return answer.refuse();
    };
    for write in 0..number(writes) {
        let mut files = files_of(rt, answer, names, "", "-");
        put_write(answer, &mut files, take, write, command);
    }
}

/// The status where this write fails, and the number of bytes that were taken.
fn put_write(answer: &mut Answer, files: &mut MemFiles, take: &str, write: u64, command: &[&str]) {
    let mut out = MemSink::in_pieces(answer.alloc(), number(take) as usize);
    let planned = out.plan.fail_at(write);
    answer.keep(planned);
    put_taken(answer, files, &mut out, command);
}

/// The status with this output, and the number of bytes that were taken.
fn put_taken(answer: &mut Answer, files: &mut MemFiles, out: &mut MemSink, command: &[&str]) {
    let status = run(answer, files, out, command);
    answer.number(status);
    answer.labelled(":", out.taken().len() as u64);
    answer.put(" ");
}

/// The statuses where each of the first writes finds no memory in turn, each with the number of bytes that were taken.
fn each_want(rt: HostRuntime, answer: &mut Answer, names: &str, words: &[&str]) {
    let [writes, command @ ..] = words else {
        return answer.refuse();
    };
    for write in 0..number(writes) {
        let mut files = files_of(rt, answer, names, "", "-");
        put_want(answer, &mut files, write, command);
    }
}

/// The status where this write finds no memory, and the number of bytes that were taken.
fn put_want(answer: &mut Answer, files: &mut MemFiles, write: u64, command: &[&str]) {
    let mut out = MemSink::in_pieces(answer.alloc(), 1);
    let planned = out.memory.fail_at(write);
    answer.keep(planned);
    put_taken(answer, files, &mut out, command);
}

/// The status, what was written, and how many consumers are left, where there is one for each of the plans.
fn fed(rt: HostRuntime, answer: &mut Answer, names: &str, words: &[&str]) {
    let [plans, command @ ..] = words else {
        return answer.refuse();
    };
    let mut files = files_of(rt, answer, names, "", "-");
    let mut out = MemSink::new(answer.alloc());
    put_fed(answer, &mut files, &mut out, plans, command);
}

/// The same over these files and this output.
fn put_fed(
    answer: &mut Answer,
    files: &mut MemFiles,
    out: &mut MemSink,
    plans: &str,
    command: &[&str],
) {
    let mut consumers: Vec<Box<dyn Consumer>> = Vec::new(answer.alloc());
    for plan in plans.split(';') {
        let planned = Planned::new(answer, plan);
        match Box::new(answer.alloc(), planned) {
            Ok(consumer) => {
                if consumers.push(consumer).is_err() {
                    answer.refuse();
                }
            }
            Err(_) => answer.refuse(),
        }
    }
    let status = run_with(answer, files, out, &mut consumers, command);
    answer.number(status);
    answer.put("\n");
    answer.utf8(out.taken());
    answer.labelled("left ", consumers.len() as u64);
}
