//! A run of a node, over files, a door and a clock in memory.

use crate::cases::put_file;
use crate::moments::Moments;
use crate::outside::{files_of, plan, run_among, words_of};
use hw_case_words::{Answer, number};
use hw_doubles::{MemDoor, MemFiles, MemSink};

/// What a node finds outside.
#[derive(Drop)]
struct Outside {
    files: MemFiles,
    out: MemSink,
    door: MemDoor,
}

/// The status, what was written, the log then, and what the node wrote in each session.
pub fn node_run(rt: HostRuntime, answer: &mut Answer, names: &str, words: &[&str]) {
    let [failures, moments, sessions, command @ ..] = words else {
        return answer.refuse();
    };
    let mut outside = Outside {
        files: files_of(rt, answer, names, "", "-"),
        out: MemSink::new(answer.alloc()),
        door: MemDoor::new(answer.alloc()),
    };
    plan_all(answer, &mut outside, failures);
    expect_all(answer, &mut outside.door, sessions);
    run_in(answer, &mut outside, moments, command);
    put_log(answer, &outside.files, command);
    put_sessions(answer, &outside.door);
}

/// Lets the node run, and puts the status and what was written.
fn run_in(answer: &mut Answer, outside: &mut Outside, moments: &str, command: &[&str]) {
    let Outside { files, out, door } = outside;
    let words = words_of(answer, command);
    let mut clock = clock_of(answer, moments);
    let mut consumers = Vec::new(answer.alloc());
    let status = run_among(
        answer.alloc(),
        &words,
        files,
        out,
        &mut clock,
        door,
        &mut consumers,
    );
    answer.number(status);
    answer.put("\n");
    answer.utf8(out.taken());
}

/// Plans the calls that fail.
fn plan_all(answer: &mut Answer, outside: &mut Outside, failures: &str) {
    for failure in failures.split(',') {
        if let Some((kind, call)) = failure.split_once(':') {
            fail(answer, outside, kind, number(call));
        }
    }
}

/// Plans that this call of that kind fails.
fn fail(answer: &mut Answer, outside: &mut Outside, kind: &str, call: u64) {
    match kind {
        "files" => plan(answer, &mut outside.files, call, 0),
        "out" => {
            let planned = outside.out.plan.fail_at(call);
            answer.keep(planned);
        }
        _ => {
            let planned = outside.door.plan.fail_at(call);
            answer.keep(planned);
        }
    }
}

/// Expects the peers, none for a dash.
fn expect_all(answer: &mut Answer, door: &mut MemDoor, sessions: &str) {
    if sessions != "-" {
        for session in sessions.split(',') {
            let said = answer.bytes(session);
            let expected = door.expect(said.as_slice());
            answer.keep(expected);
        }
    }
}

/// The clock of these moments.
fn clock_of(answer: &mut Answer, words: &str) -> Moments {
    let mut moments = Vec::new(answer.alloc());
    for word in words.split(',') {
        answer.push_to(&mut moments, number(word));
    }
    Moments::new(moments)
}

/// Puts the bytes of the node's log, which is the fourth word of the command line.
fn put_log(answer: &mut Answer, files: &MemFiles, command: &[&str]) {
    answer.put("log ");
    match command {
        [_, _, _, log, ..] => put_file(answer, files, log),
        _ => answer.put("-"),
    }
}

/// Puts what the node wrote in each session.
fn put_sessions(answer: &mut Answer, door: &MemDoor) {
    for session in door.sessions() {
        answer.put("\nwrote ");
        answer.hex(session.written());
    }
}
