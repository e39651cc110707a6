//! How many units with 100 observations are read, written and named in a second.
//!
//! | Line | What it does |
//! |---|---|
//! | `once` | reads, writes and names a unit, and prints nothing |
//! | `measure ROUNDS` | does ROUNDS rounds of each, and prints the three rates, by the processor time of its thread |
//!
//! No answer is compared: the gate does one round that prints nothing, and the speed is measured by hand.

mod codec;

use self::codec::{Sample, Work, sample_of};
use hw_case_words::{Answer, small};
use std::time::CpuClock;

/// Answers a line.
pub fn tell(rt: HostRuntime, answer: &mut Answer, line: &str) {
    let sample = sample_of(answer);
    match line.strip_prefix("measure ") {
        Some(rounds) => measure(rt, answer, &sample, small(rounds)),
        None if line == "once" => once(answer, &sample),
        None => answer.refuse(),
    }
}

fn once(answer: &mut Answer, sample: &Sample) {
    let _ = sample.go(answer.alloc(), Work::Read, 1);
    let _ = sample.go(answer.alloc(), Work::Write, 1);
    let _ = sample.go(answer.alloc(), Work::Name, 1);
}

/// Does this many rounds of each, and puts the three rates.
fn measure(rt: HostRuntime, answer: &mut Answer, sample: &Sample, rounds: u32) {
    let read = time_of(rt, answer, sample, Work::Read, rounds);
    let written = time_of(rt, answer, sample, Work::Write, rounds);
    let named = time_of(rt, answer, sample, Work::Name, rounds);
    answer.labelled("checksum ", read.sum ^ written.sum ^ named.sum);
    answer.put("\n");
    put_rate(answer, "read ", rounds, read.micros);
    put_rate(answer, "written ", rounds, written.micros);
    put_rate(answer, "named ", rounds, named.micros);
}

/// What came of some rounds, and how long they took.
#[derive(Clone, Copy)]
struct Timed {
    sum: u64,
    micros: u128,
}

fn time_of(
    rt: HostRuntime,
    answer: &mut Answer,
    sample: &Sample,
    work: Work,
    rounds: u32,
) -> Timed {
    let start = moment(rt, answer);
    let sum = sample.go(answer.alloc(), work, rounds);
    let micros = moment(rt, answer).saturating_sub(start);
    Timed { sum, micros }
}

/// The processor time of this thread in microseconds.
fn moment(rt: HostRuntime, answer: &mut Answer) -> u128 {
    match rt.thread_cpu_time() {
        Ok(time) => time.as_micros(),
        Err(_) => {
            answer.refuse();
            0
        }
    }
}

/// How many rounds a second that is, if the rounds took this many microseconds.
fn put_rate(answer: &mut Answer, what: &str, rounds: u32, micros: u128) {
    answer.put(what);
    answer.show(&(rounds as u128 * 1_000_000 / micros.max(1)));
    answer.put(" units a second\n");
}
