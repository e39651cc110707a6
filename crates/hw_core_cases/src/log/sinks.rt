//! Sinks and clocks in memory.

use crate::log::counts::{done, put_count};
use hw_case_words::Answer;
use hw_doubles::{MemSink, SetClock};
use hw_io::{Clock, write_all};

/// A sink in pieces of three whose write of that number fails, or one of which no call is to fail.
pub fn sink_text(answer: &mut Answer, call: Option<u64>) {
    match call {
        Some(call) => planned_sink(answer, call),
        None => sure_sink(answer),
    }
}

fn planned_sink(answer: &mut Answer, call: u64) {
    let mut sink = MemSink::in_pieces(answer.alloc(), 3);
    let planned = sink.plan.fail_at(call);
    answer.keep(planned);
    write(answer, &mut sink, b"abcdefgh");
    write(answer, &mut sink, b"ijklmnopq");
    answer.put("taken ");
    answer.hex(sink.taken());
    answer.put(" faults ");
    answer.number(sink.faults());
}

fn sure_sink(answer: &mut Answer) {
    let mut sink = MemSink::new(answer.alloc());
    write(answer, &mut sink, b"abcd");
    answer.put("taken ");
    answer.hex(sink.taken());
}

/// Writes the piece, and puts down what is answered.
fn write(answer: &mut Answer, sink: &mut MemSink, piece: &[u8]) {
    put_count(answer, done(write_all(sink, piece)));
}

/// The first four moments of a clock that has 5, 3 and 9, or 7 alone, or none.
pub fn clock_text(answer: &mut Answer, moments: &str) {
    let read = match moments {
        "5,3,9" => Vec::from_slice(answer.alloc(), &[5, 3, 9]),
        "7" => Vec::from_slice(answer.alloc(), &[7]),
        _ => Ok(Vec::new(answer.alloc())),
    };
    match read {
        Ok(moments) => put_moments(answer, &mut SetClock::new(moments)),
        Err(_) => answer.refuse(),
    }
}

/// What is put before each moment.
const BETWEEN: [&str; 4] = ["[", ", ", ", ", ", "];

fn put_moments(answer: &mut Answer, clock: &mut SetClock) {
    for between in BETWEEN.as_slice() {
        answer.put(between);
        answer.number(clock.now());
    }
    answer.put("]");
}
