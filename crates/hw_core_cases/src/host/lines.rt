//! Lines of words.

use crate::host::answers::{put_done, put_within};
use crate::host::consumers::{count_text, values_text};
use crate::host::doors::{afar_text, door_text};
use crate::host::files::files_text;
use crate::host::logs::log_text;
use hw_case_words::{Answer, with_line_feeds};
use hw_host::{HostClock, HostSink};
use hw_io::{Clock, write_all};

/// Answers a line.
pub fn tell(rt: HostRuntime, answer: &mut Answer, line: &str) {
    match line.split_once(' ') {
        Some((kind, words)) => tell_kind(rt, answer, kind, words),
        None => answer.refuse(),
    }
}

/// Answers a line of this kind.
fn tell_kind(rt: HostRuntime, answer: &mut Answer, kind: &str, words: &str) {
    match kind {
        "#" => put_title(answer, words),
        "files" => files_text(rt, answer, words),
        "output" => output_text(rt, answer, words),
        "clock" => clock_text(rt, answer, words),
        "values" => values_text(rt, answer, words),
        "count" => count_text(rt, answer, words),
        "afar" => afar_text(rt, answer, words),
        _ => tell_named(rt, answer, kind, words),
    }
}

/// Answers a line of this kind whose first word is a name.
fn tell_named(rt: HostRuntime, answer: &mut Answer, kind: &str, words: &str) {
    match (kind, words.split_once(' ')) {
        ("log", Some((name, steps))) => log_text(rt, answer, name, steps),
        ("door", Some((address, steps))) => door_text(rt, answer, address, steps),
        _ => answer.refuse(),
    }
}

fn put_title(answer: &mut Answer, title: &str) {
    answer.put("# ");
    answer.put(title);
}

/// What the real output answers that the text is written to.
fn output_text(rt: HostRuntime, answer: &mut Answer, text: &str) {
    match with_line_feeds(answer.alloc(), text) {
        Some(bytes) => write_out(rt, answer, bytes.as_slice()),
        None => answer.refuse(),
    }
}

fn write_out(rt: HostRuntime, answer: &mut Answer, bytes: &[u8]) {
    let mut sink = HostSink::new(rt.stdout());
    put_done(answer, write_all(&mut sink, bytes));
}

/// Whether the moment of the real clock is within the bounds.
fn clock_text(rt: HostRuntime, answer: &mut Answer, bounds: &str) {
    let moment = HostClock::new(rt).now();
    put_within(answer, moment, bounds);
}
