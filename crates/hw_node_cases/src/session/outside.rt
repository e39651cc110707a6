//! The outside of one run, in memory.

use hw_case_words::{Answer, number, with_line_feeds};
use hw_doubles::{ListConsumer, MemDoor, MemFiles, MemSink};
use hw_io::Clock;
use std::alloc::AllocError;

/// Files, output and door of a run.
#[derive(Drop)]
pub struct Outside {
    pub files: MemFiles,
    pub out: MemSink,
    pub door: MemDoor,
}

/// A clock that gives these moments in turn, and then 0.
#[derive(Drop)]
pub struct Moments {
    pub moments: Vec<u64>,
    pub next: usize,
}

impl Clock for Moments {
    ghost use Rattle.std.specs.Prelude.{None};

    ghost given = { λ _. None };

    fn now(&mut self) -> u64 {
        let moment = match self.moments.get(self.next) {
            Some(moment) => *moment,
            None => 0,
        };
        self.next = self.next.saturating_add(1);
        moment % (1 << 63)
    }
}

/// The outside of these words: settings, keys, log and failures, and what peers say.
pub fn outside_of(answer: &mut Answer, words: &[&str]) -> Outside {
    let mut outside = Outside {
        files: MemFiles::new(answer.alloc()),
        out: MemSink::in_pieces(answer.alloc(), 50),
        door: MemDoor::in_pieces(answer.alloc(), 40),
    };
    fill(answer, &mut outside, words);
    outside
}

/// Puts the files in, plans the failures, and expects the peers.
fn fill(answer: &mut Answer, outside: &mut Outside, words: &[&str]) {
    let [
        settings,
        keys,
        log,
        failures,
        _consumers,
        _command,
        sessions @ ..,
    ] = words
    else {
        return answer.refuse();
    };
    let put = outside.files.put("CONFIG", settings.as_bytes());
    answer.keep(put);
    put_keys(answer, &mut outside.files, keys);
    put_log(answer, &mut outside.files, log);
    for failure in failures.split(',') {
        let planned = plan(outside, failure);
        answer.keep(planned);
    }
    for session in sessions {
        expect(answer, &mut outside.door, session);
    }
}

fn put_keys(answer: &mut Answer, files: &mut MemFiles, keys: &str) {
    match with_line_feeds(answer.alloc(), keys) {
        Some(keys) => {
            let put = files.put("KEYS", keys.as_slice());
            answer.keep(put);
        }
        None => answer.refuse(),
    }
}

/// Puts the log there, unless the word is `-`.
pub fn put_log(answer: &mut Answer, files: &mut MemFiles, log: &str) {
    if log != "-" {
        let bytes = answer.bytes(log);
        let put = files.put("LOG", bytes.as_slice());
        answer.keep(put);
    }
}

/// Expects a peer that says these bytes.
fn expect(answer: &mut Answer, door: &mut MemDoor, said: &str) {
    let said = answer.bytes(said);
    let expected = door.expect(said.as_slice());
    answer.keep(expected);
}

/// Plans that a call fails.
fn plan(outside: &mut Outside, failure: &str) -> Result<(), AllocError> {
    match failure.split_once(':') {
        Some(("files", call)) => plan_files(&mut outside.files, call),
        Some(("out", call)) => outside.out.plan.fail_at(number(call)),
        Some(("door", call)) => outside.door.plan.fail_at(number(call)),
        _ => Ok(()),
    }
}

/// Plans that a call on the files fails, as `CALL:LEFT` says.
pub fn plan_files(files: &mut MemFiles, failure: &str) -> Result<(), AllocError> {
    match failure.split_once(':') {
        Some((call, left)) => files.fail_at(number(call), number(left) as usize),
        None => Ok(()),
    }
}

/// A consumer of this plan.
pub fn consumer_of(answer: &mut Answer, plan: &str) -> ListConsumer {
    let mut consumer = ListConsumer::new(answer.alloc());
    if plan != "-" {
        let planned = consumer.plan.fail_at(number(plan));
        answer.keep(planned);
    }
    consumer
}
