//! Consumers that are passed what a log decides.

use crate::node::passes::pass_along;
use crate::node::planned::consumer_of;
use hw_case_words::Answer;
use hw_doubles::MemFiles;
use hw_io::{Consumer, IoFault};
use hw_replay::{Fanout, Replay, put_drops, replay_fed};
use hw_types::{Bytes, OutOfMemory};
use std::alloc::Global;

/// Who is left, and who was dropped, where consumers of these plans are passed what the log decides.
pub fn passed(alloc: Global, each: bool, log: &str, plans: &[&str]) -> Result<String, OutOfMemory> {
    let mut consumers: Vec<Box<dyn Consumer>> = Vec::new(alloc);
    for plan in plans {
        consumers.push(Box::new(alloc, consumer_of(alloc, plan)?)?)?;
    }
    replayed(alloc, each, log, &mut consumers)
}

/// The same of these consumers.
fn replayed(
    alloc: Global,
    each: bool,
    log: &str,
    consumers: &mut Vec<Box<dyn Consumer>>,
) -> Result<String, OutOfMemory> {
    let mut fanout = Fanout::new(alloc);
    fanout.reserve(consumers.len())?;
    let mut files = log_file(alloc, log)?;
    if let Ok(mut replay) = Replay::begin(alloc, &mut files, "LOG", None) {
        pass_along(&mut files, &mut replay, &mut fanout, consumers, each);
    }
    drops_text(alloc, consumers.len(), &fanout)
}

/// How many are left, and the lines of those that were dropped, where consumers of these plans are fed while the log is
/// replayed.
pub fn fed(alloc: Global, log: &str, plans: &[&str]) -> Result<String, OutOfMemory> {
    let mut consumers: Vec<Box<dyn Consumer>> = Vec::new(alloc);
    for plan in plans {
        consumers.push(Box::new(alloc, consumer_of(alloc, plan)?)?)?;
    }
    let mut fanout = Fanout::new(alloc);
    fanout.reserve(consumers.len())?;
    let mut files = log_file(alloc, log)?;
    let _ = replay_fed(alloc, &mut files, "LOG", None, &mut fanout, &mut consumers);
    fanout.finish(&mut consumers);
    drop_text(alloc, consumers.len(), &fanout)
}

/// How many are left, and the lines of the others.
fn drop_text(alloc: Global, left: usize, fanout: &Fanout) -> Result<String, OutOfMemory> {
    let mut lines = Bytes::new(alloc);
    put_drops(&mut lines, fanout)?;
    let mut text = format!(in alloc; "left {left}\n")?;
    for byte in lines.as_slice() {
        text.push(char::from(*byte))?;
    }
    Ok(text)
}

/// A file with these bytes.
fn log_file(alloc: Global, log: &str) -> Result<MemFiles, OutOfMemory> {
    let Ok(bytes) = hex::decode(alloc, log) else {
        return Err(OutOfMemory);
    };
    let mut files = MemFiles::new(alloc);
    match files.put("LOG", bytes.as_slice()) {
        Ok(()) => Ok(files),
        Err(_) => Err(OutOfMemory),
    }
}

/// How many are left, and where the others were dropped.
fn drops_text(alloc: Global, left: usize, fanout: &Fanout) -> Result<String, OutOfMemory> {
    let mut text = Answer::new(alloc);
    text.labelled("left ", left as u64);
    for index in 0..fanout.drop_count() {
        let (place, height, fault) = fanout.drop_at(index);
        put_drop(&mut text, place, height, fault);
    }
    match text.finish() {
        Some(text) => Ok(text),
        None => Err(OutOfMemory),
    }
}

/// Puts that the consumer at this place was dropped, and where.
fn put_drop(text: &mut Answer, place: usize, height: Option<u64>, fault: IoFault) {
    text.labelled(" consumer ", place as u64);
    text.put(match fault {
        IoFault::Failed => " dropped at ",
        IoFault::OutOfMemory => " out of memory at ",
    });
    match height {
        Some(height) => text.number(height),
        None => text.put("finish"),
    }
}
