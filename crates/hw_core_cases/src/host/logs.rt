//! A log that two nodes want to have, and to which others append.

use crate::host::files::take_step;
use hw_case_words::Answer;
use hw_host::{HostFiles, LogFile, NodeFiles};
use hw_io::Files;

/// What the files of two nodes whose log this is, and those of others, answer to the steps.
pub fn log_text(rt: HostRuntime, answer: &mut Answer, log: &str, steps: &str) {
    let alloc = answer.alloc();
    match (LogFile::new(alloc, log), LogFile::new(alloc, log)) {
        (Ok(ours), Ok(theirs)) => over_logs(rt, answer, &ours, &theirs, steps),
        _ => answer.refuse(),
    }
}

fn over_logs(rt: HostRuntime, answer: &mut Answer, ours: &LogFile, theirs: &LogFile, steps: &str) {
    let mut ours = NodeFiles::new(rt, Some(ours));
    let mut theirs = NodeFiles::new(rt, Some(theirs));
    with_others(rt, answer, &mut ours, &mut theirs, steps);
}

fn with_others<F: Files, G: Files>(
    rt: HostRuntime,
    answer: &mut Answer,
    ours: &mut F,
    theirs: &mut G,
    steps: &str,
) {
    let mut others = HostFiles::new(rt);
    walk(rt, answer, ours, theirs, &mut others, steps);
}

/// Takes the steps.
fn walk<F: Files, G: Files, H: Files>(
    rt: HostRuntime,
    answer: &mut Answer,
    ours: &mut F,
    theirs: &mut G,
    others: &mut H,
    steps: &str,
) {
    for step in steps.split(',') {
        match step.split_once(':') {
            Some((who, step)) => take_step_of(rt, answer, ours, theirs, others, who, step),
            None => answer.refuse(),
        }
    }
}

/// Takes a step of these files.
fn take_step_of<F: Files, G: Files, H: Files>(
    rt: HostRuntime,
    answer: &mut Answer,
    ours: &mut F,
    theirs: &mut G,
    others: &mut H,
    who: &str,
    step: &str,
) {
    match who {
        "ours" => take_step(rt, answer, ours, step),
        "theirs" => take_step(rt, answer, theirs, step),
        "others" => take_step(rt, answer, others, step),
        _ => answer.refuse(),
    }
}
