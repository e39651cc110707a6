//! Runs over the logs of eras, and how they end.

use hw_case_words::{Answer, number};
use hw_doubles::MemFiles;
use hw_eras::{EraFault, audit_logs, report_logs};
use hw_log::LogError;
use hw_replay::StartFault;
use std::alloc::AllocError;

/// The answer of this kind over these logs.
pub fn logs_text(answer: &mut Answer, kind: &str, words: &[&str]) {
    match words {
        [count, logs @ ..] if kind == "audit" => audit(answer, logs, number(count) as usize),
        logs => eras(answer, logs),
    }
}

/// The report on the eras of these logs.
fn eras(answer: &mut Answer, logs: &[&str]) {
    let mut files = MemFiles::new(answer.alloc());
    let names = put_logs(answer, &mut files, logs);
    eras_of(answer, &mut files, names.as_slice());
}

/// The audit of the eras of these logs, of which the first `count` are the left node's.
fn audit(answer: &mut Answer, logs: &[&str], count: usize) {
    let mut files = MemFiles::new(answer.alloc());
    let names = put_logs(answer, &mut files, logs);
    audit_of(answer, &mut files, names.as_slice(), count);
}

/// Puts these logs into files, and answers their names.
fn put_logs(answer: &mut Answer, files: &mut MemFiles, logs: &[&str]) -> Vec<String> {
    let mut names = Vec::new(answer.alloc());
    for (place, digits) in logs.iter().enumerate() {
        let name = name_of(answer, place);
        if *digits != "-" {
            let put = put_log(answer, files, name.as_str(), digits);
            answer.keep(put);
        }
        if names.push(name).is_err() {
            answer.refuse();
        }
    }
    names
}

fn name_of(answer: &mut Answer, place: usize) -> String {
    match format!(in answer.alloc(); "{place}") {
        Ok(name) => name,
        Err(_) => {
            answer.refuse();
            String::new(answer.alloc())
        }
    }
}

/// Puts the log that the digits spell into a file of this name.
fn put_log(
    answer: &mut Answer,
    files: &mut MemFiles,
    name: &str,
    digits: &str,
) -> Result<(), AllocError> {
    let bytes = answer.bytes(digits);
    files.put(name, bytes.as_slice())
}

fn eras_of(answer: &mut Answer, files: &mut MemFiles, logs: &[String]) {
    if logs.is_empty() || logs.len() > 64 {
        return answer.put("usage");
    }
    match report_logs(answer.alloc(), files, logs) {
        Ok(text) => put_text(answer, "status ", 0, text.as_slice()),
        Err(stop) => put_stop(answer, stop),
    }
}

fn audit_of(answer: &mut Answer, files: &mut MemFiles, logs: &[String], count: usize) {
    if count == 0 || count > 64 || count >= logs.len() || logs.len() - count > 64 {
        return answer.put("usage");
    }
    match audit_logs(answer.alloc(), files, &logs[..count], &logs[count..]) {
        Ok(audit) => {
            put_text(
                answer,
                "status ",
                u32::from(audit.status),
                audit.text.as_slice(),
            );
        }
        Err(stop) => put_stop(answer, stop),
    }
}

/// A word and a number, and the text without its last line feed.
pub fn put_text(answer: &mut Answer, word: &str, number: u32, text: &[u8]) {
    answer.put(word);
    answer.number(u64::from(number));
    answer.put("\n");
    match String::from_utf8_lossy(answer.alloc(), text) {
        Ok(text) => answer.put(text.as_str().trim_end()),
        Err(_) => answer.refuse(),
    }
}

fn put_stop(answer: &mut Answer, stop: EraFault<'_>) {
    match stop {
        EraFault::NoEra(log) => put_input(answer, log, ": no era"),
        EraFault::Stopped(log, fault) => put_fault(answer, log, fault),
        EraFault::OutOfMemory => answer.refuse(),
    }
}

/// Why the replay of this log stopped.
fn put_fault(answer: &mut Answer, log: &str, fault: StartFault) {
    match fault {
        StartFault::Log(LogError::ReadFault) => answer.put("status 4\nread fault"),
        StartFault::Log(_) => put_input(answer, log, ": bad log"),
        StartFault::OtherConfig => put_input(answer, log, ": other config"),
        StartFault::RecordsFull(at) => put_limit(answer, "records at ", at),
        StartFault::ParkFull(at) => put_limit(answer, "parked at ", at),
        StartFault::Clash { .. } => answer.put("status 9"),
        StartFault::OutOfMemory => answer.refuse(),
    }
}

fn put_input(answer: &mut Answer, log: &str, end: &str) {
    answer.put("status 2\ninput ");
    answer.put(log);
    answer.put(end);
}

fn put_limit(answer: &mut Answer, word: &str, at: u64) {
    answer.put("status 8\nlimit ");
    answer.put(word);
    answer.number(at);
}
