//! What the program answers and writes for the lines of its input.
//!
//! The lines, and what each answers:
//!
//! - `run FILES PIECE CALL TAKE WRITE PATCHES WORDS`: the status and what was written.
//! - `reads FILES PIECE CALLS WORDS`: each of the first calls of the files fails in turn: the statuses, and what was
//!   written.
//! - `writes FILES TAKE WRITES WORDS`: each of the first writes fails in turn: the statuses, and how many bytes were
//!   taken.
//! - `wants FILES WRITES WORDS`: each of the first writes, of a byte each, finds no memory in turn: the same.
//! - `anew FILES PIECE CALL LEFT PATCHES NAME WORDS`: the status and what was written, and the bytes of the file NAME
//!   then as hexadecimal digits, or `-` where it isn't there; a failing append takes LEFT bytes.
//! - `node FILES FAILURES MOMENTS SESSIONS WORDS`: there are a clock and peers: the status and what was written, the
//!   log then, and what the node wrote in each session, in hexadecimal digits.
//! - `fed FILES PLANS WORDS`: there are consumers: the status, what was written, and how many consumers are left.
//!
//! FILES are `-` or pairs `NAME=file` with commas between: the name that the program sees, and the file of `data/` that
//! it finds under it, or its first bytes, as `torn.hwlg@60`. A read gives at most PIECE bytes, and a write takes at
//! most TAKE. CALL and WRITE are the numbers of the calls of the files and of the output that fail, or `-`. PATCHES are
//! `-` or bytes put at places of each file, as `74:2,75:2`. PLANS are the plans of the consumers, with semicolons
//! between: a plan is the calls that its consumer takes, with commas between, `HEIGHT:VALUE` and `finish`, or `-` for
//! none; each other call fails. FAILURES are the calls that fail, counted from 0, with commas between: `files:CALL`,
//! `out:CALL` and `door:CALL`; or `-`. MOMENTS are the moments of the clock, with commas between. SESSIONS are what the
//! peer of each session says, as hexadecimal digits with commas between, or `-`. WORDS are the command line.
//!
//! Covered:
//!
//! - whole runs of `replay`, `explain` and `audit` on worked logs and on logs with a fault in each part; `audit` on
//!   30 pairs of logs;
//! - `script` on worked scripts, a bad line, a missing file and other words; `gen` and `sim` on five runs each, and
//!   on words outside their ranges; the words of the command line;
//! - a failure at each of the first sixty calls of the files and of the output of `replay`, `explain` and `audit`,
//!   and at each of the first twelve reads and sixty writes of `script`; each of the first writes finding no memory,
//!   which ends with status 7;
//! - `mend` and `migrate` on logs of both versions: whole, torn at each kind of place and with other errors, above
//!   their own limits, with a new file that is there, the log's own name for the new one, other words, a failing
//!   append that takes none, some or all of the bytes, and a failure at each call of the files and each write;
//!   `replay`, `explain` and `audit` of a migrated log;
//! - `replay` with consumers that take the calls of a plan: all of them, none, a failing second block, a failing end,
//!   two that fail at different blocks, a log that is torn after a decided block, a missing file;
//! - `certify` on ten logs, of each first three decided blocks, of other digests, with other words, a new file that
//!   is there, the log's own name for it, and failing reads, appends and writes; `check` of a certificate cut at each
//!   kind of place and with a byte changed in each field, of each limit of its configuration, by wrong, short and
//!   missing keys, and against thirteen logs;
//! - `eras` and `era-audit` of one to 64 logs, logs whose era isn't there, missing, torn and full logs, other
//!   configurations, words outside the grammar, and failing reads and writes;
//! - `serve` and `run` over a door and a clock in memory: an accept and a dial that fail, sessions that end in each
//!   way, a limit before a link that failed, settings, keys and logs with a fault, a failing read, append and write,
//!   turns with peers that are nodes, on a new log and on one that is there, a validator that is none, words outside
//!   the grammar at each bound, and a failure at each of the first sixty calls of the files, of the output and of the
//!   door;
//! - `host` and `meet` in the same way, and, where two nodes that were apart bring each other a unit, a failure at
//!   each of the first sixteen calls of the door and, of the one that is dialled, of the first twelve of the files.
//!
//! Not covered: status 9, since nobody has two units of one digest.
#![tactic(auto)]

mod cases;
mod moments;
mod nodes;
mod outside;
mod planned;

use hw_case_words::Answer;
use std::io;

fn main(rt: HostRuntime) -> io::Result<()> {
    for line in rt.lines(rt.alloc()) {
        answer(rt, line?.as_str())?;
    }
    Ok(())
}

/// Answers a line.
fn answer(rt: HostRuntime, line: &str) -> io::Result<()> {
    let mut answer = Answer::new(rt.alloc());
    cases::tell(rt, &mut answer, line);
    match answer.finish() {
        Some(text) => println!(rt; "{text}"),
        None => Err(io::ErrorKind::InvalidInput.into()),
    }
}
