//! What the real files, output, clock, door and consumers answer for the lines of its input, one line for each.
//!
//! The lines, and what each answers:
//!
//! - `# TITLE`: the line again.
//! - `files STEPS`: what files of this machine answer to the steps.
//! - `log LOG STEPS`: what three sets of files answer to the steps: those of two nodes, `ours` and `theirs`, whose log
//!   this is, and those of `others`. Each step is `WHO:STEP`.
//! - `door ADDRESS STEPS`: what a door that listens at the address answers to the steps, and its peers; then its
//!   numbers. For `-` it listens nowhere, and for `taken` where a peer listens.
//! - `afar STEPS -> WANTED`: `as wanted`, where a door that listens at each address of this machine and its peers
//!   answer that; else what they answer. Without IPv6 a machine has no second address, and the answer is `as wanted`.
//! - `output TEXT`: what the real output answers that the text is written to: the text comes before the answer.
//! - `clock BOUNDS`: whether the moment of the real clock is within the bounds.
//! - `values BLOCKS`: what the consumer of values over the real files answers to these blocks.
//! - `count BLOCKS`: what the consumer that counts blocks answers over the real output: the count comes before the
//!   answer.
//! - `count memory BLOCKS`: the same over a sink in memory, and what that took.
//!
//! STEPS and BLOCKS have commas between them. BOUNDS are `LEAST-MOST`; the answer is `from LEAST to MOST`, `below
//! LEAST` or `above MOST`. A `/` in a text that is written or appended is a line feed. What was read is printed as
//! `COUNT:BYTES`, with all bytes of the buffer: `/` for a line feed, and `.` for a byte that was left 0.
//!
//! A step of files is `read:COUNT`, `exists:NAME`, `begin:NAME` or `append:NAME:TEXT`, or is asked of the system:
//! `remove:NAME`, `rename:OLD:NEW`, or `link:TARGET:NAME`, which makes a symbolic link. A COUNT is at most 16.
//!
//! A step of a door is `accept`, `dial:ADDRESS`, `dial`, `read:COUNT`, `write:TEXT`, `end` or `flood`. `dial` alone
//! dials the peer that listens. `flood` writes 65,536 bytes again and again until that fails, at most 1,024 times.
//!
//! With `come:TEXT` a new peer dials the door and says this, with `afar:TEXT` one from the other address of this
//! machine. With `meet` the peer that listens takes the dial. The peer that came or met last says something with
//! `say:TEXT`, says nothing more after `shut`, and hears something with `hear:COUNT`. With `trickle:BOUNDS` it says a
//! byte each 300 milliseconds until the door doesn't read it, at most 60 times: is the number of bytes that were read
//! within the bounds? `clock` keeps the moment and answers nothing, and `within:BOUNDS` answers whether the
//! milliseconds since then are within the bounds.
//!
//! Covered, with answers that were worked out from what hw_host says of itself:
//!
//! - an exchange with each of them; appends by turns, after a read, to a renamed file and onto a full disk;
//! - a log that another node of this machine has, and one that others write to;
//! - peers that are silent, hang, trickle or read nothing, and for how long they are waited for;
//! - a door that fails, and one whose peer hears the last words.

mod answers;
mod consumers;
mod doors;
mod files;
mod lines;
mod logs;
mod peers;

use hw_case_words::Answer;

/// Answers a line.
pub fn tell(rt: HostRuntime, answer: &mut Answer, line: &str) {
    lines::tell(rt, answer, line);
    answer.put("\n");
}
