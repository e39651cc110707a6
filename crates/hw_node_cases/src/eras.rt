//! What a node's eras answer for the lines of its input, and what is reported of the eras of two nodes and of logs.
//!
//! The lines, what each does and what it answers:
//!
//! - `# TEXT`: repeats the line.
//! - `next HEX HEX HEX`: the next configuration, as bytes, where the last block of an era of that configuration has
//!   that digest and that value, of which `-` has no bytes.
//! - `begin HEX`: begins with era 0 of the configuration that these bytes spell: `begun`, or the limit that it breaks.
//! - `deliver ERA HEX`, `forge ERA HEX`: delivers the vertex that these bytes spell, the second with the verdict that
//!   its signatures are wrong: what became of it.
//! - `open`: opens the next era: its number, `none` or `full`.
//! - `count`: how many eras there are.
//! - `core ERA`: the configuration of the era as bytes, how many vertices its journal has, how many units are settled,
//!   and the decided blocks; or `none`.
//! - `audit NODE against NODE`: what an audit of the eras of these two nodes prints; they replace those that began.
//! - `logs eras LOG ..`: the report on the eras of these logs.
//! - `logs audit COUNT LOG ..`: the audit of two nodes' eras, of which the first COUNT logs are the left node's.
//!
//! `changed` after a refusal says that another vertex came back than was delivered.
//!
//! A NODE is a list of words: the bytes of its first configuration, and then any of three in turn. A vertex as bytes is
//! for the era that is meant. `to ERA` says which one that is, and `open` opens the next era and means it. Era 0 is
//! meant first.
//!
//! A LOG is the bytes of a log as hexadecimal digits, or `-` where there is no file. Its name is its place, from 0 on.
//! The answer is the exit status of a program and its text, with `bad log` for a log that can't be read on.
//!
//! Covered, with the answers of an independent implementation:
//!
//! - next configurations of 23 values;
//! - eras that are delivered to and opened, up to 64 of them;
//! - pairs of nodes over one or more eras that agree, differ and begin apart;
//! - runs and audits of one to 64 logs: refused and repeated entries, limits, missing and damaged logs, eras that
//!   aren't there, and other configurations.

mod acts;
mod audits;
mod configs;
mod lines;
mod nodes;
mod runs;

use hw_case_words::Answer;
use hw_eras::Eras;

/// Answers a line, of the eras that began last.
pub fn tell(answer: &mut Answer, nodes: &mut Vec<Eras>, line: &str) {
    lines::tell(answer, nodes, line);
    answer.put("\n");
}
