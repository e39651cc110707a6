//! What is asked of a node and of what is made of its journal, for the lines of the input: needs, certificates,
//! consumers, and clusters of nodes. There is one line for each, or more where it says so.
//!
//! The lines, what each does and what it answers:
//!
//! - `# TEXT`: repeats the line.
//! - `begin HEX`: begins a node of the configuration that these bytes spell: `begun`, or the limit that it breaks.
//! - `deliver HEX`: delivers the vertex that these bytes spell: what became of it.
//! - `unit HEX`, `faulty V`, `endorsed HEX`: the vertices that the node has for the need, each as bytes, a dash where
//!   there is none: the unit of this digest, evidence against the validator, endorsements of the unit.
//! - `against V`: the two units of the evidence against the validator, each as its signature begins, a dash where there
//!   is none.
//! - `read HEX`: how many vertices the certificate has that these bytes spell, and whether it is spelled so again; or
//!   the error.
//! - `certify HEX`: the certificate of that certificate's block, asked of a node that took its vertices: how many
//!   vertices it has, and its bytes; or why there is none. That node replaces those that began.
//! - `ask HEX`: the line that is printed for the same.
//! - `print HEX TEXT`: the line that is printed for the check of that certificate with the verdicts by the keys of the
//!   text, or the text of what is wrong with its bytes.
//! - `check HEX TEXT`: the answer to that certificate with the verdicts by the keys of the text, in which a `/` stands
//!   for a line feed.
//! - `verdicts HEX DIGITS`: the same with these verdicts, a digit 0 or 1 for each vertex.
//! - `each LOG PLAN ..`, `once LOG PLAN ..`: consumers with these plans are passed the blocks that the log decides,
//!   after each entry, or once after the last, and are told then that no block follows. The answer is how many are
//!   left, and of each that was dropped, in order, `consumer PLACE dropped at HEIGHT`: with `out of memory` in place of
//!   `dropped` where it found none, and `finish` in place of the height after the last block.
//! - `feed LOG PLAN ..`: the replay itself passes the blocks on after each entry: how many are left, then the lines of
//!   those that were dropped, then an empty line.
//! - `gen NUMBER ROUNDS`: how many units of a generated journal are settled, how many blocks are decided, and how high
//!   the last one is.
//! - `sim NUMBER NODES STEPS`: how many vertices are sent, the most blocks that a node decides, how many actions are
//!   refused, and how many validators equivocate.
//! - `nodes COUNT RECORDS ACTIONS`: what each action is answered, and how many vertices are sent then.
//!
//! LOG is the bytes of a log as hexadecimal digits. A PLAN is the calls that a consumer takes, in order and with commas
//! between: `HEIGHT:VALUE`, with VALUE in hexadecimal digits, and `finish`; `-` is none. Each other call fails; after a
//! `memory` in the plan it finds no memory.
//!
//! The nodes of a cluster are the first COUNT of three validators of weight 1, and each keeps RECORDS records at most.
//! Rounds last 16 milliseconds, and the validators 0, 0 and 2 lead in turn. An action is `step:NODE:NOW`;
//! `give:NODE:SENT`; `block:CREATOR:TIME`, by which somebody sends a first block of that creator; `pair:CREATOR:TIME`,
//! two such blocks as evidence; or `word:CREATOR:TIME`, an endorsement by that validator.
//!
//! Covered, with the answers of an independent implementation:
//!
//! - needs: units, evidence and endorsements by many orders of delivery, and forks at several sequence numbers with
//!   up to five units each;
//! - certificates of made-up networks, cut, changed and with wrong keys; each line and each text that is printed for
//!   them;
//! - certificates that nodes make: in the order of settling, with evidence that came and evidence made of settled
//!   units, with endorsements, of as many vertices as a journal may have and one more, with no summit now, and with
//!   too many faulty;
//! - logs that are replayed with consumers in memory, of which some fail at a block or at the end; the lines of the
//!   dropped ones;
//! - runs and generated journals that a number chooses; actions of clusters with forged blocks, evidence and
//!   endorsements, own units that a full journal refuses, and configurations beyond their limits.

mod actions;
mod certificates;
mod checks;
mod clusters;
mod feeds;
mod lines;
mod making;
mod nodes;
mod passes;
mod planned;
mod printed;
mod wanted;

use hw_case_words::Answer;
use hw_core::Core;

/// Answers a line, of the node that began last.
pub fn tell(answer: &mut Answer, nodes: &mut Vec<Core>, line: &str) {
    lines::tell(answer, nodes, line);
    answer.put("\n");
}
