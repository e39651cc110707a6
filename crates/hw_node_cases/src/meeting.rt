//! What nodes that meet say, owe and take, for the lines of its input, one line for each.
//!
//! CONFIG, BODY, BYTES and the vertices are hexadecimal digits, and what a peer SAYS is a script of them, as in the
//! section `session`. LEFT, RIGHT and HAS are the vertices that a node was given before, each with a true verdict.
//! FALSE are those to which it gives a false one. Each list is joined by `,`, or `-` for none. A read gives and a write
//! takes at most PIECE bytes. The call of the door of number FAULT fails, counted from 0, or none for `-`.
//!
//! The lines, and what each answers:
//!
//! - `meet CONFIG LEFT RIGHT`: of each of the two nodes: its summary of each validator, `-` for nothing, `COUNT:TIP`
//!   for a line and `!` for a tangle; the validators that are torn for it; and the places in its journal of what it
//!   owes; `no node` where the configuration breaks a limit.
//! - `frame VALIDATORS BODY`: the kind of the frame that the digits spell, or `none`.
//! - `hear VALIDATORS PIECE BYTES`: of what a peer says that is met: the kind of each frame and the place after it,
//!   then how the session ends, then the digits of what was sent back, which is each frame again.
//! - `node meet CONFIG HAS FALSE PIECE FAULT SAYS`: of a node that dials: how the meeting ends; how many units are
//!   settled and parked; the weight of the faulty validators, and that it exceeds the threshold; the decided blocks;
//!   and the digits of what it sent; `no node` where the configuration breaks a limit.
//! - `node host CONFIG HAS FALSE PIECE FAULT SAYS`: the same of a node that is dialled.
//!
//! Covered, with the answers of an independent implementation:
//!
//! - meetings of two nodes: worked ones, and random ones with forks, parked and dropped units;
//! - frames, whole, cut and spoiled;
//! - 221 sessions of frames, whole, cut at each byte, with lengths and bodies that don't agree, with other numbers of
//!   validators, and in pieces of 1 to 1,000 bytes; each frame is sent back;
//! - 215 meetings of nodes in memory as caller and as host: whole, in pieces, cut between and inside frames, with
//!   frames left out, twice and in another order; other instances; summaries and torn validators out of form, and
//!   others that fit nothing; vertices with false verdicts, that break rules, or in another order; each call of the
//!   door failing in turn. What each sent is compared byte for byte;
//! - meetings whose peer says nothing more until it has each answer whole, and one whose peer waits for a byte more
//!   than it is due, or for what the other side says only after it.

mod ends;
mod exchange;
mod frames;
mod lines;
mod nodes;
mod pairs;
mod sessions;
mod texts;

use hw_case_words::Answer;
use hw_core::Core;

/// Answers a line.
pub fn tell(answer: &mut Answer, nodes: &mut Vec<Core>, line: &str) {
    lines::tell(answer, nodes, line);
    answer.put("\n");
}
