//! What the layers of the graph answer for the lines of the input, and what a validator may make by the state of its
//! node, one answer a line.
//!
//! The lines, what each does and what it answers:
//!
//! - `# TEXT`: repeats the line.
//! - `weights N ..`: begins the state of a node with these weights; `ftt`, `levels`, `leaders` and `end` may follow,
//!   each with its numbers.
//! - `unit NAME by V at T cites C ..`: judges a unit and admits it where it keeps all rules; `exp`, `number`, `block`
//!   and `endorsed` may follow, each with its words.
//! - `mark V`: there is evidence against the validator.
//! - `endorse NAME by V ..`: adds endorsements: New or Repeat for each, and whether the unit is endorsed then.
//! - `show`: what the state observes, its fork choice, who is faulty and their weight.
//! - `choice C ..`: the fork choice of a panorama.
//! - `consistent C ..`: whether a panorama is consistent.
//! - `most C .. C ..`: whether the first panorama is at most the second.
//! - `join C .. C ..`: the least panorama above both.
//! - `naive C .. endorsed NAME ..`: the naive fork of a unit with this panorama and list.
//! - `summit NAME LEVEL QUORUM C ..`: whether the block has a summit, and its starts.
//! - `chain N`: admits a chain of blocks by validator 0, `n0` to the N-th.
//! - `lane NAME N`, `ancestor NAME N`: the unit of number N on the lane, the block of height N on the chain.
//! - `on NAME NAME`, `sees NAME NAME`: whether the first is on the lane of the second, whether the first has seen the
//!   second.
//! - `step by V at T`: the unit that the validator may make at this moment, or `none`; `block` may follow, with the
//!   value of a proposal.
//! - `make NAME by V at T`: the same, and what becomes of that unit under this name.
//! - `random UNITS PANORAMAS SEED`: of PANORAMAS random panoramas of a random graph of UNITS units, how many have the
//!   fork choice that sums of scores give.
//!
//! C is `-`, `!` or the name of a unit. The digest of a unit is its name, and all units are of one instance.
//!
//! Covered, by the running example of the definitions and by examples that were worked by hand:
//!
//! - each of the nineteen rules, broken once and kept; equivocations and evidence that move the panorama and the fork
//!   choice; endorsements up to the majority and over it;
//! - a lane of 5,000 units, worked jumps, and a fork of two lanes, joined and compared;
//! - worked naive forks of one validator and of two, with endorsed lists and without;
//! - a worked fork choice, and a chain of 2,000 blocks with votes at its end, along it and beside it;
//! - three times 400 random panoramas, against a plain walk that sums the score of each child anew;
//! - the worked summits with their starts, one that isn't there, and one that a later unit makes;
//! - 144 lines of steps of a validator, from one unit alone to naive forks with endorsements.

mod begin;
mod lanes;
mod lines;
mod naivety;
mod panoramas;
mod plain;
mod random;
mod settling;
mod shown;
mod steps;
mod summits;
mod units;
mod views;

use hw_admit::State;
use hw_case_words::Answer;

/// Answers a line for the state that is held.
pub fn tell(answer: &mut Answer, held: &mut Option<State>, line: &str) {
    lines::tell(answer, held, line);
    answer.put("\n");
}
