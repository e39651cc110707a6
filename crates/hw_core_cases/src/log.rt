//! What the log reader and writer, the rewriting of logs and the outside in memory answer for the lines of its input,
//! one line for each.
//!
//! LOG, NEW, ONE, TWO and what is held then are the bytes of files as hexadecimal digits, or `-` for a file that isn't
//! there. ONE and TWO are one log in both versions. The worked logs have three validators of weight 1: after the
//! header come a first block, a unit that cites it, and units that cite both. PIECE is how many bytes a read gives at
//! most. CALL is the number of the call of the files that fails, counted from 0, or `-`; a failing append takes LEFT
//! bytes. COMMAND is `mend` or `migrate`.
//!
//! The lines, and what each answers:
//!
//! - `count PIECE CALL PATCHES LOG`: how many entries the log has, or its first error, and the faults counted; PATCHES
//!   are `-` or bytes put at places, as `74:2,75:2`.
//! - `copy PIECE CALL LEFT LOG`: the places of the entries copied, or the error; the length of the copy, and whether
//!   the log begins with it.
//! - `both ONE TWO`: of each of the two the places of the entries, and whether its copies in its own version and in the
//!   other one are as given.
//! - `cuts LOG`: each length from which a cut log is answered in another way.
//! - `faults LOG`: how many calls a reading takes, and how many of them, failing alone, end as a read fault.
//! - `other LOG`: what reading a file that isn't there answers.
//! - `COMMAND CALL LEFT NEW LOG`: a log is written anew: how many entries were written, or why none were; the faults
//!   counted; what the new file holds then.
//! - `faults COMMAND LOG`: each call of the files fails in turn: how many runs end with a failed append, and how many
//!   with neither that nor a failed read.
//! - `files KIND`: an exchange with files of which no call is to fail, for `memory` with the number of the calls; for a
//!   number four calls of which the one of that number fails.
//! - `sink CALL`: two pieces written to a sink in pieces of three, of which the write of that number fails; for `-` one
//!   to a sink of which none is to fail.
//! - `buffer PIECE`: a buffer over files in such pieces, whose second read fails.
//! - `clock MOMENTS`: the first four moments of a clock that has these, or none for `-`.
//! - `door PIECE CALLS PEERS STEPS`: what a door answers to the steps, its sessions and its numbers; the calls of these
//!   numbers fail, a read gives at most PIECE bytes, and the peers say these words.
//! - `sure PEERS STEPS`: the same of a door of which no call is to fail.
//! - `watched PEERS STEPS`: the same of one that records the calls of `read` in its last session: each as
//!   `HEARD/WRITTEN`, what had been by then, and how many.
//! - `paced PIECE HOLDS PEERS STEPS`: the same as of `door`, where no call is to fail and the peers wait: each of
//!   HOLDS, with commas between, is `SAID:WRITTEN`, and what a peer says after SAID bytes comes only once WRITTEN bytes
//!   were written.
//! - `consumer CALLS STEPS`: what a consumer answers to the steps, and what it took; the calls of these numbers fail.
//!
//! CALLS and PEERS are lists with commas between, or `-`. A step of a door is `accept`, `dial:ADDRESS`, `read:COUNT`,
//! `write:TEXT` or `end`; one of a consumer is `HEIGHT:VALUE` or `finish`. A session is printed as
//! `ADDRESS/HEARD/WRITTEN`, with `!` after it where a call failed in it, and `-` for no address.
//!
//! Covered:
//!
//! - logs of another implementation in both versions, ten of them random: read entry by entry, and written again byte
//!   for byte in their own version and in the other one;
//! - each error of the compact form at its place, each cut of a log of either version, a failure at each call, and
//!   pieces of 1, 2 and 3 bytes;
//! - logs that are written anew, with the bytes of an independent implementation: of both versions, whole, torn at
//!   each kind of place and with other errors, with a new file that is there, and with calls that fail;
//! - exchanges with each implementation in memory of files, output, clock, door and consumers; the answers of doors
//!   and consumers come from a model that was written apart.

mod consumers;
mod counts;
mod doors;
mod files;
mod lines;
mod logs;
mod plans;
mod rewritten;
mod sinks;

use hw_case_words::Answer;

/// Answers a line.
pub fn tell(answer: &mut Answer, line: &str) {
    lines::tell(answer, line);
    answer.put("\n");
}
