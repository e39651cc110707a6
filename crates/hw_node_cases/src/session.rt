//! What comes of nodes with a log, for the lines of its input, one line for each: of nodes that act, and of nodes that
//! serve, validators that take turns and nodes that meet others, over an outside in memory.
//!
//! A line `session ..` has these words, and any number of acts after them:
//!
//! - configuration: its bytes, as hexadecimal digits.
//! - keys: their text, in which a `/` stands for a line feed.
//! - log: the log's bytes as hexadecimal digits, or `-` where there is none.
//! - failure: `CALL:LEFT`: that call on the files fails, counted from 0, and an append then keeps LEFT bytes; or `-`.
//! - act: `ME:NOW:VALUE`: the validator makes its unit at this moment, with this value as hexadecimal digits;
//!   `accept:VERTEX`: it takes a peer's vertex, whose bytes are hexadecimal digits; `serve:SCRIPT:PIECE:CALL`: it
//!   serves a peer that says what this script gives; `drive:SCRIPT:PIECE:CALL:PUSHED:PULLED`: it drives a session with
//!   such a peer, with these marks, and the marks then come after the answer; or `again`: another node starts from the
//!   log.
//!
//! The door of such a session gives and takes at most PIECE bytes at once, or all for `-`. Its call of number CALL
//! fails, counted from 0, or none for `-`.
//!
//! A SCRIPT is the bytes that the peer says, as hexadecimal digits, in one part or in some with `+` between them. With
//! `COUNT.` before its digits, the peer holds back that part and all after it, its end too, until COUNT bytes were
//! written to it. A node that reads before that gets a link fault, since it would wait for ever.
//!
//! The answer has a word for the start and one for each act, the counts, and the log as it is then.
//!
//! A line `service ..` has these words, and any number of sessions after them:
//!
//! - settings: their JSON text, without spaces.
//! - keys, log: as above.
//! - failures: the calls that fail, counted from 0, with commas between: `files:CALL:LEFT`, of which an append keeps
//!   LEFT bytes, `out:CALL`, and `door:CALL`; or `-`.
//! - consumers: one for each part between commas: the call that fails in it, counted from 0, or `-` for none; `none` is
//!   no consumer.
//! - command: `serve:SESSIONS`; or `run:ME:PEERS:MOMENT:MOMENT..`, with a turn for each moment.
//! - session: what the peer of a session says, as hexadecimal digits.
//!
//! A line `reunion ..` has the same words, but for its command: `host:SESSIONS` of a node that is dialled, or `meet` of
//! one that dials.
//!
//! The answer to both is the status, what was written, the log then, and what the node wrote in each session. In what
//! was written a `/` stands for a line feed.
//!
//! Covered, with the answers of an independent implementation; logs and what was written are compared byte for byte:
//!
//! - nodes that start, make units, stop and start again, with logs of both versions, torn and wrong logs, limits, and
//!   calls that fail;
//! - vertices of peers: accepted, parked, dropped, repeated and refused with each cause but a clash, in order and out
//!   of order, with limits, between own units and across restarts, and with an append that fails;
//! - sessions that a node serves and drives: whole, in pieces and byte by byte, with each kind of frame, other
//!   instances, bad and cut frames, limits, parked and refused vertices, more than 256 vertices and needs, appends
//!   and each call of the link failing, and random ones;
//! - sessions whose peer says nothing more until it has each answer whole, whether the node serves or drives; and one
//!   whose peer waits for a byte more than it is due;
//! - services over honest and hostile streams, with and without a log, with wrong settings, keys and logs, with
//!   consumers that fail at a block or at the end, and with calls of files, output and door that fail;
//! - 298 reunions: worked pairs of nodes as host and as the one that dials, met once and again, with one journal in
//!   both or forks between them; peers cut at many bytes, out of order and out of form, of another instance; false
//!   signatures; several sessions; each call of the door, of the files and of the output failing in turn; and random
//!   pairs of journals.

mod lines;
mod nodes;
mod outside;
mod peers;
mod reunions;
mod runs;
mod services;

use hw_case_words::Answer;
use hw_session::Node;

/// Answers a line.
pub fn tell(answer: &mut Answer, nodes: &mut Vec<Node>, line: &str) {
    lines::tell(answer, nodes, line);
    answer.put("\n");
}
