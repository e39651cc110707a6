//! Meetings in memory.

use crate::meeting::ends::{put_core, put_end, put_sent};
use crate::meeting::nodes::{begin, deliver_all};
use crate::paced::door_of;
use crate::spelled::vertex_of;
use hw_case_words::Answer;
use hw_core::Core;
use hw_doubles::PacedDoor;
use hw_meeting_node::{MemTaker, Taker, VertexList, host_one, meet_one};
use hw_types::CodecError;

/// How a node of this configuration meets a peer, what it has then, and what it sent. The words are what it has
/// before, what it gives a false verdict, the pieces and the failing call of the door, and what the peer says.
pub fn session_text(
    answer: &mut Answer,
    nodes: &mut Vec<Core>,
    side: &str,
    config: &str,
    words: &[&str],
) {
    let [has, refused, piece, fault, says] = words else {
        return answer.refuse();
    };
    nodes.clear();
    begin(answer, nodes, config);
    match nodes.pop() {
        Some(core) => {
            let mut taker = taker_of(answer, core, has, refused);
            let mut paced = door_of(answer, says, piece, fault);
            meet(answer, side, &mut taker, &mut paced);
            put_core(answer, taker.core());
            answer.put(" ");
            put_sent(answer, &paced.door);
        }
        None => answer.put("no node"),
    }
}

/// A taker of a peer's vertices into this node, after those that it has. It gives those of the last words a false
/// verdict.
fn taker_of(answer: &mut Answer, mut core: Core, has: &str, refused: &str) -> MemTaker {
    deliver_all(answer, &mut core, has);
    MemTaker::new(core, vertices(answer, refused))
}

/// The vertices of these words.
fn vertices(answer: &mut Answer, words: &str) -> VertexList {
    let mut list = VertexList::new(answer.alloc());
    for word in words.split(',') {
        put_vertex(answer, &mut list, word);
    }
    list
}

/// Puts the vertex last that the digits spell, if they spell one.
fn put_vertex(answer: &mut Answer, list: &mut VertexList, digits: &str) {
    match vertex_of(answer, digits) {
        Ok(vertex) => {
            if list.push(vertex).is_err() {
                answer.refuse();
            }
        }
        Err(CodecError::OutOfMemory) => answer.refuse(),
        Err(_) => {}
    }
}

/// The node dials the peer, or is dialled.
fn meet(answer: &mut Answer, side: &str, taker: &mut MemTaker, door: &mut PacedDoor) {
    let end = if side == "meet" {
        meet_one(answer.alloc(), taker, "peer", door)
    } else {
        host_one(answer.alloc(), taker, door)
    };
    put_end(answer, end);
}
