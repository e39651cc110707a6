//! What peers do to a node.

use crate::paced::door_of;
use crate::receipts::{BRACKETED, put_receipt};
use crate::spelled::vertex_of;
use hw_case_words::{Answer, number};
use hw_doubles::{MemDoor, MemFiles};
use hw_session::{AcceptFault, Node, PeerMark, SessionEnd};
use hw_types::Receipt;

/// Gives the node a peer's vertex, and puts what became of it.
pub fn accept(answer: &mut Answer, files: &mut MemFiles, node: &mut Node, vertex: &str) {
    match vertex_of(answer, vertex) {
        Ok(vertex) => put_accepted(answer, node.accept(files, vertex)),
        Err(_) => answer.put("no vertex"),
    }
}

/// Puts what became of a vertex.
fn put_accepted(answer: &mut Answer, accepted: Result<Receipt, AcceptFault>) {
    match accepted {
        Ok(receipt) => put_receipt(answer, &BRACKETED, receipt),
        Err(AcceptFault::OutOfMemory) => answer.refuse(),
        Err(fault) => answer.debug(&fault),
    }
}

/// Lets the node serve a peer, and puts how the session ended, how often the peer's bytes ended, and what
/// was written.
pub fn serve(answer: &mut Answer, files: &mut MemFiles, node: &mut Node, peer: &str) {
    let words = answer.words(peer, ':');
    let [said, piece, call] = words.as_slice() else {
        return answer.put("-");
    };
    let mut paced = door_of(answer, said, piece, call);
    let end = node.serve_one(&mut paced, files);
    put_session(answer, &paced.door, end);
}

/// Lets the node drive a session with a peer, and puts the same and the marks then.
pub fn drive(answer: &mut Answer, files: &mut MemFiles, node: &mut Node, peer: &str) {
    let words = answer.words(peer, ':');
    let [said, piece, call, pushed, pulled] = words.as_slice() else {
        return answer.put("-");
    };
    let mut paced = door_of(answer, said, piece, call);
    let mut mark = PeerMark {
        pushed: number(pushed),
        pulled: number(pulled),
    };
    let end = node.drive_one(&mut mark, "peer", &mut paced, files);
    put_session(answer, &paced.door, end);
    let PeerMark { pushed, pulled } = mark;
    let put = write!(answer.text, " {pushed}:{pulled}");
    answer.keep(put);
}

/// Puts what came of a session.
fn put_session(answer: &mut Answer, door: &MemDoor, end: SessionEnd) {
    match (end, door.sessions()) {
        (SessionEnd::OutOfMemory, _) => answer.refuse(),
        (_, [.., session]) => {
            let ends = door.numbers().ends;
            let put = write!(answer.text, "{end:?}:{ends}:");
            answer.keep(put);
            answer.hex(session.written());
        }
        (_, []) => answer.put("no session"),
    }
}
