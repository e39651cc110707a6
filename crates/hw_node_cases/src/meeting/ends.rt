//! Ends of sessions, and nodes, as words.

use hw_case_words::Answer;
use hw_core::Core;
use hw_doubles::MemDoor;
use hw_link::SessionEnd;
use hw_meeting_node::MeetEnd;

/// Puts how a meeting ends.
pub fn put_end(answer: &mut Answer, end: MeetEnd) {
    match end {
        MeetEnd::Done { refused } => {
            answer.put("done refused ");
            answer.show(&refused);
        }
        MeetEnd::EndOfInput => answer.put("end of input"),
        MeetEnd::WrongInstance => answer.put("wrong instance"),
        MeetEnd::BadFrame(place) => put_bad(answer, place),
        MeetEnd::LinkFault => answer.put("link fault"),
        MeetEnd::AppendFault => answer.put("append fault"),
        MeetEnd::ByteLimit => answer.put("byte limit"),
        MeetEnd::Clash => answer.put("clash"),
        MeetEnd::OutOfMemory => answer.refuse(),
    }
}

fn put_bad(answer: &mut Answer, place: u64) {
    answer.put("bad frame at ");
    answer.number(place);
}

/// Puts how many units of the node are settled and parked, the weight of its faulty validators, and its
/// decided blocks.
pub fn put_core(answer: &mut Answer, core: &Core) {
    let settled = core.settled_count();
    let parked = core.parked_count();
    let faulty = core.faulty_weight();
    let put = write!(
        answer.text,
        " units {settled} parked {parked} faulty {faulty}"
    );
    answer.keep(put);
    if core.exceeded().is_some() {
        answer.put(" exceeded");
    }
    for index in 0..core.decision_count() {
        answer.put(" final ");
        answer.hex(core.decision(index).block.0.as_slice());
    }
}

/// Puts how a session of frames ends.
pub fn put_session_end(answer: &mut Answer, end: SessionEnd) {
    match end {
        SessionEnd::EndOfInput => answer.put("end of input"),
        SessionEnd::BadFrame(place) => put_bad(answer, place),
        SessionEnd::LinkFault => answer.put("link fault"),
        SessionEnd::OutOfMemory => answer.refuse(),
        _ => answer.put("another end"),
    }
}

/// Puts the digits of what was sent.
pub fn put_sent(answer: &mut Answer, door: &MemDoor) {
    answer.put("sent ");
    if let Some(session) = door.sessions().last() {
        answer.hex(session.written());
    }
}
