//! Frames from digits and back.

ghost use Rattle.hw_meeting.specs.Frames.{IsSaid};

use hw_case_words::Answer;
use hw_meeting::{FrameError, MeetingFrame, decode_meeting, encode_meeting};

/// The kind of the frame that the digits spell, where encoding gives them back.
pub fn frame_text(answer: &mut Answer, validators: u32, digits: &str) {
    let body = answer.bytes(digits);
    match decode_meeting(answer.alloc(), validators, body.as_slice()) {
        Ok(frame) => spelled_text(answer, validators, &frame, body.as_slice()),
        Err(FrameError::Form) => answer.put("none"),
        Err(FrameError::OutOfMemory) => answer.refuse(),
    }
}

/// The kind of the frame, where it is spelled by these bytes.
fn spelled_text(answer: &mut Answer, validators: u32, frame: &MeetingFrame, body: &[u8])
    requires { IsSaid validators frame.now }
{
    match encode_meeting(answer.alloc(), validators, frame) {
        Ok(again) if again.as_slice() == body => answer.put(kind_of(frame)),
        Ok(_) => answer.put("other bytes"),
        Err(_) => answer.refuse(),
    }
}

/// The kind of the frame in a word.
pub fn kind_of(frame: &MeetingFrame) -> &'static str {
    match frame {
        MeetingFrame::Hello(_) => "hello",
        MeetingFrame::Vertex(_) => "vertex",
        MeetingFrame::Summary(_) => "summary",
        MeetingFrame::Torn(_) => "torn",
        MeetingFrame::Done => "done",
    }
}
