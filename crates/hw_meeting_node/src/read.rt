//! Reading a frame of a node that is met.

ghost use Rattle.std.specs.Prelude.{◌≡◌, ◌+◌, ◌<◌, ◌≤◌, [], true, length, IfOk};
ghost use Rattle.hw_io.specs.Doors.{AsksMore};
ghost use Rattle.hw_link.specs.{Asked.{IsAskedInside}, Links.{IsLinkCounted}};
ghost use Rattle.hw_meeting.specs.Frames.{IsSaid};
ghost use Rattle.hw_meeting_node.specs.{Frames.{frame_here}, Heard.{Hears, IsHeard, IsDecoded}};

use hw_io::Door;
use hw_link::{BYTE_LIMIT, FRONT, SessionEnd, read_body};
use hw_meeting::{FrameError, MeetingFrame, decode_meeting};
use std::alloc::Global;

/// A frame that was read, and the place in the session after it.
#[derive(Drop)]
pub struct HeardMeeting {
    pub frame: MeetingFrame,
    pub next: u64,
}

/// Reads the frame that begins at this place of the session, and no byte past it.
///
/// It fails where no frame is there: the peer's bytes end or are no frame, or the byte limit comes. It also fails
/// by a failed call of the door, and where it is out of memory. It asks for no more memory than the frame's
/// length, which is at most 1,048,576 bytes, and what decoding takes.
pub fn read_meeting<D: Door>(
    alloc: Global,
    door: &mut D,
    validators: u32,
    place: u64,
) -> Result<HeardMeeting, SessionEnd>
    requires place { place ≤ BYTE_LIMIT }
    requires open { D.is_open door.old ≡ true }
    ensures heard { Hears validators (IsHeard validators) place [] (D.sessions door.old) (D.sessions door.new) (D.ends door.old) (D.ends door.new) result }
    ensures asks { AsksMore (IsAskedInside (frame_here validators) place [] (D.sessions door.old)) (D.asks door.old) (D.asks door.new) }
    ensures fits { IfOk result (λ h. IsSaid validators h.frame) }
    ensures next { IfOk result (λ h. (place + 4 < h.next) × (h.next ≤ BYTE_LIMIT)) }
    ensures cause { IsLinkCounted (D.faults door.old) (D.faults door.new) result }

    ensures open { D.is_open door.new ≡ true }
    ensures accepts { D.accepts door.new ≡ D.accepts door.old }
    ensures dials { D.dials door.new ≡ D.dials door.old }
{
    let body = read_body(alloc, door, place)?;
    decoded(alloc, validators, place, body.as_slice())
}

/// The frame that begins at this place and has these bytes after its length.
fn decoded(
    alloc: Global,
    validators: u32,
    place: u64,
    body: &[u8],
) -> Result<HeardMeeting, SessionEnd>
    requires { place + 4 + length body.now ≤ BYTE_LIMIT }
    ensures said { IsDecoded validators place body.now result }
    ensures fits { IfOk result (λ h. IsSaid validators h.frame) }
{
    let next = place + (FRONT + body.len()) as u64;
    match decode_meeting(alloc, validators, body) {
        Ok(frame) => Ok(HeardMeeting { frame, next }),
        Err(FrameError::OutOfMemory) => Err(SessionEnd::OutOfMemory),
        Err(FrameError::Form) => Err(SessionEnd::BadFrame(place)),
    }
}
