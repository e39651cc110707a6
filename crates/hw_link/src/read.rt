//! Reading a frame of a link.

ghost use Rattle.std.specs.Prelude.{◌≡◌, ◌+◌, ◌<◌, ◌≤◌, [], true, length, IfOk};
ghost use Rattle.hw_types.specs.Spelling.{FrameFits};
ghost use Rattle.hw_io.specs.Doors.{AsksMore};
ghost use Rattle.hw_link.specs.{Frames.{frame_here}, Asked.{IsAskedInside}, Links.{IsLinkCounted}, Heard.{Hears, IsHeard, IsDecoded}};

use crate::body::{FRONT, read_body};
use crate::end::{BYTE_LIMIT, SessionEnd};
use hw_codec::decode_frame;
use hw_io::Door;
use hw_types::{CodecError, Frame};
use std::alloc::Global;

/// A frame that was read, and the place in the session after it.
#[derive(Drop)]
pub struct Heard {
    pub frame: Frame,
    pub next: u64,
}

/// Reads the frame that begins at this place of the session, and no byte past it.
///
/// It fails where no frame is there: the peer's bytes end or are no frame, or the byte limit comes. It also fails
/// by a failed call of the door, and where it is out of memory. It asks for no more memory than the frame's
/// length, which is at most 1,048,576 bytes, and what decoding takes.
pub fn read_frame<D: Door>(alloc: Global, door: &mut D, place: u64) -> Result<Heard, SessionEnd>
    requires place { place ≤ BYTE_LIMIT }
    requires open { D.is_open door.old ≡ true }
    ensures heard { Hears IsHeard place [] (D.sessions door.old) (D.sessions door.new) (D.ends door.old) (D.ends door.new) result }
    ensures asks { AsksMore (IsAskedInside frame_here place [] (D.sessions door.old)) (D.asks door.old) (D.asks door.new) }
    ensures fits { IfOk result (λ h. FrameFits h.frame) }
    ensures next { IfOk result (λ h. (place + 4 < h.next) × (h.next ≤ BYTE_LIMIT)) }
    ensures cause { IsLinkCounted (D.faults door.old) (D.faults door.new) result }

    ensures open { D.is_open door.new ≡ true }
    ensures accepts { D.accepts door.new ≡ D.accepts door.old }
    ensures dials { D.dials door.new ≡ D.dials door.old }
{
    let body = read_body(alloc, door, place)?;
    decoded(alloc, place, body.as_slice())
}

/// The frame that begins at this place and has these bytes after its length.
fn decoded(alloc: Global, place: u64, body: &[u8]) -> Result<Heard, SessionEnd>
    requires { place + 4 + length body.now ≤ BYTE_LIMIT }
    ensures said { IsDecoded place body.now result }
    ensures fits { IfOk result (λ h. FrameFits h.frame) }
{
    let next = place + (FRONT + body.len()) as u64;
    match decode_frame(alloc, body) {
        Ok(frame) => Ok(Heard { frame, next }),
        Err(CodecError::OutOfMemory) => Err(SessionEnd::OutOfMemory),
        Err(_) => Err(SessionEnd::BadFrame(place)),
    }
}
