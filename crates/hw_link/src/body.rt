//! Reading the bytes of a frame, whatever they spell.

ghost use Rattle.std.specs.Prelude.{◌≡◌, ◌+◌, ◌<◌, ◌≤◌, [], true, length, IfOk};
ghost use Rattle.hw_io.specs.Doors.{AsksMore};
ghost use Rattle.hw_link.specs.{Frames.{body_here}, Links.{IsLinkCounted}, Asked.{IsAskedInside}, Heard.{HearsBy, IsLength, IsFrontOf, IsFront, IsBody}};

use crate::end::{BYTE_LIMIT, SessionEnd, cut_end};
use crate::fill::fill;
use hw_io::Door;
use hw_types::{Bytes, MAX_LENGTH};
use std::alloc::Global;

/// How many bytes the length of a frame has.
pub const FRONT: usize = 4;

/// Reads the frame that begins at this place of the session, and no byte past it. Its answer is the bytes after
/// the frame's length.
///
/// It fails where no frame is there: the peer's bytes end, their length is out of range, or the byte limit comes.
/// It also fails by a failed call of the door, and where it is out of memory. It asks for no more memory than the
/// frame's length, which is at most 1,048,576 bytes.
pub fn read_body<D: Door>(alloc: Global, door: &mut D, place: u64) -> Result<Bytes, SessionEnd>
    requires place { place ≤ BYTE_LIMIT }
    requires open { D.is_open door.old ≡ true }
    ensures heard { HearsBy body_here IsBody place [] (D.sessions door.old) (D.sessions door.new) (D.ends door.old) (D.ends door.new) result }
    ensures asks { AsksMore (IsAskedInside body_here place [] (D.sessions door.old)) (D.asks door.old) (D.asks door.new) }
    ensures size { IfOk result (λ body. (0 < length body) × (place + (4 + length body) ≤ BYTE_LIMIT)) }
    ensures cause { IsLinkCounted (D.faults door.old) (D.faults door.new) result }

    ensures open { D.is_open door.new ≡ true }
    ensures accepts { D.accepts door.new ≡ D.accepts door.old }
    ensures dials { D.dials door.new ≡ D.dials door.old }
{
    let front = read_front(door, place)?;
    read_behind(alloc, door, place, front)
}

/// How many of the next `n` bytes may still be read from this place of the session on.
fn room_behind(place: u64, n: usize) -> usize
    requires { place ≤ BYTE_LIMIT }
    ensures most { result ≤ n }
    ensures within { place + result ≤ BYTE_LIMIT }
    ensures reached { result < n → place + result ≡ BYTE_LIMIT }
{
    n.min((BYTE_LIMIT - place) as usize)
}

/// Reads the length of the frame that begins at this place.
fn read_front<D: Door>(door: &mut D, place: u64) -> Result<[u8; 4], SessionEnd>
    requires place { place ≤ BYTE_LIMIT }
    requires open { D.is_open door.old ≡ true }
    ensures heard { HearsBy body_here IsFrontOf place [] (D.sessions door.old) (D.sessions door.new) (D.ends door.old) (D.ends door.new) result }
    ensures asks { AsksMore (IsAskedInside body_here place [] (D.sessions door.old)) (D.asks door.old) (D.asks door.new) }
    ensures cause { IsLinkCounted (D.faults door.old) (D.faults door.new) result }

    ensures open { D.is_open door.new ≡ true }
    ensures accepts { D.accepts door.new ≡ D.accepts door.old }
    ensures dials { D.dials door.new ≡ D.dials door.old }
{
    let mut front = [0; FRONT];
    let room = room_behind(place, FRONT);
    let filled = fill(door, &mut front, room);
    filled.outcome?;
    if filled.end < FRONT {
        return Err(cut_end(place, filled.end));
    }
    checked_front(place, front)
}

/// The length of a frame, if it is one that a frame may have.
fn checked_front(place: u64, front: [u8; 4]) -> Result<[u8; 4], SessionEnd>
    ensures { IsFront place front result }
{
    let length = u32::from_be_bytes(front) as usize;
    if length < 1 || length > MAX_LENGTH {
        Err(SessionEnd::BadFrame(place))
    } else {
        Ok(front)
    }
}

/// Reads the bytes after this length, of the frame that begins at this place.
fn read_behind<D: Door>(
    alloc: Global,
    door: &mut D,
    place: u64,
    front: [u8; 4],
) -> Result<Bytes, SessionEnd>
    requires place { place + 4 ≤ BYTE_LIMIT }
    requires front { IsLength front }
    requires open { D.is_open door.old ≡ true }
    ensures heard { HearsBy body_here IsBody place front (D.sessions door.old) (D.sessions door.new) (D.ends door.old) (D.ends door.new) result }
    ensures asks { AsksMore (IsAskedInside body_here place front (D.sessions door.old)) (D.asks door.old) (D.asks door.new) }
    ensures size { IfOk result (λ body. (0 < length body) × (place + (4 + length body) ≤ BYTE_LIMIT)) }
    ensures cause { IsLinkCounted (D.faults door.old) (D.faults door.new) result }

    ensures open { D.is_open door.new ≡ true }
    ensures accepts { D.accepts door.new ≡ D.accepts door.old }
    ensures dials { D.dials door.new ≡ D.dials door.old }
{
    let length = u32::from_be_bytes(front) as usize;
    let room = room_behind(place + FRONT as u64, length);
    let mut body = vec![in alloc; 0; room]?;
    let filled = fill(door, body.as_mut_slice(), room);
    filled.outcome?;
    if filled.end < length {
        return Err(cut_end(place, FRONT + filled.end));
    }
    Ok(Bytes::from_vec(body))
}
