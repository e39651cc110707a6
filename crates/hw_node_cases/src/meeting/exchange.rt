//! A session with a peer, in memory.

ghost use Rattle.std.specs.Prelude.{◌≡◌, ◌≤◌, true, IfOk};

use crate::meeting::ends::{put_sent, put_session_end};
use crate::meeting::frames::kind_of;
use hw_case_words::Answer;
use hw_doubles::MemDoor;
use hw_io::Door;
use hw_link::{BYTE_LIMIT, SessionEnd};
use hw_meeting_node::{HeardMeeting, read_meeting, send_meeting};
use std::alloc::Global;

/// The most validators that there are.
const MOST: u32 = 1024;

/// What is heard of a peer that says what these digits spell, and what is sent back.
pub fn heard(answer: &mut Answer, validators: u32, piece: usize, digits: &str) {
    let said = answer.bytes(digits);
    let mut door = MemDoor::in_pieces(answer.alloc(), piece);
    let expected = door.expect(said.as_slice());
    answer.keep(expected);
    session_text(answer, &mut door, validators.min(MOST), said.len());
}

fn session_text(answer: &mut Answer, door: &mut MemDoor, validators: u32, turns: usize)
    requires { validators ≤ 1024 }
{
    match door.accept() {
        Ok(()) => {
            exchange(answer, door, validators, turns);
            answer.put(", ");
            put_sent(answer, door);
        }
        Err(_) => answer.refuse(),
    }
}

/// The frames that are heard in an open session and sent back, and how it ends.
fn exchange<D: Door>(answer: &mut Answer, door: &mut D, validators: u32, turns: usize)
    requires few { validators ≤ 1024 }
    requires open { D.is_open door.old ≡ true }
{
    let mut place = 0;
    for _turn in 0..=turns {
        match turn(answer.alloc(), door, validators, place) {
            Ok(heard) => {
                place = heard.next;
                put_frame(answer, &heard);
            }
            Err(end) => {
                put_session_end(answer, end);
                break;
            }
        }
    }
}

/// Hears a frame and sends it back.
fn turn<D: Door>(
    alloc: Global,
    door: &mut D,
    validators: u32,
    place: u64,
) -> Result<HeardMeeting, SessionEnd>
    requires few { validators ≤ 1024 }
    requires place { place ≤ BYTE_LIMIT }
    requires open { D.is_open door.old ≡ true }
    ensures next { IfOk result (λ heard. heard.next ≤ BYTE_LIMIT) }
    ensures open { D.is_open door.new ≡ true }
{
    let heard = read_meeting(alloc, door, validators, place)?;
    send_meeting(alloc, door, validators, &heard.frame)?;
    Ok(heard)
}

/// Puts the kind of a frame, and the place after it.
fn put_frame(answer: &mut Answer, heard: &HeardMeeting) {
    answer.put(kind_of(&heard.frame));
    answer.put(" ");
    answer.number(heard.next);
    answer.put(", ");
}
