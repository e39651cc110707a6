//! Doors whose peers wait for what is written to them.

use hw_case_words::{Answer, number};
use hw_doubles::{MemDoor, PacedDoor};

/// A door with a peer that says what the script gives. It gives and takes at most `piece` bytes at once, or all where
/// that is no number. The call of this number fails, if it is a number.
///
/// The script has parts with `+` between them, of hexadecimal digits. With `COUNT.` before its digits, a part and all
/// after it are held back until COUNT bytes were written.
pub fn door_of(answer: &mut Answer, script: &str, piece: &str, call: &str) -> PacedDoor {
    let door = MemDoor::in_pieces(answer.alloc(), piece.parse().unwrap_or(usize::MAX));
    let mut paced = PacedDoor::new(answer.alloc(), door);
    expect(answer, &mut paced, script);
    if let Ok(call) = call.parse() {
        let planned = paced.door.plan.fail_at(call);
        answer.keep(planned);
    }
    paced
}

/// Expects a peer that says what the script gives.
fn expect(answer: &mut Answer, paced: &mut PacedDoor, script: &str) {
    let mut said = Vec::new(answer.alloc());
    for part in script.split('+') {
        add_part(answer, paced, &mut said, part);
    }
    let expected = paced.door.expect(said.as_slice());
    answer.keep(expected);
}

/// Puts a part last in what the peer says, and holds it back where it is to be.
fn add_part(answer: &mut Answer, paced: &mut PacedDoor, said: &mut Vec<u8>, part: &str) {
    match part.split_once('.') {
        Some((count, digits)) => {
            let held = paced.hold(said.len(), number(count) as usize);
            answer.keep(held);
            add_bytes(answer, said, digits);
        }
        None => add_bytes(answer, said, part),
    }
}

/// Puts the bytes of the hexadecimal digits last.
fn add_bytes(answer: &mut Answer, said: &mut Vec<u8>, digits: &str) {
    let bytes = answer.bytes(digits);
    let added = said.extend_from_slice(bytes.as_slice());
    answer.keep(added);
}
