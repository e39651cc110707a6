//! The names of units, worked out before they are delivered.

ghost use Rattle.std.specs.Prelude.{◌≡◌, ◌+◌, ◌<◌, ◌≤◌, IsTrue, length, map};
ghost use Rattle.hw_lanes.specs.Pieces.{IsWithin};
ghost use Rattle.hw_c.specs.Named.{looks_like_unit, name_of, unit_part};

use crate::sent::Sent;
use hw_codec::{SIGNATURE_LENGTH, UNIT_KIND};
use hw_lanes::{Part, digests_of};

/// At most this many names are worked out at once, four side by side.
pub const MOST: usize = 64;

/// No part of any bytes.
const NOWHERE: Part = Part { start: 0, end: 0 };

/// Whether the vertex is in range, and looks like a unit with a right verdict.
fn looks_like_unit(bytes: &[u8], sent: Sent) -> bool
    ensures looks { result ≡ looks_like_unit bytes.now sent }
    ensures long { IsTrue result → 32 < sent.length }
    ensures within { IsTrue result → sent.start + sent.length ≤ length bytes.now }
{
    let start = sent.start as usize;
    let length = sent.length as usize;
    sent.verdict == 1
        && start <= bytes.len()
        && length <= bytes.len() - start
        && length > SIGNATURE_LENGTH
        && bytes[start] == UNIT_KIND
}

/// Whether one of the vertices looks like a unit with a right verdict. Where none does, no name needs to be worked out.
/// Answers of deliveries do not depend on it.
pub fn has_units(bytes: &[u8], vertices: &[Sent]) -> bool {
    'vertices: for k in 0..vertices.len() {
        if looks_like_unit(bytes, vertices[k]) {
            return true;
        }
    }
    false
}

/// The part of the bytes that spells the unit of the vertex. It is empty where the vertex does not look like a unit
/// with a right verdict.
fn unit_part(bytes: &[u8], sent: Sent) -> Part
    ensures part { result ≡ unit_part bytes.now sent }
    ensures within { IsWithin (length bytes.now) result }
{
    if looks_like_unit(bytes, sent) {
        Part {
            start: sent.start as usize + 1,
            end: (sent.start + sent.length) as usize - SIGNATURE_LENGTH,
        }
    } else {
        NOWHERE
    }
}

/// Writes, for each vertex, the digest of the part that spells its unit.
pub fn work_out(bytes: &[u8], vertices: &[Sent], names: &mut [[u8; 32]])
    requires few { length vertices.now ≤ MOST }
    requires room { length names.old ≡ length vertices.now }
    ensures { names.new ≡ map (name_of bytes.now) vertices.now }
{
    let mut parts = [NOWHERE; MOST];
    let parts = &mut parts[..vertices.len()];
    'parts: for k in 0..vertices.len() {
        parts[k] = unit_part(bytes, vertices[k]);
    }
    digests_of(bytes, parts, names);
}
