//! The digests of many parts of a buffer.

ghost use Rattle.std.specs.Prelude.{◌≡◌, ◌≤◌, length, map, All};
ghost use Rattle.sha2.specs.Sha256.{sha256};
ghost use Rattle.hw_lanes.specs.Pieces.{IsWithin, part_of, piece_at};

use crate::state::{digest_in, initial_state};
use crate::work::Lanes;
use sha2::{Digest, Sha256};

/// A part of a buffer: from the byte in place `start` to the one before place `end`.
#[derive(Clone, Copy)]
pub struct Part {
    pub start: usize,
    pub end: usize,
}

/// Part `k` of `bytes`, and the empty one past the last.
pub(crate) fn piece<'a>(bytes: &'a [u8], parts: &[Part], k: usize) -> &'a [u8]
    requires parts { All (IsWithin (length bytes.now)) parts.now }
    requires within { k ≤ length parts.now }
    ensures { result.now ≡ piece_at bytes.now parts.now k }
{
    if k == parts.len() {
        return &[];
    }
    let part = parts[k];
    &bytes[part.start..part.end]
}

/// Writes the SHA-256 digest of each of the parts of `bytes` into `out`. Four are in work at a time.
pub fn digests_of(bytes: &[u8], parts: &[Part], out: &mut [[u8; 32]])
    requires parts { All (IsWithin (length bytes.now)) parts.now }
    requires room { length out.old ≡ length parts.now }
    ensures { out.new ≡ map (λ part. sha256 (part_of bytes.now part)) parts.now }
{
    let count = parts.len();
    if count < 4 {
        'few: for k in 0..count {
            out[k] = Sha256::digest(piece(bytes, parts, k));
        }
        return;
    }
    let mut state = initial_state();
    let mut lanes = Lanes::new(bytes, parts);
    let mut next = 4;
    'pieces: while let Some(lane) = lanes.shortest(count) {
        let turns = lanes.left_in(lane);
        lanes.advance(&mut state, bytes, parts, turns);
        let done = lanes.piece_in(lane);
        out[done] = digest_in(&state, lane);
        lanes.load(&mut state, bytes, parts, lane, next);
        if next < count {
            next += 1;
        }
    }
}
