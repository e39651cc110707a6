//! Four lanes at work on the pieces of a buffer. A lane that is done with its piece takes the next
//! one, so that no lane waits for a longer piece in another.

ghost use Rattle.std.specs.Prelude.{◌≡◌, ◌≢◌, ℕ, List, ◌+◌, ◌-◌, ◌*◌, ◌^◌, ◌<◌, ◌≤◌, [], ◌∷◌, length, slice_index, slice_set, All, MatchOption};
ghost use Rattle.sha2.specs.Sha256.{initial_hash_256};
ghost use Rattle.hw_lanes.specs.{Columns.{column}, AtWork.{AreAt}, Pieces.{IsWithin}};

use crate::block::compress;
use crate::padded::{block, block_count, tail};
use crate::pieces::{Part, piece};
use crate::state::lanes_with;
use std::simd::u32x4;

/// The blocks after a message's whole ones.
#[derive(Clone, Copy)]
struct Tail {
    bytes: [u8; 128],
}

/// What each lane does.
#[derive(Drop)]
pub(crate) struct Lanes {
    /// The piece that the lane has. One past the last is the empty message.
    pieces: [usize; 4],
    /// How many blocks of it are left.
    left: [usize; 4],
    tails: [Tail; 4],
}

/// By a vector's own means, since a store of one word of it and a load of the whole wait for each
/// other.
#[inline(always)]
fn with_lane(v: u32x4, lane: usize, word: u32) -> u32x4
    requires { lane < 4 }
    ensures at { slice_index result lane ≡ word }
    ensures others { (j : ℕ) → j ≢ lane → slice_index result j ≡ slice_index v j }
{
    let places = u32x4::from_array([0, 1, 2, 3]);
    let here = places.simd_eq(u32x4::splat(lane as u32));
    here.select(u32x4::splat(word), v)
}

/// The state with the initial hash value (5.3.3) in one lane.
fn restarted(state: &[u32x4; 8], lane: usize) -> [u32x4; 8]
    requires { lane < 4 }
    ensures at { column result lane ≡ initial_hash_256 }
    ensures others { (j : ℕ) → j ≢ lane → column result j ≡ column state.now j }
{
    [
        with_lane(state[0], lane, 0x6a09e667),
        with_lane(state[1], lane, 0xbb67ae85),
        with_lane(state[2], lane, 0x3c6ef372),
        with_lane(state[3], lane, 0xa54ff53a),
        with_lane(state[4], lane, 0x510e527f),
        with_lane(state[5], lane, 0x9b05688c),
        with_lane(state[6], lane, 0x1f83d9ab),
        with_lane(state[7], lane, 0x5be0cd19),
    ]
}

impl Lanes {
    /// The first four pieces, none of which has a block taken in.
    pub(crate) fn new(bytes: &[u8], parts: &[Part]) -> Lanes
        requires parts { All (IsWithin (length bytes.now)) parts.now }
        requires four { 4 ≤ length parts.now }
        ensures at { (h : List (List ℕ)) → ((j : ℕ) → j < 4 → column h j ≡ initial_hash_256)
            → AreAt bytes.now parts.now result h }
        ensures pieces { result.pieces ≡ 0 ∷ 1 ∷ 2 ∷ 3 ∷ [] }
    {
        let p = piece(bytes, parts, 0);
        let q = piece(bytes, parts, 1);
        let r = piece(bytes, parts, 2);
        let s = piece(bytes, parts, 3);
        Lanes {
            pieces: [0, 1, 2, 3],
            left: [
                block_count(p),
                block_count(q),
                block_count(r),
                block_count(s),
            ],
            tails: [
                Tail { bytes: tail(p) },
                Tail { bytes: tail(q) },
                Tail { bytes: tail(r) },
                Tail { bytes: tail(s) },
            ],
        }
    }

    /// Takes in `turns` blocks in each lane, or those that are left there.
    pub(crate) fn advance(
        &mut self,
        state: &mut [u32x4; 8],
        bytes: &[u8],
        parts: &[Part],
        turns: usize,
    )
        requires parts { All (IsWithin (length bytes.now)) parts.now }
        requires at { AreAt bytes.now parts.now self.old state.old }
        requires few { turns < 2 ^ 60 }
        ensures at { AreAt bytes.now parts.now self.new state.new }
        ensures pieces { self.new.pieces ≡ self.old.pieces }
        ensures left { (j : ℕ) → j < 4 → slice_index self.new.left j ≡ slice_index self.old.left j - turns }
    {
        if turns == 0 {
            return;
        }
        let p = piece(bytes, parts, self.pieces[0]);
        let q = piece(bytes, parts, self.pieces[1]);
        let r = piece(bytes, parts, self.pieces[2]);
        let s = piece(bytes, parts, self.pieces[3]);
        let [p_left, q_left, r_left, s_left] = self.left;
        let p_start = block_count(p) - p_left;
        let q_start = block_count(q) - q_left;
        let r_start = block_count(r) - r_left;
        let s_start = block_count(s) - s_left;
        let [p_tail, q_tail, r_tail, s_tail] = self.tails;
        let left = self.left;
        'turns: for i in 0..turns {
            compress(
                state,
                block(p, &p_tail.bytes, p_start + i),
                block(q, &q_tail.bytes, q_start + i),
                block(r, &r_tail.bytes, r_start + i),
                block(s, &s_tail.bytes, s_start + i),
                lanes_with(i, &left),
            );
        }
        self.left = [
            p_left.saturating_sub(turns),
            q_left.saturating_sub(turns),
            r_left.saturating_sub(turns),
            s_left.saturating_sub(turns),
        ];
    }

    /// Gives `lane` the piece `next`.
    pub(crate) fn load(
        &mut self,
        state: &mut [u32x4; 8],
        bytes: &[u8],
        parts: &[Part],
        lane: usize,
        next: usize,
    )
        requires parts { All (IsWithin (length bytes.now)) parts.now }
        requires at { AreAt bytes.now parts.now self.old state.old }
        requires lane { lane < 4 }
        requires next { next ≤ length parts.now }
        ensures at { AreAt bytes.now parts.now self.new state.new }
        ensures pieces { self.new.pieces ≡ slice_set self.old.pieces lane next }
    {
        let message = piece(bytes, parts, next);
        *state = restarted(state, lane);
        self.pieces[lane] = next;
        self.left[lane] = block_count(message);
        self.tails[lane] = Tail {
            bytes: tail(message),
        };
    }

    /// How many blocks are left in `lane`.
    pub(crate) fn left_in(&self, lane: usize) -> usize
        requires { lane < 4 }
        ensures { result ≡ slice_index self.now.left lane }
    {
        self.left[lane]
    }

    /// Which piece `lane` has.
    pub(crate) fn piece_in(&self, lane: usize) -> usize
        requires { lane < 4 }
        ensures { result ≡ slice_index self.now.pieces lane }
    {
        self.pieces[lane]
    }

    /// Of the lanes whose pieces are below `count`, one that has the fewest blocks left.
    pub(crate) fn shortest(&self, count: usize) -> Option<usize>
        ensures { MatchOption result ((j : ℕ) → j < 4 → count ≤ slice_index self.now.pieces j)
            (λ lane. (lane < 4) × (slice_index self.now.pieces lane < count)) }
    {
        let mut best = None;
        'lanes: for lane in 0..4 {
            if self.pieces[lane] < count
                && best.is_none_or(|b: usize| b >= 4 || self.left[lane] < self.left[b])
            {
                best = Some(lane);
            }
        }
        best
    }
}
