//! The words of four blocks, and the state after them.

ghost use Rattle.std.specs.Prelude.{◌≡◌, ℕ, ◌+◌, ◌-◌, ◌*◌, ◌^◌, ◌<◌, ◌≤◌, [], ◌∷◌, length, slice_index, slice_index_or};
ghost use Rattle.sha2.specs.Sha256.{add32, add_state, compress, schedule, word_at, IsWindow};
ghost use Rattle.hw_lanes.specs.Columns.{column, in_lane};

use crate::rounds::{early_rounds, late_rounds};
use std::simd::{u8x16, u32x4};

/// Where the bytes of four words go, so that each word, stored high byte first, is read low byte
/// first.
const SWAPPED: [usize; 16] = [3, 2, 1, 0, 7, 6, 5, 4, 11, 10, 9, 8, 15, 14, 13, 12];

/// The four words of `block` from byte `at` on.
#[inline(always)]
fn four_words(block: &[u8], at: usize) -> u32x4
    requires { at + 16 ≤ length block.now }
    ensures { (k : ℕ) → k < 4 → slice_index result k ≡ word_at block.now (at + 4 * k) }
{
    let bytes = u8x16::from_slice(&block[at..at + 16]);
    u32x4::from_le_bytes(bytes.swizzle(SWAPPED))
}

/// Rows become columns: lane `j` of vector `k` is lane `k` of argument `j`.
#[inline(always)]
fn transposed(a: u32x4, b: u32x4, c: u32x4, d: u32x4) -> [u32x4; 4]
    ensures { (j k : ℕ) → j < 4 → k < 4
        → slice_index (slice_index_or result k []) j ≡ slice_index (in_lane a b c d j) k }
{
    let (ac_low, ac_high) = a.interleave(c);
    let (bd_low, bd_high) = b.interleave(d);
    let (first, second) = ac_low.interleave(bd_low);
    let (third, fourth) = ac_high.interleave(bd_high);
    [first, second, third, fourth]
}

/// `x`, with `y` added to it in the lanes where `kept` has every bit set and not in those where it
/// has none.
#[inline(always)]
fn add_kept(x: u32x4, y: u32x4, kept: u32x4) -> u32x4
    ensures taken { (j : ℕ) → j < 4 → slice_index kept j ≡ 2 ^ 32 - 1
        → slice_index result j ≡ add32 (slice_index x j) (slice_index y j) }
    ensures left { (j : ℕ) → j < 4 → slice_index kept j ≡ 0 → slice_index result j ≡ slice_index x j }
{
    x + (y & kept)
}

/// The words of four blocks from byte `at` on: vector `k` has word `k` of each.
#[inline(always)]
fn four_vectors(p: &[u8], q: &[u8], r: &[u8], s: &[u8], at: usize) -> [u32x4; 4]
    requires p_long { at + 16 ≤ length p.now }
    requires q_long { at + 16 ≤ length q.now }
    requires r_long { at + 16 ≤ length r.now }
    requires s_long { at + 16 ≤ length s.now }
    ensures { (j k : ℕ) → j < 4 → k < 4
        → slice_index (slice_index_or result k []) j ≡ word_at (in_lane p.now q.now r.now s.now j) (at + 4 * k) }
{
    transposed(
        four_words(p, at),
        four_words(q, at),
        four_words(r, at),
        four_words(s, at),
    )
}

/// The window that the first 16 words of four blocks fill.
#[inline(always)]
fn first_words(p: &[u8], q: &[u8], r: &[u8], s: &[u8]) -> [u32x4; 16]
    requires p_long { length p.now ≡ 64 }
    requires q_long { length q.now ≡ 64 }
    requires r_long { length r.now ≡ 64 }
    requires s_long { length s.now ≡ 64 }
    ensures { (j : ℕ) → j < 4
        → IsWindow (column result j) (schedule (in_lane p.now q.now r.now s.now j) 48) 16 }
{
    let [w0, w1, w2, w3] = four_vectors(p, q, r, s, 0);
    let [w4, w5, w6, w7] = four_vectors(p, q, r, s, 16);
    let [w8, w9, w10, w11] = four_vectors(p, q, r, s, 32);
    let [w12, w13, w14, w15] = four_vectors(p, q, r, s, 48);
    [
        w0, w1, w2, w3, w4, w5, w6, w7, w8, w9, w10, w11, w12, w13, w14, w15,
    ]
}

#[inline(always)]
fn add_state(state: &[u32x4; 8], v: &[u32x4; 8], kept: u32x4) -> [u32x4; 8]
    ensures taken { (j : ℕ) → j < 4 → slice_index kept j ≡ 2 ^ 32 - 1
        → column result j ≡ add_state (column state.now j) (column v.now j) }
    ensures left { (j : ℕ) → j < 4 → slice_index kept j ≡ 0 → column result j ≡ column state.now j }
{
    [
        add_kept(state[0], v[0], kept),
        add_kept(state[1], v[1], kept),
        add_kept(state[2], v[2], kept),
        add_kept(state[3], v[3], kept),
        add_kept(state[4], v[4], kept),
        add_kept(state[5], v[5], kept),
        add_kept(state[6], v[6], kept),
        add_kept(state[7], v[7], kept),
    ]
}

/// Runs the 64 rounds over a block in each lane, and adds the result to `state` in the lanes where
/// `kept` has every bit set. The lanes where it has none stay as they are.
pub(crate) fn compress(state: &mut [u32x4; 8], p: &[u8], q: &[u8], r: &[u8], s: &[u8], kept: u32x4)
    requires p_long { length p.now ≡ 64 }
    requires q_long { length q.now ≡ 64 }
    requires r_long { length r.now ≡ 64 }
    requires s_long { length s.now ≡ 64 }
    ensures taken { (j : ℕ) → j < 4 → slice_index kept j ≡ 2 ^ 32 - 1
        → column state.new j ≡ compress (column state.old j) (in_lane p.now q.now r.now s.now j) }
    ensures left { (j : ℕ) → j < 4 → slice_index kept j ≡ 0 → column state.new j ≡ column state.old j }
{
    let mut w = first_words(p, q, r, s);
    let mut v = early_rounds(&w, *state, 0);
    v = early_rounds(&w, v, 8);
    'schedule: for turn in 1..4 {
        v = late_rounds(&mut w, v, 16 * turn);
        v = late_rounds(&mut w, v, 16 * turn + 8);
    }
    *state = add_state(state, &v, kept);
}
