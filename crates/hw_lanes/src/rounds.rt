//! The rounds of SHA-256 on four blocks at a time (FIPS 180-4, 6.2.2). What a block has is the column
//! of its lane, and each function does to each column what the standard does to one block.

ghost use Rattle.std.specs.Prelude.{◌≡◌, ℕ, ◌+◌, ◌*◌, ◌%◌, ◌<◌, ◌≤◌, List, length, slice_index, slice_set};
ghost use Rattle.sha2.specs.Sha256.{IsRoundsAt, IsWindow, round, rounds, schedule, window_word};
ghost use Rattle.hw_lanes.specs.Columns.{column};

use crate::words::{add, big_sigma0, big_sigma1, ch, maj, small_sigma0, small_sigma1};
use std::simd::u32x4;

/// The round constants (4.2.2).
const K: [u32; 64] = [
    0x428a2f98, 0x71374491, 0xb5c0fbcf, 0xe9b5dba5, 0x3956c25b, 0x59f111f1, 0x923f82a4, 0xab1c5ed5,
    0xd807aa98, 0x12835b01, 0x243185be, 0x550c7dc3, 0x72be5d74, 0x80deb1fe, 0x9bdc06a7, 0xc19bf174,
    0xe49b69c1, 0xefbe4786, 0x0fc19dc6, 0x240ca1cc, 0x2de92c6f, 0x4a7484aa, 0x5cb0a9dc, 0x76f988da,
    0x983e5152, 0xa831c66d, 0xb00327c8, 0xbf597fc7, 0xc6e00bf3, 0xd5a79147, 0x06ca6351, 0x14292967,
    0x27b70a85, 0x2e1b2138, 0x4d2c6dfc, 0x53380d13, 0x650a7354, 0x766a0abb, 0x81c2c92e, 0x92722c85,
    0xa2bfe8a1, 0xa81a664b, 0xc24b8b70, 0xc76c51a3, 0xd192e819, 0xd6990624, 0xf40e3585, 0x106aa070,
    0x19a4c116, 0x1e376c08, 0x2748774c, 0x34b0bcb5, 0x391c0cb3, 0x4ed8aa4a, 0x5b9cca4f, 0x682e6ff3,
    0x748f82ee, 0x78a5636f, 0x84c87814, 0x8cc70208, 0x90befffa, 0xa4506ceb, 0xbef9a3f7, 0xc67178f2,
];

/// Extends the schedule: word `t` takes the place of word `t - 16` in `w`, which keeps the last sixteen.
#[inline(always)]
fn extend(w: &mut [u32x4; 16], t: usize) -> u32x4
    requires { t < 64 }
    ensures word { (j : ℕ) → j < 4 → slice_index result j ≡ window_word (column w.old j) t }
    ensures kept { (j : ℕ) → column w.new j ≡ slice_set (column w.old j) (t % 16) (slice_index result j) }
{
    let recent = add(small_sigma1(w[(t + 14) % 16]), w[(t + 9) % 16]);
    let word = add(add(recent, small_sigma0(w[(t + 1) % 16])), w[t % 16]);
    w[t % 16] = word;
    word
}

/// A round with the constant `k` and the word `word`.
#[inline(always)]
fn round(v: [u32x4; 8], k: u32, word: u32x4) -> [u32x4; 8]
    ensures { (j : ℕ) → j < 4 → column result j ≡ round (column v j) k (slice_index word j) }
{
    let [a, b, c, d, e, f, g, h] = v;
    // What needs no other sum first, so that the chain through `e` is short.
    let known = add(add(h, u32x4::splat(k)), word);
    let temp1 = add(add(known, ch(e, f, g)), big_sigma1(e));
    let temp2 = add(big_sigma0(a), maj(a, b, c));
    [add(temp1, temp2), a, b, c, add(d, temp1), e, f, g]
}

/// Round `t` of those whose words are in the block.
#[inline(always)]
fn early_round(w: &[u32x4; 16], v: [u32x4; 8], t: usize) -> [u32x4; 8]
    requires { t < 16 }
    ensures { (j : ℕ) → j < 4 → (b h : List ℕ) → IsWindow (column w.now j) (schedule b 48) 16
        → column v j ≡ rounds h (schedule b 48) t → column result j ≡ rounds h (schedule b 48) (t + 1) }
{
    round(v, K[t], w[t])
}

/// Round `t` of those for which the schedule is extended.
#[inline(always)]
fn late_round(w: &mut [u32x4; 16], v: [u32x4; 8], t: usize) -> [u32x4; 8]
    requires from { 16 ≤ t }
    requires below { t < 64 }
    ensures { (j : ℕ) → j < 4 → (b h : List ℕ) → IsRoundsAt b h (column w.old j) (column v j) t
        → IsRoundsAt b h (column w.new j) (column result j) (t + 1) }
{
    let word = extend(w, t);
    round(v, K[t], word)
}

/// Eight early rounds, from round `t` on.
#[inline(always)]
pub(crate) fn early_rounds(w: &[u32x4; 16], v: [u32x4; 8], t: usize) -> [u32x4; 8]
    requires { t + 8 ≤ 16 }
    ensures { (j : ℕ) → j < 4 → (b h : List ℕ) → IsWindow (column w.now j) (schedule b 48) 16
        → column v j ≡ rounds h (schedule b 48) t → column result j ≡ rounds h (schedule b 48) (t + 8) }
{
    let v = early_round(w, v, t);
    let v = early_round(w, v, t + 1);
    let v = early_round(w, v, t + 2);
    let v = early_round(w, v, t + 3);
    let v = early_round(w, v, t + 4);
    let v = early_round(w, v, t + 5);
    let v = early_round(w, v, t + 6);
    early_round(w, v, t + 7)
}

/// Eight late rounds, from round `t` on. Where `t` is a multiple of eight, the place of each word is one that the
/// compiler knows.
#[inline(always)]
pub(crate) fn late_rounds(w: &mut [u32x4; 16], v: [u32x4; 8], t: usize) -> [u32x4; 8]
    requires from { 16 ≤ t }
    requires below { t + 8 ≤ 64 }
    ensures { (j : ℕ) → j < 4 → (b h : List ℕ) → IsRoundsAt b h (column w.old j) (column v j) t
        → IsRoundsAt b h (column w.new j) (column result j) (t + 8) }
{
    let v = late_round(w, v, t);
    let v = late_round(w, v, t + 1);
    let v = late_round(w, v, t + 2);
    let v = late_round(w, v, t + 3);
    let v = late_round(w, v, t + 4);
    let v = late_round(w, v, t + 5);
    let v = late_round(w, v, t + 6);
    late_round(w, v, t + 7)
}
