//! Thirty-two bytes, compared eight at a time.

ghost use Rattle.std.specs.{Prelude.{◌≡◌, ◌+◌, ◌≤◌, take, drop, bytes_eq}, Int.{w64, from_le_bytes, from_be_bytes}};
ghost use Rattle.hw_types.specs.Graph.{bytes_cmp};

use std::cmp::Ordering;

/// Whether the two are the same bytes.
// No branch depends on a byte: a test of each would cost more than to read all four words.
#[inline]
pub(crate) fn is_same(left: &[u8; 32], right: &[u8; 32]) -> bool
    ensures { result ≡ bytes_eq left.now right.now }
{
    (word(left, 0) == word(right, 0))
        & (word(left, 8) == word(right, 8))
        & (word(left, 16) == word(right, 16))
        & (word(left, 24) == word(right, 24))
}

/// Which of the two comes first: the first byte that differs decides.
// The first words of two digests nearly always differ.
#[inline]
pub(crate) fn order(left: &[u8; 32], right: &[u8; 32]) -> Ordering
    ensures { result ≡ bytes_cmp left.now right.now }
{
    let (first, other) = (number(left, 0), number(right, 0));
    if first != other {
        return first.cmp(&other);
    }
    number(left, 8)
        .cmp(&number(right, 8))
        .then(number(left, 16).cmp(&number(right, 16)))
        .then(number(left, 24).cmp(&number(right, 24)))
}

/// The eight bytes from `at` on as one number, which LLVM reads with one load.
#[inline(always)]
fn word(bytes: &[u8; 32], at: usize) -> u64
    requires { at + 8 ≤ 32 }
    ensures { result ≡ from_le_bytes w64 (take 8 (drop at bytes.now)) }
{
    u64::from_le_bytes([
        bytes[at],
        bytes[at + 1],
        bytes[at + 2],
        bytes[at + 3],
        bytes[at + 4],
        bytes[at + 5],
        bytes[at + 6],
        bytes[at + 7],
    ])
}

/// The same eight bytes with the first counting most, so that the numbers order as the bytes do.
#[inline(always)]
fn number(bytes: &[u8; 32], at: usize) -> u64
    requires { at + 8 ≤ 32 }
    ensures { result ≡ from_be_bytes w64 (take 8 (drop at bytes.now)) }
{
    u64::from_be_bytes([
        bytes[at],
        bytes[at + 1],
        bytes[at + 2],
        bytes[at + 3],
        bytes[at + 4],
        bytes[at + 5],
        bytes[at + 6],
        bytes[at + 7],
    ])
}
