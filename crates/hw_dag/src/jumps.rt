//! The arithmetic of skip pointers.
//!
//! In a chain whose members are numbered from 0 on, the member of number `s` keeps `pointer_count(s)`
//! pointers: pointer `i` leads to the member of number `s - 2^i`. So member 0 keeps none, an odd one
//! keeps one, and that of number 1,000 keeps four, to 999, 998, 996 and 992.
//!
//! To come from `s` down to a number `r` below it, `jump(s, r)` says which pointer to take: the one
//! that leads furthest without passing `r`, among those whose length divides `s`. The number of jumps
//! for a distance `d` is at most `2 * (floor(log2(d)) + 1)`, and `Steps` counts them.
//!
//! Nothing here takes memory.

ghost use Rattle.std.specs.Prelude.{◌≡◌, ◌+◌, ◌-◌, ◌^◌, ◌<◌, ◌≤◌};
ghost use Rattle.hw_dag.specs.Jumps.{pointer_count_of, jump_of, jump_count};

/// How many pointers the member of number `s` keeps: none for 0, else one more than the trailing zeros
/// of `s`.
pub fn pointer_count(s: u64) -> u32
    ensures { result ≡ pointer_count_of s }
{
    if s == 0 { 0 } else { s.trailing_zeros() + 1 }
}

/// Which pointer to take at `s` on the way down to `r`: the lesser of the logarithm of the distance to
/// the base 2, rounded down, and the trailing zeros of `s`. Pointer `i` leads to `s - 2^i`.
pub fn jump(s: u64, r: u64) -> u32
    requires { r < s }
    ensures exact { result ≡ jump_of s r }

    // `s` keeps that pointer, and it leads below `s` and not past `r`.
    ensures kept { result < pointer_count_of s }
    ensures falls { s - 2 ^ result < s }
    ensures within { r + 2 ^ result ≤ s }
    ensures bound { result < 64 }

    // From there one jump fewer is left.
    ensures counted { jump_count s r ≡ jump_count (s - 2 ^ result) r + 1 }
{
    (s - r).ilog2().min(s.trailing_zeros())
}
