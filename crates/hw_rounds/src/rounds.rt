//! Rounds: which one a moment lies in, when its witness units are due, and when a validator may change
//! their length.
//!
//! A round of exponent `e` lasts `2^e` milliseconds, and its number is the moment at which it begins.
//! Moments are in milliseconds, below 2^63, and exponents are at most 40, so that nothing overflows.
//!
//! Nothing here takes memory.

ghost use Rattle.std.specs.Prelude.{◌≡◌, ◌^◌, ◌<◌, ◌≤◌};
ghost use Rattle.hw_types.specs.Rounds.{round_id, witness_time, changes_lawfully};

use hw_types::MAX_EXPONENT;

/// The round that a moment lies in: the moment, with its last `exponent` binary digits as 0.
pub fn round_id(time: u64, exponent: u8) -> u64
    requires { exponent ≤ MAX_EXPONENT }
    ensures { result ≡ round_id time exponent }
{
    time >> exponent << exponent
}

/// The moment of a round, two thirds through and rounded down, from which its witness units are made.
pub fn witness_time(round: u64, exponent: u8) -> u64
    requires time { round < 2 ^ 63 }
    requires length { exponent ≤ MAX_EXPONENT }
    ensures { result ≡ witness_time round exponent }
{
    round + (2 << exponent) / 3
}

/// Whether a unit at `time` may have `exponent` where its creator's unit before, at the moment `before`,
/// has `before_exponent`: it is the same, or the later unit lies in a later round of the greater
/// exponent.
pub fn changes_lawfully(before: u64, before_exponent: u8, time: u64, exponent: u8) -> bool
    requires before { before_exponent ≤ MAX_EXPONENT }
    requires length { exponent ≤ MAX_EXPONENT }
    ensures { result ≡ changes_lawfully before before_exponent time exponent }
{
    let greater = before_exponent.max(exponent);
    before_exponent == exponent || before >> greater < time >> greater
}
