//! The leader of each round: an entry of the configuration's table, or a validator drawn by weight.
//!
//! A drawing goes by a stream of words for each round. Its first two words are a number below 2^64, and
//! the pick is that number's share of the total weight. The leader is the first validator whose weight,
//! with the weights before it, is more than the pick. The running weights are kept, and the search is by
//! bisection.
//!
//! Contracts see a table as the configuration that it was made of. Looking up a leader takes no memory.

ghost use Rattle.std.specs.Prelude.{◌≡◌, ℕ, ◌+◌, ◌*◌, ◌/◌, ◌%◌, ◌^◌, ◌<◌, ◌≤◌, List, length, sum, slice_index, IfOk};
ghost use Rattle.rand_chacha.specs.ChaCha.{word_at, key_of};
ghost use Rattle.hw_types.specs.Rounds.{first_above};
ghost use Rattle.hw_rounds.specs.Drawing.{IsRunning, IsSeed};

use hw_types::{Leaders, OutOfMemory};
use rand_chacha::ChaCha8Rng;
use rand_core::SeedableRng;
use rand_core::utils::NextWord;
use sha2::{Digest, Sha256};
use std::alloc::Global;

/// For each validator its weight and those before it, together.
pub fn running_weights(alloc: Global, weights: &[u64]) -> Result<Vec<u64>, OutOfMemory>
    requires { sum weights.now < 2 ^ 62 }
    ensures { IfOk result (λ running. IsRunning weights.now running.items) }
{
    let mut running = Vec::new(alloc);
    let mut total = 0u64;
    for weight in weights {
        total += *weight;
        running.push(total)?;
    }
    Ok(running)
}

/// The seed of a drawing's words. A table needs none.
pub fn seed_of(leaders: &Leaders) -> [u8; 32]
    ensures { IsSeed leaders.now result }
{
    match leaders {
        Leaders::Table(_) => [0; 32],
        Leaders::Drawn(key) => {
            let mut hasher = Sha256::new();
            hasher.update(b"leaders");
            hasher.update(key);
            hasher.finalize()
        }
    }
}

/// The number that a round's first two words make, of which the first is the low half.
pub fn drawn_number(seed: [u8; 32], round: u64) -> u64
    ensures { result ≡ word_at 4 (key_of seed) round 0 + 2 ^ 32 * word_at 4 (key_of seed) round 1 }
{
    let mut words = ChaCha8Rng::from_seed(seed);
    words.set_stream(round);
    let low = words.next_word();
    let high = words.next_word();
    u64::from(low) + (u64::from(high) << 32)
}

/// The validator that the number picks: its share of the total weight is below the weights up to that
/// validator, and not below those up to the one before.
pub fn drawn_place(running: &[u64], number: u64) -> u32
    requires { length running.now ≤ 1024 }
    ensures exact { (weights : List ℕ) → IsRunning weights running.now → result ≡ first_above weights (number * sum weights / 2 ^ 64) }
    ensures within { (weights : List ℕ) → IsRunning weights running.now → 0 < sum weights → result < length weights }
{
    let Some(total) = running.last() else {
        return 0;
    };
    let pick = u128::from(number) * u128::from(*total) >> 64;
    running.partition_point(|sum| u128::from(*sum) <= pick) as u32
}

/// The entry at a place, again from the first after the last.
pub fn entry_at(entries: &[u32], place: u64) -> u32
    requires { 0 < length entries.now }
    ensures { result ≡ slice_index entries.now (place % length entries.now) }
{
    entries[(place % entries.len() as u64) as usize]
}
