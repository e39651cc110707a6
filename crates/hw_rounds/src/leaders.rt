//! The leader of each round: an entry of the configuration's table, or a validator drawn by weight.
//!
//! A drawing goes by a stream of words for each round. Its first two words are a number below 2^64, and
//! the pick is that number's share of the total weight. The leader is the first validator whose weight,
//! with the weights before it, is more than the pick. The running weights are kept, and the search is by
//! bisection.
//!
//! Contracts see a table as the configuration that it was made of. Looking up a leader takes no memory.

ghost use Rattle.std.specs.Prelude.{◌≡◌, ◌<◌, length, None, IfOk};
ghost use Rattle.hw_types.specs.{Limits.{config_fault}, Rounds.{leader_of}};

use crate::drawing::{drawn_number, drawn_place, entry_at, running_weights, seed_of};
use hw_types::{Config, Leaders, OutOfMemory};
use std::alloc::Global;
use std::marker::Model;

/// Who leads which round, in an instance of one configuration.
#[derive(Drop)]
pub struct LeaderTable {
    config: Config,
    /// For each validator its weight and those before it.
    running: Vec<u64>,
    /// The seed of all words, where leaders are drawn.
    seed: [u8; 32],
}

impl Model for LeaderTable {
    ghost use Rattle.hw_types.specs.declared.config.Config.{Config};
    ghost use Rattle.hw_rounds.specs.Drawing.{IsPrepared};

    ghost Value = { Config };

    ghost view = { λ table. table.config };

    ghost invariant = { λ table. IsPrepared table.config table.running.items table.seed };
}

impl LeaderTable {
    /// The table of a lawful configuration.
    pub fn new(alloc: Global, config: &Config) -> Result<LeaderTable, OutOfMemory>
        requires { config_fault config.now ≡ None }
        ensures { IfOk result (λ table. table ≡ config.now) }
    {
        Ok(LeaderTable {
            config: config.copy()?,
            running: running_weights(alloc, config.weights.as_slice())?,
            seed: seed_of(&config.leaders),
        })
    }

    /// The validator that leads a round, given as the moment at which the round begins. By a table it
    /// is the entry of the round's place among the shortest rounds, again from the first after the last.
    pub fn leader(&self, round: u64) -> u32
        ensures exact { result ≡ leader_of self.now round }
        ensures within { result < length self.now.weights }
    {
        match &self.config.leaders {
            Leaders::Table(entries) => {
                entry_at(entries.as_slice(), round >> self.config.min_exponent)
            }
            Leaders::Drawn(_) => drawn_place(
                self.running.as_slice(),
                drawn_number(self.seed, round),
            ),
        }
    }
}
