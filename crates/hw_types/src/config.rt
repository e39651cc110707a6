//! The configuration of an instance, and its limits.

ghost use Rattle.std.specs.{Prelude.{◌≡◌, ◌<◌, ◌^◌, Some, None, IfOk, MatchResult, ◌&&◌, not, nat_le, position, sum}, List.{list_any}};
ghost use Rattle.hw_types.specs.{Tests.{first_broken}, Limits.{config_fault, weight_tests, round_tests, room_tests, most_records, is_within, is_zero, is_bad_table}};

use crate::items::{IndexList, OutOfMemory, WeightList};

/// The most validators that an instance may have.
pub const MAX_VALIDATORS: usize = 1_024;

/// The greatest total weight, one below 2^62, so that twice a weight is a u64.
pub const MAX_TOTAL: u64 = (1 << 62) - 1;

/// The greatest level of a summit.
pub const MAX_LEVELS: usize = 30;

/// The least exponent of a round, which then lasts 4 milliseconds.
pub const MIN_EXPONENT: u8 = 2;

/// The greatest exponent of a round, which then lasts some 35 years.
pub const MAX_EXPONENT: u8 = 40;

/// The most entries of a table of leaders.
pub const MAX_LEADERS: usize = 4_096;

/// The most vertices that a journal may be allowed to have, with at most [`FEW_VALIDATORS`] of
/// them.
pub const MAX_RECORDS: usize = 131_072;

/// With more validators than these a journal may be allowed only [`MAX_RECORDS_OF_MANY`] vertices,
/// since each unit holds an observation of each validator.
pub const FEW_VALIDATORS: usize = 256;

/// The most vertices that a journal may be allowed to have with more validators than
/// [`FEW_VALIDATORS`].
pub const MAX_RECORDS_OF_MANY: usize = 32_768;

/// The most units that may be allowed to wait at a time.
pub const MAX_PARKED: usize = 16_384;

/// Who leads which round.
#[derive(Drop)]
pub enum Leaders {
    /// Validators by round, again from the first after the last.
    Table(IndexList),
    /// Drawn by weight, from the words that this key gives.
    Drawn([u8; 32]),
}

/// What the nodes of an instance agree on before they begin.
pub struct Config {
    pub weights: WeightList,
    /// The fault tolerance threshold, a weight: what is said of final blocks holds while the
    /// faulty validators weigh no more.
    pub ftt: u64,
    /// The greatest level of a summit that is looked for.
    pub levels: u8,
    /// The least exponent of a round: a round of exponent e lasts 2^e milliseconds.
    pub min_exponent: u8,
    pub max_exponent: u8,
    pub leaders: Leaders,
    /// How long a journal may be.
    pub max_records: u32,
    /// How many units may wait at a time.
    pub max_parked: u32,
    /// The height of the last block, where there is one.
    pub end: Option<u64>,
}

// For the prover: so the drop of a configuration is one call, and else is written out wherever one is let go.
impl Drop for Config {
    fn drop(self) {
        let Config {
            weights: _weights,
            ftt: _,
            levels: _,
            min_exponent: _,
            max_exponent: _,
            leaders: _leaders,
            max_records: _,
            max_parked: _,
            end: _,
        } = self;
    }
}

/// The limits of a configuration, in the order in which they are tested.
#[derive(Clone, Copy, Debug, PartialEq, Eq)]
pub enum ConfigFault {
    /// There are 1 to 1,024 validators.
    Validators,
    /// Each weighs at least 1. The first that doesn't is named.
    ZeroWeight(u32),
    /// The total weight is below 2^62.
    Total,
    /// The threshold is below the total weight.
    Threshold,
    /// There are 1 to 30 levels.
    Levels,
    /// The least exponent is at least 2 and no more than the greatest, which is at most 40.
    Exponents,
    /// A table has 1 to 4,096 entries, each a validator.
    LeaderTable,
    /// A journal has 1 to 131,072 entries, and at most 32,768 with more than 256 validators.
    Records,
    /// 1 to 16,384 units may be parked.
    Parked,
}

impl Leaders {
    /// The same leaders.
    pub fn copy(&self) -> Result<Leaders, OutOfMemory>
        ensures { IfOk result (λ leaders. leaders ≡ self.now) }
    {
        match self {
            Leaders::Table(entries) => Ok(Leaders::Table(entries.copy()?)),
            Leaders::Drawn(key) => Ok(Leaders::Drawn(*key)),
        }
    }
}

impl Config {
    /// The same configuration.
    pub fn copy(&self) -> Result<Config, OutOfMemory>
        ensures { IfOk result (λ config. config ≡ self.now) }
    {
        let weights = self.weights.copy()?;
        let leaders = self.leaders.copy()?;
        Ok(Config {
            weights,
            ftt: self.ftt,
            levels: self.levels,
            min_exponent: self.min_exponent,
            max_exponent: self.max_exponent,
            leaders,
            max_records: self.max_records,
            max_parked: self.max_parked,
            end: self.end,
        })
    }

    /// The weight of all validators together, of a configuration that keeps its limits.
    pub fn total(&self) -> u64
        requires { config_fault self.now ≡ None }
        ensures { result ≡ sum self.now.weights }
    {
        total_of(self.weights.as_slice())
    }

    /// Whether the configuration keeps all limits. If not, the first that is broken is answered,
    /// in the order of [`ConfigFault`].
    #[tactic(auto, unfolding(crate::specs::Limits::config_fault))]
    pub fn check(&self) -> Result<(), ConfigFault>
        ensures { MatchResult result (λ _. config_fault self.now ≡ None) (λ fault. config_fault self.now ≡ Some fault) }
    {
        self.check_weights()?;
        self.check_rounds()?;
        self.check_room()
    }

    /// The limits on validators and weights.
    fn check_weights(&self) -> Result<(), ConfigFault>
        ensures { MatchResult result (λ _. first_broken (weight_tests self.now) ≡ None) (λ fault. first_broken (weight_tests self.now) ≡ Some fault) }
    {
        if !is_within(1, MAX_VALIDATORS, self.weights.len()) {
            return Err(ConfigFault::Validators);
        }
        if let Some(v) = first_zero_weight(self.weights.as_slice()) {
            return Err(ConfigFault::ZeroWeight(v as u32));
        }
        let total = total_weight(self.weights.as_slice());
        if total > u128::from(MAX_TOTAL) {
            return Err(ConfigFault::Total);
        }
        if total <= u128::from(self.ftt) {
            return Err(ConfigFault::Threshold);
        }
        Ok(())
    }

    /// The limits on levels, rounds and their leaders.
    fn check_rounds(&self) -> Result<(), ConfigFault>
        ensures { MatchResult result (λ _. first_broken (round_tests self.now) ≡ None) (λ fault. first_broken (round_tests self.now) ≡ Some fault) }
    {
        if !is_within(1, MAX_LEVELS, self.levels as usize) {
            return Err(ConfigFault::Levels);
        }
        if !has_lawful_exponents(self.min_exponent, self.max_exponent) {
            return Err(ConfigFault::Exponents);
        }
        if !has_lawful_leaders(&self.leaders, self.weights.len()) {
            return Err(ConfigFault::LeaderTable);
        }
        Ok(())
    }

    /// The limits on what is kept.
    fn check_room(&self) -> Result<(), ConfigFault>
        ensures { MatchResult result (λ _. first_broken (room_tests self.now) ≡ None) (λ fault. first_broken (room_tests self.now) ≡ Some fault) }
    {
        let most = most_records(self.weights.len());
        if !is_within(1, most, self.max_records as usize) {
            return Err(ConfigFault::Records);
        }
        if !is_within(1, MAX_PARKED, self.max_parked as usize) {
            return Err(ConfigFault::Parked);
        }
        Ok(())
    }
}

/// Whether the number is neither below the one nor above the other.
fn is_within(low: usize, high: usize, number: usize) -> bool
    ensures { result ≡ is_within low high number }
{
    low <= number && number <= high
}

/// The most vertices that a journal of so many validators may be allowed to have.
fn most_records(validators: usize) -> usize
    ensures { result ≡ most_records validators }
{
    if validators <= FEW_VALIDATORS {
        MAX_RECORDS
    } else {
        MAX_RECORDS_OF_MANY
    }
}

/// The first validator that weighs nothing.
fn first_zero_weight(weights: &[u64]) -> Option<usize>
    ensures { result ≡ position is_zero weights.now }
{
    weights.iter().position(|w| *w == 0)
}

/// The sum of weights that fit together.
fn total_of(weights: &[u64]) -> u64
    requires { sum weights.now < 2 ^ 64 }
    ensures { result ≡ sum weights.now }
{
    weights.iter().sum()
}

/// The sum of all weights.
fn total_weight(weights: &[u64]) -> u128
    ensures { result ≡ sum weights.now }
{
    weights.iter().map(|weight| u128::from(*weight)).sum()
}

/// Whether rounds have lawful lengths.
fn has_lawful_exponents(least: u8, greatest: u8) -> bool
    ensures { result ≡ (nat_le 2 least && nat_le least greatest && nat_le greatest 40) }
{
    MIN_EXPONENT <= least && least <= greatest && greatest <= MAX_EXPONENT
}

/// Whether a table names validators alone, and neither too few nor too many.
fn has_lawful_leaders(leaders: &Leaders, validators: usize) -> bool
    ensures { result ≡ not (is_bad_table validators leaders.now) }
{
    match leaders {
        Leaders::Table(entries) => {
            1 <= entries.len()
                && entries.len() <= MAX_LEADERS
                && !names_another(entries.as_slice(), validators)
        }
        Leaders::Drawn(_) => true,
    }
}

/// Whether an entry is no validator.
fn names_another(entries: &[u32], validators: usize) -> bool
    ensures { result ≡ list_any (λ v. nat_le validators v) entries.now }
{
    entries.iter().any(|v| validators <= *v as usize)
}
