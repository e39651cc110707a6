//! Whether two nodes are of one configuration.

ghost use Rattle.std.specs.Prelude.{◌≡◌, ◌↔◌, IsTrue};

use hw_types::{Config, IndexList, Leaders, WeightList};

/// Whether the two configurations are equal, field by field.
pub fn is_same_config(left: &Config, right: &Config) -> bool
    ensures { IsTrue result ↔ (left.now ≡ right.now) }
{
    has_same_numbers(left, right) && has_same_limits(left, right) && has_same_lists(left, right)
}

fn has_same_numbers(left: &Config, right: &Config) -> bool
    ensures { IsTrue result ↔ ((left.now.ftt ≡ right.now.ftt) × (left.now.levels ≡ right.now.levels) × (left.now.min_exponent ≡ right.now.min_exponent) × (left.now.max_exponent ≡ right.now.max_exponent)) }
{
    left.ftt == right.ftt
        && left.levels == right.levels
        && left.min_exponent == right.min_exponent
        && left.max_exponent == right.max_exponent
}

fn has_same_limits(left: &Config, right: &Config) -> bool
    ensures { IsTrue result ↔ ((left.now.max_records ≡ right.now.max_records) × (left.now.max_parked ≡ right.now.max_parked) × (left.now.end ≡ right.now.end)) }
{
    left.max_records == right.max_records
        && left.max_parked == right.max_parked
        && left.end == right.end
}

fn has_same_lists(left: &Config, right: &Config) -> bool
    ensures { IsTrue result ↔ ((left.now.weights ≡ right.now.weights) × (left.now.leaders ≡ right.now.leaders)) }
{
    has_same_weights(&left.weights, &right.weights)
        && has_same_leaders(&left.leaders, &right.leaders)
}

fn has_same_weights(left: &WeightList, right: &WeightList) -> bool
    ensures { IsTrue result ↔ (left.now ≡ right.now) }
{
    left.as_slice() == right.as_slice()
}

fn has_same_leaders(left: &Leaders, right: &Leaders) -> bool
    ensures { IsTrue result ↔ (left.now ≡ right.now) }
{
    match (left, right) {
        (Leaders::Table(left), Leaders::Table(right)) => has_same_entries(left, right),
        (Leaders::Drawn(left), Leaders::Drawn(right)) => left == right,
        _ => false,
    }
}

fn has_same_entries(left: &IndexList, right: &IndexList) -> bool
    ensures { IsTrue result ↔ (left.now ≡ right.now) }
{
    left.as_slice() == right.as_slice()
}
