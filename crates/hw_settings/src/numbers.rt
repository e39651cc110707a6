//! Numbers, and arrays of them.

ghost use Rattle.std.specs.Prelude.{◌≡◌, ◌+◌, ◌≤◌, ◌^◌, IfSome};
ghost use Rattle.serde_json.specs.{View.{view, items_view}, Find.{as_array}};
ghost use Rattle.hw_settings.specs.{Settings.{number_in, numbers_in, list_in, both_in, two_in, pair_in}, Answers.{Tells}};

use crate::fault::SettingsFault;
use hw_types::{IndexList, WeightList};
use serde_json::Value;
use std::alloc::Global;

/// The whole number that the value is, where it is at most this.
#[tactic(auto, unfolding(crate::specs::Settings::number_in))]
fn json_number_up_to(most: u64, value: &Value) -> Option<u64>
    ensures number { result ≡ number_in (most + 1) (view value.now) }
    ensures most { IfSome result (λ n. n ≤ most) }
{
    match value.as_u64() {
        Some(number) if number <= most => Some(number),
        _ => None,
    }
}

/// A whole number below 2^64.
pub(crate) fn number_in(value: &Value) -> Result<u64, SettingsFault>
    ensures { Tells (λ n. n) result (number_in (2 ^ 64) (view value.now)) }
{
    json_number_up_to(u64::MAX, value).ok_or(SettingsFault::Form)
}

/// A whole number below 2^32.
pub(crate) fn count_in(value: &Value) -> Result<u32, SettingsFault>
    ensures { Tells (λ n. n) result (number_in (2 ^ 32) (view value.now)) }
{
    match json_number_up_to(u64::from(u32::MAX), value) {
        Some(number) => Ok(number as u32),
        None => Err(SettingsFault::Form),
    }
}

/// A whole number below 256.
pub(crate) fn byte_in(value: &Value) -> Result<u8, SettingsFault>
    ensures { Tells (λ n. n) result (number_in (2 ^ 8) (view value.now)) }
{
    match json_number_up_to(u64::from(u8::MAX), value) {
        Some(number) => Ok(number as u8),
        None => Err(SettingsFault::Form),
    }
}

/// The values of an array.
fn values_in(value: &Value) -> Result<&[Value], SettingsFault>
    ensures { Tells (λ values. items_view values.now) result (as_array (view value.now)) }
{
    match value.as_array() {
        Some(values) => Ok(values.as_slice()),
        None => Err(SettingsFault::Form),
    }
}

/// An array of whole numbers below 2^64.
pub(crate) fn weights_in(alloc: Global, value: &Value) -> Result<WeightList, SettingsFault>
    ensures { Tells (λ list. list) result (list_in (2 ^ 64) (view value.now)) }
{
    each_weight(alloc, values_in(value)?)
}

#[tactic(auto, using(crate::proofs::NumberLaws::begins, crate::proofs::NumberLaws::goes_on, crate::proofs::NumberLaws::stops, crate::proofs::NumberLaws::is_done))]
fn each_weight(alloc: Global, values: &[Value]) -> Result<WeightList, SettingsFault>
    ensures { Tells (λ list. list) result (numbers_in (2 ^ 64) (items_view values.now)) }
{
    let mut list = WeightList::new(alloc);
    for value in values {
        list.push(number_in(value)?)?;
    }
    Ok(list)
}

/// An array of whole numbers below 2^32.
pub(crate) fn counts_in(alloc: Global, value: &Value) -> Result<IndexList, SettingsFault>
    ensures { Tells (λ list. list) result (list_in (2 ^ 32) (view value.now)) }
{
    each_count(alloc, values_in(value)?)
}

#[tactic(auto, using(crate::proofs::NumberLaws::begins, crate::proofs::NumberLaws::goes_on, crate::proofs::NumberLaws::stops, crate::proofs::NumberLaws::is_done))]
fn each_count(alloc: Global, values: &[Value]) -> Result<IndexList, SettingsFault>
    ensures { Tells (λ list. list) result (numbers_in (2 ^ 32) (items_view values.now)) }
{
    let mut list = IndexList::new(alloc);
    for value in values {
        list.push(count_in(value)?)?;
    }
    Ok(list)
}

/// An array of two whole numbers below 256.
pub(crate) fn pair_in(value: &Value) -> Result<(u8, u8), SettingsFault>
    ensures { Tells (λ pair. pair) result (pair_in (2 ^ 8) (view value.now)) }
{
    two_in(values_in(value)?)
}

#[tactic(auto, using(crate::proofs::NumberLaws::two_values, crate::proofs::NumberLaws::too_few, crate::proofs::NumberLaws::too_many))]
fn two_in(values: &[Value]) -> Result<(u8, u8), SettingsFault>
    ensures { Tells (λ pair. pair) result (two_in (2 ^ 8) (items_view values.now)) }
{
    match values {
        [first, second] => both_in(first, second),
        _ => Err(SettingsFault::Form),
    }
}

fn both_in(first: &Value, second: &Value) -> Result<(u8, u8), SettingsFault>
    ensures { Tells (λ pair. pair) result (both_in (2 ^ 8) (view first.now) (view second.now)) }
{
    let first = byte_in(first)?;
    let second = byte_in(second)?;
    Ok((first, second))
}
