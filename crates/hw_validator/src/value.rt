//! The value of a validator's block.

ghost use Rattle.std.specs.Prelude.{◌≡◌, ◌^◌, ◌<◌, ◌≤◌, None, length, IfOk};
ghost use Rattle.hw_types.specs.{Limits.{config_fault}, Real.{setting_of}};
ghost use Rattle.hw_honest.specs.Cluster.{value_at};

use hw_rounds::round_id;
use hw_types::{Bytes, Config, OutOfMemory};
use std::alloc::Global;

/// The value of a validator's block: its number as four bytes, and its round as eight.
pub fn value_at(alloc: Global, config: &Config, me: u32, now: u64) -> Result<Bytes, OutOfMemory>
    requires lawful { config_fault config.now ≡ None }
    requires now { now < 2 ^ 63 }
    ensures value { IfOk result (λ value. value ≡ value_at (setting_of config.now) me now) }
    ensures short { IfOk result (λ value. length value ≤ 4096) }
{
    let round = round_id(now, config.min_exponent);
    let mut value = Vec::from_slice(alloc, &me.to_be_bytes())?;
    value.extend_from_slice(&round.to_be_bytes())?;
    Ok(Bytes::from_vec(value))
}
