//! Configurations of equal validators, whose leaders a key draws.

ghost use Rattle.std.specs.Prelude.{◌≡◌, replicate, None, IfOk};
ghost use Rattle.hw_types.specs.declared.config.Leaders.TheVariants.{Drawn};

use hw_types::{Config, Leaders, OutOfMemory, USUAL_PARKED, USUAL_RECORDS, WeightList};
use std::alloc::Global;

/// The configuration of this many validators of weight 1, with this threshold and this many levels. Rounds last 16 to
/// 256 milliseconds.
pub fn drawn_config(
    alloc: Global,
    key: [u8; 32],
    validators: u32,
    ftt: u32,
    levels: u8,
) -> Result<Config, OutOfMemory>
    ensures { IfOk result (λ config. config ≡ record { weights = replicate validators 1; ftt = ftt; levels = levels; min_exponent = 4; max_exponent = 8; leaders = Drawn key; max_records = 131072; max_parked = 4096; end = None }) }
{
    Ok(Config {
        weights: ones(alloc, validators)?,
        ftt: u64::from(ftt),
        levels,
        min_exponent: 4,
        max_exponent: 8,
        leaders: Leaders::Drawn(key),
        max_records: USUAL_RECORDS,
        max_parked: USUAL_PARKED,
        end: None,
    })
}

/// This many weights of 1.
#[tactic(auto, using(std::proofs::lemmas::List::replicate_more))]
fn ones(alloc: Global, count: u32) -> Result<WeightList, OutOfMemory>
    ensures { IfOk result (λ weights. weights ≡ replicate count 1) }
{
    let mut weights = WeightList::new(alloc);
    for _ in 0..count {
        weights.push(1)?;
    }
    Ok(weights)
}
