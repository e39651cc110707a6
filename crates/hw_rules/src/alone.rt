//! The rules of a unit alone.

ghost use Rattle.std.specs.{Prelude.{◌≡◌}, List.{list_any}};
ghost use Rattle.hw_types.specs.{Graph.{slot, is_correct}, Rules.{local_rule}};
ghost use Rattle.hw_rules.specs.Verdict.{verdict_of};

use crate::lists::rises;
use hw_types::{Config, Digest, Obs, Rule, WireUnit};

/// The first rule of the unit alone that it breaks.
#[tactic(auto, unfolding(hw_types::specs::Rules::local_tests))]
pub fn local(config: &Config, instance: &Digest, unit: &WireUnit) -> Result<(), Rule>
    ensures { result ≡ verdict_of (local_rule config.now instance.now unit.now) }
{
    let own = observation(unit.panorama.as_slice(), unit.creator);
    if unit.instance != *instance {
        return Err(Rule::WrongInstance);
    }
    if unit.creator as usize >= config.weights.len() {
        return Err(Rule::UnknownCreator);
    }
    if unit.panorama.len() != config.weights.len() {
        return Err(Rule::PanoramaLength);
    }
    if own == Obs::Faulty {
        return Err(Rule::FaultySelf);
    }
    if (own == Obs::Absent) != (unit.seq == 0) {
        return Err(Rule::FirstSequence);
    }
    if unit.exponent < config.min_exponent || unit.exponent > config.max_exponent {
        return Err(Rule::RoundExponent);
    }
    if !rises(unit.endorsed.as_slice()) {
        return Err(Rule::EndorsedOrder);
    }
    if unit.value.is_none() && !has_correct(unit.panorama.as_slice()) {
        return Err(Rule::NoBlock);
    }
    Ok(())
}

/// What a panorama says of a validator, which is Absent beyond its end.
fn observation(panorama: &[Obs], validator: u32) -> Obs
    ensures { result ≡ slot panorama.now validator }
{
    match panorama.get(validator as usize) {
        Some(obs) => *obs,
        None => Obs::Absent,
    }
}

/// Whether it names a unit.
fn has_correct(panorama: &[Obs]) -> bool
    ensures { result ≡ list_any is_correct panorama.now }
{
    panorama.iter().any(|obs| matches!(obs, Obs::Correct(_)))
}
