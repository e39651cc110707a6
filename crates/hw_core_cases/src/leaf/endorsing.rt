//! Endorsements, as they come in.

ghost use Rattle.std.specs.Prelude.{◌≡◌, length, None};
ghost use Rattle.hw_types.specs.Limits.{config_fault};

use crate::leaf::configs::config_of;
use hw_case_words::{Answer, byte, digest_of_byte, small};
use hw_endorse::{Added, Endorsements};
use hw_types::{Config, Digest};

fn unit_of(word: &str) -> Digest {
    digest_of_byte(byte(word))
}

/// Adds an endorsement, and says whether it is new.
fn added(
    endorsements: &mut Endorsements,
    validators: u32,
    unit: &Digest,
    endorser: u32,
) -> &'static str
    requires { length endorsements.old.weights ≡ validators }
    ensures { endorsements.new.weights ≡ endorsements.old.weights }
{
    if endorser >= validators {
        return "no validator";
    }
    match endorsements.add(unit, endorser) {
        Ok(Added::New) => "new",
        Ok(Added::Repeat) => "repeat",
        Err(_) => "memory",
    }
}

/// Whether the pair is known.
fn has(endorsements: &Endorsements, validators: u32, unit: &Digest, endorser: u32) -> bool
    requires { length endorsements.now.weights ≡ validators }
{
    endorser < validators && endorsements.has(unit, endorser)
}

/// What a step answers.
fn step(answer: &mut Answer, endorsements: &mut Endorsements, validators: u32, word: &str)
    requires { length endorsements.old.weights ≡ validators }
    ensures { endorsements.new.weights ≡ endorsements.old.weights }
{
    match word.split_once(':') {
        Some(("q", unit)) => answer.truth(endorsements.endorsed(&unit_of(unit))),
        Some((kind, pair)) => pair_step(answer, endorsements, validators, kind, pair),
        None => answer.put("no step"),
    }
}

/// What a step answers with a unit and an endorser.
fn pair_step(
    answer: &mut Answer,
    endorsements: &mut Endorsements,
    validators: u32,
    kind: &str,
    pair: &str,
)
    requires { length endorsements.old.weights ≡ validators }
    ensures { endorsements.new.weights ≡ endorsements.old.weights }
{
    let Some((unit, endorser)) = pair.split_once(':') else {
        return answer.refuse();
    };
    let (unit, endorser) = (unit_of(unit), small(endorser));
    if kind == "a" {
        answer.put(added(endorsements, validators, &unit, endorser));
    } else {
        answer.truth(has(endorsements, validators, &unit, endorser));
    }
}

fn walk(answer: &mut Answer, endorsements: &mut Endorsements, validators: u32, steps: &[&str])
    requires { length endorsements.old.weights ≡ validators }
{
    for word in steps {
        step(answer, endorsements, validators, word);
        answer.put(" ");
    }
}

/// An instance of this many validators of weight 1.
fn equals(answer: &mut Answer, validators: u32) -> Config {
    let weights = answer.filled("#x1", validators as u64);
    config_of(answer, weights.as_str(), "1x0")
}

pub fn endorsed(answer: &mut Answer, validators: u32, steps: &[&str]) {
    let config = equals(answer, validators);
    match config.check() {
        Ok(()) => endorsed_in(answer, &config, steps),
        Err(fault) => answer.debug(&fault),
    }
}

/// The answers in an instance that keeps its limits.
fn endorsed_in(answer: &mut Answer, config: &Config, steps: &[&str])
    requires { config_fault config.now ≡ None }
{
    let validators = u32::try_from(config.weights.len());
    match (Endorsements::new(answer.alloc(), config), validators) {
        (Ok(mut endorsements), Ok(validators)) => walk(
            answer,
            &mut endorsements,
            validators,
            steps,
        ),
        _ => answer.refuse(),
    }
}

/// How many endorsers, one after the other, make the unit endorsed.
fn count(endorsements: &mut Endorsements, validators: u32, unit: &Digest) -> u32
    requires { length endorsements.old.weights ≡ validators }
{
    let mut before = 0u32;
    for endorser in 0..validators {
        if !endorsements.endorsed(unit) {
            before = before.saturating_add(1);
        }
        let _ = added(endorsements, validators, unit, endorser);
        let _ = added(endorsements, validators, unit, endorser);
    }
    before
}

pub fn endorsers(answer: &mut Answer, validators: u32) {
    let config = equals(answer, validators);
    match config.check() {
        Ok(()) => endorsers_in(answer, &config),
        Err(fault) => answer.debug(&fault),
    }
}

/// How many endorsers there are before a unit is endorsed, in an instance that keeps its limits.
fn endorsers_in(answer: &mut Answer, config: &Config)
    requires { config_fault config.now ≡ None }
{
    let validators = u32::try_from(config.weights.len());
    match (Endorsements::new(answer.alloc(), config), validators) {
        (Ok(mut endorsements), Ok(validators)) => {
            let before = count(&mut endorsements, validators, &digest_of_byte(7));
            answer.number(before as u64);
        }
        _ => answer.refuse(),
    }
}
