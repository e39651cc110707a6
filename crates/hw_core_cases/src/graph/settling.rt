//! Units that are judged and admitted, and what else moves the state.

ghost use Rattle.std.specs.Prelude.{◌≡◌, ◌+◌, ◌<◌, ◌≤◌, ◌^◌, length, true, IsTrue, IfOk, IfSome};
ghost use Rattle.hw_dag.specs.{Dag.{graph, count_of}, Admission.{IsFor, IsNew}};
ghost use Rattle.hw_rules.specs.Judged.{KeepsLocalRules};
ghost use Rattle.hw_admit.specs.State.{MarksAreMet};

use crate::graph::units::{INSTANCE, wire_unit};
use hw_admit::{State, local};
use hw_case_words::{Answer, named, small};
use hw_dag::{Prepared, UnitNo};
use hw_types::{Digest, Obs, Rule, SignedUnit};

/// What became of a unit.
#[derive(Clone, Copy)]
pub enum Outcome {
    /// It is settled, with this number.
    Admitted(UnitNo),
    /// It breaks this rule.
    Broken(Rule),
    /// A unit of this name is settled.
    Repeat,
    /// It needs a unit that isn't settled, or the fault of a validator that isn't faulty, or a majority that isn't
    /// there.
    Waits,
}

/// What becomes of the unit that the words give.
pub fn unit(answer: &mut Answer, state: &mut State, words: &[&str]) {
    let [name, ..] = words else {
        return answer.refuse();
    };
    let unit = wire_unit(answer, state.dag(), words);
    put_outcome(answer, settle(state, named(name), unit));
}

/// What became of a unit.
pub fn put_outcome(answer: &mut Answer, outcome: Option<Outcome>) {
    match outcome {
        Some(Outcome::Admitted(no)) => {
            answer.labelled("Admitted(UnitNo(", no.0 as u64);
            answer.put("))");
        }
        Some(Outcome::Broken(rule)) => put_broken(answer, rule),
        Some(Outcome::Repeat) => answer.put("Repeat"),
        Some(Outcome::Waits) => answer.put("Waits"),
        None => answer.refuse(),
    }
}

fn put_broken(answer: &mut Answer, rule: Rule) {
    answer.put("Broken(");
    answer.debug(&rule);
    answer.put(")");
}

/// Judges the unit where it has what it needs, and admits it where it keeps all rules.
pub fn settle(state: &mut State, name: Digest, unit: SignedUnit) -> Option<Outcome> {
    make_room(state)?;
    if let Err(rule) = kept_alone(state, &unit) {
        return Some(Outcome::Broken(rule));
    }
    if state.dag().find(&name).is_some() {
        return Some(Outcome::Repeat);
    }
    if !has_needs(state, &unit) || !is_for(state, &unit) {
        return Some(Outcome::Waits);
    }
    if !are_met(state, unit.unit.panorama.as_slice()) {
        return Some(Outcome::Waits);
    }
    let prepared = state.dag().prepare(unit, name).ok()?;
    Some(settle_prepared(state, prepared))
}

/// The first rule of the unit alone that it breaks.
fn kept_alone(state: &State, unit: &SignedUnit) -> Result<(), Rule>
    ensures { IfOk result (λ _. KeepsLocalRules state.now.config unit.now.unit) }
{
    local(state.config(), &INSTANCE, &unit.unit)
}

/// Room for one more unit, of 100,000 at most.
fn make_room(state: &mut State) -> Option<()>
    ensures { IfSome result (λ _. 1 ≤ state.new.spare) }
{
    if 100_000 <= state.dag().count() {
        return None;
    }
    state.reserve(1).ok()
}

/// The unit is judged where the units that it observes are settled.
fn settle_prepared(state: &mut State, mut prepared: Prepared) -> Outcome
    requires room { 1 ≤ state.old.spare }
    requires fresh { IsNew state.old.dag prepared.digest }
    requires alone { KeepsLocalRules state.old.config prepared.signed.unit }
    requires met { MarksAreMet state.old.marked (graph state.old.dag) prepared.signed.unit.panorama }
{
    if !state.dag().resolve(&mut prepared) {
        return Outcome::Waits;
    }
    match state.judge(&prepared) {
        Ok(()) => Outcome::Admitted(state.admit(prepared)),
        Err(rule) => Outcome::Broken(rule),
    }
}

/// Whether the unit is by a validator, and observes each once. One that keeps the rules of the unit alone does.
fn is_for(state: &State, unit: &SignedUnit) -> bool
    ensures unit { IsTrue result → IsFor state.now.dag.validators unit.now }
    ensures slots { IsTrue result → length unit.now.unit.panorama ≡ length state.now.config.weights }
{
    unit.unit.creator < state.dag().validators()
        && unit.unit.panorama.len() == state.dag().validators() as usize
        && unit.unit.panorama.len() == state.config().weights.len()
}

/// Whether each unit of its list is endorsed.
fn has_needs(state: &State, unit: &SignedUnit) -> bool {
    for name in unit.unit.endorsed.as_slice() {
        if !state.endorsed(name) {
            return false;
        }
    }
    true
}

/// Whether each validator that is marked is faulty.
fn are_met(state: &State, observed: &[Obs]) -> bool
    requires { length observed.now ≡ length state.now.config.weights }
    ensures { IsTrue result → MarksAreMet state.now.marked (graph state.now.dag) observed.now }
{
    for validator in 0..state.dag().validators() {
        if observed[validator as usize] == Obs::Faulty && !state.is_faulty(validator) {
            return false;
        }
    }
    true
}

/// Marks the validator.
pub fn mark(answer: &mut Answer, state: &mut State, words: &[&str]) {
    let [word] = words else {
        return answer.refuse();
    };
    let validator = small(word);
    if state.config().weights.len() <= validator as usize {
        return answer.refuse();
    }
    state.mark(validator);
    answer.put("marked");
}

/// Adds these endorsements, and says whether the unit is endorsed then.
pub fn endorse(answer: &mut Answer, state: &mut State, words: &[&str]) {
    let [name, _by, endorsers @ ..] = words else {
        return answer.refuse();
    };
    let name = named(name);
    for word in endorsers {
        endorsed_by(answer, state, &name, small(word));
    }
    answer.put("endorsed ");
    answer.truth(state.endorsed(&name));
}

/// Adds one endorsement. Whether it was known before is asked first.
fn endorsed_by(answer: &mut Answer, state: &mut State, name: &Digest, endorser: u32) {
    if state.config().weights.len() <= endorser as usize {
        return answer.refuse();
    }
    let is_told = state.is_told(name, endorser);
    match state.endorse(name, endorser) {
        Ok(added) => {
            answer.debug(&added);
            answer.put(" known ");
            answer.truth(is_told);
            answer.put(" ");
        }
        Err(_) => answer.refuse(),
    }
}
