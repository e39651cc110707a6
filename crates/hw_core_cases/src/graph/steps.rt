//! What a validator may make now.

use crate::graph::settling::{put_outcome, settle};
use crate::graph::units::INSTANCE;
use hw_admit::State;
use hw_case_words::{Answer, after, named, number, small};
use hw_types::{Digest, Obs, Plan, Signature, SignedUnit, WireUnit};
use hw_validator::next_unit;
use std::alloc::Global;

/// The unit that the words ask for, if there is one.
pub fn step(answer: &mut Answer, state: &State, words: &[&str]) {
    match plan(answer.alloc(), state, words) {
        Some(Some(plan)) => put_plan(answer, &plan),
        Some(None) => answer.put("none"),
        None => answer.refuse(),
    }
}

/// The same, and what becomes of the unit under the first word as its name.
pub fn make(answer: &mut Answer, state: &mut State, words: &[&str]) {
    match (words, plan(answer.alloc(), state, words)) {
        ([name, ..], Some(Some(plan))) => settled(answer, state, named(name), plan),
        (_, Some(None)) => answer.put("none"),
        _ => answer.refuse(),
    }
}

/// The plan, and what becomes of its unit under this name.
fn settled(answer: &mut Answer, state: &mut State, name: Digest, plan: Plan) {
    put_plan(answer, &plan);
    answer.put(" ");
    put_outcome(answer, settle(state, name, signed(plan.unit)));
}

/// The unit under the instance that all units of the lines are of.
fn signed(mut unit: WireUnit) -> SignedUnit {
    unit.instance = INSTANCE;
    hw_case_words::signed(unit)
}

/// What the validator may make at the moment that the words give. None when out of memory, and where there
/// is no such validator, moment or value.
fn plan(alloc: Global, state: &State, words: &[&str]) -> Option<Option<Plan>> {
    let (me, now) = (
        small(word_after(words, "by")),
        number(word_after(words, "at")),
    );
    let value = word_after(words, "block");
    if state.config().weights.len() <= me as usize || 1 << 63 <= now || 4096 < value.len() {
        return None;
    }
    next_unit(alloc, state, me, now, value.as_bytes()).ok()
}

/// The word after this one, an empty one where there is none.
fn word_after<'a, 'b>(words: &'a [&'b str], key: &str) -> &'b str {
    match after(words, key) {
        [word, ..] => word,
        [] => "",
    }
}

/// The plan in the words by which a line gives a unit.
fn put_plan(answer: &mut Answer, plan: &Plan) {
    answer.debug(&plan.kind);
    put_numbers(answer, &plan.unit);
    for observation in plan.unit.panorama.as_slice() {
        put_observation(answer, *observation);
    }
    put_rest(answer, &plan.unit);
}

fn put_numbers(answer: &mut Answer, unit: &WireUnit) {
    answer.labelled(" number ", unit.seq);
    answer.labelled(" by ", unit.creator as u64);
    answer.labelled(" at ", unit.time);
    answer.labelled(" exp ", unit.exponent as u64);
    answer.put(" cites");
}

fn put_observation(answer: &mut Answer, observation: Obs) {
    match observation {
        Obs::Absent => answer.put(" -"),
        Obs::Faulty => answer.put(" !"),
        Obs::Correct(name) => put_digest(answer, &name),
    }
}

fn put_digest(answer: &mut Answer, name: &Digest) {
    answer.put(" ");
    answer.name(name);
}

/// Puts the value as the word of its bytes, where there is one, and the names of the endorsed list, where it has some.
fn put_rest(answer: &mut Answer, unit: &WireUnit) {
    if let Some(value) = &unit.value {
        answer.put(" block ");
        answer.characters(value.as_slice());
    }
    let endorsed = unit.endorsed.as_slice();
    if !endorsed.is_empty() {
        answer.put(" endorsed");
    }
    for name in endorsed {
        put_digest(answer, name);
    }
}
