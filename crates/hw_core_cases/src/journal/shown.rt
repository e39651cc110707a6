//! What a node shows.

ghost use Rattle.std.specs.Prelude.{◌≡◌, ◌<◌, length};

use crate::journal::names::{Named, Node, word_of};
use crate::journal::outcome::counted;
use crate::journal::places::{ended, journal};
use hw_case_words::Answer;
use hw_core::Core;
use hw_types::{Decision, Obs};

/// What the word asks for.
pub fn show(answer: &mut Answer, node: &Node, words: &[&str]) {
    let [word] = words else {
        return answer.refuse();
    };
    match *word {
        "fork" => fork(answer, &node.core, node.names.as_slice()),
        "panorama" => panorama(answer, &node.core, node.names.as_slice()),
        "faulty" => faulty(answer, &node.core),
        "final" => finals(answer, &node.core, node.names.as_slice()),
        "counts" => counts(answer, &node.core),
        "journal" => journal(answer, node),
        _ => answer.refuse(),
    }
}

/// The fork choice.
fn fork(answer: &mut Answer, core: &Core, names: &[Named]) {
    answer.put("fork ");
    match core.fork() {
        Some(digest) => answer.put(word_of(names, &digest)),
        None => answer.put("-"),
    }
    answer.put("\n");
}

/// What the node observes of each validator.
fn panorama(answer: &mut Answer, core: &Core, names: &[Named]) {
    answer.put("panorama");
    for validator in 0..validators(core) {
        answer.put(" ");
        answer.put(observed(core, names, validator));
    }
    answer.put("\n");
}

/// How many validators there are.
#[tactic(auto, using(hw_types::proofs::LimitLaws::within_limits))]
fn validators(core: &Core) -> u32
    ensures { result ≡ length core.now.config.weights }
{
    core.state().config().weights.len() as u32
}

/// What the node observes of the validator, in a word.
fn observed<'a>(core: &Core, names: &'a [Named], validator: u32) -> &'a str
    requires { validator < length core.now.config.weights }
{
    match core.observation(validator) {
        Obs::Absent => "-",
        Obs::Faulty => "!",
        Obs::Correct(digest) => word_of(names, &digest),
    }
}

/// Who is faulty, a dash where nobody is.
fn faulty(answer: &mut Answer, core: &Core) {
    answer.put("faulty");
    let mut is_empty = true;
    for validator in 0..validators(core) {
        if is_faulty(core, validator) {
            counted(answer, " ", validator);
            is_empty = false;
        }
    }
    ended(answer, is_empty);
}

fn is_faulty(core: &Core, validator: u32) -> bool
    requires { validator < length core.now.config.weights }
{
    core.state().is_faulty(validator)
}

/// The decided blocks, a dash where there is none, and the faulty weight where it exceeds the threshold.
fn finals(answer: &mut Answer, core: &Core, names: &[Named]) {
    for index in 0..core.decision_count() {
        final_line(answer, names, core.decision(index));
    }
    if core.decision_count() == 0 {
        answer.put("final -\n");
    }
    if let Some(weight) = core.exceeded() {
        answer.put("exceeded ");
        answer.number(weight);
        answer.put("\n");
    }
}

fn final_line(answer: &mut Answer, names: &[Named], decision: &Decision) {
    answer.labelled("final ", decision.height);
    answer.put(" ");
    answer.put(word_of(names, &decision.block));
    answer.labelled(" level ", decision.level as u64);
    answer.labelled(" quorum ", decision.quorum);
    answer.labelled(" at ", decision.at);
    answer.put("\n");
}

/// How many units there are of each kind, and the faulty weight.
fn counts(answer: &mut Answer, core: &Core) {
    answer.labelled("settled ", core.settled_count() as u64);
    answer.labelled(" parked ", core.parked_count() as u64);
    answer.labelled(" dropped ", core.dropped_count() as u64);
    answer.labelled(" faulty weight ", core.faulty_weight());
    answer.put("\n");
}
