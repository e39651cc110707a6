//! Lines that deliver.

use crate::journal::names::{Named, Node, digest_named, find};
use crate::journal::outcome::{Outcome, delivery, outcome_text};
use hw_case_words::{Answer, no_signature, small};
use hw_core::Core;
use hw_types::{Cause, Digest, Endorsement, Vertex};

/// Delivers each of the named vertices with this verdict, and puts what became of it.
pub fn deliver(answer: &mut Answer, node: &mut Node, words: &[&str], verdict: bool) {
    for word in words {
        delivered(answer, &mut node.core, node.names.as_slice(), word, verdict);
    }
}

fn delivered(answer: &mut Answer, core: &mut Core, names: &[Named], word: &str, verdict: bool) {
    match find(names, word) {
        Some(named) => {
            answer.put(word);
            became(answer, core, &named.vertex, verdict);
        }
        None => answer.refuse(),
    }
}

/// Delivers an endorsement of the unit by each of these validators, and puts what became of it.
pub fn endorse(answer: &mut Answer, node: &mut Node, words: &[&str]) {
    let [name, _by, endorsers @ ..] = words else {
        return answer.refuse();
    };
    match digest_named(node.names.as_slice(), name) {
        Some(digest) => endorsed_by(answer, &mut node.core, name, digest, endorsers),
        None => answer.refuse(),
    }
}

fn endorsed_by(answer: &mut Answer, core: &mut Core, name: &str, unit: Digest, words: &[&str]) {
    for word in words {
        answer.put("endorse ");
        answer.put(name);
        answer.put(" ");
        answer.put(word);
        endorsed(answer, core, unit, small(word));
    }
}

/// What became of the endorsement of the unit by this validator.
fn endorsed(answer: &mut Answer, core: &mut Core, unit: Digest, endorser: u32) {
    let vertex = Vertex::Endorsement(Endorsement {
        unit,
        endorser,
        signature: no_signature(),
    });
    became(answer, core, &vertex, true);
}

/// What became of the vertex. Where it is refused since there is no memory, it is delivered once more.
fn became(answer: &mut Answer, core: &mut Core, vertex: &Vertex, verdict: bool) {
    answer.put(" ");
    match delivery(core, vertex, verdict) {
        Some(Outcome::Refused(Cause::OutOfMemory)) => {
            answer.put("memory ");
            put_outcome(answer, delivery(core, vertex, verdict));
        }
        outcome => put_outcome(answer, outcome),
    }
}

/// The outcome in words, at the end of its line.
fn put_outcome(answer: &mut Answer, outcome: Option<Outcome>) {
    match outcome {
        Some(outcome) => outcome_text(answer, outcome),
        None => answer.refuse(),
    }
    answer.put("\n");
}
