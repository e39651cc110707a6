//! What parked units wait for, and what the journal has of it.

use crate::journal::names::{Named, Node, digest_named, word_of};
use crate::journal::outcome::{counted, is_same_pair};
use crate::journal::places::{ended, put_need};
use hw_case_words::{Answer, number, small};
use hw_core::Core;
use hw_types::{Digest, Evidence, Need, Vertex};

/// The first needs that parked units miss: as many as the word says, which is at most eight.
pub fn unmet(answer: &mut Answer, node: &Node, words: &[&str]) {
    let [word] = words else {
        return answer.refuse();
    };
    let mut needs = room_for(answer, number(word).min(8));
    let count = node.core.first_unmet(needs.as_mut_slice());
    needs.truncate(count);
    answer.put("unmet");
    for need in needs.as_slice() {
        put_need(answer, node.names.as_slice(), *need);
    }
    ended(answer, count == 0);
}

/// Room for this many needs.
fn room_for(answer: &mut Answer, count: u64) -> Vec<Need> {
    let mut needs = Vec::new(answer.alloc());
    for _ in 0..count {
        answer.push_to(&mut needs, Need::Evidence(0));
    }
    needs
}

/// The evidence that the journal has against each of these validators.
pub fn against(answer: &mut Answer, node: &Node, words: &[&str]) {
    for word in words {
        answer.put("against ");
        answer.put(word);
        answer.put(" ");
        answer.put(evidence_word(node, small(word)));
        answer.put("\n");
    }
}

fn evidence_word(node: &Node, validator: u32) -> &str {
    match node.core.evidence_against(validator) {
        Some(evidence) => name_of(node.names.as_slice(), evidence),
        None => "-",
    }
}

/// The name under which a line defined the evidence.
fn name_of<'a>(names: &'a [Named], evidence: &Evidence) -> &'a str {
    for named in names {
        if let Vertex::Evidence(known) = &named.vertex {
            if is_same_pair(known, evidence) {
                return named.name.as_str();
            }
        }
    }
    "?"
}

/// The endorsers of each of the named units, in the order of the journal.
pub fn endorsers(answer: &mut Answer, node: &Node, words: &[&str]) {
    for word in words {
        match digest_named(node.names.as_slice(), word) {
            Some(digest) => endorsers_line(answer, &node.core, node.names.as_slice(), &digest),
            None => answer.refuse(),
        }
    }
}

/// The endorsements at the places from 0 on, a dash where there is none at 0.
fn endorsers_line(answer: &mut Answer, core: &Core, names: &[Named], digest: &Digest) {
    answer.put("endorsers of ");
    answer.put(word_of(names, digest));
    for place in 0..u32::MAX {
        let Some(endorsement) = core.endorsement_of(digest, place) else {
            return ended(answer, place == 0);
        };
        counted(answer, " ", endorsement.endorser);
    }
}
