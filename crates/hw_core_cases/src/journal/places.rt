//! Whether units are settled, parked or dropped, and what they miss.

use crate::journal::names::{Named, Node, digest_named, find, word_of};
use crate::journal::outcome::{counted, is_same, rule_text};
use hw_case_words::Answer;
use hw_core::{Core, Place};
use hw_types::{Digest, Need, Vertex, is_same_unit};

/// Whether each of the named units is unknown, settled, parked or dropped.
pub fn place(answer: &mut Answer, node: &Node, words: &[&str]) {
    for word in words {
        match find(node.names.as_slice(), word) {
            Some(named) => place_line(answer, &node.core, named),
            None => answer.refuse(),
        }
    }
}

fn place_line(answer: &mut Answer, core: &Core, named: &Named) {
    let Some(digest) = named.digest else {
        return answer.refuse();
    };
    let place = core.place_of(&digest);
    answer.put(named.name.as_str());
    place_text(answer, place);
    if is_known(core, &digest, &named.vertex) != is_there(place) {
        answer.put(" lost");
    }
    answer.put("\n");
}

fn place_text(answer: &mut Answer, place: Place) {
    match place {
        Place::Unknown => answer.put(" unknown"),
        Place::Settled(no) => counted(answer, " settled ", no.0),
        Place::Parked(missing) => counted(answer, " parked ", missing),
        Place::Dropped(rule) => rule_text(answer, " dropped ", rule),
    }
}

fn is_there(place: Place) -> bool {
    match place {
        Place::Unknown => false,
        _ => true,
    }
}

/// Whether the node has this unit under this digest.
fn is_known(core: &Core, digest: &Digest, vertex: &Vertex) -> bool {
    match (core.unit_of(digest), vertex) {
        (Some(known), Vertex::Unit(unit)) => is_same_unit(&known.unit, &unit.unit),
        _ => false,
    }
}

/// What each of the named units misses.
pub fn missing(answer: &mut Answer, node: &Node, words: &[&str]) {
    for word in words {
        answer.put(word);
        match digest_named(node.names.as_slice(), word) {
            Some(digest) => put_missing(answer, node, &digest),
            None => answer.refuse(),
        }
    }
}

/// The needs at the places from 0 on, a dash where there is none at 0.
fn put_missing(answer: &mut Answer, node: &Node, digest: &Digest) {
    answer.put(" misses");
    for place in 0..u32::MAX {
        let Some(need) = node.core.missing(digest, place) else {
            return ended(answer, place == 0);
        };
        put_need(answer, node.names.as_slice(), need);
    }
}

/// The end of a line, with a dash before it where there is nothing in it.
pub fn ended(answer: &mut Answer, is_empty: bool) {
    answer.put(if is_empty { " -\n" } else { "\n" });
}

/// The need in words.
pub fn put_need(answer: &mut Answer, names: &[Named], need: Need) {
    match need {
        Need::Unit(digest) => put_two(answer, " unit ", word_of(names, &digest)),
        Need::Evidence(validator) => counted(answer, " evidence ", validator),
        Need::Endorsed(digest) => put_two(answer, " endorsed ", word_of(names, &digest)),
    }
}

fn put_two(answer: &mut Answer, first: &str, second: &str) {
    answer.put(first);
    answer.put(second);
}

/// The journal in order.
pub fn journal(answer: &mut Answer, node: &Node) {
    answer.put("journal");
    for place in 0..node.core.journal_count() {
        put_vertex(answer, node.names.as_slice(), node.core.journal_at(place));
    }
    answer.put("\n");
}

/// The name of a vertex, and for an endorsement the name of the unit and the endorser.
fn put_vertex(answer: &mut Answer, names: &[Named], vertex: &Vertex) {
    match vertex {
        Vertex::Endorsement(endorsement) => {
            put_two(answer, " endorse ", word_of(names, &endorsement.unit));
            counted(answer, " ", endorsement.endorser);
        }
        _ => put_two(answer, " ", name_of(names, vertex)),
    }
}

/// The name under which a line defined the vertex.
fn name_of<'a>(names: &'a [Named], vertex: &Vertex) -> &'a str {
    for named in names {
        if is_same(&named.vertex, vertex) {
            return named.name.as_str();
        }
    }
    "?"
}
