//! Units and evidence as lines define them.

use crate::journal::names::{Named, digest_named, unit_named, with_digest};
use hw_case_words::{
    Answer, after, digest_of_byte, number_in, own_observation, unit_of, until_key,
};
use hw_codec::{digest_of, fits};
use hw_types::{Digest, DigestList, Evidence, Obs, ObsList, SignedUnit, Vertex, WireUnit};
use std::alloc::Global;

/// Defines the unit that the words give.
pub fn unit(answer: &mut Answer, instance: Digest, names: &mut Vec<Named>, words: &[&str]) {
    let [name, ..] = words else {
        return answer.refuse();
    };
    let unit = unit_in(answer, instance, names.as_slice(), words);
    define_unit(answer, names, name, unit);
}

/// Puts in the unit under this name.
fn define_unit(answer: &mut Answer, names: &mut Vec<Named>, name: &str, unit: SignedUnit) {
    let digest = digest_in_format(answer.alloc(), &unit.unit);
    if digest.is_none() {
        answer.refuse();
    }
    define(answer, names, name, digest, Vertex::Unit(unit));
}

/// Defines the evidence of the two units.
pub fn evidence(answer: &mut Answer, names: &mut Vec<Named>, words: &[&str]) {
    let [name, _of, left, right] = words else {
        return answer.refuse();
    };
    match evidence_of(names.as_slice(), left, right) {
        Some(vertex) => define(answer, names, name, None, vertex),
        None => answer.refuse(),
    }
}

/// Puts in the vertex under this name.
fn define(
    answer: &mut Answer,
    names: &mut Vec<Named>,
    name: &str,
    digest: Option<Digest>,
    vertex: Vertex,
) {
    let name = answer.copy(name);
    answer.push_to(
        names,
        Named {
            name,
            digest,
            vertex,
        },
    );
}

/// The evidence of the two units of these names.
fn evidence_of(names: &[Named], left: &str, right: &str) -> Option<Vertex> {
    pair(unit_named(names, left)?, unit_named(names, right)?)
}

/// The evidence of these two units.
fn pair(left: &SignedUnit, right: &SignedUnit) -> Option<Vertex> {
    match (left.copy(), right.copy()) {
        (Ok(left), Ok(right)) => Some(Vertex::Evidence(Evidence { left, right })),
        _ => None,
    }
}

/// The digest of a unit that keeps the limits of its format.
pub fn digest_in_format(alloc: Global, unit: &WireUnit) -> Option<Digest> {
    if fits(unit) {
        digest_of(alloc, unit).ok()
    } else {
        None
    }
}

/// The unit that the words give. Its number is that after the unit that it cites of its creator, unless they give one.
fn unit_in(answer: &mut Answer, instance: Digest, names: &[Named], words: &[&str]) -> SignedUnit {
    let panorama = observations(answer, names, after(words, "cites"));
    let seq = match number_in(words) {
        Some(number) => number,
        None => next_number(names, own_observation(&panorama, words)),
    };
    let endorsed = digests(answer, names, after(words, "endorsed"));
    unit_of(answer, words, instance, panorama, endorsed, seq)
}

/// What these words say of each validator.
fn observations(answer: &mut Answer, names: &[Named], words: &[&str]) -> ObsList {
    let mut list = Vec::new(answer.alloc());
    for word in until_key(words) {
        let observed = observed(answer, names, word);
        answer.push_to(&mut list, observed);
    }
    ObsList::from_vec(list)
}

/// What a word says of one validator.
fn observed(answer: &mut Answer, names: &[Named], word: &str) -> Obs {
    match word {
        "-" => Obs::Absent,
        "!" => Obs::Faulty,
        name => Obs::Correct(digest_of_word(answer, names, name)),
    }
}

/// The digest of the unit of this name.
fn digest_of_word(answer: &mut Answer, names: &[Named], name: &str) -> Digest {
    match digest_named(names, name) {
        Some(digest) => digest,
        None => {
            answer.refuse();
            digest_of_byte(0)
        }
    }
}

/// The digests of the units of these names, in rising order.
fn digests(answer: &mut Answer, names: &[Named], words: &[&str]) -> DigestList {
    let mut list = Vec::new(answer.alloc());
    for word in until_key(words) {
        let digest = digest_of_word(answer, names, word);
        answer.push_to(&mut list, digest);
    }
    let sorted = list.sort();
    answer.keep(sorted);
    DigestList::from_vec(list)
}

/// The number after that of the observed unit.
fn next_number(names: &[Named], own: Obs) -> u64 {
    let Obs::Correct(digest) = own else {
        return 0;
    };
    match with_digest(names, &digest) {
        Some(named) => number_after(&named.vertex),
        None => 0,
    }
}

fn number_after(vertex: &Vertex) -> u64 {
    match vertex {
        Vertex::Unit(unit) => unit.unit.seq.saturating_add(1),
        Vertex::Evidence(_) => 0,
        Vertex::Endorsement(_) => 0,
    }
}
