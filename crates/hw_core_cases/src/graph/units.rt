//! Units as lines give them. The digest of a unit is its name.

use hw_case_words::{Answer, after, named, number_in, own_observation, unit_of, until_key};
use hw_dag::Dag;
use hw_types::{Digest, DigestList, Obs, ObsList, SignedUnit};

/// The instance of all units.
pub const INSTANCE: Digest = Digest([0; 32]);

/// What a word says of one validator.
pub fn observed(word: &str) -> Obs {
    match word {
        "-" => Obs::Absent,
        "!" => Obs::Faulty,
        name => Obs::Correct(named(name)),
    }
}

/// What these words say of each validator.
fn observations(answer: &mut Answer, words: &[&str]) -> ObsList {
    let mut list = Vec::new(answer.alloc());
    for word in until_key(words) {
        answer.push_to(&mut list, observed(word));
    }
    ObsList::from_vec(list)
}

/// The digests that these words stand for.
pub fn names(answer: &mut Answer, words: &[&str]) -> DigestList {
    let mut list = DigestList::new(answer.alloc());
    for word in until_key(words) {
        answer.push(&mut list, named(word));
    }
    list
}

/// The unit that the words give. Its number is that after the unit that it cites of its creator, unless they give one.
pub fn wire_unit(answer: &mut Answer, dag: &Dag, words: &[&str]) -> SignedUnit {
    let panorama = observations(answer, after(words, "cites"));
    let seq = match number_in(words) {
        Some(number) => number,
        None => next_number(dag, own_observation(&panorama, words)),
    };
    let endorsed = names(answer, after(words, "endorsed"));
    unit_of(answer, words, INSTANCE, panorama, endorsed, seq)
}

/// The number after that of the observed unit.
pub fn next_number(dag: &Dag, own: Obs) -> u64 {
    let Obs::Correct(name) = own else {
        return 0;
    };
    match dag.find(&name) {
        Some(no) => dag.unit(no).signed().unit.seq.saturating_add(1),
        None => 1,
    }
}
