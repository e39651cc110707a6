//! The unit of a line.

use crate::answer::Answer;
use crate::words::{after, digest_of_byte, no_signature, number_of};
use hw_types::{Bytes, Digest, DigestList, Obs, ObsList, SignedUnit, WireUnit};

/// The unit that the words give, with this panorama, this list and this number. It is of another instance where they
/// say `foreign`, and has the bytes of the word after `block` as its value, where that is there.
pub fn unit_of(
    answer: &mut Answer,
    words: &[&str],
    instance: Digest,
    panorama: ObsList,
    endorsed: DigestList,
    seq: u64,
) -> SignedUnit {
    signed(WireUnit {
        instance: instance_of(words, instance),
        creator: creator_of(words),
        seq,
        time: number_of(words, "at"),
        exponent: exponent_of(words),
        panorama,
        value: value_of(answer, words),
        endorsed,
    })
}

/// The unit under a signature of zeros.
pub fn signed(unit: WireUnit) -> SignedUnit {
    SignedUnit {
        unit,
        signature: no_signature(),
    }
}

/// A unit in a round of exponent 4 that endorses none, under a signature of zeros.
pub fn plain_unit(
    instance: Digest,
    creator: u32,
    seq: u64,
    time: u64,
    panorama: ObsList,
    value: Option<Bytes>,
    endorsed: DigestList,
) -> SignedUnit {
    signed(WireUnit {
        instance,
        creator,
        seq,
        time,
        exponent: 4,
        panorama,
        value,
        endorsed,
    })
}

/// This observation of validator 0, and of the others none.
pub fn panorama_of(answer: &mut Answer, validators: usize, own: Obs) -> ObsList {
    let mut panorama = Vec::new(answer.alloc());
    answer.push_to(&mut panorama, own);
    for _ in 1..validators {
        answer.push_to(&mut panorama, Obs::Absent);
    }
    ObsList::from_vec(panorama)
}

/// What a unit of these words observes of its creator.
pub fn own_observation(panorama: &ObsList, words: &[&str]) -> Obs {
    match panorama.as_slice().get(creator_of(words) as usize) {
        Some(own) => *own,
        None => Obs::Absent,
    }
}

/// The number of the unit that the words give, if they do.
pub fn number_in(words: &[&str]) -> Option<u64> {
    match after(words, "number") {
        [number, ..] => number.parse().ok(),
        [] => None,
    }
}

fn creator_of(words: &[&str]) -> u32 {
    match after(words, "by") {
        [creator, ..] => creator.parse().unwrap_or(0),
        [] => 0,
    }
}

fn exponent_of(words: &[&str]) -> u8 {
    match after(words, "exp") {
        [exponent, ..] => exponent.parse().unwrap_or(0),
        [] => 4,
    }
}

fn instance_of(words: &[&str], instance: Digest) -> Digest {
    for word in words {
        if *word == "foreign" {
            return digest_of_byte(9);
        }
    }
    instance
}

/// The value of the unit, if it has one.
fn value_of(answer: &mut Answer, words: &[&str]) -> Option<Bytes> {
    match after(words, "block") {
        [word, ..] => Some(answer.list(word.as_bytes())),
        [] => None,
    }
}
