//! Quorums, rounds, jumps and pairs.

use hw_case_words::{Answer, byte, digest_of_byte, number, plain_unit, small};
use hw_dag::{jump, pointer_count};
use hw_rounds::{changes_lawfully, check_pair, round_id, witness_time};
use hw_types::{DigestList, Evidence, MAX_TOTAL, ObsList, SignedUnit, quorum};

const NOT_ALLOWED: &str = "not allowed";

pub fn quorum_text(answer: &mut Answer, total: u64, ftt: u64, level: u32) {
    if total == 0 || total > MAX_TOTAL || ftt >= total || level == 0 || level > 30 {
        return answer.put(NOT_ALLOWED);
    }
    answer.number(quorum(total, ftt, level));
}

pub fn round_text(answer: &mut Answer, time: u64, exponent: u32) {
    if exponent > 40 || time >= 1 << 63 {
        return answer.put(NOT_ALLOWED);
    }
    let exponent = exponent as u8;
    let round = round_id(time, exponent);
    if round >= 1 << 63 {
        return answer.put(NOT_ALLOWED);
    }
    answer.number(round);
    answer.put(" ");
    answer.number(witness_time(round, exponent));
}

pub fn change_text(answer: &mut Answer, before: u64, words: &[&str]) {
    let [first, time, then] = words else {
        return answer.refuse();
    };
    let (first, then) = (small(first), small(then));
    if first > 40 || then > 40 {
        return answer.put(NOT_ALLOWED);
    }
    answer.truth(changes_lawfully(before, first as u8, number(time), then as u8));
}

pub fn way_text(answer: &mut Answer, from: u64, to: u64) {
    let mut at = from;
    while to < at {
        at -= 1 << jump(at, to);
        answer.number(at);
        answer.put(" ");
    }
}

pub fn pointers_text(answer: &mut Answer, of: u64) {
    answer.number(pointer_count(of) as u64);
}

/// The unit of `instance,creator,number,time`.
fn unit_of(answer: &mut Answer, word: &str) -> SignedUnit {
    let parts = answer.words(word, ',');
    let (instance, creator, seq, time) = match parts.as_slice() {
        [instance, creator, seq, time] => (
            byte(instance),
            small(creator),
            number(seq),
            number(time),
        ),
        _ => (0, 0, 0, 0),
    };
    let alloc = answer.alloc();
    plain_unit(
        digest_of_byte(instance),
        creator,
        seq,
        time,
        ObsList::new(alloc),
        None,
        DigestList::new(alloc),
    )
}

pub fn pair_text(answer: &mut Answer, validators: u32, left: &str, right: &str) {
    let left = unit_of(answer, left);
    let right = unit_of(answer, right);
    let checked = check_pair(&Evidence { left, right }, &digest_of_byte(1), validators);
    answer.debug(&checked);
}
