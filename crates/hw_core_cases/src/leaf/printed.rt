//! Printed parts.

use hw_case_words::Answer;
use hw_text::{put_digest, put_number, put_word, rule_name};
use hw_types::{Bytes, Digest, OutOfMemory, Rule};

pub fn number_text(answer: &mut Answer, of: u64) {
    let mut out = Bytes::new(answer.alloc());
    let first = put_word(&mut out, "number ");
    let second = put_number(&mut out, of);
    put_text(answer, &out, first.and(second));
}

pub fn digest_text(answer: &mut Answer, word: &str) {
    let digits = answer.bytes(word);
    let mut out = Bytes::new(answer.alloc());
    let first = put_word(&mut out, "fork ");
    let second = match digits.as_slice().first_chunk::<32>() {
        Some(digest) => put_digest(&mut out, &Digest(*digest)),
        None => Ok(()),
    };
    put_text(answer, &out, first.and(second));
}

/// Puts the bytes as a text, where there was memory for all of them.
fn put_text(answer: &mut Answer, out: &Bytes, put: Result<(), OutOfMemory>) {
    match (put, std::str::from_utf8(out.as_slice())) {
        (Ok(()), Ok(text)) => answer.put(text),
        (Ok(()), Err(_)) => answer.put("no text"),
        (Err(_), _) => answer.refuse(),
    }
}

/// The rules in their order.
const RULES: [Rule; 19] = [
    Rule::WrongInstance,
    Rule::UnknownCreator,
    Rule::PanoramaLength,
    Rule::FaultySelf,
    Rule::FirstSequence,
    Rule::RoundExponent,
    Rule::EndorsedOrder,
    Rule::NoBlock,
    Rule::SlotCreator,
    Rule::SequenceNumber,
    Rule::Inconsistent,
    Rule::TimeGoesBack,
    Rule::RoundChange,
    Rule::ThirdInRound,
    Rule::NotLeader,
    Rule::EndorsedShrinks,
    Rule::EndorsedUnseen,
    Rule::Naive,
    Rule::AfterTerminal,
];

pub fn rule_text(answer: &mut Answer, of: u32) {
    match RULES.as_slice().get((of as usize).wrapping_sub(1)) {
        Some(rule) => answer.put(rule_name(*rule)),
        None => answer.put("no rule"),
    }
}
