//! Long chains of units, and the sums of what became of them.

use crate::journal::outcome::{Outcome, delivery};
use crate::journal::units::digest_in_format;
use hw_case_words::{Answer, panorama_of, plain_unit, small};
use hw_core::Core;
use hw_types::{Bytes, Digest, DigestList, Obs, ObsList, Receipt, SignedUnit, Vertex};
use std::alloc::Global;

/// How many deliveries ended how.
#[derive(Clone, Copy)]
struct Sums {
    admitted: u32,
    settled: u32,
    parked: u32,
    missing: u32,
    other: u32,
}

/// Delivers a chain of this many units of validator 0, each on the one before it, the first one a block.
pub fn chain(answer: &mut Answer, instance: Digest, core: &mut Core, words: &[&str]) {
    let [count, order] = words else {
        return answer.refuse();
    };
    let validators = core.state().config().weights.len();
    let mut units = units_of(answer, instance, validators, small(count));
    if *order == "reverse" {
        units.reverse();
    }
    let sums = delivered(answer, core, units);
    put_sums(answer, count, sums);
}

/// What became of this many units, as a line.
fn put_sums(answer: &mut Answer, count: &str, sums: Sums) {
    answer.put("chain ");
    answer.put(count);
    answer.labelled(" admitted ", sums.admitted as u64);
    answer.labelled(" settled ", sums.settled as u64);
    answer.labelled(" parked ", sums.parked as u64);
    answer.labelled(" missing ", sums.missing as u64);
    answer.labelled(" other ", sums.other as u64);
    answer.put("\n");
}

/// Delivers the units, the first one first.
fn delivered(answer: &mut Answer, core: &mut Core, units: Vec<SignedUnit>) -> Sums {
    let mut sums = Sums {
        admitted: 0,
        settled: 0,
        parked: 0,
        missing: 0,
        other: 0,
    };
    for unit in units {
        match became(core, unit) {
            Some(outcome) => add(&mut sums, outcome),
            None => answer.refuse(),
        }
    }
    sums
}

/// What becomes of the unit.
fn became(core: &mut Core, unit: SignedUnit) -> Option<Outcome> {
    let vertex = Vertex::Unit(unit);
    delivery(core, &vertex, true)
}

/// Counts one outcome more.
fn add(sums: &mut Sums, outcome: Outcome) {
    match outcome {
        Outcome::Taken(Receipt::Admitted { settled }) => {
            sums.admitted = sums.admitted.saturating_add(1);
            sums.settled = sums.settled.saturating_add(settled);
        }
        Outcome::Taken(Receipt::Parked { missing }) => {
            sums.parked = sums.parked.saturating_add(1);
            sums.missing = sums.missing.saturating_add(missing);
        }
        _ => sums.other = sums.other.saturating_add(1),
    }
}

/// The units of the chain, the first one first.
fn units_of(
    answer: &mut Answer,
    instance: Digest,
    validators: usize,
    count: u32,
) -> Vec<SignedUnit> {
    let mut units = Vec::new(answer.alloc());
    let mut own = Obs::Absent;
    for number in 0..count {
        let panorama = panorama_of(answer, validators, own);
        let unit = unit_at(answer.alloc(), instance, number, panorama);
        own = observed(answer, &unit);
        answer.push_to(&mut units, unit);
    }
    units
}

/// What the next unit observes of validator 0.
fn observed(answer: &mut Answer, unit: &SignedUnit) -> Obs {
    match digest_in_format(answer.alloc(), &unit.unit) {
        Some(name) => Obs::Correct(name),
        None => {
            answer.refuse();
            Obs::Absent
        }
    }
}

/// The unit of this number, the only one in its round.
fn unit_at(alloc: Global, instance: Digest, number: u32, panorama: ObsList) -> SignedUnit {
    let value = if number == 0 {
        Some(Bytes::new(alloc))
    } else {
        None
    };
    let (seq, time) = (number as u64, number as u64 * 16);
    let endorsed = DigestList::new(alloc);
    plain_unit(instance, 0, seq, time, panorama, value, endorsed)
}
