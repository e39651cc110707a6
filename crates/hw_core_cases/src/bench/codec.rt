//! A unit with 100 observations, that is read, written and named.

use hw_case_words::{Answer, digest_of_byte, plain_unit};
use hw_codec::{decode_unit, digest_of, encode_unit, fits};
use hw_types::{Bytes, DigestList, Obs, ObsList, SignedUnit, WireUnit};
use std::alloc::Global;

const OBSERVATIONS: u8 = 100;

/// What is done to a unit.
#[derive(Clone, Copy)]
pub enum Work {
    Read,
    Write,
    Name,
}

/// A unit, and its bytes.
#[derive(Drop)]
pub struct Sample {
    signed: SignedUnit,
    bytes: Bytes,
}

/// A unit that cites one unit of each validator.
pub fn sample_of(answer: &mut Answer) -> Sample {
    let signed = unit_of(answer);
    let bytes = spelling(answer, &signed.unit);
    Sample { signed, bytes }
}

fn unit_of(answer: &mut Answer) -> SignedUnit {
    let mut seen = Vec::new(answer.alloc());
    for validator in 0..OBSERVATIONS {
        answer.push_to(&mut seen, Obs::Correct(digest_of_byte(validator)));
    }
    let endorsed = DigestList::new(answer.alloc());
    let panorama = ObsList::from_vec(seen);
    plain_unit(digest_of_byte(0), 0, 1, 1_000, panorama, None, endorsed)
}

fn spelling(answer: &mut Answer, unit: &WireUnit) -> Bytes {
    if fits(unit) {
        if let Ok(bytes) = encode_unit(answer.alloc(), unit) {
            return bytes;
        }
    }
    answer.refuse();
    Bytes::new(answer.alloc())
}

impl Sample {
    /// Does it as many times as there are rounds: the sum of what comes of it.
    pub fn go(&self, alloc: Global, work: Work, rounds: u32) -> u64 {
        let mut sum = 0u64;
        for _ in 0..rounds {
            sum = sum.wrapping_add(self.done(alloc, work));
        }
        sum
    }

    /// What comes of it once.
    fn done(&self, alloc: Global, work: Work) -> u64 {
        match work {
            Work::Read => time_read(alloc, self.bytes.as_slice()),
            Work::Write => length_written(alloc, &self.signed.unit),
            Work::Name => first_of_name(alloc, &self.signed.unit),
        }
    }
}

/// The time of the unit that these bytes spell.
fn time_read(alloc: Global, bytes: &[u8]) -> u64 {
    match decode_unit(alloc, bytes) {
        Ok(unit) => unit.time,
        Err(_) => 0,
    }
}

/// How many bytes spell the unit.
fn length_written(alloc: Global, unit: &WireUnit) -> u64 {
    if !fits(unit) {
        return 0;
    }
    match encode_unit(alloc, unit) {
        Ok(bytes) => bytes.len() as u64,
        Err(_) => 0,
    }
}

/// The first byte of the unit's name.
fn first_of_name(alloc: Global, unit: &WireUnit) -> u64 {
    if !fits(unit) {
        return 0;
    }
    match digest_of(alloc, unit) {
        Ok(name) => u64::from(name.0[0]),
        Err(_) => 0,
    }
}
