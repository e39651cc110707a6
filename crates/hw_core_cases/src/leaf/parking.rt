//! Items that wait for needs.

use hw_case_words::{Answer, byte, digest_of_byte, digest_with, small};
use hw_park::{Park, ParkCause};
use hw_types::{Digest, Need};

/// The need of a word: `uN` a unit, `dN` a unit endorsed, else evidence against a validator.
fn need_of(word: &str) -> Need {
    match word.split_at_checked(1) {
        Some(("u", rest)) => Need::Unit(digest_of_byte(byte(rest))),
        Some(("d", rest)) => Need::Endorsed(digest_of_byte(byte(rest))),
        Some((_, rest)) => Need::Evidence(small(rest)),
        None => Need::Evidence(0),
    }
}

fn needs_of(answer: &mut Answer, words: &str) -> Vec<Need> {
    let mut needs = Vec::new(answer.alloc());
    for word in words.split(',') {
        answer.push_to(&mut needs, need_of(word));
    }
    needs
}

/// Parks an item, and says why not where it is refused.
fn parking(park: &mut Park<u32>, needs: &[Need], item: u32) -> &'static str {
    if needs.is_empty() {
        return "no need";
    }
    match park.park(needs, item) {
        Ok(()) => "parked",
        Err(refused) => match refused.cause {
            ParkCause::Full => "full",
            ParkCause::OutOfMemory => "memory",
        },
    }
}

/// What a step answers.
fn step(answer: &mut Answer, park: &mut Park<u32>, word: &str) {
    match word.split_once(':') {
        Some(("m", need)) => {
            park.met(&need_of(need));
            answer.put("met");
        }
        Some((_, item)) => park_item(answer, park, item),
        None if word == "n" => next_text(answer, park),
        None => answer.number(park.count() as u64),
    }
}

/// Parks the item that comes after its needs.
fn park_item(answer: &mut Answer, park: &mut Park<u32>, word: &str) {
    match word.split_once(':') {
        Some((needs, item)) => {
            let needs = needs_of(answer, needs);
            answer.put(parking(park, needs.as_slice(), small(item)));
        }
        None => answer.refuse(),
    }
}

fn next_text(answer: &mut Answer, park: &mut Park<u32>) {
    match park.next_ready() {
        Some(item) => answer.number(item as u64),
        None => answer.put("none"),
    }
}

pub fn parked(answer: &mut Answer, limit: u32, steps: &[&str]) {
    match Park::new(answer.alloc(), limit) {
        Ok(mut park) => walk(answer, &mut park, steps),
        Err(_) => answer.refuse(),
    }
}

fn walk(answer: &mut Answer, park: &mut Park<u32>, steps: &[&str]) {
    for word in steps {
        step(answer, park, word);
        answer.put(" ");
    }
}

/// A digest that differs from others of its kind in its last bytes alone, as a peer may choose them.
fn chosen(number: u32) -> Digest {
    digest_with(7, 28, number)
}

/// Parks this many items, each for a unit of its own and one of seven validators' evidence.
fn park_many(park: &mut Park<u32>, count: u32) -> u32 {
    let mut done = 0u32;
    for item in 0..count {
        let needs = [Need::Unit(chosen(item)), Need::Evidence(item % 7)];
        if parking(park, &needs, item) == "parked" {
            done = done.saturating_add(1);
        }
    }
    done
}

fn meet_units(park: &mut Park<u32>, count: u32) {
    for item in 0..count {
        park.met(&Need::Unit(chosen(item)));
    }
}

/// How many of the items that come next come in the order of these remainders.
fn in_order(park: &mut Park<u32>, count: u32, first: u32, second: u32) -> u32 {
    let mut done = 0u32;
    for item in 0..count {
        if item % 7 == first || item % 7 == second {
            if park.next_ready() == Some(item) {
                done = done.saturating_add(1);
            }
        }
    }
    done
}

pub fn parks(answer: &mut Answer, count: u32) {
    match Park::new(answer.alloc(), count) {
        Ok(mut park) => parks_text(answer, &mut park, count),
        Err(_) => answer.refuse(),
    }
}

fn parks_text(answer: &mut Answer, park: &mut Park<u32>, count: u32) {
    let parked = park_many(park, count);
    park.met(&Need::Evidence(6));
    park.met(&Need::Evidence(2));
    let early = park.next_ready();
    meet_units(park, count);
    let first = in_order(park, count, 2, 6);
    let late = park.next_ready();
    let left = park.count();
    answer.labelled("parked ", parked as u64);
    answer.put(" then ");
    answer.debug(&early);
    answer.labelled(" in order ", first as u64);
    answer.put(" then ");
    answer.debug(&late);
    answer.labelled(" left ", left as u64);
}
