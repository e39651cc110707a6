//! A chain of blocks that is one lane, and look-ups along lanes and chains.

ghost use Rattle.std.specs.Prelude.{◌≡◌, ◌+◌, ◌<◌, ◌≤◌, true, Some, IfSome, is_some};
ghost use Rattle.hw_types.specs.Votes.{is_block};
ghost use Rattle.hw_dag.specs.Dag.{count_of, node_at, unit_at, seq_of};

use crate::graph::settling::{Outcome, settle};
use crate::graph::units::INSTANCE;
use crate::graph::views::put_name;
use hw_admit::State;
use hw_case_words::{Answer, named, number, panorama_of, plain_unit, small};
use hw_dag::{Dag, Marks, Steps, UnitNo};
use hw_types::{Bytes, Digest, DigestList, Obs, SignedUnit};
use std::marker::Brand;
use std::sync::ledger::{Blank, Ledger};

/// Admits blocks of validator 0 in every fourth round, each on the one before it.
pub fn chain(answer: &mut Answer, state: &mut State, words: &[&str]) {
    let [length] = words else {
        return answer.refuse();
    };
    let mut admitted: u64 = 0;
    for height in 0..small(length) {
        match add_block(answer, state, height) {
            Some(Outcome::Admitted(_)) => admitted = admitted.saturating_add(1),
            Some(_) => {}
            None => answer.refuse(),
        }
    }
    answer.labelled("admitted ", admitted);
}

/// Admits the block of this height.
fn add_block(answer: &mut Answer, state: &mut State, height: u32) -> Option<Outcome> {
    let name = name_at(answer, height);
    let unit = block_at(answer, state.dag().validators(), height);
    settle(state, name, unit)
}

/// The name of the block of this height.
fn name_at(answer: &mut Answer, height: u32) -> Digest {
    let name = answer.filled("n#", height as u64);
    named(name.as_str())
}

/// The block of this height.
fn block_at(answer: &mut Answer, validators: u32, height: u32) -> SignedUnit {
    let before = observed_before(answer, height);
    let panorama = panorama_of(answer, validators as usize, before);
    let alloc = answer.alloc();
    let (number, time) = (height as u64, height as u64 * 64);
    plain_unit(
        INSTANCE,
        0,
        number,
        time,
        panorama,
        Some(Bytes::new(alloc)),
        DigestList::new(alloc),
    )
}

fn observed_before(answer: &mut Answer, height: u32) -> Obs {
    if height == 0 {
        Obs::Absent
    } else {
        Obs::Correct(name_at(answer, height - 1))
    }
}

/// The unit of this number on the lane of the named one, and its own number.
pub fn lane(answer: &mut Answer, dag: &Dag, name: &str, seq: &str) {
    let Some(no) = dag.find(&named(name)) else {
        return answer.refuse();
    };
    let Some(found) = lane_at::<Brand>(dag, no, number(seq), Blank::new(1)) else {
        return answer.refuse();
    };
    put_name(answer, dag, "", found);
    answer.put(" number ");
    answer.number(dag.unit(found).signed().unit.seq);
}

fn lane_at<L: Ledger>(dag: &Dag, no: UnitNo, seq: u64, blank: Blank) -> Option<UnitNo>
    requires known { no.0 < count_of dag.now }
    requires name { blank.name ≡ L.name }
    requires parts { blank.parts ≡ L.parts }
    requires some { 0 < L.parts }
    ensures { IfSome result (λ found. found.0 < count_of dag.now) }
{
    let mut steps = Steps::<L>::new(blank);
    if dag.unit(no).signed().unit.seq < seq {
        return None;
    }
    Some(dag.lane_at(no, seq, &mut steps))
}

/// The block of this height on the chain of the named one.
pub fn ancestor(answer: &mut Answer, dag: &Dag, name: &str, height: &str) {
    let Some(no) = dag.find(&named(name)) else {
        return answer.refuse();
    };
    if dag.unit(no).signed().unit.value.is_none() {
        return answer.refuse();
    }
    let Some(found) = chain_at::<Brand>(dag, no, number(height), Blank::new(1)) else {
        return answer.refuse();
    };
    put_name(answer, dag, "", found);
    answer.put(" height ");
    answer.debug(&dag.unit(found).height());
}

fn chain_at<L: Ledger>(dag: &Dag, block: UnitNo, height: u64, blank: Blank) -> Option<UnitNo>
    requires known { block.0 < count_of dag.now }
    requires block { is_block (node_at dag.now block.0) ≡ true }
    requires name { blank.name ≡ L.name }
    requires parts { blank.parts ≡ L.parts }
    requires some { 0 < L.parts }
    ensures { IfSome result (λ found. found.0 < count_of dag.now) }
{
    let mut steps = Steps::<L>::new(blank);
    if dag.unit(block).height().unwrap_or(0) < height {
        return None;
    }
    Some(dag.block_at(block, height, &mut steps))
}

/// Whether the one unit is on the lane of the other.
pub fn on_lane(answer: &mut Answer, dag: &Dag, low: &str, high: &str) {
    match (dag.find(&named(low)), dag.find(&named(high))) {
        (Some(low), Some(high)) => answer.truth(dag.on_lane(low, high)),
        _ => answer.refuse(),
    }
}

/// Whether the one unit is the other or has it below it.
pub fn sees(answer: &mut Answer, dag: &Dag, high: &str, low: &str) {
    let mut marks = Marks::new(answer.alloc());
    if marks.reserve(dag.count()).is_err() {
        return answer.refuse();
    }
    match (dag.find(&named(high)), dag.find(&named(low))) {
        (Some(high), Some(low)) => answer.truth(dag.sees(high, low, &mut marks)),
        _ => answer.refuse(),
    }
}

/// From number 1,000 to 1 it takes 14 jumps,
pub fn fourteen_jumps<L: Ledger>(dag: &Dag, no: UnitNo, steps: &mut Steps<L>) -> UnitNo
    requires known { no.0 < count_of dag.now }
    requires from { seq_of (unit_at dag.now no.0) ≡ 1000 }
    ensures { steps.new ≡ steps.old + 14 }
{
    dag.lane_at(no, 1, steps)
}

/// from 1,024 to 0 one,
pub fn one_jump<L: Ledger>(dag: &Dag, no: UnitNo, steps: &mut Steps<L>) -> UnitNo
    requires known { no.0 < count_of dag.now }
    requires from { seq_of (unit_at dag.now no.0) ≡ 1024 }
    ensures { steps.new ≡ steps.old + 1 }
{
    dag.lane_at(no, 0, steps)
}

/// and to its own number none.
pub fn no_jump<L: Ledger>(dag: &Dag, no: UnitNo, steps: &mut Steps<L>) -> UnitNo
    requires { no.0 < count_of dag.now }
    ensures known { result.0 < count_of dag.now }
    ensures steps { steps.new ≡ steps.old }
{
    dag.lane_at(no, dag.unit(no).signed().unit.seq, steps)
}
