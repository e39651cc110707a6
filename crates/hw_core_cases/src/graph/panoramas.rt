//! Panoramas as lines give them.

ghost use Rattle.std.specs.Prelude.{◌≡◌, ◌<◌, ◌≤◌, length, true, IsTrue, IfSome};
ghost use Rattle.hw_types.specs.Graph.{is_consistent};
ghost use Rattle.hw_dag.specs.{Dag.{graph, observations, count_of, IsPanorama}, Slots.{HasCode}};
ghost use Rattle.hw_core_cases.specs.Slots.{IsBy};

use crate::graph::units::observed;
use crate::graph::views::{put_name, put_views};
use hw_admit::State;
use hw_case_words::Answer;
use hw_dag::{Dag, Panorama, UnitNo, View, at_most, consistent, join};
use hw_forks::Forks;
use hw_types::Obs;
use std::alloc::Global;

/// The panorama of these words, where each names a unit of its slot's validator.
pub fn panorama_of(alloc: Global, dag: &Dag, words: &[&str]) -> Option<Panorama>
    ensures { IfSome result (λ panorama. IsPanorama dag.now panorama) }
{
    let mut panorama = Panorama::new(alloc, dag.validators()).ok()?;
    fill(dag, &mut panorama, words);
    if is_panorama(dag, &panorama) {
        Some(panorama)
    } else {
        None
    }
}

/// Puts what the words say into the slots.
fn fill(dag: &Dag, panorama: &mut Panorama, words: &[&str])
    requires { length panorama.old ≡ dag.now.validators }
    ensures { length panorama.new ≡ dag.now.validators }
{
    for validator in 0..dag.validators() {
        let view = match words.get(validator as usize) {
            Some(word) => view_of(dag, word),
            None => View::Absent,
        };
        panorama.set(validator, view);
    }
}

/// What a word says of one validator, in numbers.
fn view_of(dag: &Dag, word: &str) -> View
    ensures { HasCode result }
{
    dag.recall_graph();
    match observed(word) {
        Obs::Absent => View::Absent,
        Obs::Faulty => View::Faulty,
        Obs::Correct(name) => match dag.find(&name) {
            Some(no) => View::Correct(no),
            None => View::Absent,
        },
    }
}

/// Whether each number is a unit of its slot's validator.
pub fn is_panorama(dag: &Dag, panorama: &Panorama) -> bool
    requires { length panorama.now ≡ dag.now.validators }
    ensures { IsTrue result → IsPanorama dag.now panorama.now }
{
    for validator in 0..dag.validators() {
        if !is_of(dag, panorama.get(validator), validator) {
            return false;
        }
    }
    true
}

/// Whether the slot is none of a unit, or of a unit by this validator.
fn is_of(dag: &Dag, view: View, validator: u32) -> bool
    ensures { IsTrue result → IsBy dag.now view validator }
{
    match view {
        View::Absent | View::Faulty => true,
        View::Correct(no) => {
            no.0 < dag.count() && dag.unit(no).signed().unit.creator == validator
        }
    }
}

/// The fork choice of a panorama.
pub fn choice(answer: &mut Answer, state: &State, words: &[&str]) {
    match panorama_of(answer.alloc(), state.dag(), words) {
        Some(panorama) => put_choice(answer, state, &panorama),
        None => answer.refuse(),
    }
}

fn put_choice(answer: &mut Answer, state: &State, panorama: &Panorama)
    requires { IsPanorama state.now.dag panorama.now }
{
    match fork_choice(answer.alloc(), state, panorama) {
        Some(fork) => put_fork(answer, state.dag(), fork),
        None => answer.refuse(),
    }
}

/// The fork choice, worked out with scratch of its own.
pub fn fork_choice(alloc: Global, state: &State, panorama: &Panorama) -> Option<Option<UnitNo>>
    requires { IsPanorama state.now.dag panorama.now }
{
    let mut forks = Forks::new(alloc);
    forks.reserve(state.dag().count()).ok()?;
    Some(forks.fork_choice(state.dag(), &state.config().weights, panorama))
}

/// `fork` and the name of the block.
pub fn put_fork(answer: &mut Answer, dag: &Dag, fork: Option<UnitNo>) {
    match fork {
        Some(no) => put_name(answer, dag, "fork ", no),
        None => answer.put("fork -"),
    }
}

/// Whether the panorama of these words is consistent.
pub fn consistency(answer: &mut Answer, dag: &Dag, words: &[&str]) {
    match panorama_of(answer.alloc(), dag, words) {
        Some(panorama) => answer.truth(consistent(dag, &panorama)),
        None => answer.refuse(),
    }
}

/// The panorama of these words, which is consistent.
pub fn consistent_of(alloc: Global, dag: &Dag, words: &[&str]) -> Option<Panorama>
    ensures panorama { IfSome result (λ panorama. IsPanorama dag.now panorama) }
    ensures consistent { IfSome result (λ panorama. is_consistent (graph dag.now) (observations dag.now panorama) ≡ true) }
{
    let panorama = panorama_of(alloc, dag, words)?;
    if consistent(dag, &panorama) {
        Some(panorama)
    } else {
        None
    }
}

/// Whether the first panorama is at most the second.
pub fn at_most_of(answer: &mut Answer, dag: &Dag, words: &[&str]) {
    let (left, right) = words.split_at(words.len() / 2);
    let left = panorama_of(answer.alloc(), dag, left);
    let right = panorama_of(answer.alloc(), dag, right);
    match (left, right) {
        (Some(left), Some(right)) => answer.truth(at_most(dag, &left, &right)),
        _ => answer.refuse(),
    }
}

/// The least panorama above both.
pub fn joined(answer: &mut Answer, dag: &Dag, words: &[&str]) {
    let (left, right) = words.split_at(words.len() / 2);
    let left = consistent_of(answer.alloc(), dag, left);
    let right = consistent_of(answer.alloc(), dag, right);
    match (left, right) {
        (Some(mut left), Some(right)) => {
            join(dag, &mut left, &right);
            put_views(answer, dag, &left);
        }
        _ => answer.refuse(),
    }
}
