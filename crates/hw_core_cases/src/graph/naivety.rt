//! Naive forks of units that are only thought of.

ghost use Rattle.std.specs.{Prelude.{◌≡◌, ◌<◌, ◌≤◌, true, IsTrue}, List.{list_any, list_all}};
ghost use Rattle.hw_types.specs.Rules.{has_digest};
ghost use Rattle.hw_dag.specs.Dag.{unit_at, IsPanorama, count_of};
ghost use Rattle.hw_naivety.specs.Tips.{HasLists};
ghost use Rattle.hw_core_cases.specs.Slots.{HasListOf};

use crate::graph::panoramas::panorama_of;
use crate::graph::units::names;
use crate::graph::views::put_name;
use hw_admit::State;
use hw_case_words::{Answer, after};
use hw_dag::{Dag, Marks, Panorama, View};
use hw_naivety::NaiveFork;
use hw_types::Digest;
use std::alloc::Global;

/// The naive fork of a unit with this panorama and this endorsed list.
pub fn naive_fork(answer: &mut Answer, state: &State, words: &[&str]) {
    let panorama = panorama_of(answer.alloc(), state.dag(), words);
    let endorsed = names(answer, after(words, "endorsed"));
    match panorama {
        Some(panorama) => put_fork_over(answer, state, &panorama, endorsed.as_slice()),
        None => answer.refuse(),
    }
}

fn put_fork_over(answer: &mut Answer, state: &State, panorama: &Panorama, endorsed: &[Digest])
    requires { IsPanorama state.now.dag panorama.now }
{
    match fork_over(answer.alloc(), state, panorama, endorsed) {
        Some(fork) => put_naive(answer, state.dag(), fork),
        None => answer.refuse(),
    }
}

/// The naive fork, found with scratch of its own. The list must have those of the cited units.
fn fork_over(
    alloc: Global,
    state: &State,
    panorama: &Panorama,
    endorsed: &[Digest],
) -> Option<Option<NaiveFork>>
    requires { IsPanorama state.now.dag panorama.now }
{
    if !has_lists(state.dag(), panorama, endorsed) {
        return None;
    }
    let mut marks = Marks::new(alloc);
    marks.reserve(state.dag().count()).ok()?;
    Some(state.naive_over(panorama, endorsed, &mut marks))
}

/// The creator and the two units, in the order of their numbers.
fn put_naive(answer: &mut Answer, dag: &Dag, fork: Option<NaiveFork>) {
    let Some(fork) = fork else {
        return answer.put("no naive fork");
    };
    let (low, high) = if fork.left.0 < fork.right.0 {
        (fork.left, fork.right)
    } else {
        (fork.right, fork.left)
    };
    answer.put("naive fork of ");
    answer.number(fork.creator as u64);
    put_name(answer, dag, ": ", low);
    put_name(answer, dag, " ", high);
}

/// Whether the list has those of the cited units.
fn has_lists(dag: &Dag, panorama: &Panorama, endorsed: &[Digest]) -> bool
    requires { IsPanorama dag.now panorama.now }
    ensures { IsTrue result → HasLists dag.now panorama.now endorsed.now }
{
    for validator in 0..dag.validators() {
        if !has_list(dag, panorama.get(validator), endorsed) {
            return false;
        }
    }
    true
}

/// Whether the list has that of the slot's unit.
fn has_list(dag: &Dag, view: View, endorsed: &[Digest]) -> bool
    ensures { IsTrue result → HasListOf dag.now view endorsed.now }
{
    match view {
        View::Absent | View::Faulty => true,
        View::Correct(no) => {
            no.0 < dag.count() && has_all(endorsed, dag.unit(no).signed().unit.endorsed.as_slice())
        }
    }
}

/// Whether each digest of the part is in the list.
fn has_all(list: &[Digest], part: &[Digest]) -> bool
    ensures { result ≡ list_all (has_digest list.now) part.now }
{
    part.iter().all(|digest| has(list, digest))
}

fn has(list: &[Digest], digest: &Digest) -> bool
    ensures { result ≡ has_digest list.now digest.now }
{
    list.iter().any(|other| digest == other)
}
