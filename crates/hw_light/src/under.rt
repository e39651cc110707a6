//! The units at or below the latest units of a summit's first committee.

ghost use Rattle.std.specs.{Prelude.{◌≡◌, ℕ, ◌^◌, ◌<◌, ◌⊎◌, true, false, Bool, List, length, map, filter, replicate, is_some, IsTrue, IfOk}, List.{range_with_len}};
ghost use Rattle.hw_dag.specs.declared.numbers.UnitNo.{UnitNo as Number};
ghost use Rattle.hw_dag.specs.declared.numbers.View.TheVariants.{Correct};
ghost use Rattle.hw_dag.specs.Dag.{graph, count_of, node_of, observations, view_at, IsPanorama};
ghost use Rattle.hw_dag.specs.Walks.{is_marked, Cites};
ghost use Rattle.hw_horizon.specs.Search.{committees_of};
ghost use Rattle.hw_light.specs.{Extract.{is_under}, Under.{IsMembersLatest, IsUnderMarked, AreUnderMarked, AreKnown, nodes_at, number_in}};

use hw_dag::{Dag, Panorama, UnitNo, View};
use hw_horizon::Horizons;
use hw_types::OutOfMemory;
use std::alloc::Global;

/// The numbers of the units at or below the latest units of the first committee of the summit that the
/// search found, rising. It looks at each unit at most once.
pub(crate) fn numbers_under(
    alloc: Global,
    search: &Horizons,
    dag: &Dag,
    panorama: &Panorama,
) -> Result<Vec<UnitNo>, OutOfMemory>
    requires { IsPanorama dag.now panorama.now }
    ensures known { IfOk result (λ numbers. AreKnown dag.now numbers.items) }
    ensures under { IfOk result (λ numbers. nodes_at dag.now numbers.items ≡ filter (is_under (graph dag.now) (observations dag.now panorama.now) (committees_of search.now)) (map node_of dag.now.units)) }
{
    dag.recall_graph();
    let mut marked = latest_marked(alloc, search, dag, panorama)?;
    numbers_from(alloc, dag, marked.as_mut_slice())
}

/// The numbers of the marked units and of all below them, rising.
fn numbers_from(alloc: Global, dag: &Dag, marked: &mut [bool]) -> Result<Vec<UnitNo>, OutOfMemory>
    requires { length marked.old ≡ count_of dag.now }
    ensures { IfOk result (λ numbers. AreUnderMarked dag.now marked.old numbers.items) }
{
    mark_below(dag, marked);
    marked_numbers(alloc, dag, marked)
}

/// A mark for each unit: whether it is the latest one of a member of the first committee.
fn latest_marked(
    alloc: Global,
    search: &Horizons,
    dag: &Dag,
    panorama: &Panorama,
) -> Result<Vec<bool>, OutOfMemory>
    requires { IsPanorama dag.now panorama.now }
    ensures length { IfOk result (λ marked. length marked.items ≡ count_of dag.now) }
    ensures all { IfOk result (λ marked. (n : ℕ) → IsMembersLatest search.now panorama.now n → is_marked marked.items n ≡ true) }
    ensures only { IfOk result (λ marked. (n : ℕ) → is_marked marked.items n ≡ true → IsMembersLatest search.now panorama.now n) }
{
    let mut marked = unmarked(alloc, dag.count())?;
    mark_all_latest(search, dag, panorama, marked.as_mut_slice());
    Ok(marked)
}

/// This many places without a mark.
fn unmarked(alloc: Global, count: u32) -> Result<Vec<bool>, OutOfMemory>
    ensures { IfOk result (λ marked. marked.items ≡ replicate count false) }
{
    let mut marked = Vec::new(alloc);
    marked.resize(count as usize, false)?;
    Ok(marked)
}

/// Marks the latest unit of each member of the first committee.
fn mark_all_latest(search: &Horizons, dag: &Dag, panorama: &Panorama, marked: &mut [bool])
    requires panorama { IsPanorama dag.now panorama.now }
    requires room { length marked.old ≡ count_of dag.now }
    ensures length { length marked.new ≡ length marked.old }
    ensures all { (n : ℕ) → IsMembersLatest search.now panorama.now n → is_marked marked.new n ≡ true }
    ensures only { (n : ℕ) → is_marked marked.new n ≡ true → (is_marked marked.old n ≡ true) ⊎ IsMembersLatest search.now panorama.now n }
{
    for validator in 0..dag.validators() {
        mark_latest(search, panorama, validator, marked);
    }
}

/// Marks the latest unit of the validator where that is a member of the first committee.
fn mark_latest(search: &Horizons, panorama: &Panorama, validator: u32, marked: &mut [bool])
    requires known { validator < length panorama.now }
    requires room { (number : Number) → view_at panorama.now validator ≡ Correct number → number.0 < length marked.old }
    ensures length { length marked.new ≡ length marked.old }
    ensures kept { (m : ℕ) → is_marked marked.old m ≡ true → is_marked marked.new m ≡ true }
    ensures all { (number : Number) → IsTrue ((committees_of search.now).member 0 validator) → view_at panorama.now validator ≡ Correct number → is_marked marked.new number.0 ≡ true }
    ensures only { (m : ℕ) → is_marked marked.new m ≡ true → (is_marked marked.old m ≡ true) ⊎ IsMembersLatest search.now panorama.now m }
{
    if search.start(0, validator).is_some() {
        mark(marked, panorama.get(validator));
    }
}

/// Marks what the marked units observe, and what that observes, and so on, by one walk from the newest
/// unit to the first.
fn mark_below(dag: &Dag, marked: &mut [bool])
    requires { length marked.old ≡ count_of dag.now }
    ensures length { length marked.new ≡ length marked.old }
    ensures all { (n : ℕ) → n < count_of dag.now → IsUnderMarked dag.now marked.old n → is_marked marked.new n ≡ true }
    ensures only { (n : ℕ) → is_marked marked.new n ≡ true → IsUnderMarked dag.now marked.old n }
{
    let mut next = dag.count();
    while next > 0 {
        next -= 1;
        if marked[next as usize] {
            mark_observed(dag, UnitNo(next), marked);
        }
    }
}

/// Marks the units that a unit observes.
fn mark_observed(dag: &Dag, no: UnitNo, marked: &mut [bool])
    requires known { no.0 < count_of dag.now }
    requires room { length marked.old ≡ count_of dag.now }
    ensures length { length marked.new ≡ length marked.old }
    ensures kept { (m : ℕ) → is_marked marked.old m ≡ true → is_marked marked.new m ≡ true }
    ensures all { (m : ℕ) → Cites dag.now no.0 m → is_marked marked.new m ≡ true }
    ensures only { (m : ℕ) → is_marked marked.new m ≡ true → (is_marked marked.old m ≡ true) ⊎ Cites dag.now no.0 m }
{
    dag.recall_graph();
    for slot in dag.unit(no).panorama().views() {
        mark(marked, slot.view());
    }
}

/// Marks the unit that a slot names.
fn mark(marked: &mut [bool], view: View)
    requires { (number : Number) → view ≡ Correct number → number.0 < length marked.old }
    ensures length { length marked.new ≡ length marked.old }
    ensures kept { (m : ℕ) → is_marked marked.old m ≡ true → is_marked marked.new m ≡ true }
    ensures all { (number : Number) → view ≡ Correct number → is_marked marked.new number.0 ≡ true }
    ensures only { (m : ℕ) → is_marked marked.new m ≡ true → (is_marked marked.old m ≡ true) ⊎ (view ≡ Correct (record { 0 = m })) }
{
    if let View::Correct(no) = view {
        marked[no.0 as usize] = true;
    }
}

/// The numbers of the marked units, rising.
fn marked_numbers(alloc: Global, dag: &Dag, marked: &[bool]) -> Result<Vec<UnitNo>, OutOfMemory>
    requires { length marked.now ≡ count_of dag.now }
    ensures { IfOk result (λ numbers. map number_in numbers.items ≡ filter (is_marked marked.now) (range_with_len 0 (count_of dag.now))) }
{
    let mut numbers = Vec::new(alloc);
    for number in 0..dag.count() {
        if marked[number as usize] {
            numbers.push(UnitNo(number))?;
        }
    }
    Ok(numbers)
}
