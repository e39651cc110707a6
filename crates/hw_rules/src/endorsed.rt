//! The rules of a unit's endorsed list.

ghost use Rattle.std.specs.{Prelude.{◌≡◌, ◌≤◌, true, false, IsTrue}, List.{list_all}};
ghost use Rattle.hw_types.specs.{Graph.{is_consistent}, Rules.{has_digest, has_naive_fork}, Tests.{first_broken}};
ghost use Rattle.hw_dag.specs.{Dag.{count_of, unit_at}, Admission.{IsGraph, node_prepared}, Lists.{AllNameBelow}};
ghost use Rattle.hw_naivety.specs.Naivety.{IsNoted};
ghost use Rattle.hw_rules.specs.Judged.{IsCase, EachNamed, AllKeepEndorsed, AllEndorseSeen, below_of, endorsed_tests, has_foreign_slot, drops_endorsed, endorses_unseen};
ghost use Rattle.hw_rules.specs.Verdict.{verdict_of};

use crate::lists::{has_all, is_same};
use crate::lookups::{cited_beside, newest, previous, wire_unit};
use hw_dag::{Dag, Marks, Prepared, Slot};
use hw_naivety::Naivety;
use hw_types::{Digest, Rule};

/// The first rule of its endorsed list that a unit breaks.
pub fn endorsements(
    naivety: &Naivety,
    dag: &Dag,
    prepared: &Prepared,
    marks: &mut Marks,
) -> Result<(), Rule>
    requires case { IsCase dag.now prepared.now }
    requires slots { has_foreign_slot (below_of dag.now prepared.now) (node_prepared prepared.now) ≡ false }
    requires consistent { is_consistent (below_of dag.now prepared.now) prepared.now.signed.unit.panorama ≡ true }
    requires seen { AllEndorseSeen dag.now }
    requires noted { IsNoted naivety.now dag.now }
    requires all { naivety.now.count ≡ count_of dag.now }
    requires room { count_of dag.now ≤ marks.old }
    ensures verdict { result ≡ verdict_of (first_broken (endorsed_tests (below_of dag.now prepared.now) (node_prepared prepared.now))) }
    ensures room { marks.new ≡ marks.old }
{
    if drops_endorsed(dag, prepared) {
        return Err(Rule::EndorsedShrinks);
    }
    if endorses_unseen(dag, prepared, marks) {
        return Err(Rule::EndorsedUnseen);
    }
    if has_naive_fork(naivety, dag, prepared, marks) {
        return Err(Rule::Naive);
    }
    Ok(())
}

/// Whether a cited unit's list has a digest that its own hasn't.
fn drops_endorsed(dag: &Dag, prepared: &Prepared) -> bool
    requires case { IsCase dag.now prepared.now }
    requires kept { AllKeepEndorsed dag.now }
    ensures { result ≡ drops_endorsed (below_of dag.now prepared.now) (node_prepared prepared.now) }
{
    let own = prepared.signed().unit.endorsed.as_slice();
    let known = listed_slots(dag, own);
    for validator in 0..dag.validators() {
        if let Some(no) = cited_beside(known, prepared, validator) {
            if !has_all(own, wire_unit(dag, no).endorsed.as_slice()) {
                return true;
            }
        }
    }
    false
}

/// Slots that name only units whose lists are parts of the own one: what the newest unit observes, where its
/// list is a part of the own one, since its list has those of the units that it observes.
fn listed_slots<'a>(dag: &'a Dag, own: &[Digest]) -> &'a [Slot]
    requires graph { IsGraph dag.now }
    requires kept { AllKeepEndorsed dag.now }
    ensures { EachNamed result.now (λ validator no. list_all (has_digest own.now) (unit_at dag.now no.0).signed.unit.endorsed ≡ true) }
{
    match newest(dag) {
        Some(unit) if has_all(own, unit.signed().unit.endorsed.as_slice()) => {
            unit.panorama().views()
        }
        _ => &[],
    }
}

/// Whether its list has a digest of no unit below it.
fn endorses_unseen(dag: &Dag, prepared: &Prepared, marks: &mut Marks) -> bool
    requires case { IsCase dag.now prepared.now }
    requires seen { AllEndorseSeen dag.now }
    requires room { count_of dag.now ≤ marks.old }
    ensures unseen { result ≡ endorses_unseen (below_of dag.now prepared.now) (node_prepared prepared.now) }
    ensures room { marks.new ≡ marks.old }
{
    if inherits_list(dag, prepared) {
        return false;
    }
    let list = prepared.signed().unit.endorsed.as_slice();
    !dag.has_all_below(prepared.panorama(), list, marks)
}

/// Whether its list is that of the unit that it cites of its own creator, whose digests are those of units
/// below that one, or is empty where it cites none.
fn inherits_list(dag: &Dag, prepared: &Prepared) -> bool
    requires case { IsCase dag.now prepared.now }
    requires seen { AllEndorseSeen dag.now }
    ensures { IsTrue result → AllNameBelow dag.now prepared.now.panorama prepared.now.signed.unit.endorsed }
{
    let list = prepared.signed().unit.endorsed.as_slice();
    match previous(prepared) {
        Some(no) => is_same(list, wire_unit(dag, no).endorsed.as_slice()),
        None => list.is_empty(),
    }
}

/// Whether two units of one creator that are naive for it aren't comparable.
fn has_naive_fork(naivety: &Naivety, dag: &Dag, prepared: &Prepared, marks: &mut Marks) -> bool
    requires case { IsCase dag.now prepared.now }
    requires slots { has_foreign_slot (below_of dag.now prepared.now) (node_prepared prepared.now) ≡ false }
    requires consistent { is_consistent (below_of dag.now prepared.now) prepared.now.signed.unit.panorama ≡ true }
    requires kept { drops_endorsed (below_of dag.now prepared.now) (node_prepared prepared.now) ≡ false }
    requires noted { IsNoted naivety.now dag.now }
    requires all { naivety.now.count ≡ count_of dag.now }
    requires room { count_of dag.now ≤ marks.old }
    ensures naive { result ≡ has_naive_fork (below_of dag.now prepared.now) prepared.now.signed.unit.endorsed }
    ensures room { marks.new ≡ marks.old }
{
    naivety.check_consistent(dag, prepared, marks).is_some()
}
