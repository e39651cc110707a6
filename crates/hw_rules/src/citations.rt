//! The rules of what a unit cites.

ghost use Rattle.std.specs.Prelude.{◌≡◌, ◌==◌, ◌+◌, ◌<◌, length, not, nat_lt, false};
ghost use Rattle.hw_types.specs.{Graph.{is_consistent}, Tests.{first_broken}};
ghost use Rattle.hw_dag.specs.declared.numbers.View.TheVariants as view;
ghost use Rattle.hw_dag.specs.Dag.{unit_at, creator_of, view_at, count_of};
ghost use Rattle.hw_dag.specs.Admission.{IsGraph, node_prepared};
ghost use Rattle.hw_dag.specs.Tables.{number_of};
ghost use Rattle.hw_rules.specs.{Judged.{IsCase, EachNamed, below_of, citation_tests, has_foreign_slot, skips_number, goes_back}, Verdict.{verdict_of}};

use crate::lookups::{cited_beside, newest, previous, wire_unit};
use hw_dag::{Dag, Prepared, Slot, consistent};
use hw_types::Rule;

/// The first rule of what a unit cites that it breaks.
pub fn citations(dag: &Dag, prepared: &Prepared) -> Result<(), Rule>
    requires { IsCase dag.now prepared.now }
    ensures { result ≡ verdict_of (first_broken (citation_tests (below_of dag.now prepared.now) (node_prepared prepared.now))) }
{
    if has_foreign_slot(dag, prepared) {
        return Err(Rule::SlotCreator);
    }
    if skips_number(dag, prepared) {
        return Err(Rule::SequenceNumber);
    }
    if is_inconsistent(dag, prepared) {
        return Err(Rule::Inconsistent);
    }
    if goes_back(dag, prepared) {
        return Err(Rule::TimeGoesBack);
    }
    Ok(())
}

/// Whether a slot names a unit of another validator.
fn has_foreign_slot(dag: &Dag, prepared: &Prepared) -> bool
    requires { IsCase dag.now prepared.now }
    ensures { result ≡ has_foreign_slot (below_of dag.now prepared.now) (node_prepared prepared.now) }
{
    let known = own_slots(dag);
    for validator in 0..dag.validators() {
        if let Some(no) = cited_beside(known, prepared, validator) {
            if wire_unit(dag, no).creator != validator {
                return true;
            }
        }
    }
    false
}

/// Slots that name units of their validators only: what the newest unit observes.
fn own_slots(dag: &Dag) -> &[Slot]
    requires { IsGraph dag.now }
    ensures { EachNamed result.now (λ validator no. creator_of (unit_at dag.now no.0) ≡ validator) }
{
    match newest(dag) {
        Some(unit) => unit.panorama().views(),
        None => &[],
    }
}

/// Whether its number isn't the next one on its lane.
fn skips_number(dag: &Dag, prepared: &Prepared) -> bool
    requires { IsCase dag.now prepared.now }
    ensures { result ≡ skips_number (below_of dag.now prepared.now) (node_prepared prepared.now) }
{
    match previous(prepared) {
        Some(no) => !is_next(prepared.signed().unit.seq, wire_unit(dag, no).seq),
        None => false,
    }
}

/// Whether its panorama isn't consistent.
fn is_inconsistent(dag: &Dag, prepared: &Prepared) -> bool
    requires case { IsCase dag.now prepared.now }
    requires slots { has_foreign_slot (below_of dag.now prepared.now) (node_prepared prepared.now) ≡ false }
    ensures { result ≡ not (is_consistent (below_of dag.now prepared.now) prepared.now.signed.unit.panorama) }
{
    !consistent(dag, prepared.panorama())
}

/// Whether it is one more than the other.
fn is_next(number: u64, before: u64) -> bool
    ensures { result ≡ (number == before + 1) }
{
    before < number && number - before == 1
}

/// Whether a cited unit is later.
fn goes_back(dag: &Dag, prepared: &Prepared) -> bool
    requires { IsCase dag.now prepared.now }
    ensures { result ≡ goes_back (below_of dag.now prepared.now) (node_prepared prepared.now) }
{
    let time = prepared.signed().unit.time;
    let known = timely_slots(dag, time);
    for validator in 0..dag.validators() {
        if let Some(no) = cited_beside(known, prepared, validator) {
            if time < wire_unit(dag, no).time {
                return true;
            }
        }
    }
    false
}

/// Slots that name no unit later than this time: what the newest unit observes, where that one isn't later,
/// since it observes no unit later than itself.
fn timely_slots(dag: &Dag, time: u64) -> &[Slot]
    requires { IsGraph dag.now }
    ensures { EachNamed result.now (λ validator no. nat_lt time (unit_at dag.now no.0).signed.unit.time ≡ false) }
{
    match newest(dag) {
        Some(unit) if unit.signed().unit.time <= time => unit.panorama().views(),
        _ => &[],
    }
}
