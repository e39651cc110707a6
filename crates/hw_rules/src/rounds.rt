//! The rules of a unit's round.

ghost use Rattle.std.specs.Prelude.{◌≡◌, ◌==◌, ◌≤◌, ◌/◌, ◌^◌};
ghost use Rattle.hw_types.specs.{Rounds.{changes_lawfully}, Tests.{first_broken}};
ghost use Rattle.hw_dag.specs.Admission.{node_prepared};
ghost use Rattle.hw_rules.specs.{Judged.{IsCase, below_of, round_tests, changes_round, is_third, is_unled, repeats_time}, Verdict.{verdict_of}};

use crate::lookups::{previous, wire_unit};
use hw_dag::{Dag, Prepared};
use hw_rounds::{LeaderTable, changes_lawfully, round_id};
use hw_types::{MAX_EXPONENT, Rule};

/// The first rule of its round that a unit breaks.
pub fn rounds(leaders: &LeaderTable, dag: &Dag, prepared: &Prepared) -> Result<(), Rule>
    requires case { IsCase dag.now prepared.now }
    requires exponent { prepared.now.signed.unit.exponent ≤ MAX_EXPONENT }
    ensures { result ≡ verdict_of (first_broken (round_tests leaders.now (below_of dag.now prepared.now) (node_prepared prepared.now))) }
{
    if changes_round(dag, prepared) {
        return Err(Rule::RoundChange);
    }
    if is_third(dag, prepared) {
        return Err(Rule::ThirdInRound);
    }
    if is_unled(leaders, dag, prepared) {
        return Err(Rule::NotLeader);
    }
    Ok(())
}

/// Whether its exponent isn't that of the unit before it, and it doesn't lie in a later round of the
/// greater exponent.
fn changes_round(dag: &Dag, prepared: &Prepared) -> bool
    requires case { IsCase dag.now prepared.now }
    requires exponent { prepared.now.signed.unit.exponent ≤ MAX_EXPONENT }
    ensures { result ≡ changes_round (below_of dag.now prepared.now) (node_prepared prepared.now) }
{
    let Some(no) = previous(prepared) else {
        return false;
    };
    let unit = &prepared.signed().unit;
    let before = wire_unit(dag, no);
    !may_follow(before.time, before.exponent, unit.time, unit.exponent)
}

/// `changes_lawfully` for whatever exponent the unit before has.
pub fn may_follow(before: u64, before_exponent: u8, time: u64, exponent: u8) -> bool
    requires { exponent ≤ MAX_EXPONENT }
    ensures { result ≡ changes_lawfully before before_exponent time exponent }
{
    if before_exponent <= MAX_EXPONENT {
        return changes_lawfully(before, before_exponent, time, exponent);
    }
    // All moments lie in one round of 2^64 milliseconds or more.
    before_exponent < 64 && before >> before_exponent < time >> before_exponent
}

/// Whether the unit before the one before it is in its round.
fn is_third(dag: &Dag, prepared: &Prepared) -> bool
    requires case { IsCase dag.now prepared.now }
    requires exponent { prepared.now.signed.unit.exponent ≤ MAX_EXPONENT }
    ensures { result ≡ is_third (below_of dag.now prepared.now) (node_prepared prepared.now) }
{
    let Some(no) = previous(prepared) else {
        return false;
    };
    let Some(first) = dag.predecessor(no) else {
        return false;
    };
    let unit = &prepared.signed().unit;
    is_same_round(wire_unit(dag, first).time, unit.time, unit.exponent)
}

/// Whether two moments lie in one round.
fn is_same_round(left: u64, right: u64, exponent: u8) -> bool
    requires { exponent ≤ MAX_EXPONENT }
    ensures { result ≡ (left / 2 ^ exponent == right / 2 ^ exponent) }
{
    left >> exponent == right >> exponent
}

/// Whether it is a block and isn't made by its round's leader at the round's beginning, or isn't the first
/// that its creator made then.
fn is_unled(leaders: &LeaderTable, dag: &Dag, prepared: &Prepared) -> bool
    requires case { IsCase dag.now prepared.now }
    requires exponent { prepared.now.signed.unit.exponent ≤ MAX_EXPONENT }
    ensures { result ≡ is_unled leaders.now (below_of dag.now prepared.now) (node_prepared prepared.now) }
{
    let unit = &prepared.signed().unit;
    let round = round_id(unit.time, unit.exponent);
    unit.value.is_some()
        && (unit.time != round
            || unit.creator != leaders.leader(round)
            || repeats_time(dag, prepared))
}

/// Whether the unit before it has its time.
fn repeats_time(dag: &Dag, prepared: &Prepared) -> bool
    requires { IsCase dag.now prepared.now }
    ensures { result ≡ repeats_time (below_of dag.now prepared.now) (node_prepared prepared.now) }
{
    match previous(prepared) {
        Some(no) => wire_unit(dag, no).time == prepared.signed().unit.time,
        None => false,
    }
}
