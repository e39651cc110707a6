//! Two settled units of one creator and one sequence number.

ghost use Rattle.std.specs.Prelude.{◌≡◌, ℕ, ◌+◌, ◌<◌, ◌↔◌, None, IsTrue, IfOk, IfSome, OnOk, min};
ghost use Rattle.hw_types.specs.{Culprits.{pair_of}, Graph.{digest_lt}};
ghost use Rattle.hw_dag.specs.Dag.{graph, count_of, unit_at};
ghost use Rattle.hw_safety.specs.Pairs.{lower_of};
ghost use Rattle.hw_needs.specs.Forks.{StandsAt, AreNoted, IsLeastWithTwo, IsAbove, IsLower, IsLeastAbove, AreLeastTwo, AreNamed, nodes_at};

use hw_dag::{Dag, UnitNo};
use hw_types::{Digest, OutOfMemory};
use std::alloc::Global;
use std::collections::BTreeSet;

/// The sequence numbers of some of a creator's units, and the least one that two of them have. Peers choose the
/// numbers, so the set is an ordered one: what it costs doesn't depend on them.
#[derive(Drop)]
struct Noted {
    numbers: BTreeSet<u64>,
    least: Option<u64>,
}

/// Notes the sequence number of the unit, where it is one of the creator's.
fn note(noted: &mut Noted, dag: &Dag, creator: u32, no: UnitNo) -> Result<(), OutOfMemory>
    requires { no.0 < count_of dag.now }
    ensures { OnOk result (AreNoted dag.now no.0 creator noted.old.numbers.keys noted.old.least → AreNoted dag.now (no.0 + 1) creator noted.new.numbers.keys noted.new.least) }
{
    let unit = &dag.unit(no).signed().unit;
    if unit.creator != creator {
        return Ok(());
    }
    if noted.numbers.insert(unit.seq)? {
        return Ok(());
    }
    noted.least = Some(lesser(noted.least, unit.seq));
    Ok(())
}

fn lesser(known: Option<u64>, seq: u64) -> u64
    ensures { result ≡ lower_of known seq }
{
    match known {
        None => seq,
        Some(known) => known.min(seq),
    }
}

/// The least sequence number that two of the creator's units have, None where no two have one.
fn least_with_two(alloc: Global, dag: &Dag, creator: u32) -> Result<Option<u64>, OutOfMemory>
    ensures { IfOk result (IsLeastWithTwo dag.now (count_of dag.now) creator) }
{
    let mut noted = Noted {
        numbers: BTreeSet::new(alloc),
        least: None,
    };
    for no in 0..dag.count() {
        note(&mut noted, dag, creator, UnitNo(no))?;
    }
    Ok(noted.least)
}

/// Whether the unit has this creator and this sequence number.
fn stands_at(dag: &Dag, creator: u32, seq: u64, no: UnitNo) -> bool
    requires { no.0 < count_of dag.now }
    ensures { IsTrue result ↔ StandsAt dag.now (count_of dag.now) creator seq no.0 }
{
    let unit = &dag.unit(no).signed().unit;
    unit.creator == creator && unit.seq == seq
}

/// Whether the digest is above this one, where there is one.
fn is_above(bound: Option<Digest>, digest: &Digest) -> bool
    ensures { IsTrue result ↔ IsAbove bound digest.now }
{
    match bound {
        None => true,
        Some(bound) => bound.comes_before(digest),
    }
}

/// Of the units with this creator and this sequence number, the unit of the least digest. Where there is a
/// bound, only those whose digests are above it are looked at.
fn least_above(dag: &Dag, creator: u32, seq: u64, bound: Option<Digest>) -> Option<UnitNo>
    ensures { IsLeastAbove dag.now (count_of dag.now) creator seq bound result }
{
    let mut least = None;
    for number in 0..dag.count() {
        least = with_unit(dag, creator, seq, bound, least, UnitNo(number));
    }
    least
}

/// The unit of the least digest among those that were looked at and this one, where it is asked for.
fn with_unit(
    dag: &Dag,
    creator: u32,
    seq: u64,
    bound: Option<Digest>,
    least: Option<UnitNo>,
    no: UnitNo,
) -> Option<UnitNo>
    requires known { no.0 < count_of dag.now }
    requires least { IsLeastAbove dag.now no.0 creator seq bound least }
    ensures { IsLeastAbove dag.now (no.0 + 1) creator seq bound result }
{
    dag.recall_graph();
    if !stands_at(dag, creator, seq, no) {
        return least;
    }
    if !is_above(bound, dag.unit(no).digest()) {
        return least;
    }
    Some(lower(dag, least, no))
}

/// The unit of the lesser digest, or the one that there is.
fn lower(dag: &Dag, known: Option<UnitNo>, no: UnitNo) -> UnitNo
    requires known { IfSome known (λ k. k.0 < count_of dag.now) }
    requires no { no.0 < count_of dag.now }
    ensures { IsLower dag.now known no result }
{
    match known {
        None => no,
        Some(known) => {
            if dag.unit(known).digest().comes_before(dag.unit(no).digest()) {
                known
            } else {
                no
            }
        }
    }
}

/// The two units of the least digests with this creator and this sequence number, the lesser one first. None
/// where there are no two.
fn least_two(dag: &Dag, creator: u32, seq: u64) -> Option<(UnitNo, UnitNo)>
    ensures { AreLeastTwo dag.now creator seq result }
{
    let first = least_above(dag, creator, seq, None)?;
    let second = least_above(dag, creator, seq, Some(*dag.unit(first).digest()))?;
    Some((first, second))
}

/// The two settled units that show that the creator equivocated. At the least sequence number that two of its
/// units have, these are the two of the least digests, the lesser one first. None where no two of its units have
/// one number.
pub fn pair_of(
    alloc: Global,
    dag: &Dag,
    creator: u32,
) -> Result<Option<(UnitNo, UnitNo)>, OutOfMemory>
    requires named { AreNamed (graph dag.now) }
    ensures pair { IfOk result (λ pair. nodes_at dag.now pair ≡ pair_of (graph dag.now) creator) }
    ensures known { IfOk result (λ pair. IfSome pair (λ p. (p.0.0 < count_of dag.now) × (p.1.0 < count_of dag.now))) }
{
    dag.recall_graph();
    match least_with_two(alloc, dag, creator)? {
        Some(seq) => Ok(least_two(dag, creator, seq)),
        None => Ok(None),
    }
}
