//! Who endorses each unit, and what they weigh together.

ghost use Rattle.std.specs.Prelude.{◌≡◌, ℕ, ◌+◌, ◌*◌, ◌^◌, ◌<◌, ◌&&◌, ◌||◌, ◌==◌, not, false, nat_lt, IfOk, OnOk, OnErr, if◌then◌else◌};
ghost use Rattle.hw_types.specs.{Graph.{digest_eq}, declared.unit.Digest.{Digest as Named}};
ghost use Rattle.hw_endorse.specs.Kept.{is_one, who_in, weight_in, is_listed, AreListed};

use crate::who::Who;
use hw_types::{Digest, OutOfMemory};
use std::alloc::Global;
use std::collections::{BTreeMap, BTreeSet};

/// The endorsers of one unit, in the order in which they were told, and what they weigh together.
#[derive(Drop)]
pub struct Endorsers {
    who: Who,
    weight: u64,
}

/// The endorsers of each unit.
pub type Tallies = BTreeMap<Digest, Endorsers>;

/// Whether a validator's endorsement of a unit is known.
pub fn has(tallies: &Tallies, unit: &Digest, endorser: u32) -> bool
    ensures { result ≡ is_one (who_in tallies.now.entries unit.now) endorser }
{
    match tallies.get(unit) {
        None => false,
        Some(endorsers) => endorsers.who.has(endorser),
    }
}

/// Puts an endorser to those of a unit, and lists the unit where they weigh more than half of the total now. Says
/// whether the endorser is new. Where there is no memory, each unit has the endorsers that it had.
pub fn put(
    tallies: &mut Tallies,
    endorsed: &mut BTreeSet<Digest>,
    alloc: Global,
    total: u64,
    unit: &Digest,
    endorser: u32,
    weight: u64,
) -> Result<bool, OutOfMemory>
    requires fits { weight_in tallies.old.entries unit.now + weight < 2 ^ 63 }
    requires listed { AreListed total tallies.old.entries endorsed.old.keys }
    ensures new { IfOk result (λ new. new ≡ not (is_one (who_in tallies.old.entries unit.now) endorser)) }
    ensures told { OnOk result ((d : Named) (v : ℕ) → is_one (who_in tallies.new.entries d) v ≡ is_one (who_in tallies.old.entries d) v || (digest_eq unit.now d && (endorser == v))) }
    ensures weighed { IfOk result (λ new. (d : Named) → weight_in tallies.new.entries d ≡ weight_in tallies.old.entries d + (if digest_eq unit.now d then (if new then weight else 0) else 0)) }
    ensures listed { AreListed total tallies.new.entries endorsed.new.keys }
    ensures untold { OnErr result ((d : Named) (v : ℕ) → is_one (who_in tallies.new.entries d) v ≡ is_one (who_in tallies.old.entries d) v) }
    ensures unweighed { OnErr result ((d : Named) → weight_in tallies.new.entries d ≡ weight_in tallies.old.entries d) }
{
    let none = Endorsers {
        who: Who::new(alloc),
        weight: 0,
    };
    let endorsers = tallies.entry(*unit)?.or_insert(none);
    put_last(endorsers, endorsed, total, unit, endorser, weight)
}

/// Puts an endorser last among those of a unit, as `put` does.
fn put_last(
    endorsers: &mut Endorsers,
    endorsed: &mut BTreeSet<Digest>,
    total: u64,
    unit: &Digest,
    endorser: u32,
    weight: u64,
) -> Result<bool, OutOfMemory>
    requires fits { endorsers.old.weight + weight < 2 ^ 63 }
    requires listed { is_listed endorsed.old.keys unit.now ≡ nat_lt total (2 * endorsers.old.weight) }
    ensures new { IfOk result (λ new. new ≡ not (is_one endorsers.old.who.items endorser)) }
    ensures told { OnOk result ((v : ℕ) → is_one endorsers.new.who.items v ≡ is_one endorsers.old.who.items v || (endorser == v)) }
    ensures weighed { IfOk result (λ new. endorsers.new.weight ≡ endorsers.old.weight + (if new then weight else 0)) }
    ensures listed { is_listed endorsed.new.keys unit.now ≡ nat_lt total (2 * endorsers.new.weight) }
    ensures others { (d : Named) → digest_eq unit.now d ≡ false → is_listed endorsed.new.keys d ≡ is_listed endorsed.old.keys d }
    ensures err { OnErr result ((endorsers.new.who.items ≡ endorsers.old.who.items) × (endorsers.new.weight ≡ endorsers.old.weight)) }
{
    if endorsers.who.has(endorser) {
        return Ok(false);
    }
    endorsers.who.reserve()?;
    let sum = endorsers.weight + weight;
    if 2 * sum > total {
        endorsed.insert(*unit)?;
    }
    endorsers.who.push_reserved(endorser);
    endorsers.weight = sum;
    Ok(true)
}
