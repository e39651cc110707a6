//! The validators that equivocated, each with the two units that show it.

ghost use Rattle.std.specs.Prelude.{◌≡◌, ◌+◌, ◌<◌, ◌≤◌, ◌^◌, List, length, sum, take, slice_index, IfOk, OnOk};
ghost use Rattle.hw_types.specs.{Graph.{Node}, Spelling.{signed_bytes}};
ghost use Rattle.hw_audit.specs.{Held.{HeldUnit}, Twins.{AreNoted, AreShown}, Shown.{shown_as, ShowsFirst}};

use crate::held::Held;
use crate::twins::{Equivocations, Pair};
use hw_codec::encode_unit;
use hw_types::{Bytes, Culprit, CulpritList, OutOfMemory};
use std::alloc::Global;

/// The culprits in rising order, and what they weigh together.
#[derive(Drop)]
pub struct Blamed {
    pub culprits: CulpritList,
    pub weight: u64,
}

/// The signed unit as it is spelled in a vertex.
fn spelling(alloc: Global, unit: &Held<'_>) -> Result<Bytes, OutOfMemory>
    ensures { IfOk result (λ bytes. bytes ≡ signed_bytes unit.now.signed) }
{
    let mut bytes = encode_unit(alloc, unit.unit())?;
    bytes.extend(&unit.signed().signature.0)?;
    Ok(bytes)
}

/// The validator with its pair.
fn shown(alloc: Global, validator: u32, pair: &Pair<'_>) -> Result<Culprit, OutOfMemory>
    ensures { IfOk result (λ culprit. culprit ≡ shown_as validator pair.now) }
{
    let first = spelling(alloc, pair.first())?;
    let second = spelling(alloc, pair.second())?;
    Ok(Culprit {
        validator,
        first,
        second,
    })
}

/// Adds the validator, where it equivocated.
fn blame(
    alloc: Global,
    equivocations: &Equivocations<'_>,
    weights: &[u64],
    validator: u32,
    blamed: &mut Blamed,
) -> Result<(), OutOfMemory>
    requires known { validator < length weights.now }
    requires validators { length equivocations.now.least.items ≡ length weights.now }
    requires fits { sum weights.now < 2 ^ 64 }
    requires few { blamed.old.weight ≤ sum (take validator weights.now) }
    ensures shown { OnOk result ((units : List HeldUnit) (nodes : List Node) → AreNoted equivocations.now.twins.entries equivocations.now.least.items units → AreShown units nodes
        → ShowsFirst units nodes weights.now validator blamed.old → ShowsFirst units nodes weights.now (validator + 1) blamed.new) }
    ensures few { OnOk result (blamed.new.weight ≤ sum (take (validator + 1) weights.now)) }
{
    if let Some(pair) = equivocations.pair_of(validator) {
        blamed.culprits.push(shown(alloc, validator, &pair)?)?;
        blamed.weight += weights[validator as usize];
    }
    Ok(())
}

/// All who equivocated among the units that were noted.
pub fn culprits(
    alloc: Global,
    equivocations: &Equivocations<'_>,
    weights: &[u64],
) -> Result<Blamed, OutOfMemory>
    requires validators { length equivocations.now.least.items ≡ length weights.now }
    requires many { length weights.now < 2 ^ 32 }
    requires fits { sum weights.now < 2 ^ 64 }
    ensures { IfOk result (λ blamed. (units : List HeldUnit) (nodes : List Node) → AreNoted equivocations.now.twins.entries equivocations.now.least.items units → AreShown units nodes
        → ShowsFirst units nodes weights.now (length weights.now) blamed) }
{
    let mut blamed = Blamed {
        culprits: CulpritList::new(alloc),
        weight: 0,
    };
    for validator in 0..weights.len() as u32 {
        blame(alloc, equivocations, weights, validator, &mut blamed)?;
    }
    Ok(blamed)
}
