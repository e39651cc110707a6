//! The units of a round.

ghost use Rattle.std.specs.{Prelude.{◌≡◌, ◌+◌, ◌*◌, ◌^◌, ◌<◌, ◌≤◌, ◌==◌, not, ◌++◌, List, length, map, filter, fold, IfOk, OnOk}, Option.{option_map}};
ghost use Rattle.hw_types.specs.{declared.config.Config.{Config as Configuration}, Graph.{Node}, Real.{setting_of}, Rounds.{leader_of}, Spelling.{u32_bytes}};
ghost use Rattle.hw_honest.specs.{Cluster.{signed}, Generated.{units_of_round}};
ghost use Rattle.hw_cluster.specs.{Lanes.{highest, unit_over, with_unit}, Made.{lanes_of, made_over, vertices_of, AreOurs, AreBelow}, Nodes.{AllFit}};

use crate::lanes::Lanes;
use crate::named::NamedVertex;
use crate::names::digests_of;
use hw_types::{Bytes, Digest, OutOfMemory, WireUnit};
use std::alloc::Global;

/// How many milliseconds a round lasts.
pub const ROUND: u64 = 16;

/// The units of a round, in the order in which they are made.
///
/// The leader makes a block at the round's beginning, with the round's number as its value. The others make a unit 1
/// millisecond later, over the units up to that block. All make one 10 milliseconds after the beginning, over the
/// units up to those.
pub fn make_round(
    lanes: &mut Lanes,
    leader: u32,
    round: u32,
) -> Result<Vec<NamedVertex>, OutOfMemory>
    requires many { length lanes.old.last ≤ 1024 }
    requires low { highest lanes.old.last < 2 ^ 62 }
    requires leader { leader < length lanes.old.last }
    ensures made { IfOk result (λ units. (config : Configuration) (made : List Node) → lanes.old ≡ lanes_of config made → leader ≡ leader_of config (16 * round)
        → (units.items ≡ vertices_of (units_of_round (setting_of config) made round)) × (lanes.new ≡ lanes_of config (made ++ units_of_round (setting_of config) made round))) }
    ensures fit { IfOk result (λ units. AllFit units.items) }
    ensures count { IfOk result (λ units. length units.items ≡ 2 * length lanes.old.last) }
    ensures low { OnOk result (highest lanes.new.last ≤ highest lanes.old.last + 3) }
    ensures many { OnOk result (length lanes.new.last ≡ length lanes.old.last) }
{
    let time = ROUND * u64::from(round);
    let everybody = lanes.validators()?;
    let others = others(lanes.allocator(), everybody.as_slice(), leader)?;
    let mut units = Vec::new(lanes.allocator());
    make_units(lanes, &mut units, &[leader], time, Some(round))?;
    make_units(lanes, &mut units, others.as_slice(), time + 1, None)?;
    make_units(lanes, &mut units, everybody.as_slice(), time + 10, None)?;
    Ok(units)
}

/// All of these validators but the leader.
fn others(alloc: Global, validators: &[u32], leader: u32) -> Result<Vec<u32>, OutOfMemory>
    ensures { IfOk result (λ others. others.items ≡ filter (λ v. not (v == leader)) validators.now) }
{
    let mut others = Vec::with_capacity(alloc, validators.len())?;
    for validator in validators {
        if *validator != leader {
            others.push(*validator)?;
        }
    }
    Ok(others)
}

/// Lets each of these validators make its next unit, all over the same ones, and puts the units last. A unit whose
/// value is a number is a block.
fn make_units(
    lanes: &mut Lanes,
    units: &mut Vec<NamedVertex>,
    makers: &[u32],
    time: u64,
    value: Option<u32>,
) -> Result<(), OutOfMemory>
    requires many { length lanes.old.last ≤ 1024 }
    requires low { highest lanes.old.last < 2 ^ 63 }
    requires makers { AreBelow (length lanes.old.last) makers.now }
    requires time { time < 2 ^ 63 }
    ensures made { OnOk result ((config : Configuration) (made : List Node) → lanes.old ≡ lanes_of config made
        → (units.new.items ≡ units.old.items ++ vertices_of (made_over config made makers.now time value)) × (lanes.new ≡ lanes_of config (made ++ made_over config made makers.now time value))) }
    ensures fit { OnOk result (AllFit units.old.items → AllFit units.new.items) }
    ensures count { OnOk result (length units.new.items ≡ length units.old.items + length makers.now) }
    ensures low { OnOk result (highest lanes.new.last ≤ highest lanes.old.last + 1) }
    ensures many { OnOk result (length lanes.new.last ≡ length lanes.old.last) }
{
    let made = next_units(lanes, makers, time, value)?;
    send_all(lanes, units, made)?;
    Ok(())
}

/// The next units of these validators, all over the same ones.
fn next_units(
    lanes: &Lanes,
    makers: &[u32],
    time: u64,
    value: Option<u32>,
) -> Result<Vec<WireUnit>, OutOfMemory>
    requires { highest lanes.now.last < 2 ^ 64 }
    ensures { IfOk result (λ units. units.items ≡ map (λ v. unit_over lanes.now v time (option_map u32_bytes value)) makers.now) }
{
    let mut units = Vec::with_capacity(lanes.allocator(), makers.len())?;
    for maker in makers {
        let value = value_of(lanes.allocator(), value)?;
        units.push(lanes.next_unit(*maker, time, value)?)?;
    }
    Ok(units)
}

/// The value of a block: its number as four bytes.
fn value_of(alloc: Global, number: Option<u32>) -> Result<Option<Bytes>, OutOfMemory>
    ensures { IfOk result (λ value. value ≡ option_map u32_bytes number) }
{
    match number {
        None => Ok(None),
        Some(number) => {
            let value = Vec::from_slice(alloc, &number.to_be_bytes())?;
            Ok(Some(Bytes::from_vec(value)))
        }
    }
}

/// Takes each of these units for the last one of its creator, one after the other, and puts it last under its name.
fn send_all(
    lanes: &mut Lanes,
    sent: &mut Vec<NamedVertex>,
    units: Vec<WireUnit>,
) -> Result<(), OutOfMemory>
    requires { AreOurs (length lanes.old.last) units.items }
    ensures noted { OnOk result (lanes.new ≡ fold with_unit lanes.old units.items) }
    ensures sent { OnOk result (sent.new.items ≡ sent.old.items ++ map signed units.items) }
{
    let digests = digests_of(lanes.allocator(), units.as_slice())?;
    let mut place = 0;
    for unit in units {
        let name = Digest(digests[place]);
        lanes.note(&unit, name);
        sent.push(NamedVertex::made(unit, name))?;
        place += 1;
    }
    Ok(())
}
