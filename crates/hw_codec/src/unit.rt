//! Units as bytes.

ghost use Rattle.std.specs.Prelude.{◌≡◌, ◌≤◌, ◌++◌, ◌↔◌, length, IsTrue, IfOk, OnOk, IfSome};
ghost use Rattle.hw_types.specs.{Reading.{Gives, counted_at, obs_at, time_at, value_at, unit_at}, Spelling.{obs_bytes, value_bytes, unit_bytes, Fits}};
ghost use Rattle.std.proofs.Common.{lit<};

use crate::field::{Field, list_len, put_list, put_tagged, read_list};
use crate::reader::Reader;
use hw_types::{
    Bytes, CodecError, END_OF_TIME, Items, MAX_LIST, MAX_VALIDATORS, MAX_VALUE, Obs, ObsList,
    OutOfMemory, WireUnit,
};
use std::alloc::Global;

/// Whether the unit keeps the limits of its format: 1,024 observations, a value of 4,096 bytes, 256
/// endorsed digests, and a time below 2^63.
pub fn fits(unit: &WireUnit) -> bool
    ensures { IsTrue result ↔ Fits unit.now }
{
    unit.time < END_OF_TIME
        && unit.panorama.len() <= MAX_VALIDATORS
        && has_short_value(&unit.value)
        && unit.endorsed.len() <= MAX_LIST
}

/// Whether the value, if there is one, isn't too long.
fn has_short_value(value: &Option<Bytes>) -> bool
    ensures { IsTrue result ↔ IfSome value.now (λ value. length value ≤ 4096) }
{
    match value {
        None => true,
        Some(value) => value.len() <= MAX_VALUE,
    }
}

#[tactic(auto, unfolding(hw_types::specs::Reading::unit_at))]
pub(crate) fn read_unit(alloc: Global, reader: &mut Reader<'_>) -> Result<WireUnit, CodecError>
    ensures { Gives (λ unit. (unit, reader.new)) result (unit_at reader.old) }
{
    let instance = reader.digest()?;
    let creator = reader.u32()?;
    let seq = reader.u64()?;
    let time = read_time(reader)?;
    let exponent = reader.u8()?;
    let panorama = read_panorama(alloc, reader)?;
    let value = read_value(alloc, reader)?;
    let endorsed = read_list(alloc, MAX_LIST as u32, reader)?;
    Ok(WireUnit {
        instance,
        creator,
        seq,
        time,
        exponent,
        panorama,
        value,
        endorsed,
    })
}

/// Reads the observations, which copies of the unit share.
fn read_panorama(alloc: Global, reader: &mut Reader<'_>) -> Result<ObsList, CodecError>
    ensures { Gives (λ list. (list, reader.new)) result (counted_at obs_at 1024 reader.old) }
{
    let list: Items<Obs> = read_list(alloc, MAX_VALIDATORS as u32, reader)?;
    Ok(ObsList::from_vec(list.into_vec()).shared()?)
}

pub(crate) fn read_time(reader: &mut Reader<'_>) -> Result<u64, CodecError>
    ensures { Gives (λ time. (time, reader.new)) result (time_at reader.old) }
{
    let place = reader.place();
    let time = reader.u64()?;
    if time >= END_OF_TIME {
        return Err(CodecError::OutOfRange(place));
    }
    Ok(time)
}

#[tactic(auto, unfolding(hw_types::specs::Reading::value_at))]
pub(crate) fn read_value(
    alloc: Global,
    reader: &mut Reader<'_>,
) -> Result<Option<Bytes>, CodecError>
    ensures { Gives (λ value. (value, reader.new)) result (value_at reader.old) }
{
    let place = reader.place();
    match reader.u8()? {
        0 => Ok(None),
        1 => {
            let count = reader.count(MAX_VALUE as u32)?;
            let value = reader.bytes(count as usize)?;
            Ok(Some(copy_of(alloc, value)?))
        }
        _ => Err(CodecError::BadTag(place)),
    }
}

fn copy_of(alloc: Global, bytes: &[u8]) -> Result<Bytes, OutOfMemory>
    ensures { IfOk result (λ copy. copy ≡ bytes.now) }
{
    Ok(Bytes::from_vec(Vec::from_slice(alloc, bytes)?))
}

/// How many bytes a unit has.
pub(crate) fn unit_len(unit: &WireUnit) -> usize {
    value_len(&unit.value)
        .saturating_add(53)
        .saturating_add(list_len(unit.panorama.as_slice()))
        .saturating_add(list_len(unit.endorsed.as_slice()))
}

/// How many bytes a value has with its flag.
pub(crate) fn value_len(value: &Option<Bytes>) -> usize {
    match value {
        None => 1,
        Some(value) => value.len().saturating_add(5),
    }
}

/// Writes a unit behind what stands in `out`.
pub(crate) fn put_unit(unit: &WireUnit, out: &mut Vec<u8>) -> Result<(), OutOfMemory>
    requires { Fits unit.now }
    ensures { OnOk result (out.new.items ≡ out.old.items ++ unit_bytes unit.now) }
{
    unit.instance.put(out)?;
    unit.creator.put(out)?;
    unit.seq.put(out)?;
    unit.time.put(out)?;
    out.push(unit.exponent)?;
    put_list(unit.panorama.as_slice(), out)?;
    put_value(&unit.value, out)?;
    put_list(unit.endorsed.as_slice(), out)
}

pub(crate) fn put_value(value: &Option<Bytes>, out: &mut Vec<u8>) -> Result<(), OutOfMemory>
    requires { IfSome value.now (λ value. length value ≤ 4096) }
    ensures { OnOk result (out.new.items ≡ out.old.items ++ value_bytes value.now) }
{
    match value {
        None => out.push(0)?,
        Some(value) => {
            out.push(1)?;
            (value.len() as u32).put(out)?;
            out.extend_from_slice(value.as_slice())?;
        }
    }
    Ok(())
}

impl Field for Obs {
    ghost at = { obs_at };

    ghost spelling = { obs_bytes };

    ghost LEAST = { 1 };

    ghost has_bytes = { lit< tt };

    const LEAST: usize = 1;

    #[tactic(auto, unfolding(hw_types::specs::Reading::obs_at))]
    fn read(reader: &mut Reader<'_>) -> Result<Obs, CodecError> {
        let place = reader.place();
        match reader.u8()? {
            0 => Ok(Obs::Absent),
            1 => Ok(Obs::Correct(reader.digest()?)),
            2 => Ok(Obs::Faulty),
            _ => Err(CodecError::BadTag(place)),
        }
    }

    fn len(&self) -> usize {
        match self {
            Obs::Correct(_) => 33,
            Obs::Absent | Obs::Faulty => 1,
        }
    }

    fn put(&self, out: &mut Vec<u8>) -> Result<(), OutOfMemory> {
        match self {
            Obs::Absent => Ok(out.push(0)?),
            Obs::Correct(digest) => put_tagged(1, digest, out),
            Obs::Faulty => Ok(out.push(2)?),
        }
    }
}
