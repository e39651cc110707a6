//! Configurations as bytes.

ghost use Rattle.std.specs.Prelude.{◌≡◌, ◌≤◌, ◌++◌, length, OnOk};
ghost use Rattle.hw_types.specs.Reading.{Gives, version_at, leaders_behind, end_behind, config_at};
ghost use Rattle.hw_types.specs.Spelling.{leaders_bytes, end_bytes, config_bytes, LeadersFit, ConfigFits};

use crate::field::{Field, list_len, put_list, read_list};
use crate::reader::Reader;
use hw_types::{CodecError, Config, Leaders, MAX_LEADERS, MAX_VALIDATORS, OutOfMemory};
use std::alloc::Global;

/// The version of a configuration without an end.
const ENDLESS: u8 = 1;

/// The version of a configuration with an end.
const WITH_END: u8 = 2;

#[tactic(auto, unfolding(hw_types::specs::Reading::config_at))]
pub(crate) fn read_config(alloc: Global, reader: &mut Reader<'_>) -> Result<Config, CodecError>
    ensures { Gives (λ config. (config, reader.new)) result (config_at reader.old) }
{
    let version = read_version(reader)?;
    let weights = read_list(alloc, MAX_VALIDATORS as u32, reader)?;
    let ftt = reader.u64()?;
    let levels = reader.u8()?;
    let min_exponent = reader.u8()?;
    let max_exponent = reader.u8()?;
    let place = reader.place();
    let tag = reader.u8()?;
    let leaders = read_leaders(alloc, place, tag, reader)?;
    let max_records = reader.u32()?;
    let max_parked = reader.u32()?;
    let end = read_end(version, reader)?;
    Ok(Config {
        weights,
        ftt,
        levels,
        min_exponent,
        max_exponent,
        leaders,
        max_records,
        max_parked,
        end,
    })
}

fn read_version(reader: &mut Reader<'_>) -> Result<u8, CodecError>
    ensures { Gives (λ version. (version, reader.new)) result (version_at reader.old) }
{
    let place = reader.place();
    let version = reader.u8()?;
    if version == ENDLESS || version == WITH_END {
        return Ok(version);
    }
    Err(CodecError::BadTag(place))
}

/// Reads the leaders behind their tag, which stands at this place.
fn read_leaders(
    alloc: Global,
    place: u64,
    tag: u8,
    reader: &mut Reader<'_>,
) -> Result<Leaders, CodecError>
    ensures { Gives (λ leaders. (leaders, reader.new)) result (leaders_behind place tag reader.old) }
{
    match tag {
        0 => Ok(Leaders::Table(read_list(alloc, MAX_LEADERS as u32, reader)?)),
        1 => Ok(Leaders::Drawn(reader.array()?)),
        _ => Err(CodecError::BadTag(place)),
    }
}

fn read_end(version: u8, reader: &mut Reader<'_>) -> Result<Option<u64>, CodecError>
    ensures { Gives (λ end. (end, reader.new)) result (end_behind version reader.old) }
{
    if version == WITH_END {
        return Ok(Some(reader.u64()?));
    }
    Ok(None)
}

/// How many bytes a configuration has.
pub(crate) fn config_len(config: &Config) -> usize {
    let leaders = match &config.leaders {
        Leaders::Table(entries) => list_len(entries.as_slice()),
        Leaders::Drawn(_) => 32,
    };
    let end = match config.end {
        None => 0,
        Some(_) => 8,
    };
    leaders
        .saturating_add(21)
        .saturating_add(end)
        .saturating_add(list_len(config.weights.as_slice()))
}

/// Writes a configuration behind what stands in `out`.
pub(crate) fn put_config(config: &Config, out: &mut Vec<u8>) -> Result<(), OutOfMemory>
    requires { ConfigFits config.now }
    ensures { OnOk result (out.new.items ≡ out.old.items ++ config_bytes config.now) }
{
    out.push(match config.end {
        None => ENDLESS,
        Some(_) => WITH_END,
    })?;
    put_list(config.weights.as_slice(), out)?;
    config.ftt.put(out)?;
    out.extend_from_slice(&[config.levels, config.min_exponent, config.max_exponent])?;
    put_leaders(&config.leaders, out)?;
    config.max_records.put(out)?;
    config.max_parked.put(out)?;
    put_end(config.end, out)
}

fn put_leaders(leaders: &Leaders, out: &mut Vec<u8>) -> Result<(), OutOfMemory>
    requires { LeadersFit leaders.now }
    ensures { OnOk result (out.new.items ≡ out.old.items ++ leaders_bytes leaders.now) }
{
    match leaders {
        Leaders::Table(entries) => {
            out.push(0)?;
            put_list(entries.as_slice(), out)
        }
        Leaders::Drawn(key) => {
            out.push(1)?;
            Ok(out.extend_from_slice(key)?)
        }
    }
}

fn put_end(end: Option<u64>, out: &mut Vec<u8>) -> Result<(), OutOfMemory>
    ensures { OnOk result (out.new.items ≡ out.old.items ++ end_bytes end) }
{
    match end {
        None => Ok(()),
        Some(end) => end.put(out),
    }
}
