//! A configuration from its fields.

ghost use Rattle.std.specs.Prelude.{◌≡◌, IfOk};
ghost use Rattle.hw_c.specs.Settings.{leaders_with, config_with, end_with, IsConfig};

use crate::codes::Fault;
use hw_codec::encode_config;
use hw_types::{
    Bytes, Config, IndexList, Leaders, MAX_LEADERS, MAX_VALIDATORS, OutOfMemory, WeightList,
};
use std::alloc::Global;

/// The fields of a configuration that are no list. Where `is_drawn` isn't 0, the key draws the leaders; else a table
/// names them. Where `has_end` isn't 0, there is a last block, of the height `end`.
#[repr(C)]
#[derive(Clone, Copy)]
pub struct Settings {
    pub ftt: u64,
    pub end: u64,
    pub max_records: u32,
    pub max_parked: u32,
    pub levels: u8,
    pub min_exponent: u8,
    pub max_exponent: u8,
    pub is_drawn: u8,
    pub has_end: u8,
    pub key: [u8; 32],
}

fn leaders_with(alloc: Global, settings: &Settings, table: &[u32]) -> Result<Leaders, OutOfMemory>
    ensures { IfOk result (λ leaders. leaders ≡ leaders_with settings.now table.now) }
{
    if settings.is_drawn != 0 {
        let key = settings.key;
        return Ok(Leaders::Drawn(key));
    }
    let mut entries = IndexList::new(alloc);
    entries.extend(table)?;
    Ok(Leaders::Table(entries))
}

fn end_with(settings: &Settings) -> Option<u64>
    ensures { result ≡ end_with settings.now }
{
    if settings.has_end != 0 {
        Some(settings.end)
    } else {
        None
    }
}

fn config_with(
    alloc: Global,
    settings: &Settings,
    weights: &[u64],
    table: &[u32],
) -> Result<Config, OutOfMemory>
    ensures { IfOk result (λ config. config ≡ config_with settings.now weights.now table.now) }
{
    let leaders = leaders_with(alloc, settings, table)?;
    let mut listed = WeightList::new(alloc);
    listed.extend(weights)?;
    Ok(Config {
        weights: listed,
        ftt: settings.ftt,
        levels: settings.levels,
        min_exponent: settings.min_exponent,
        max_exponent: settings.max_exponent,
        leaders,
        max_records: settings.max_records,
        max_parked: settings.max_parked,
        end: end_with(settings),
    })
}

/// Spells the configuration with these fields as bytes. It keeps all limits, or the first that it breaks is the fault.
pub fn spelled(
    alloc: Global,
    settings: &Settings,
    weights: &[u64],
    table: &[u32],
) -> Result<Bytes, Fault>
    ensures { IsConfig settings.now weights.now table.now result }
{
    if weights.len() > MAX_VALIDATORS || table.len() > MAX_LEADERS {
        return Err(Fault::TooLong);
    }
    let config = config_with(alloc, settings, weights, table)?;
    match config.check() {
        Ok(()) => Ok(encode_config(alloc, &config)?),
        Err(fault) => Err(Fault::Config(fault)),
    }
}
