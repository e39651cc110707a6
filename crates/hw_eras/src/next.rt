//! The configuration of the next era.

ghost use Rattle.std.specs.{Prelude.{◌≡◌, None, IfOk}, Option.{option_map}};
ghost use Rattle.hw_types.specs.{Limits.{config_fault}, Reading.{Gives, whole}};
ghost use Rattle.hw_eras.specs.Eras.{weights_at, named_by, drawn_by, if_lawful, next_config};

use hw_codec::{Reader, read_list};
use hw_types::{CodecError, Config, Digest, Leaders, MAX_VALIDATORS, OutOfMemory, WeightList};
use std::alloc::Global;

/// The configuration of the next era, where the last block of an era has this digest and this value.
///
/// Its leaders are drawn by the digest. A value names the next weights and threshold where it is just a count
/// of four bytes, that many weights and a threshold, of eight bytes each. They are taken if the configuration
/// keeps all limits with them; otherwise both stay as they are. All else stays, the height of the last block
/// too.
pub fn next_config(
    alloc: Global,
    config: &Config,
    terminal: &Digest,
    value: &[u8],
) -> Result<Config, OutOfMemory>
    requires { config_fault config.now ≡ None }
    ensures next { IfOk result (λ next. next ≡ next_config config.now terminal.now value.now) }
    ensures lawful { IfOk result (λ next. config_fault next ≡ None) }
{
    match named_by(alloc, value)? {
        Some(named) => with_named(config, terminal, named),
        None => drawn_by(config, terminal),
    }
}

/// The configuration with leaders drawn by a block and with what its value names, if it keeps all limits so.
fn with_named(config: &Config, block: &Digest, named: Named) -> Result<Config, OutOfMemory>
    ensures { IfOk result (λ next. next ≡ if_lawful (drawn_by config.now block.now) (named.weights, named.ftt)) }
{
    let next = with_weights(config, block, named.weights, named.ftt);
    match next.check() {
        Ok(()) => Ok(next),
        Err(_fault) => drawn_by(config, block),
    }
}

/// The configuration with leaders drawn by a block.
fn drawn_by(config: &Config, block: &Digest) -> Result<Config, OutOfMemory>
    ensures { IfOk result (λ next. next ≡ drawn_by config.now block.now) }
{
    let weights = config.weights.copy()?;
    Ok(with_weights(config, block, weights, config.ftt))
}

/// The configuration with leaders drawn by a block, and with these weights and this threshold.
fn with_weights(config: &Config, block: &Digest, weights: WeightList, ftt: u64) -> Config
    ensures { result ≡ record (drawn_by config.now block.now) { weights = weights; ftt = ftt } }
{
    Config {
        weights,
        ftt,
        levels: config.levels,
        min_exponent: config.min_exponent,
        max_exponent: config.max_exponent,
        leaders: Leaders::Drawn(block.0),
        max_records: config.max_records,
        max_parked: config.max_parked,
        end: config.end,
    }
}

/// The weights and the threshold that a value names.
#[derive(Drop)]
struct Named {
    weights: WeightList,
    ftt: u64,
}

/// What the value names, if it names weights and a threshold.
#[tactic(auto, unfolding(crate::specs::Eras::named_by))]
fn named_by(alloc: Global, value: &[u8]) -> Result<Option<Named>, OutOfMemory>
    ensures { IfOk result (λ named. option_map (λ n. (n.weights, n.ftt)) named ≡ named_by value.now) }
{
    match read_value(alloc, value) {
        Ok(named) => Ok(Some(named)),
        Err(error) => match error {
            CodecError::OutOfMemory => Err(OutOfMemory),
            _ => Ok(None),
        },
    }
}

/// Reads a value all of whose bytes say what it names.
#[tactic(auto, unfolding(hw_types::specs::Reading::whole))]
fn read_value(alloc: Global, value: &[u8]) -> Result<Named, CodecError>
    ensures { Gives (λ named. (named.weights, named.ftt)) result (whole weights_at value.now) }
{
    let mut reader = Reader::new(value);
    let named = read_named(alloc, &mut reader)?;
    reader.end()?;
    Ok(named)
}

/// Reads how many weights there are, each of them, and a threshold.
fn read_named(alloc: Global, reader: &mut Reader<'_>) -> Result<Named, CodecError>
    ensures { Gives (λ named. ((named.weights, named.ftt), reader.new)) result (weights_at reader.old) }
{
    let weights = read_list(alloc, MAX_VALIDATORS as u32, reader)?;
    let ftt = reader.u64()?;
    Ok(Named { weights, ftt })
}
