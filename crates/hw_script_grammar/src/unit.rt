//! Lines that define a unit.

ghost use Rattle.std.specs.Prelude.{◌≡◌, ◌<◌, ◌≤◌, ◌^◌, length, codes, None, IfOk, IfSome};
ghost use Rattle.hw_types.specs.{Limits.{config_fault}, Spelling.{Fits, instance_of, digest_of}, Real.{setting_of}};
ghost use Rattle.hw_script_grammar.specs.{Words.{optional, number}, Names.{NamedFits}, Units.{new_name, unit_numbers, value_text, unit_value, unit_behind, named_unit, unit_line}, Answers.{Gives}};

use crate::citation::{citations, panorama_of, unit_number};
use crate::digests::unit_endorsed;
use crate::fault::Fault;
use crate::named::{Named, unsigned};
use crate::names::Names;
use crate::wording::{is_name, is_value};
use crate::words::Words;
use hw_codec::digest_of;
use hw_types::{Bytes, Config, Digest, END_OF_TIME, OutOfMemory, Vertex, WireUnit};
use std::alloc::Global;

/// The numbers in a unit line.
#[derive(Clone, Copy, Debug, PartialEq, Eq)]
pub(crate) struct UnitNumbers {
    creator: u32,
    time: u64,
    exponent: u8,
    /// The sequence number. None where the line has none: it then follows from the citations.
    seq: Option<u64>,
}

/// Reads the line of a unit, after its first word. Parts in brackets may be left out, and there is one citation `C` for
/// each validator: `NAME by V at T exp E [seq N] cites C.. [block TEXT] [endorsed NAME..]`.
#[tactic(auto, unfolding(crate::specs::Units::unit_line))]
pub(crate) fn unit_line(
    alloc: Global,
    config: &Config,
    instance: &Digest,
    names: &Names,
    words: &mut Words<'_>,
) -> Result<Named, Fault>
    requires lawful { config_fault config.now ≡ None }
    requires instance { instance.now ≡ instance_of config.now }
    ensures named { Gives (λ named. named) result (unit_line (setting_of config.now) names.now words.old) }
    ensures fits { IfOk result NamedFits }
{
    let name = new_name(alloc, names, words)?;
    let unit = unit_behind(alloc, config, instance, names, words)?;
    named_unit(alloc, names, name, unit)
}

/// Reads a name that isn't taken.
#[tactic(auto, unfolding(crate::specs::Units::new_name))]
pub(crate) fn new_name(alloc: Global, names: &Names, words: &mut Words<'_>) -> Result<Bytes, Fault>
    ensures { Gives (λ name. (name, words.new)) result (new_name names.now words.old) }
{
    let word = words.word()?;
    if !is_name(word) || names.is_taken(word) {
        return Err(Fault::Grammar);
    }
    Ok(bytes_of(alloc, word)?)
}

/// A copy of the word.
pub(crate) fn bytes_of(alloc: Global, word: &[u8]) -> Result<Bytes, OutOfMemory>
    ensures { IfOk result (λ bytes. bytes ≡ word.now) }
{
    Ok(Bytes::from_vec(Vec::from_slice(alloc, word)?))
}

/// The definition of the unit with this name. `Grammar` where the unit has a name already.
#[tactic(auto, unfolding(crate::specs::Units::named_unit))]
fn named_unit(alloc: Global, names: &Names, name: Bytes, unit: WireUnit) -> Result<Named, Fault>
    requires { Fits unit }
    ensures named { Gives (λ named. named) result (named_unit digest_of names.now name unit) }
    ensures fits { IfOk result NamedFits }
{
    let digest = digest_of(alloc, &unit)?;
    if names.has_unit(&unit, &digest) {
        return Err(Fault::Grammar);
    }
    Ok(Named {
        name,
        vertex: Vertex::Unit(unsigned(unit)),
        digest: Some(digest),
    })
}

/// Reads the words after the name of a unit.
#[tactic(auto, using(hw_types::proofs::LimitLaws::within_limits), unfolding(crate::specs::Units::unit_behind))]
fn unit_behind(
    alloc: Global,
    config: &Config,
    instance: &Digest,
    names: &Names,
    words: &mut Words<'_>,
) -> Result<WireUnit, Fault>
    requires lawful { config_fault config.now ≡ None }
    requires instance { instance.now ≡ instance_of config.now }
    ensures unit { Gives (λ unit. unit) result (unit_behind (setting_of config.now) names.now words.old) }
    ensures fits { IfOk result Fits }
{
    let numbers = unit_numbers(words)?;
    let cited = citations(alloc, names, config.weights.len(), words)?;
    let Some(seq) = unit_number(numbers.seq, numbers.creator, cited.as_slice()) else {
        return Err(Fault::Grammar);
    };
    let value = unit_value(alloc, words)?;
    let endorsed = unit_endorsed(alloc, names, words)?;
    let panorama = panorama_of(alloc, cited.as_slice())?;
    Ok(WireUnit {
        instance: *instance,
        creator: numbers.creator,
        seq,
        time: numbers.time,
        exponent: numbers.exponent,
        panorama,
        value,
        endorsed,
    })
}

/// Reads `by V at T exp E [seq N]`.
#[tactic(auto, unfolding(crate::specs::Units::unit_numbers))]
fn unit_numbers(words: &mut Words<'_>) -> Result<UnitNumbers, Fault>
    ensures numbers { Gives (λ numbers. (numbers, words.new)) result (unit_numbers words.old) }
    ensures time { IfOk result (λ numbers. numbers.time < 2 ^ 63) }
{
    let creator = words.number_behind("by", u64::from(u32::MAX))?;
    let time = words.number_behind("at", END_OF_TIME - 1)?;
    let exponent = words.number_behind("exp", u64::from(u8::MAX))?;
    let seq = given_number(words)?;
    Ok(UnitNumbers {
        creator: creator as u32,
        time,
        exponent: exponent as u8,
        seq,
    })
}

/// Reads `seq N`, which may be left out.
#[tactic(auto, unfolding(crate::specs::Words::optional))]
fn given_number(words: &mut Words<'_>) -> Result<Option<u64>, Fault>
    ensures { Gives (λ seq. (seq, words.new)) result (optional (codes "seq") (number (2 ^ 64)) words.old) }
{
    if !words.skip("seq") {
        return Ok(None);
    }
    Ok(Some(words.number(u64::MAX)?))
}

/// Reads `block TEXT`, which may be left out.
#[tactic(auto, unfolding(crate::specs::Words::optional))]
fn unit_value(alloc: Global, words: &mut Words<'_>) -> Result<Option<Bytes>, Fault>
    ensures value { Gives (λ value. (value, words.new)) result (unit_value words.old) }
    ensures fits { IfOk result (λ value. IfSome value (λ bytes. length bytes ≤ 4096)) }
{
    if !words.skip("block") {
        return Ok(None);
    }
    Ok(Some(value_text(alloc, words)?))
}

/// Reads a word that may be a value.
#[tactic(auto, using(crate::proofs::ValueLaws::value_is_short), unfolding(crate::specs::Units::value_text))]
fn value_text(alloc: Global, words: &mut Words<'_>) -> Result<Bytes, Fault>
    ensures value { Gives (λ value. (value, words.new)) result (value_text words.old) }
    ensures fits { IfOk result (λ value. length value ≤ 4096) }
{
    let word = words.word()?;
    if !is_value(word) {
        return Err(Fault::Grammar);
    }
    Ok(bytes_of(alloc, word)?)
}
