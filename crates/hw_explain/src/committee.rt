//! The last committee of a summit, as words.

ghost use Rattle.std.specs.{Prelude.{◌≡◌, ◌+◌, ◌∷◌, ◌++◌, map, OnOk}, List.{flat_map, range_with_len}};
ghost use Rattle.hw_text.specs.{Text.{number_text}, Lines.{spaced}};
ghost use Rattle.hw_explain.specs.{Greatest.{member_text}, Searched.{start_or_zero, starts_in, words_in, part_in}};

use hw_horizon::Horizons;
use hw_text::{put_numbered, put_word};
use hw_types::{Bytes, OutOfMemory};

/// Puts the members of the committee of this level last, each with its starts. They are those of the summit
/// that the last search found, among this many validators.
#[tactic(auto, using(crate::proofs::CommitteeLaws::words_are))]
pub(crate) fn put_committee(
    text: &mut Bytes,
    search: &Horizons,
    level: u32,
    validators: u32,
) -> Result<(), OutOfMemory>
    ensures { OnOk result (text.new ≡ text.old ++ flat_map spaced (words_in search.now level validators)) }
{
    put_word(text, " committee")?;
    for validator in 0..validators {
        put_if_member(text, search, level, validator)?;
    }
    Ok(())
}

/// Puts the validator last where it is a member, and nothing otherwise.
fn put_if_member(
    text: &mut Bytes,
    search: &Horizons,
    level: u32,
    validator: u32,
) -> Result<(), OutOfMemory>
    ensures { OnOk result (text.new ≡ text.old ++ part_in search.now level validator) }
{
    match search.start(level, validator) {
        Some(_) => put_member(text, search, level, validator),
        None => Ok(()),
    }
}

/// Puts a member and its starts from level 0 to this one last.
#[tactic(auto, using(crate::proofs::CommitteeLaws::member_is))]
fn put_member(
    text: &mut Bytes,
    search: &Horizons,
    level: u32,
    validator: u32,
) -> Result<(), OutOfMemory>
    ensures { OnOk result (text.new ≡ text.old ++ spaced (member_text validator (starts_in search.now level validator))) }
{
    put_numbered(text, " ", u64::from(validator))?;
    put_numbered(text, ":", start(search, 0, validator))?;
    for below in 0..level {
        put_numbered(text, ",", start(search, below + 1, validator))?;
    }
    Ok(())
}

/// The start of the validator at this level, or 0 where it has none.
fn start(search: &Horizons, level: u32, validator: u32) -> u64
    ensures { result ≡ start_or_zero search.now level validator }
{
    search.start(level, validator).unwrap_or(0)
}
