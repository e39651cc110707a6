//! Settings, member by member.

ghost use Rattle.std.specs.{Prelude.{◌≡◌, ◌^◌, None, IfOk, IfErr, bytes_eq, codes, option_map, string_bytes}, BTreeMap.{keys}, List.{list_all, list_any}};
ghost use Rattle.serde_json.specs.{Find.{get}, View.{view}};
ghost use Rattle.hw_types.specs.Limits.{config_fault};
ghost use Rattle.hw_settings.specs.Settings.{number_in, key_of, is_object_of, may, drawn_in, leaders_in, needed_names, further_names, is_setting_name, members_say, config_in, json_of, settings_of};
ghost use Rattle.hw_settings.specs.Answers.{Tells, IsFaultOf};

use crate::fault::SettingsFault;
use crate::numbers::{byte_in, count_in, counts_in, number_in, pair_in, weights_in};
use hex::FromHex;
use hw_text::are_lower_digits;
use hw_types::{Config, Leaders, USUAL_PARKED, USUAL_RECORDS};
use serde_json::{Map, Value};
use std::alloc::Global;

/// The configuration that settings say, which keeps all of its limits.
///
/// `Form` answers that the bytes aren't one JSON value in UTF-8, or that the value isn't that of settings. It
/// has to be an object with the members of settings and no others, each in its form. `Fault` answers the
/// first limit that the configuration breaks, in the order of [`hw_types::ConfigFault`]. `OutOfMemory`
/// answers that memory ran out.
///
/// The value is made whole before its members are read, so it takes memory and time in proportion to
/// the bytes.
#[tactic(auto, unfolding(crate::specs::Settings::settings_of))]
pub fn read_settings(alloc: Global, bytes: &[u8]) -> Result<Config, SettingsFault>
    // What is answered is what the settings say, or that memory ran out.
    ensures config { IfOk result (λ config. settings_of bytes.now ≡ Ok config) }
    ensures fault { IfErr result (IsFaultOf (settings_of bytes.now)) }

    ensures lawful { IfOk result (λ config. config_fault config ≡ None) }
{
    let value = json_of(alloc, bytes)?;
    let config = config_in(alloc, &value)?;
    match config.check() {
        Ok(()) => Ok(config),
        Err(fault) => Err(SettingsFault::Fault(fault)),
    }
}

/// The value that the bytes are the text of.
#[tactic(auto, unfolding(crate::specs::Settings::json_of))]
fn json_of(alloc: Global, bytes: &[u8]) -> Result<Value, SettingsFault>
    ensures { Tells view result (json_of bytes.now) }
{
    match Value::from_slice(alloc, bytes) {
        Ok(value) => Ok(value),
        Err(error) if error.is_memory() => Err(SettingsFault::OutOfMemory),
        Err(_) => Err(SettingsFault::Form),
    }
}

/// The configuration that an object says which has no other members.
#[tactic(auto, unfolding(crate::specs::Settings::config_in))]
fn config_in(alloc: Global, value: &Value) -> Result<Config, SettingsFault>
    ensures { Tells (λ config. config) result (config_in (view value.now)) }
{
    if is_settings_object(value) {
        members_say(alloc, value)
    } else {
        Err(SettingsFault::Form)
    }
}

/// What the members say.
#[tactic(auto, unfolding(crate::specs::Settings::members_say))]
fn members_say(alloc: Global, value: &Value) -> Result<Config, SettingsFault>
    ensures { Tells (λ config. config) result (members_say (view value.now)) }
{
    let weights = weights_in(alloc, member(value, "weights")?)?;
    let ftt = number_in(member(value, "threshold")?)?;
    let levels = byte_in(member(value, "levels")?)?;
    let exponents = pair_in(member(value, "exponents")?)?;
    let leaders = leaders_in(alloc, member(value, "leaders")?)?;
    let max_records = count_or(USUAL_RECORDS, value, "records")?;
    let max_parked = count_or(USUAL_PARKED, value, "parked")?;
    let end = end_in(value)?;
    Ok(Config {
        weights,
        ftt,
        levels,
        min_exponent: exponents.0,
        max_exponent: exponents.1,
        leaders,
        max_records,
        max_parked,
        end,
    })
}

/// The member of that name, which has to be there.
fn member<'v>(value: &'v Value, name: &str) -> Result<&'v Value, SettingsFault>
    ensures { Tells (λ found. view found.now) result (get name.now (view value.now)) }
{
    match value.get(name) {
        Some(found) => Ok(found),
        None => Err(SettingsFault::Form),
    }
}

/// The number of that name, or the usual one.
fn count_or(usual: u32, value: &Value, name: &str) -> Result<u32, SettingsFault>
    ensures { Tells (λ n. n) result (may name.now (number_in (2 ^ 32)) usual (view value.now)) }
{
    match value.get(name) {
        Some(found) => count_in(found),
        None => Ok(usual),
    }
}

/// The height of the last block, if there is one.
fn end_in(value: &Value) -> Result<Option<u64>, SettingsFault>
    ensures { Tells (λ end. end) result (may (codes "end") (λ e. option_map Some (number_in (2 ^ 64) e)) None (view value.now)) }
{
    match value.get("end") {
        Some(found) => Ok(Some(number_in(found)?)),
        None => Ok(None),
    }
}

/// The leaders: a table or a key.
#[tactic(auto, unfolding(crate::specs::Settings::leaders_in))]
fn leaders_in(alloc: Global, value: &Value) -> Result<Leaders, SettingsFault>
    ensures { Tells (λ leaders. leaders) result (leaders_in (view value.now)) }
{
    if value.is_array() {
        Ok(Leaders::Table(counts_in(alloc, value)?))
    } else {
        drawn_in(value)
    }
}

/// The key in an object that has no other member.
fn drawn_in(value: &Value) -> Result<Leaders, SettingsFault>
    ensures { Tells (λ leaders. leaders) result (drawn_in (view value.now)) }
{
    if !is_drawn_object(value) {
        return Err(SettingsFault::Form);
    }
    match member(value, "drawn")?.as_str().and_then(key_of) {
        Some(key) => Ok(Leaders::Drawn(key)),
        None => Err(SettingsFault::Form),
    }
}

/// The key that 64 hexadecimal digits in lower case spell, None of another text.
fn key_of(text: &str) -> Option<[u8; 32]>
    ensures { result ≡ key_of text.now }
{
    if are_lower_digits(text.as_bytes()) {
        <[u8; 32]>::from_hex(text).ok()
    } else {
        None
    }
}

/// Whether the value is an object that has no other members than settings.
fn is_settings_object(value: &Value) -> bool
    ensures { result ≡ is_object_of is_setting_name (view value.now) }
{
    match value.as_object() {
        Some(members) => have_setting_names(members),
        None => false,
    }
}

fn have_setting_names(members: &Map<String, Value>) -> bool
    ensures { result ≡ list_all (λ name. is_setting_name (string_bytes name)) (keys members.now) }
{
    members.keys().all(|name| is_setting_name(name.as_str()))
}

/// Whether the value is an object that has no other member than a key.
fn is_drawn_object(value: &Value) -> bool
    ensures { result ≡ is_object_of (bytes_eq (codes "drawn")) (view value.now) }
{
    match value.as_object() {
        Some(members) => are_named_drawn(members),
        None => false,
    }
}

fn are_named_drawn(members: &Map<String, Value>) -> bool
    ensures { result ≡ list_all (λ name. bytes_eq (codes "drawn") (string_bytes name)) (keys members.now) }
{
    members.keys().all(|name| "drawn" == name.as_str())
}

/// Whether settings may have a member of that name.
#[tactic(auto, unfolding(crate::specs::Settings::is_setting_name))]
fn is_setting_name(name: &str) -> bool
    ensures { result ≡ is_setting_name name.now }
{
    is_needed(name) || is_further(name)
}

fn is_needed(name: &str) -> bool
    ensures { result ≡ list_any (bytes_eq name.now) needed_names }
{
    name == "weights"
        || name == "threshold"
        || name == "levels"
        || name == "exponents"
        || name == "leaders"
}

fn is_further(name: &str) -> bool
    ensures { result ≡ list_any (bytes_eq name.now) further_names }
{
    name == "records" || name == "parked" || name == "end"
}
