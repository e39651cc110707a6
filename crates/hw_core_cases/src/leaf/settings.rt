//! Settings.

use crate::leaf::configs::limits_text;
use hw_case_words::Answer;
use hw_settings::{SettingsFault, read_settings};
use hw_types::{Config, ConfigFault, Leaders};

/// What the settings of this text say, or of the bytes that it spells after `hex`.
pub fn settings_text(answer: &mut Answer, text: &str) {
    match text.strip_prefix("hex ") {
        None => said(answer, text.as_bytes()),
        Some(digits) => {
            let bytes = answer.bytes(digits);
            said(answer, bytes.as_slice());
        }
    }
}

/// What settings of these bytes say.
fn said(answer: &mut Answer, bytes: &[u8]) {
    match read_settings(answer.alloc(), bytes) {
        Ok(config) => config_text(answer, &config),
        Err(fault) => fault_text(answer, fault),
    }
}

/// What is wrong with settings.
fn fault_text(answer: &mut Answer, fault: SettingsFault) {
    match fault {
        SettingsFault::Form => answer.put("config form"),
        SettingsFault::Fault(ConfigFault::ZeroWeight(validator)) => {
            answer.put("config zero weight ");
            answer.number(validator as u64);
        }
        SettingsFault::Fault(fault) => {
            answer.put("config ");
            answer.put(name_of(fault));
        }
        SettingsFault::OutOfMemory => answer.refuse(),
    }
}

/// A configuration, member by member.
fn config_text(answer: &mut Answer, config: &Config) {
    answer.put("weights");
    for weight in config.weights.as_slice() {
        answer.put(" ");
        answer.number(*weight);
    }
    let (least, greatest) = (config.min_exponent, config.max_exponent);
    limits_text(answer, config.ftt, config.levels, least, greatest);
    answer.put(" ");
    leaders_text(answer, &config.leaders);
    room_text(answer, config);
}

fn leaders_text(answer: &mut Answer, leaders: &Leaders) {
    match leaders {
        Leaders::Drawn(key) => {
            answer.put("drawn ");
            answer.hex(key.as_slice());
        }
        Leaders::Table(entries) => table_text(answer, entries.as_slice()),
    }
}

fn table_text(answer: &mut Answer, entries: &[u32]) {
    answer.put("leaders");
    for entry in entries {
        answer.put(" ");
        answer.number(*entry as u64);
    }
}

/// What is kept, and the last block's height.
fn room_text(answer: &mut Answer, config: &Config) {
    answer.labelled(" records ", config.max_records as u64);
    answer.labelled(" parked ", config.max_parked as u64);
    if let Some(end) = config.end {
        answer.put(" end ");
        answer.number(end);
    }
}

fn name_of(fault: ConfigFault) -> &'static str {
    match fault {
        ConfigFault::Validators => "validators",
        ConfigFault::ZeroWeight(_) => "zero weight",
        ConfigFault::Total => "total",
        ConfigFault::Threshold => "threshold",
        ConfigFault::Levels => "levels",
        ConfigFault::Exponents => "exponents",
        ConfigFault::LeaderTable => "leader table",
        ConfigFault::Records => "records",
        ConfigFault::Parked => "parked",
    }
}
