//! What is looked at before a node starts: its settings, and whether its log is signed by the keys.
//!
//! What is wrong with these files otherwise is the node's to say. So where one of them can't be read here, nothing is
//! said, and the node starts.
ghost use Rattle.std.specs.Prelude.{◌≡◌, None, IfSome};
ghost use Rattle.hw_types.specs.{Limits.{config_fault}, Spelling.{ConfigFits}};
ghost use Rattle.hw_log.specs.Reader.{PlacesFit};

use crate::SHORT_FILE;
use hw_codec::{config_is_in_range, encode_config};
use hw_host::{HostFiles, LogFile};
use hw_keys::Keys;
use hw_log::{LogReader, read_file};
use hw_settings::read_settings;
use hw_types::{Bytes, Config};
use std::alloc::Global;
use std::fs;

/// What is told where an entry of the log isn't signed by the keys.
const REMEDY: &str =
    "it isn't what was written, or the keys are others; put the right keys there, or move the log away and rejoin";

/// The names of the files that a node begins from.
#[derive(Clone, Copy)]
pub struct NodeFileNames<'n> {
    /// Its settings.
    pub config: &'n str,
    /// The keys of all validators.
    pub keys: &'n str,
    /// Its log.
    pub log: &'n str,
}

/// What is known of a node before it starts.
#[derive(Drop)]
pub struct Ahead {
    /// How many milliseconds its shortest round takes, or 0.
    pub round: u64,
    /// The keys of all validators, if they can be read.
    pub keys: Option<Keys>,
}

impl Ahead {
    /// Nothing is known.
    pub fn nothing() -> Ahead {
        Ahead {
            round: 0,
            keys: None,
        }
    }
}

/// Looks at the files of a node before it starts.
///
/// The log's entries that count are held against the keys. Where one isn't signed by them, the log is refused as if
/// another process had it, and the place of the entry is told. Otherwise its entries are counted from now on.
pub fn look_ahead(rt: HostRuntime, names: NodeFileNames<'_>, log: &LogFile) -> Ahead {
    let alloc = rt.alloc();
    let Some(config) = settings(rt, alloc, names.config) else {
        return Ahead::nothing();
    };
    let keys = keys_of(rt, alloc, names.keys, &config);
    if let Some(keys) = &keys {
        look_at_log(rt, names.log, keys, log, &config);
    }
    Ahead {
        round: round_of(&config),
        keys,
    }
}

/// Holds the log against the keys, and counts its entries.
fn look_at_log(rt: HostRuntime, name: &str, keys: &Keys, log: &LogFile, config: &Config)
    requires { config_fault config.now ≡ None }
{
    let used = match checked_entries(rt, name, keys, log, config) {
        Checked::Signed(used) => used,
        Checked::Unsigned(at) => {
            let _ = eprintln!(rt;
                "highway: {name}: the entry at byte {at} isn't signed by the keys"
            );
            log.refuse(REMEDY);
            0
        }
        Checked::Unknown => return,
    };
    log.count_entries(&rt, u64::from(config.max_records), used);
}

/// What is known of a log.
enum Checked {
    /// Each entry that counts is signed by the keys, and there are so many in all.
    Signed(u64),
    /// The entry at this place counts, and isn't.
    Unsigned(u64),
    /// A file couldn't be read, or another process has the log.
    Unknown,
}

/// How many milliseconds the shortest round takes.
fn round_of(config: &Config) -> u64 {
    1_u64
        .checked_shl(u32::from(config.min_exponent))
        .unwrap_or(u64::MAX)
}

/// The bytes of a plain file of a bounded length. Other files, as a pipe, give their bytes only once.
fn plain_bytes(rt: HostRuntime, alloc: Global, name: &str) -> Option<Bytes> {
    let metadata = fs::metadata(&rt, name).ok()?;
    if !metadata.is_file() || metadata.len() > SHORT_FILE as u64 {
        return None;
    }
    read_file(alloc, &mut HostFiles::new(rt), name).ok()
}

/// The settings of the node.
fn settings(rt: HostRuntime, alloc: Global, name: &str) -> Option<Config>
    ensures { IfSome result (λ config. config_fault config ≡ None) }
{
    let text = plain_bytes(rt, alloc, name)?;
    read_settings(alloc, text.as_slice()).ok()
}

/// The keys of all validators.
fn keys_of(rt: HostRuntime, alloc: Global, name: &str, config: &Config) -> Option<Keys>
    requires { config_fault config.now ≡ None }
{
    let text = plain_bytes(rt, alloc, name)?;
    Keys::read(alloc, text.as_slice(), config.weights.len() as u32).ok()
}

/// Holds the entries of the log that count against the keys, if it is a log of these settings.
fn checked_entries(
    rt: HostRuntime,
    name: &str,
    keys: &Keys,
    log: &LogFile,
    config: &Config,
) -> Checked
    requires { config_fault config.now ≡ None }
{
    match fs::metadata(&rt, name) {
        Ok(metadata) if metadata.is_file() => {}
        Ok(_) => return Checked::Unknown,
        Err(_) => return Checked::Signed(0),
    }
    // Another process that has it may be writing an entry.
    if log.hold(&rt).is_err() {
        return Checked::Unknown;
    }
    read_entries(rt, name, keys, config)
}

/// Reads the log of this name, and holds it against the keys.
fn read_entries(rt: HostRuntime, name: &str, keys: &Keys, config: &Config) -> Checked
    requires { config_fault config.now ≡ None }
{
    let alloc = rt.alloc();
    let mut files = HostFiles::new(rt);
    let Ok(mut reader) = LogReader::begin(alloc, &mut files, name) else {
        return Checked::Unknown;
    };
    match is_same(alloc, config, reader.config()) {
        Some(true) => held_against(&mut files, &mut reader, keys),
        _ => Checked::Unknown,
    }
}

/// Whether two configurations are the same, if there is memory to find out.
fn is_same(alloc: Global, left: &Config, right: &Config) -> Option<bool>
    requires left { config_fault left.now ≡ None }
    requires right { ConfigFits right.now }
{
    config_is_in_range(left);
    let left = encode_config(alloc, left).ok()?;
    let right = encode_config(alloc, right).ok()?;
    Some(left.as_slice() == right.as_slice())
}

/// Holds the entries that are left against the keys, up to the first that counts and isn't signed by them.
fn held_against(files: &mut HostFiles<HostRuntime>, reader: &mut LogReader, keys: &Keys) -> Checked
    requires { PlacesFit reader.old files.old.allowance }
{
    let mut count = 0_u64;
    'entries: while let Ok(Some(entry)) = reader.next(files) {
        if entry.verdict && keys.verdict(&entry.vertex) == Ok(false) {
            return Checked::Unsigned(entry.at);
        }
        count = count.saturating_add(1);
    }
    Checked::Signed(count)
}
