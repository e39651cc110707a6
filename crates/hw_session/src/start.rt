//! How a node starts.

ghost use Rattle.std.specs.Prelude.{◌≡◌, length, true, None, Some, IsTrue, IfOk, IfErr, string_bytes};
ghost use Rattle.hw_types.specs.Limits.{config_fault};
ghost use Rattle.hw_io.specs.{Faults.{subject_of}, Files.{SameFiles, Appended}};
ghost use Rattle.hw_log.specs.{Lasts.{no_lasts}, Log.{header_bytes}};
ghost use Rattle.hw_replay.specs.{Causes.{HasReplayCause, IsReplayAbout}, Ends.{IsReached}, Faults.{fault_of}, Replay.{is_wanted, taken_in}};
ghost use Rattle.hw_session.specs.{Node.{new_node}, Start.{taken_of, fault_of_read, IsUnwritten, Starts, StartsThere, StartsLog, HasStartCause, HasAppendedCause, IsReadOfLog}};

use crate::node::Node;
use hw_codec::config_is_in_range;
use hw_core::Core;
use hw_io::{Files, IoFault};
use hw_keys::Keys;
use hw_log::{Lasts, LogError, append_header};
use hw_replay::{Replay, Replayed, StartFault, replay_log};
use hw_types::{Config, OutOfMemory};
use std::alloc::Global;

/// The version of a new log.
const NEW_VERSION: u8 = 2;

impl Node {
    /// Starts a node from the log of this name: it is replayed, and the node goes on in its version. Where
    /// there is none, a new one of version 2 is made.
    ///
    /// The configuration keeps all limits, and the keys were read for as many validators. Where the log is
    /// there, the node's configuration is compared with the log's as soon as its header was read. A refusal
    /// for a limit or a clash stops the start, as do errors of the log.
    pub fn start<F: Files>(
        alloc: Global,
        files: &mut F,
        log: &str,
        config: Config,
        keys: Keys,
    ) -> Result<Node, StartFault>
        requires lawful { config_fault config ≡ None }
        requires keys { length keys ≡ length config.weights }
        ensures said { IsTrue F.tells → Starts config keys log.now (F.held files.old log.now) result }
        ensures config { IfOk result (λ node. node.core.config ≡ config) }
        ensures keys { IfOk result (λ node. (node.keys ≡ keys) × (node.log ≡ log.now)) }
        ensures log { IsTrue F.tells → StartsLog config log.now (F.held files.old) (F.held files.new) (F.held files.old log.now) result }
        ensures cause { HasStartCause (F.read_faults files.old) (F.read_faults files.new) (F.append_faults files.old) (F.append_faults files.new) result }
        ensures about { IsTrue F.tells → IfErr result (IsReadOfLog log.now (F.faults_about files.old) (F.faults_about files.new)) }
    {
        match files.exists(log) {
            Ok(true) => go_on(alloc, files, log, &config, keys),
            Ok(false) => Node::begin(alloc, files, log, config, keys),
            Err(fault) => Err(fault_of_read(fault)),
        }
    }

    /// The node that a replay of its log leaves. The log has this name. The replay wanted this configuration,
    /// which keeps all limits, and the keys were read for as many validators. The node goes on in the log's
    /// version.
    pub fn replayed(alloc: Global, log: String, config: &Config, keys: Keys, replay: Replay) -> Node
        requires lawful { config_fault config.now ≡ None }
        requires keys { length keys ≡ length config.now.weights }
        requires wanted { is_wanted (Some config.now) replay.core.config ≡ true }
        requires reached { IsReached replay.core }
        ensures taken { taken_of result ≡ taken_in replay }
        ensures lasts { result.lasts ≡ replay.reader.lasts }
        ensures config { result.core.config ≡ config.now }
        ensures keys { result.keys ≡ keys }
        ensures log { result.log ≡ string_bytes log }
        ensures limited { result.limited ≡ 0 }
        ensures clash { result.clash ≡ None }
    {
        let Replayed {
            core,
            lasts,
            refused,
            repeats,
        } = replay.into_parts();
        // For the prover: each number is in the range of its type. It does nothing.
        config_is_in_range(config);
        config_is_in_range(core.state().config());
        Node {
            alloc,
            core,
            keys,
            log,
            lasts,
            refused,
            repeats,
            limited: 0,
            clash: None,
        }
    }

    /// A node that has received nothing, with a new log of this name, of version 2.
    ///
    /// The configuration keeps all limits, and the keys were read for as many validators.
    pub fn begin<F: Files>(
        alloc: Global,
        files: &mut F,
        log: &str,
        config: Config,
        keys: Keys,
    ) -> Result<Node, StartFault>
        requires lawful { config_fault config ≡ None }
        requires keys { length keys ≡ length config.weights }
        ensures node { IfOk result (λ node. node ≡ new_node config keys log.now) }
        ensures error { IfErr result IsUnwritten }
        ensures log { IsTrue F.tells → Appended (F.held files.old) (F.held files.new) log.now (header_bytes 2 config) result }
        ensures cause { HasAppendedCause (F.append_faults files.old) (F.append_faults files.new) result }

        ensures reads { F.read_faults files.new ≡ F.read_faults files.old }
    {
        match append_header(alloc, files, log, NEW_VERSION, &config) {
            Ok(()) => Ok(new_node(alloc, log, config, keys)?),
            Err(error) => Err(fault_of_log(error)),
        }
    }
}

/// A node of this configuration from the log of this name, which is there.
fn go_on<F: Files>(
    alloc: Global,
    files: &mut F,
    log: &str,
    config: &Config,
    keys: Keys,
) -> Result<Node, StartFault>
    requires lawful { config_fault config.now ≡ None }
    requires keys { length keys ≡ length config.now.weights }
    ensures said { IsTrue F.tells → StartsThere config.now keys log.now (F.held files.old log.now) result }
    ensures config { IfOk result (λ node. node.core.config ≡ config.now) }
    ensures keys { IfOk result (λ node. (node.keys ≡ keys) × (node.log ≡ log.now)) }
    ensures cause { HasReplayCause (F.read_faults files.old) (F.read_faults files.new) result }
    ensures about { IsTrue F.tells → IsReplayAbout (subject_of (F.held files.old log.now) log.now) (F.faults_about files.old) (F.faults_about files.new) result }

    ensures files { SameFiles (F.held files.old) (F.held files.new) }
    ensures appends { F.append_faults files.new ≡ F.append_faults files.old }
{
    let name = name_of(alloc, log)?;
    let replay = replay_log(alloc, files, log, Some(config))?;
    Ok(Node::replayed(alloc, name, config, keys, replay))
}

/// A node that has received nothing, whose log has this name and the version of new ones.
fn new_node(alloc: Global, log: &str, config: Config, keys: Keys) -> Result<Node, OutOfMemory>
    requires lawful { config_fault config ≡ None }
    requires keys { length keys ≡ length config.weights }
    ensures { IfOk result (λ node. node ≡ new_node config keys log.now) }
{
    let name = name_of(alloc, log)?;
    let lasts = new_lasts(alloc, &config)?;
    match Core::new(alloc, config) {
        Ok(core) => Ok(Node {
            alloc,
            core,
            keys,
            log: name,
            lasts,
            refused: 0,
            repeats: 0,
            limited: 0,
            clash: None,
        }),
        Err(_) => Err(OutOfMemory),
    }
}

/// No last units, for a new log of this configuration.
fn new_lasts(alloc: Global, config: &Config) -> Result<Lasts, OutOfMemory>
    requires lawful { config_fault config.now ≡ None }
    ensures { IfOk result (λ lasts. lasts ≡ no_lasts 2 (length config.now.weights)) }
{
    Lasts::new(alloc, NEW_VERSION, config.weights.len() as u32)
}

/// A copy of a log's name.
pub fn name_of(alloc: Global, log: &str) -> Result<String, OutOfMemory>
    ensures { IfOk result (λ name. string_bytes name ≡ log.now) }
{
    Ok(String::from_str(alloc, log)?)
}

/// What a failed `exists` is answered as.
pub fn fault_of_read(fault: IoFault) -> StartFault
    ensures { result ≡ fault_of_read fault }
{
    match fault {
        IoFault::Failed => StartFault::Log(LogError::ReadFault),
        IoFault::OutOfMemory => StartFault::OutOfMemory,
    }
}

/// What an error of the log is answered as.
fn fault_of_log(error: LogError) -> StartFault
    ensures { result ≡ fault_of error }
{
    match error {
        LogError::OutOfMemory => StartFault::OutOfMemory,
        error => StartFault::Log(error),
    }
}
