//! How a node begins: from its settings, its keys and its log.

ghost use Rattle.std.specs.Prelude.{◌≡◌, ◌≤◌, ◌<◌, ℕ, Option, List, length, All, [], Some, None, Ok, Err, IsTrue, IfOk, IfErr, OnOk};
ghost use Rattle.std.specs.List.{range_with_len};
ghost use Rattle.hw_types.specs.Limits.{config_fault};
ghost use Rattle.hw_core.specs.Promises.{begun};
ghost use Rattle.hw_io.specs.{Faults.{subject_of}, Files.{SameFiles}};
ghost use Rattle.hw_replay.specs.declared.fault.StartFault.TheVariants as start;
ghost use Rattle.hw_replay.specs.Chain.{told_chain};
ghost use Rattle.hw_replay.specs.Told.{HasTaken};
ghost use Rattle.hw_replay.specs.Midway.{file_begun};
ghost use Rattle.hw_replay.specs.Feed.{moment, AreFed, AreFedSome, AreFedPart, file_replayed};
ghost use Rattle.hw_replay.specs.Causes.{HasReplayCause, IsReplayAbout};
ghost use Rattle.hw_session.specs.Start.{Starts, StartsThere, StartsLog, HasStartCause, IsReadOfLog};
ghost use Rattle.hw_service.specs.Scene.{DoorSeen, sight_of, outside, scene, none_told};
ghost use Rattle.hw_service.specs.Begin.{names_of, file_settings, HoldsKeys, IsNoValidator, IsValidator, Reads, ReadsNot, HasBegun, BeginsNot, fault_of_start};
ghost use Rattle.hw_service.specs.Begun.{IsOfFile, IsOfSettings, IsOfKeys, IsReadOf, IsAbout};
ghost use Rattle.hw_service.specs.Counts.{IsReadCounted, IsAppendCounted, IsReadAbout};
ghost use Rattle.hw_service.specs.declared.fault.ServiceFault.TheVariants as fault;

use crate::fault::ServiceFault;
use crate::node_host::Host;
use hw_io::{Consumer, Files, IoFault};
use hw_keys::{Keys, KeysFault};
use hw_log::{LogError, read_file};
use hw_replay::{Fanout, StartFault, replay_fed};
use hw_session::{Node, fault_of_read, name_of};
use hw_settings::{SettingsFault, read_settings};
use hw_types::{Bytes, Config, OutOfMemory};
use std::alloc::Global;

/// The files that a node is started from, by their names.
#[derive(Clone, Copy)]
pub struct Sources<'n> {
    /// Its settings.
    pub config: &'n str,
    /// The keys of all validators.
    pub keys: &'n str,
    /// Its log.
    pub log: &'n str,
}

/// Begins a node: its settings are read, then its keys, and then its log is replayed, or made where there is
/// no log. The consumers get the new decided blocks after each entry.
///
/// The validator that is to make units, if there is one, is tested against the settings before the keys are
/// read.
pub(crate) fn begin_host<F: Files>(
    alloc: Global,
    sources: Sources<'_>,
    me: Option<u32>,
    files: &mut F,
    consumers: &mut Vec<Box<dyn Consumer>>,
) -> Result<Host, ServiceFault>
    ensures begins { (door : DoorSeen) (written : Option (List ℕ)) → IfOk result (λ h. HasBegun (sight_of ⟦<dyn Consumer as Consumer>⟧) F.tells (names_of sources.entry) me
        (outside (F.held files.old) door written consumers.old.items) (scene h.node h.fanout (outside (F.held files.new) door written consumers.new.items))) }
    ensures begins_not { (door : DoorSeen) (written : Option (List ℕ)) → IfErr result (BeginsNot (sight_of ⟦<dyn Consumer as Consumer>⟧) F.tells (names_of sources.entry) me
        (outside (F.held files.old) door written consumers.old.items) (outside (F.held files.new) door written consumers.new.items)) }
    ensures whole { All (λ b. HasTaken [] 0 (consumed b)) consumers.old.items → IfOk result (λ h. All (λ b. HasTaken (told_chain h.node.core) h.fanout.passed (consumed b)) consumers.new.items) }
    ensures passed { IfOk result (λ h. h.fanout.passed ≡ length (told_chain h.node.core)) }
    ensures room { IfOk result (λ h. length consumers.new.items ≤ length h.fanout.places) }
    ensures validator { IfOk result (λ h. IsValidator me h.node.core.config) }
    ensures reads { IsReadCounted (F.read_faults files.old) (F.read_faults files.new) result }
    ensures appends { IsAppendCounted (F.append_faults files.old) (F.append_faults files.new) result }
    ensures about { IsTrue F.tells → IfErr result (λ e. e ≡ fault.Read → IsAbout (names_of sources.entry) me (F.held files.old) (F.faults_about files.old) (F.faults_about files.new)) }
{
    let (config, keys) = read_sources(alloc, sources, me, files)?;
    let mut fanout = fanout_for(alloc, consumers.len())?;
    match start_fed(
        alloc,
        files,
        sources.log,
        config,
        keys,
        &mut fanout,
        consumers,
    ) {
        Ok(node) => Ok(Host { node, fanout }),
        Err(fault) => Err(fault_of_start(fault)),
    }
}

/// Reads the settings, tests the validator that is to make units against them, and reads the keys.
fn read_sources<F: Files>(
    alloc: Global,
    sources: Sources<'_>,
    me: Option<u32>,
    files: &mut F,
) -> Result<(Config, Keys), ServiceFault>
    ensures read { IfOk result (λ r. Reads F.tells (names_of sources.entry) me (F.held files.old) r.0 r.1) }
    ensures lawful { IfOk result (λ r. (config_fault r.0 ≡ None) × (length r.1 ≡ length r.0.weights)) }
    ensures fault { IfErr result (ReadsNot F.tells (names_of sources.entry) me (F.held files.old)) }
    ensures reads { IsReadCounted (F.read_faults files.old) (F.read_faults files.new) result }
    ensures about { IsTrue F.tells → IsReadOf (names_of sources.entry) me (F.held files.old) (F.faults_about files.old) (F.faults_about files.new) result }

    ensures files { SameFiles (F.held files.old) (F.held files.new) }
    ensures appends { F.append_faults files.new ≡ F.append_faults files.old }
{
    let config = read_config(alloc, files, sources.config)?;
    test_validator(me, &config)?;
    let keys = read_keys(alloc, files, sources.keys, &config)?;
    Ok((config, keys))
}

/// What is kept of this number of consumers that were passed nothing.
fn fanout_for(alloc: Global, consumers: usize) -> Result<Fanout, OutOfMemory>
    ensures { IfOk result (λ f. f ≡ record { passed = 0; places = range_with_len 0 consumers; drops = []; gone = [] }) }
{
    let mut fanout = Fanout::new(alloc);
    fanout.reserve(consumers)?;
    Ok(fanout)
}

/// The bytes of the file of this name.
fn read_bytes<F: Files>(alloc: Global, files: &mut F, name: &str) -> Result<Bytes, ServiceFault>
    ensures whole { IsTrue F.tells → IfOk result (λ bytes. F.held files.old name.now ≡ Some bytes) }
    ensures fault { IfErr result IsOfFile }
    ensures reads { IsReadCounted (F.read_faults files.old) (F.read_faults files.new) result }
    ensures about { IsTrue F.tells → IsReadAbout (subject_of (F.held files.old name.now) name.now) (F.faults_about files.old) (F.faults_about files.new) result }

    ensures files { SameFiles (F.held files.old) (F.held files.new) }
    ensures appends { F.append_faults files.new ≡ F.append_faults files.old }
{
    match read_file(alloc, files, name) {
        Ok(bytes) => Ok(bytes),
        Err(IoFault::Failed) => Err(ServiceFault::Read),
        Err(IoFault::OutOfMemory) => Err(ServiceFault::OutOfMemory),
    }
}

/// The configuration in the settings of the file of this name.
fn read_config<F: Files>(alloc: Global, files: &mut F, name: &str) -> Result<Config, ServiceFault>
    ensures said { IsTrue F.tells → IfOk result (λ config. file_settings (F.held files.old name.now) ≡ Some (Ok config)) }
    ensures fault { IfErr result (IsOfSettings F.tells (F.held files.old name.now)) }
    ensures lawful { IfOk result (λ config. config_fault config ≡ None) }
    ensures reads { IsReadCounted (F.read_faults files.old) (F.read_faults files.new) result }
    ensures about { IsTrue F.tells → IsReadAbout (subject_of (F.held files.old name.now) name.now) (F.faults_about files.old) (F.faults_about files.new) result }

    ensures files { SameFiles (F.held files.old) (F.held files.new) }
    ensures appends { F.append_faults files.new ≡ F.append_faults files.old }
{
    let bytes = read_bytes(alloc, files, name)?;
    match read_settings(alloc, bytes.as_slice()) {
        Ok(config) => Ok(config),
        Err(SettingsFault::OutOfMemory) => Err(ServiceFault::OutOfMemory),
        Err(fault) => Err(ServiceFault::Settings(fault)),
    }
}

/// Whether the validator that is to make units, if there is one, is one of the configuration.
fn test_validator(me: Option<u32>, config: &Config) -> Result<(), ServiceFault>
    requires lawful { config_fault config.now ≡ None }
    ensures is { OnOk result (IsValidator me config.now) }
    ensures is_none { IfErr result (λ e. (e ≡ fault.NoValidator) × IsNoValidator me config.now) }
{
    match me {
        Some(me) if me as usize >= config.weights.len() => Err(ServiceFault::NoValidator),
        _ => Ok(()),
    }
}

/// The keys of all validators of the configuration, from the text in the file of this name.
fn read_keys<F: Files>(
    alloc: Global,
    files: &mut F,
    name: &str,
    config: &Config,
) -> Result<Keys, ServiceFault>
    requires lawful { config_fault config.now ≡ None }
    ensures said { IsTrue F.tells → IfOk result (HoldsKeys (length config.now.weights) (F.held files.old name.now)) }
    ensures count { IfOk result (λ keys. length keys ≡ length config.now.weights) }
    ensures fault { IfErr result (IsOfKeys F.tells (length config.now.weights) (F.held files.old name.now)) }
    ensures reads { IsReadCounted (F.read_faults files.old) (F.read_faults files.new) result }
    ensures about { IsTrue F.tells → IsReadAbout (subject_of (F.held files.old name.now) name.now) (F.faults_about files.old) (F.faults_about files.new) result }

    ensures files { SameFiles (F.held files.old) (F.held files.new) }
    ensures appends { F.append_faults files.new ≡ F.append_faults files.old }
{
    let text = read_bytes(alloc, files, name)?;
    match Keys::read(alloc, text.as_slice(), config.weights.len() as u32) {
        Ok(keys) => Ok(keys),
        Err(KeysFault::At(place)) => Err(ServiceFault::Keys(place)),
        Err(KeysFault::OutOfMemory) => Err(ServiceFault::OutOfMemory),
    }
}

/// Starts a node from the log of this name, or begins a new one where there is none. The consumers, which were
/// passed nothing, get the new decided blocks after each entry.
fn start_fed<F: Files>(
    alloc: Global,
    files: &mut F,
    log: &str,
    config: Config,
    keys: Keys,
    fanout: &mut Fanout,
    consumers: &mut Vec<Box<dyn Consumer>>,
) -> Result<Node, StartFault>
    requires lawful { config_fault config ≡ None }
    requires keys { length keys ≡ length config.weights }
    requires none { fanout.old ≡ none_told consumers.old.items }
    ensures said { IsTrue F.tells → Starts config keys log.now (F.held files.old log.now) result }
    ensures is { IfOk result (λ node. (node.core.config ≡ config) × (node.keys ≡ keys)) }
    ensures log { IsTrue F.tells → StartsLog config log.now (F.held files.old) (F.held files.new) (F.held files.old log.now) result }
    ensures fed { IfOk result (λ node. AreFed (sight_of ⟦<dyn Consumer as Consumer>⟧) (moment (begun config) consumers.old.items fanout.old) (moment node.core consumers.new.items fanout.new)) }
    ensures whole { All (λ b. HasTaken [] 0 (consumed b)) consumers.old.items → IfOk result (λ node. All (λ b. HasTaken (told_chain node.core) (length (told_chain node.core)) (consumed b)) consumers.new.items) }
    ensures passed { IfOk result (λ node. fanout.new.passed ≡ length (told_chain node.core)) }
    ensures stopped { IfErr result (λ e. AreFedSome (sight_of ⟦<dyn Consumer as Consumer>⟧) F.tells (file_replayed (Some config) (F.held files.old log.now)) consumers.old.items consumers.new.items fanout.old fanout.new) }
    ensures part { IfErr result (λ e. AreFedPart (sight_of ⟦<dyn Consumer as Consumer>⟧) F.tells (file_begun (Some config) (F.held files.old log.now)) e consumers.old.items consumers.new.items fanout.old fanout.new) }
    ensures room { length consumers.new.items ≤ length fanout.new.places }
    ensures cause { HasStartCause (F.read_faults files.old) (F.read_faults files.new) (F.append_faults files.old) (F.append_faults files.new) result }
    ensures about { IsTrue F.tells → IfErr result (IsReadOfLog log.now (F.faults_about files.old) (F.faults_about files.new)) }
{
    match files.exists(log) {
        Ok(true) => go_on_fed(alloc, files, log, &config, keys, fanout, consumers),
        Ok(false) => Node::begin(alloc, files, log, config, keys),
        Err(fault) => Err(fault_of_read(fault)),
    }
}

/// The node of the log of this name, which exists.
fn go_on_fed<F: Files>(
    alloc: Global,
    files: &mut F,
    log: &str,
    config: &Config,
    keys: Keys,
    fanout: &mut Fanout,
    consumers: &mut Vec<Box<dyn Consumer>>,
) -> Result<Node, StartFault>
    requires lawful { config_fault config.now ≡ None }
    requires keys { length keys ≡ length config.now.weights }
    requires none { fanout.old ≡ none_told consumers.old.items }
    ensures said { IsTrue F.tells → StartsThere config.now keys log.now (F.held files.old log.now) result }
    ensures is { IfOk result (λ node. (node.core.config ≡ config.now) × (node.keys ≡ keys)) }
    ensures fed { IfOk result (λ node. AreFed (sight_of ⟦<dyn Consumer as Consumer>⟧) (moment (begun config.now) consumers.old.items fanout.old) (moment node.core consumers.new.items fanout.new)) }
    ensures whole { All (λ b. HasTaken [] 0 (consumed b)) consumers.old.items → IfOk result (λ node. All (λ b. HasTaken (told_chain node.core) (length (told_chain node.core)) (consumed b)) consumers.new.items) }
    ensures passed { IfOk result (λ node. fanout.new.passed ≡ length (told_chain node.core)) }
    ensures stopped { IfErr result (λ e. AreFedSome (sight_of ⟦<dyn Consumer as Consumer>⟧) F.tells (file_replayed (Some config.now) (F.held files.old log.now)) consumers.old.items consumers.new.items fanout.old fanout.new) }
    ensures part { IfErr result (λ e. AreFedPart (sight_of ⟦<dyn Consumer as Consumer>⟧) F.tells (file_begun (Some config.now) (F.held files.old log.now)) e consumers.old.items consumers.new.items fanout.old fanout.new) }
    ensures room { length consumers.new.items ≤ length fanout.new.places }
    ensures cause { HasReplayCause (F.read_faults files.old) (F.read_faults files.new) result }
    ensures about { IsTrue F.tells → IsReplayAbout (subject_of (F.held files.old log.now) log.now) (F.faults_about files.old) (F.faults_about files.new) result }

    ensures files { SameFiles (F.held files.old) (F.held files.new) }
    ensures appends { F.append_faults files.new ≡ F.append_faults files.old }
{
    let name = name_of(alloc, log)?;
    let replay = replay_fed(alloc, files, log, Some(config), fanout, consumers)?;
    Ok(Node::replayed(alloc, name, config, keys, replay))
}

/// The answer for a failed start.
fn fault_of_start(fault: StartFault) -> ServiceFault
    ensures { result ≡ fault_of_start fault }
{
    match fault {
        StartFault::Log(LogError::ReadFault) => ServiceFault::Read,
        StartFault::Log(LogError::WriteFault) => ServiceFault::Append,
        StartFault::Log(LogError::OutOfMemory) | StartFault::OutOfMemory => {
            ServiceFault::OutOfMemory
        }
        fault => ServiceFault::Log(fault),
    }
}
