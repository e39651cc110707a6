//! The eras of a node, as its logs fill them.

ghost use Rattle.std.specs.Prelude.{◌≡◌, ◌+◌, ◌<◌, ◌≤◌, ◌==◌, ◌∷◌, ◌++◌, [], length, map, string_bytes, None, Some, IsTrue, IfOk, IfErr, IfSome, OnOk, if◌then◌else◌};
ghost use Rattle.hw_io.specs.Files.{SameFiles};
ghost use Rattle.hw_types.specs.Real.{CoreState};
ghost use Rattle.hw_core.specs.Promises.{begun};
ghost use Rattle.hw_eras.specs.Nodes.{IsMadeAgain, next_of, first_config, last_core};
ghost use Rattle.hw_eras.specs.Logs.{log_left, eras_of};
ghost use Rattle.hw_eras.specs.Stops.{IsOfLogs, HasEraCause, IsEraAbout};
ghost use Rattle.hw_eras.specs.Filled.{logs_in, next_in, ahead_in, IsFilled, opened, HasTaken, HasFirst, Leaves, HasBegun, TakesLog, TakesAll, Fills};
ghost use Rattle.hw_eras.specs.Turns.{HasTurnFrom, HasTurnOf, StopsAt, TakesTurn};
ghost use Rattle.hw_replay.specs.Replay.{taken_in};

use crate::stop::EraFault;
use crate::{EraOpen, Eras};
use hw_admit::StateFault;
use hw_codec::config_is_in_range;
use hw_core::Core;
use hw_io::Files;
use hw_replay::{Replay, replay_log};
use hw_types::OutOfMemory;
use std::alloc::Global;

/// The most logs of a node, one for each era: after this many no further era is opened.
pub const MAX_LOGS: usize = 64;

/// How many entries of an era's log were refused, and how many came again.
#[derive(Clone, Copy)]
pub struct EraCounts {
    pub refused: u64,
    pub repeats: u64,
}

/// The eras of a node, of which the last one may still lack its log.
#[derive(Drop)]
pub struct Filled {
    pub alloc: Global,
    pub eras: Eras,
    /// What was counted in each era that got its log.
    pub counts: Vec<EraCounts>,
}

impl Filled {
    /// Replays these logs into the eras of a node, one into each.
    pub fn of_logs<'a, F: Files>(
        alloc: Global,
        files: &mut F,
        logs: &'a [String],
    ) -> Result<Filled, EraFault<'a>>
        requires some { 1 ≤ length logs.now }
        requires few { length logs.now ≤ 64 }
        ensures said { IsTrue F.tells → Fills (eras_of (F.held files.old) None (map string_bytes logs.now)) result }
        ensures named { IfErr result (IsOfLogs (map string_bytes logs.now)) }
        ensures cause { HasEraCause (F.read_faults files.old) (F.read_faults files.new) result }
        ensures about { IsTrue F.tells → IsEraAbout (F.held files.old) (F.faults_about files.old) (F.faults_about files.new) result }
        ensures turn { IsTrue F.tells → IfErr result (StopsAt (HasTurnOf (F.held files.old) None (map string_bytes logs.now))) }

        ensures files { SameFiles (F.held files.old) (F.held files.new) }
        ensures appends { F.append_faults files.new ≡ F.append_faults files.old }
    {
        let mut filled = Filled::begin(alloc, files, logs[0].as_str())?;
        filled.take_all(files, &logs[1..])?;
        Ok(filled)
    }

    /// The same, if the first log is of this node's configuration; otherwise its replay stops.
    pub fn of_logs_like<'a, F: Files>(
        alloc: Global,
        files: &mut F,
        core: &Core,
        logs: &'a [String],
    ) -> Result<Filled, EraFault<'a>>
        requires some { 1 ≤ length logs.now }
        requires few { length logs.now ≤ 64 }
        ensures said { IsTrue F.tells → Fills (eras_of (F.held files.old) (Some core.now.config) (map string_bytes logs.now)) result }
        ensures like { IfOk result (λ filled. first_config filled.eras ≡ Some core.now.config) }
        ensures named { IfErr result (IsOfLogs (map string_bytes logs.now)) }
        ensures cause { HasEraCause (F.read_faults files.old) (F.read_faults files.new) result }
        ensures about { IsTrue F.tells → IsEraAbout (F.held files.old) (F.faults_about files.old) (F.faults_about files.new) result }
        ensures turn { IsTrue F.tells → IfErr result (StopsAt (HasTurnOf (F.held files.old) (Some core.now.config) (map string_bytes logs.now))) }

        ensures files { SameFiles (F.held files.old) (F.held files.new) }
        ensures appends { F.append_faults files.new ≡ F.append_faults files.old }
    {
        let mut filled = Filled::begin_like(alloc, files, core, logs[0].as_str())?;
        filled.take_all(files, &logs[1..])?;
        Ok(filled)
    }

    /// Begins with the log under this name, in era 0.
    fn begin<'a, F: Files>(
        alloc: Global,
        files: &mut F,
        log: &'a str,
    ) -> Result<Filled, EraFault<'a>>
        ensures said { IsTrue F.tells → HasBegun (log_left (F.held files.old) None log.now) result }
        ensures filled { IfOk result IsFilled }
        ensures one { IfOk result (λ filled. logs_in filled ≡ 1) }
        ensures named { IfErr result (IsOfLogs (log.now ∷ [])) }
        ensures cause { HasEraCause (F.read_faults files.old) (F.read_faults files.new) result }
        ensures about { IsTrue F.tells → IsEraAbout (F.held files.old) (F.faults_about files.old) (F.faults_about files.new) result }

        ensures files { SameFiles (F.held files.old) (F.held files.new) }
        ensures appends { F.append_faults files.new ≡ F.append_faults files.old }
    {
        match replay_log(alloc, files, log, None) {
            Ok(mut replay) => Ok(first(alloc, &mut replay)?),
            Err(fault) => Err(EraFault::Stopped(log, fault)),
        }
    }

    /// Begins with the log under this name, if it is of the configuration of this node.
    fn begin_like<'a, F: Files>(
        alloc: Global,
        files: &mut F,
        core: &Core,
        log: &'a str,
    ) -> Result<Filled, EraFault<'a>>
        ensures said { IsTrue F.tells → HasBegun (log_left (F.held files.old) (Some core.now.config) log.now) result }
        ensures filled { IfOk result IsFilled }
        ensures one { IfOk result (λ filled. logs_in filled ≡ 1) }
        ensures like { IfOk result (λ filled. first_config filled.eras ≡ Some core.now.config) }
        ensures named { IfErr result (IsOfLogs (log.now ∷ [])) }
        ensures cause { HasEraCause (F.read_faults files.old) (F.read_faults files.new) result }
        ensures about { IsTrue F.tells → IsEraAbout (F.held files.old) (F.faults_about files.old) (F.faults_about files.new) result }

        ensures files { SameFiles (F.held files.old) (F.held files.new) }
        ensures appends { F.append_faults files.new ≡ F.append_faults files.old }
    {
        let mut replay = replay_like(alloc, files, core, log)?;
        Ok(first(alloc, &mut replay)?)
    }

    /// Replays these logs into the next eras, one into each.
    fn take_all<'a, F: Files>(
        &mut self,
        files: &mut F,
        logs: &'a [String],
    ) -> Result<(), EraFault<'a>>
        requires filled { IsFilled self.old }
        requires few { logs_in self.old + length logs.now ≤ 64 }
        ensures said { IsTrue F.tells → TakesAll (ahead_in (F.held files.old) self.old (map string_bytes logs.now)) self.new result }
        ensures filled { OnOk result (IsFilled self.new) }
        ensures first { OnOk result (first_config self.new.eras ≡ first_config self.old.eras) }
        ensures named { IfErr result (IsOfLogs (map string_bytes logs.now)) }
        ensures cause { HasEraCause (F.read_faults files.old) (F.read_faults files.new) result }
        ensures about { IsTrue F.tells → IsEraAbout (F.held files.old) (F.faults_about files.old) (F.faults_about files.new) result }
        ensures turn { IsTrue F.tells → IfErr result (StopsAt (HasTurnFrom (F.held files.old) (next_in self.old) (map string_bytes logs.now))) }

        ensures files { SameFiles (F.held files.old) (F.held files.new) }
        ensures appends { F.append_faults files.new ≡ F.append_faults files.old }
    {
        for log in logs {
            self.take(files, log.as_str())?;
        }
        Ok(())
    }

    /// Replays the log under this name into the next era.
    fn take<'a, F: Files>(&mut self, files: &mut F, log: &'a str) -> Result<(), EraFault<'a>>
        requires filled { IsFilled self.old }
        requires room { logs_in self.old < 64 }
        ensures said { IsTrue F.tells → TakesLog (F.held files.old) self.old log.now self.new result }
        ensures filled { OnOk result (IsFilled self.new) }
        ensures one { OnOk result (logs_in self.new ≡ logs_in self.old + 1) }
        ensures first { OnOk result (first_config self.new.eras ≡ first_config self.old.eras) }
        ensures named { IfErr result (IsOfLogs (log.now ∷ [])) }
        ensures cause { HasEraCause (F.read_faults files.old) (F.read_faults files.new) result }
        ensures about { IsTrue F.tells → IsEraAbout (F.held files.old) (F.faults_about files.old) (F.faults_about files.new) result }
        ensures turn { IsTrue F.tells → TakesTurn (F.held files.old) self.old log.now self.new result }

        ensures files { SameFiles (F.held files.old) (F.held files.new) }
        ensures appends { F.append_faults files.new ≡ F.append_faults files.old }
    {
        let Some(core) = self.eras.core(self.counts.len() as u32) else {
            return Err(EraFault::NoEra(log));
        };
        let mut replay = replay_like(self.alloc, files, core, log)?;
        self.put(&mut replay)?;
        Ok(())
    }

    /// Puts what a log left into the last era, and opens the next one.
    fn put(&mut self, replay: &mut Replay) -> Result<(), OutOfMemory>
        requires filled { IsFilled self.old }
        requires there { logs_in self.old < length self.old.eras }
        requires made { IsMadeAgain replay.old.core }
        requires config { IfSome (last_core self.old.eras) (λ last. replay.old.core.config ≡ last.config) }
        ensures taken { OnOk result (HasTaken self.old self.new (taken_in replay.old)) }
    {
        self.eras.put_last(&mut replay.core);
        self.counts.push(EraCounts {
            refused: replay.refused,
            repeats: replay.repeats,
        })?;
        self.open()
    }

    /// Opens the next era, but not after the last log that a node may have.
    fn open(&mut self) -> Result<(), OutOfMemory>
        requires { logs_in self.old ≡ length self.old.eras }
        ensures eras { OnOk result ((core : CoreState) → last_core self.old.eras ≡ Some core → self.new.eras ≡ self.old.eras ++ (if logs_in self.old == 64 then [] else opened (next_of core))) }
        ensures counts { self.new.counts ≡ self.old.counts }
    {
        if self.counts.len() == MAX_LOGS {
            return Ok(());
        }
        match self.eras.open_next() {
            Ok(_) => Ok(()),
            Err(EraOpen::OutOfMemory) => Err(OutOfMemory),
            // There are as many eras as logs.
            Err(EraOpen::Full) => unreachable!(),
        }
    }
}

/// Replays the log under this name, if it is of the configuration of this node.
fn replay_like<'a, F: Files>(
    alloc: Global,
    files: &mut F,
    core: &Core,
    log: &'a str,
) -> Result<Replay, EraFault<'a>>
    ensures said { IsTrue F.tells → Leaves (log_left (F.held files.old) (Some core.now.config) log.now) result }
    ensures like { IfOk result (λ replay. replay.core.config ≡ core.now.config) }
    ensures made { IfOk result (λ replay. IsMadeAgain replay.core) }
    ensures named { IfErr result (IsOfLogs (log.now ∷ [])) }
    ensures cause { HasEraCause (F.read_faults files.old) (F.read_faults files.new) result }
    ensures about { IsTrue F.tells → IsEraAbout (F.held files.old) (F.faults_about files.old) (F.faults_about files.new) result }

    ensures files { SameFiles (F.held files.old) (F.held files.new) }
    ensures appends { F.append_faults files.new ≡ F.append_faults files.old }
{
    let config = core.state().config();
    // For the prover: each number is in the range of its type. It does nothing.
    config_is_in_range(config);
    match replay_log(alloc, files, log, Some(config)) {
        Ok(replay) => {
            // For the prover: each number is in the range of its type. It does nothing.
            config_is_in_range(replay.core.state().config());
            Ok(replay)
        }
        Err(fault) => Err(EraFault::Stopped(log, fault)),
    }
}

/// Era 0 with what its log left, and the next era, if it is opened.
fn first(alloc: Global, replay: &mut Replay) -> Result<Filled, OutOfMemory>
    requires { IsMadeAgain replay.old.core }
    ensures { IfOk result (λ filled. HasFirst filled (taken_in replay.old)) }
{
    let mut filled = Filled {
        alloc,
        eras: era_of(alloc, &replay.core)?,
        counts: Vec::new(alloc),
    };
    filled.put(replay)?;
    Ok(filled)
}

/// Era 0 of the configuration of this node.
fn era_of(alloc: Global, core: &Core) -> Result<Eras, OutOfMemory>
    ensures { IfOk result (λ eras. eras ≡ begun core.now.config ∷ []) }
{
    match Eras::new(alloc, core.state().config().copy()?) {
        Ok(eras) => Ok(eras),
        Err(StateFault::OutOfMemory) => Err(OutOfMemory),
        // A node's configuration keeps all limits.
        Err(StateFault::Fault(_)) => unreachable!(),
    }
}
