//! `replay`: the report on a log, whose decided blocks are given to consumers.

ghost use Rattle.std.specs.Prelude.{◌≡◌, ◌≤◌, ◌++◌, None, length, IsTrue, IfOk, IfErr};
ghost use Rattle.hw_io.specs.{Faults.{FailsOrLacks}, Files.{SameFiles}};
ghost use Rattle.hw_replay.specs.{Replay.{taken_in}, Fates.{seen, AreServed}, Told.{IsFinished}, Feed.{file_replayed}, Lines.{drop_lines}};
ghost use Rattle.hw_commands.specs.Faults.{HasReadFault, IsReadEnd};
ghost use Rattle.hw_commands.specs.Due.{FailsDue};
ghost use Rattle.hw_commands.specs.Fed.{first_kept, IsReplayTold, IsReplayText};
ghost use Rattle.hw_commands.specs.Files.{status_of};
ghost use Rattle.hw_commands.specs.Program.{ended, report_of, replay_said};
ghost use Rattle.hw_commands.specs.declared.ended.RunFault.TheVariants as RunFaults;

use crate::ended::{DONE, Ended, Ending};
use crate::faults::stopped;
use hw_explain::report;
use hw_io::{Consumer, Files};
use hw_replay::{Fanout, Replay, put_drops, replay_fed};
use std::alloc::Global;

/// Replays the log under this word, with the consumers as they were handed in, and says how the run ends.
pub fn replay<F: Files>(
    alloc: Global,
    files: &mut F,
    log: &str,
    consumers: &mut Vec<Box<dyn Consumer>>,
) -> Ending
    ensures said { IsTrue F.tells → IfOk result (λ e. e.status ≡ (ended (replay_said (F.held files.old) log.now)).status) }
    ensures text { IsTrue F.tells → IfOk result (λ e. IsReplayText (seen (λ b. consumed b) (λ b. faults b) (λ b. wants b) (λ b. b.vtable)) F.tells (file_replayed None (F.held files.old log.now)) (ended (replay_said (F.held files.old) log.now)) consumers.old.items consumers.new.items e.text) }
    ensures told { IsReplayTold (seen (λ b. consumed b) (λ b. faults b) (λ b. wants b) (λ b. b.vtable)) F.tells (F.held files.old log.now) (status_of result) consumers.old.items consumers.new.items }
    ensures status { IfOk result (λ e. IsReadEnd e.status) }
    ensures fault { HasReadFault (F.read_faults files.old) (F.read_faults files.new) result }
    ensures about { IsTrue F.tells → IfErr result (λ fault. fault ≡ RunFaults.Read → FailsDue (λ h. replay_said h log.now) (F.held files.old) (F.faults_about files.old) (F.faults_about files.new)) }

    ensures files { SameFiles (F.held files.old) (F.held files.new) }
    ensures appends { F.append_faults files.new ≡ F.append_faults files.old }
{
    let mut fanout = Fanout::new(alloc);
    fanout.reserve(consumers.len())?;
    replay_ending(alloc, files, log, &mut fanout, consumers)
}

/// The same, where there is room for the consumers.
fn replay_ending<F: Files>(
    alloc: Global,
    files: &mut F,
    log: &str,
    fanout: &mut Fanout,
    consumers: &mut Vec<Box<dyn Consumer>>,
) -> Ending
    requires { fanout.old ≡ first_kept consumers.old.items }
    ensures said { IsTrue F.tells → IfOk result (λ e. e.status ≡ (ended (replay_said (F.held files.old) log.now)).status) }
    ensures text { IsTrue F.tells → IfOk result (λ e. IsReplayText (seen (λ b. consumed b) (λ b. faults b) (λ b. wants b) (λ b. b.vtable)) F.tells (file_replayed None (F.held files.old log.now)) (ended (replay_said (F.held files.old) log.now)) consumers.old.items consumers.new.items e.text) }
    ensures told { IsReplayTold (seen (λ b. consumed b) (λ b. faults b) (λ b. wants b) (λ b. b.vtable)) F.tells (F.held files.old log.now) (status_of result) consumers.old.items consumers.new.items }
    ensures status { IfOk result (λ e. IsReadEnd e.status) }
    ensures fault { HasReadFault (F.read_faults files.old) (F.read_faults files.new) result }
    ensures about { IsTrue F.tells → IfErr result (λ fault. fault ≡ RunFaults.Read → FailsOrLacks (F.held files.old log.now) log.now (F.faults_about files.old) (F.faults_about files.new)) }

    ensures files { SameFiles (F.held files.old) (F.held files.new) }
    ensures appends { F.append_faults files.new ≡ F.append_faults files.old }
{
    match replay_fed(alloc, files, log, None, fanout, consumers) {
        Ok(replay) => {
            let ended = reported(alloc, &replay, fanout, consumers);
            // The run ends with this text, and so does the process.
            replay.core.leave();
            ended
        }
        Err(fault) => stopped(alloc, log, fault),
    }
}

/// Finishes the consumers, and makes the report on what a replay left. The consumers that were dropped are
/// named after it.
fn reported(
    alloc: Global,
    replay: &Replay,
    fanout: &mut Fanout,
    consumers: &mut Vec<Box<dyn Consumer>>,
) -> Ending
    requires { length consumers.old.items ≤ length fanout.old.places }
    ensures finished { AreServed (IsFinished (seen (λ b. consumed b) (λ b. faults b) (λ b. wants b) (λ b. b.vtable))) consumers.old.items consumers.new.items fanout.old fanout.new }
    ensures text { IfOk result (λ e. e ≡ record { status = 0; text = report_of (taken_in replay.now) ++ drop_lines fanout.new.drops }) }
    ensures fault { IfErr result (λ fault. fault ≡ RunFaults.OutOfMemory) }
{
    fanout.finish(consumers);
    let mut text = report(alloc, &replay.core, replay.refused, replay.repeats)?;
    put_drops(&mut text, fanout)?;
    Ok(Ended { status: DONE, text })
}
