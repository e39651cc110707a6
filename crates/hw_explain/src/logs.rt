//! What is explained of a log.

ghost use Rattle.std.specs.Prelude.{◌≡◌, [], IsTrue, IfOk, OnOk};
ghost use Rattle.hw_io.specs.{Faults.{subject_of}, Files.{SameFiles}};
ghost use Rattle.hw_replay.specs.{Replay.{taken_in, ahead_in, TakesAll}, Causes.{HasReplayCause, IsReplayAbout}, Steps.{HasRoom}};
ghost use Rattle.hw_explain.specs.{Told.{HasTold}, Logs.{Explains, ExplainsAll}};

use crate::told::DecisionLines;
use hw_io::Files;
use hw_replay::{Replay, StartFault};
use hw_types::Bytes;
use std::alloc::Global;

/// What is explained of the log under this name: a line for each block that the node of the log decides, made
/// right after the vertex that decided it. The last line is the weight of the faulty where it exceeds the
/// threshold.
///
/// An error says why the replay stopped. The node's memory isn't freed before the process ends.
pub fn explain_log<F: Files>(alloc: Global, files: &mut F, name: &str) -> Result<Bytes, StartFault>
    ensures said { IsTrue F.tells → Explains (F.held files.old name.now) result }
    ensures cause { HasReplayCause (F.read_faults files.old) (F.read_faults files.new) result }
    ensures about { IsTrue F.tells → IsReplayAbout (subject_of (F.held files.old name.now) name.now) (F.faults_about files.old) (F.faults_about files.new) result }

    ensures files { SameFiles (F.held files.old) (F.held files.new) }
    ensures appends { F.append_faults files.new ≡ F.append_faults files.old }
{
    let mut replay = Replay::begin(alloc, files, name, None)?;
    let told = explain_rest(alloc, files, &mut replay);
    replay.core.leave();
    told
}

/// What is explained of a log whose header this replay has just read.
fn explain_rest<F: Files>(
    alloc: Global,
    files: &mut F,
    replay: &mut Replay,
) -> Result<Bytes, StartFault>
    requires empty { replay.old.core.journal ≡ [] }
    requires room { HasRoom replay.old (F.allowance files.old) }
    ensures said { IsTrue F.tells → ExplainsAll (ahead_in replay.old (F.unread files.old)) result }
    ensures cause { HasReplayCause (F.read_faults files.old) (F.read_faults files.new) result }
    ensures about { IsReplayAbout (F.begun files.old) (F.faults_about files.old) (F.faults_about files.new) result }

    ensures files { SameFiles (F.held files.old) (F.held files.new) }
    ensures appends { F.append_faults files.new ≡ F.append_faults files.old }
{
    let mut told = DecisionLines::new(alloc);
    tell_all(files, replay, &mut told)?;
    Ok(told.finish(&replay.core)?)
}

/// Takes all entries that are left, and adds the lines of the blocks that each decides.
fn tell_all<F: Files>(
    files: &mut F,
    replay: &mut Replay,
    told: &mut DecisionLines,
) -> Result<(), StartFault>
    requires told { HasTold told.old replay.old.core }
    requires room { HasRoom replay.old (F.allowance files.old) }
    ensures said { IsTrue F.tells → TakesAll (ahead_in replay.old (F.unread files.old)) (taken_in replay.new) result }
    ensures told { OnOk result (HasTold told.new replay.new.core) }
    ensures cause { HasReplayCause (F.read_faults files.old) (F.read_faults files.new) result }
    ensures about { IsReplayAbout (F.begun files.old) (F.faults_about files.old) (F.faults_about files.new) result }

    ensures files { SameFiles (F.held files.old) (F.held files.new) }
    ensures appends { F.append_faults files.new ≡ F.append_faults files.old }
{
    'entries: while replay.step(files)? {
        told.tell(&replay.core)?;
    }
    Ok(())
}
