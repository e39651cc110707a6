//! Replays that give consumers the decided blocks, entry by entry.

ghost use Rattle.std.specs.{Prelude.{◌≡◌, ◌≤◌, true, [], length, All, IsTrue, IfOk, IfErr, IfSome, OnOk}, Option.{option_copied}};
ghost use Rattle.hw_io.specs.{Faults.{subject_of}, Files.{SameFiles}};
ghost use Rattle.hw_types.specs.Spelling.{ConfigFits};
ghost use Rattle.hw_replay.specs.Replay.{is_wanted, taken_in, ahead_in, TakesAll, Replays};
ghost use Rattle.hw_replay.specs.Causes.{HasReplayCause, IsReplayAbout};
ghost use Rattle.hw_replay.specs.Steps.{HasRoom};
ghost use Rattle.hw_replay.specs.Ends.{lasts_of_file, lasts_ahead, IsReached};
ghost use Rattle.hw_replay.specs.Fates.{seen};
ghost use Rattle.hw_replay.specs.Chain.{told_chain};
ghost use Rattle.hw_replay.specs.Told.{HasTaken};
ghost use Rattle.hw_replay.specs.Midway.{midway_in, file_begun};
ghost use Rattle.hw_replay.specs.Feed.{moment, first_moment, AreFed, AreFedSome, AreFedTo, AreFedPart, file_replayed};

use crate::{Fanout, Replay, StartFault};
use hw_io::{Consumer, Files};
use hw_types::Config;
use std::alloc::Global;

/// Replays the log under this name, and gives the consumers the new decided blocks after each entry.
///
/// Where a configuration is wanted, the log's is compared with it as soon as its header was read. Room for the
/// consumers is reserved in the fanout, which has passed nothing on yet. A consumer that answers an error is
/// dropped and leaves the list. None is finished here: the caller does that.
///
/// An error says why the replay stopped.
pub fn replay_fed<F: Files>(
    alloc: Global,
    files: &mut F,
    name: &str,
    wanted: Option<&Config>,
    fanout: &mut Fanout,
    consumers: &mut Vec<Box<dyn Consumer>>,
) -> Result<Replay, StartFault>
    requires wanted { IfSome wanted (λ config. ConfigFits config.now) }
    requires room { length consumers.old.items ≤ length fanout.old.places }
    requires passed { fanout.old.passed ≡ 0 }
    ensures said { IsTrue F.tells → Replays (option_copied wanted.entry) (F.held files.old name.now) result }
    ensures lasts { IsTrue F.tells → IfOk result (λ r. lasts_of_file (F.held files.old name.now) ≡ Some r.reader.lasts) }
    ensures reached { IfOk result (λ r. IsReached r.core) }
    ensures wanted { IfOk result (λ r. is_wanted (option_copied wanted.entry) r.core.config ≡ true) }

    // What the consumers took.
    ensures fed { IfOk result (λ r. AreFed (seen (λ b. consumed b) (λ b. faults b) (λ b. wants b) (λ b. b.vtable)) (first_moment r.core.config consumers.old.items fanout.old) (moment r.core consumers.new.items fanout.new)) }
    ensures whole { All (λ b. HasTaken [] 0 (consumed b)) consumers.old.items → IfOk result (λ r. All (λ b. HasTaken (told_chain r.core) (length (told_chain r.core)) (consumed b)) consumers.new.items) }
    ensures stopped { IfErr result (λ e. AreFedSome (seen (λ b. consumed b) (λ b. faults b) (λ b. wants b) (λ b. b.vtable)) F.tells (file_replayed (option_copied wanted.entry) (F.held files.old name.now)) consumers.old.items consumers.new.items fanout.old fanout.new) }
    // A replay that stops has passed on what the entries before the one that stops it decide, and nothing of
    // what comes after. Where a read or memory fails, it has passed on what some first entries decide.
    ensures part { IfErr result (λ e. AreFedPart (seen (λ b. consumed b) (λ b. faults b) (λ b. wants b) (λ b. b.vtable)) F.tells (file_begun (option_copied wanted.entry) (F.held files.old name.now)) e consumers.old.items consumers.new.items fanout.old fanout.new) }
    ensures room { length consumers.new.items ≤ length fanout.new.places }

    ensures cause { HasReplayCause (F.read_faults files.old) (F.read_faults files.new) result }
    ensures about { IsTrue F.tells → IsReplayAbout (subject_of (F.held files.old name.now) name.now) (F.faults_about files.old) (F.faults_about files.new) result }

    ensures files { SameFiles (F.held files.old) (F.held files.new) }
    ensures appends { F.append_faults files.new ≡ F.append_faults files.old }
{
    let mut replay = Replay::begin(alloc, files, name, wanted)?;
    feed_all(files, &mut replay, fanout, consumers)?;
    Ok(replay)
}

/// Takes all entries that are left, and gives the consumers the new decided blocks after each.
#[tactic(auto, using(crate::proofs::EndLaws::grown_config))]
fn feed_all<F: Files>(
    files: &mut F,
    replay: &mut Replay,
    fanout: &mut Fanout,
    consumers: &mut Vec<Box<dyn Consumer>>,
) -> Result<(), StartFault>
    requires replay { HasRoom replay.old (F.allowance files.old) }
    requires room { length consumers.old.items ≤ length fanout.old.places }
    requires passed { fanout.old.passed ≡ length (told_chain replay.old.core) }
    ensures said { IsTrue F.tells → TakesAll (ahead_in replay.old (F.unread files.old)) (taken_in replay.new) result }
    ensures lasts { IsTrue F.tells → OnOk result (lasts_ahead replay.old (F.unread files.old) ≡ replay.new.reader.lasts) }
    ensures reached { IsReached replay.old.core → IsReached replay.new.core }
    ensures config { replay.new.core.config ≡ replay.old.core.config }

    ensures fed { OnOk result (AreFed (seen (λ b. consumed b) (λ b. faults b) (λ b. wants b) (λ b. b.vtable)) (moment replay.old.core consumers.old.items fanout.old) (moment replay.new.core consumers.new.items fanout.new)) }
    ensures whole { All (λ b. HasTaken (told_chain replay.old.core) fanout.old.passed (consumed b)) consumers.old.items → All (λ b. HasTaken (told_chain replay.new.core) fanout.new.passed (consumed b)) consumers.new.items }
    ensures passed { OnOk result (fanout.new.passed ≡ length (told_chain replay.new.core)) }
    ensures part { IfErr result (λ e. AreFedTo (seen (λ b. consumed b) (λ b. faults b) (λ b. wants b) (λ b. b.vtable)) F.tells (Some (midway_in replay.old (F.unread files.old))) e (λ core. moment replay.old.core consumers.old.items fanout.old) consumers.new.items fanout.new) }
    ensures room { length consumers.new.items ≤ length fanout.new.places }

    ensures cause { HasReplayCause (F.read_faults files.old) (F.read_faults files.new) result }
    ensures about { IsReplayAbout (F.begun files.old) (F.faults_about files.old) (F.faults_about files.new) result }

    ensures files { SameFiles (F.held files.old) (F.held files.new) }
    ensures appends { F.append_faults files.new ≡ F.append_faults files.old }
{
    'entries: while replay.step(files)? {
        fanout.pass(consumers, &replay.core);
    }
    Ok(())
}
