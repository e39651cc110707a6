//! Passes while a log is replayed.

ghost use Rattle.std.specs.Prelude.{◌≤◌, ◌<◌, IsTrue, length};
ghost use Rattle.hw_doubles.specs.Memory.{mem_allowance};
ghost use Rattle.hw_log.specs.Reader.{ahead_of};
ghost use Rattle.hw_replay.specs.{Replay.{GrowsByOne}, Steps.{HasRoom}, Chain.{told_chain}};

use hw_core::Core;
use hw_doubles::MemFiles;
use hw_io::Consumer;
use hw_replay::{Fanout, Replay};

/// Passes the decided blocks on after each entry of the log that is left, or after the last one, and then
/// tells the consumers that no block follows.
pub fn pass_along(
    files: &mut MemFiles,
    replay: &mut Replay,
    fanout: &mut Fanout,
    consumers: &mut Vec<Box<dyn Consumer>>,
    each: bool,
)
    requires replay { HasRoom replay.old (mem_allowance files.old) }
    requires room { length consumers.old.items ≤ length fanout.old.places }
    requires passed { fanout.old.passed ≤ length (told_chain replay.old.core) }
{
    'entries: while goes_on(files, replay) {
        pass_if(each, fanout, consumers, &replay.core);
    }
    pass_if(true, fanout, consumers, &replay.core);
    fanout.finish(consumers);
}

/// Takes the next entry, and answers whether there was one that could be taken.
fn goes_on(files: &mut MemFiles, replay: &mut Replay) -> bool
    requires { HasRoom replay.old (mem_allowance files.old) }
    ensures grows { GrowsByOne replay.old.core replay.new.core }
    ensures room { IsTrue result → HasRoom replay.new (mem_allowance files.new) }
    ensures nearer { IsTrue result → ahead_of replay.new.reader (mem_allowance files.new) < ahead_of replay.old.reader (mem_allowance files.old) }
{
    match replay.step(files) {
        Ok(more) => more,
        Err(_) => false,
    }
}

/// Passes the decided blocks on, if it is to be.
fn pass_if(is_due: bool, fanout: &mut Fanout, consumers: &mut Vec<Box<dyn Consumer>>, core: &Core)
    requires room { length consumers.old.items ≤ length fanout.old.places }
    requires passed { fanout.old.passed ≤ length (told_chain core.now) }
    ensures room { length consumers.new.items ≤ length fanout.new.places }
    ensures passed { fanout.new.passed ≤ length (told_chain core.now) }
{
    if is_due {
        fanout.pass(consumers, core);
    }
}
