//! How a run ends.

ghost use Rattle.std.specs.Prelude.{◌≡◌};
ghost use Rattle.hw_commands.specs.declared.ended.RunFault.TheVariants as RunFaults;

use hw_types::{Bytes, OutOfMemory};

/// All was done.
pub const DONE: u8 = 0;

/// The words aren't in the grammar.
pub const USAGE: u8 = 1;

/// A file's bytes aren't in the grammar that the command needs, or a file that is to be new is there.
pub const INPUT: u8 = 2;

/// Two logs report conflicting final blocks.
pub const CONFLICT: u8 = hw_audit::CONFLICT;

/// A read of the files failed.
pub const READ_FAULT: u8 = 4;

/// A write of the output, or an append to a file, failed.
pub const WRITE_FAULT: u8 = 5;

/// A call of a link failed in a session of a node's run, which went on.
pub const LINK_FAULT: u8 = 6;

/// Out of memory.
pub const OUT_OF_MEMORY: u8 = 7;

/// An entry of a log met a limit, or a vertex or an own unit of a node's run did.
pub const LIMIT: u8 = 8;

/// Two different units have one digest.
pub const CLASH: u8 = 9;

/// No certificate could be made, or one shows nothing.
pub const NO: u8 = 10;

/// How a run ends: its status, and all that it writes.
#[derive(Drop)]
pub struct Ended {
    pub status: u8,
    pub text: Bytes,
}

/// Why a run ends without a text of its own.
#[derive(Clone, Copy, Debug, PartialEq, Eq)]
pub enum RunFault {
    /// A read of the files failed.
    Read,
    /// An append to a file failed.
    Append,
    /// Out of memory.
    OutOfMemory,
}

impl From<OutOfMemory> for RunFault {
    ghost from_gives = { λ _ fault. fault ≡ RunFaults.OutOfMemory };

    fn from(_error: OutOfMemory) -> RunFault {
        RunFault::OutOfMemory
    }
}

/// How a run ends, or the fault that leaves it without a text.
pub type Ending = Result<Ended, RunFault>;
