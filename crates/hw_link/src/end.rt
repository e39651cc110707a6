//! How a session ends.

ghost use Rattle.std.specs.Prelude.{◌≡◌, ℕ, ◌+◌, ◌<◌, ◌^◌, List, length};
ghost use Rattle.hw_link.specs.{Frames.{rest_at, cut_end}, Links.{end_of_fault}};
ghost use Rattle.hw_link.specs.declared.end.SessionEnd.TheVariants as end;

use hw_io::IoFault;
use hw_types::OutOfMemory;
use std::alloc::AllocError;

/// How many bytes are read in one session: 268,435,456.
pub const BYTE_LIMIT: u64 = 268_435_456;

/// How a session ends.
#[derive(Clone, Copy, Debug, PartialEq, Eq)]
pub enum SessionEnd {
    /// Both sides said Done.
    Done,
    /// The peer's bytes end at a frame's end.
    EndOfInput,
    /// The peer is of another instance.
    WrongInstance,
    /// The frame whose first byte is at this place of the session isn't what is due there.
    BadFrame(u64),
    /// A call of the door failed.
    LinkFault,
    /// An append to the log failed.
    AppendFault,
    /// As many bytes were read as a session may have.
    ByteLimit,
    /// Two different units have one digest.
    Clash,
    /// It was out of memory.
    OutOfMemory,
}

impl From<OutOfMemory> for SessionEnd {
    ghost from_gives = { λ _ e. e ≡ end.OutOfMemory };

    fn from(_error: OutOfMemory) -> SessionEnd {
        SessionEnd::OutOfMemory
    }
}

impl From<AllocError> for SessionEnd {
    ghost from_gives = { λ _ e. e ≡ end.OutOfMemory };

    fn from(_error: AllocError) -> SessionEnd {
        SessionEnd::OutOfMemory
    }
}

impl From<IoFault> for SessionEnd {
    ghost from_gives = { λ fault e. e ≡ end_of_fault fault };

    fn from(fault: IoFault) -> SessionEnd {
        match fault {
            IoFault::Failed => SessionEnd::LinkFault,
            IoFault::OutOfMemory => SessionEnd::OutOfMemory,
        }
    }
}

/// How a session ends whose bytes end this many bytes after the place where a frame begins.
pub(crate) fn cut_end(place: u64, count: usize) -> SessionEnd
    requires { place + count < 2 ^ 64 }
    ensures { (part : List ℕ) → length part ≡ count → result ≡ cut_end (rest_at place part) }
{
    if place + count as u64 >= BYTE_LIMIT {
        SessionEnd::ByteLimit
    } else if count == 0 {
        SessionEnd::EndOfInput
    } else {
        SessionEnd::BadFrame(place)
    }
}
