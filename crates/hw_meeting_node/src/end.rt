//! How a meeting ends.

ghost use Rattle.std.specs.Prelude.{◌≡◌};
ghost use Rattle.hw_meeting_node.specs.Sessions.{meet_end};

use hw_link::SessionEnd;

/// How a meeting ends.
#[derive(Clone, Copy, Debug, PartialEq, Eq)]
pub enum MeetEnd {
    /// Both sides said Done. This many of the peer's vertices were refused.
    Done { refused: u64 },
    /// The peer's bytes end at a frame's end.
    EndOfInput,
    /// The peer is of another instance.
    WrongInstance,
    /// The frame whose first byte is at this place of the session isn't what is due there.
    BadFrame(u64),
    /// A call of the door failed.
    LinkFault,
    /// The taker couldn't store a vertex.
    AppendFault,
    /// As many bytes were read as a session may have.
    ByteLimit,
    /// Two different units have one digest.
    Clash,
    /// It was out of memory.
    OutOfMemory,
}

/// How a meeting ends, by the end of its session and the count of refused vertices.
pub(crate) fn meet_end(end: SessionEnd, refused: u64) -> MeetEnd
    ensures { result ≡ meet_end end refused }
{
    match end {
        SessionEnd::Done => MeetEnd::Done { refused },
        SessionEnd::EndOfInput => MeetEnd::EndOfInput,
        SessionEnd::WrongInstance => MeetEnd::WrongInstance,
        SessionEnd::BadFrame(place) => MeetEnd::BadFrame(place),
        SessionEnd::LinkFault => MeetEnd::LinkFault,
        SessionEnd::AppendFault => MeetEnd::AppendFault,
        SessionEnd::ByteLimit => MeetEnd::ByteLimit,
        SessionEnd::Clash => MeetEnd::Clash,
        SessionEnd::OutOfMemory => MeetEnd::OutOfMemory,
    }
}
