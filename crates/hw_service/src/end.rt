//! The end of a meeting as that of a session.

ghost use Rattle.std.specs.Prelude.{◌≡◌};
ghost use Rattle.hw_service.specs.Ends.{session_end};

use hw_meeting_node::MeetEnd;
use hw_session::SessionEnd;

/// The end of the session whose meeting has this end.
pub(crate) fn session_end(end: MeetEnd) -> SessionEnd
    ensures { result ≡ session_end end }
{
    match end {
        MeetEnd::Done { .. } => SessionEnd::Done,
        MeetEnd::EndOfInput => SessionEnd::EndOfInput,
        MeetEnd::WrongInstance => SessionEnd::WrongInstance,
        MeetEnd::BadFrame(place) => SessionEnd::BadFrame(place),
        MeetEnd::LinkFault => SessionEnd::LinkFault,
        MeetEnd::AppendFault => SessionEnd::AppendFault,
        MeetEnd::ByteLimit => SessionEnd::ByteLimit,
        MeetEnd::Clash => SessionEnd::Clash,
        MeetEnd::OutOfMemory => SessionEnd::OutOfMemory,
    }
}
