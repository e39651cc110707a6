//! Laws of meetings.

ghost use Rattle.hw_meeting_node.specs.Laws.{MeetingsTake, MeetingsTakeTheFirst, MeetingsSayWhatStood, MeetingsAreDone, MeetingsAreComplete, MeetingsSayInRange, MeetingsConverge, MetNodesAreOne};

/// What a node has received after whatever bytes of a peer, by the vertices that it took of them. These are the
/// first that the peer sends.
pub fn meetings_take()
    ensures take { MeetingsTake }
    ensures first { MeetingsTakeTheFirst }
{}

/// What a node says in a meeting, whatever bytes a peer sends: no vertex but those of its journal before it.
pub fn meetings_say_what_stood()
    ensures { MeetingsSayWhatStood }
{}

/// What was heard and said in a meeting that ended as done, and what the node has then. A meeting ends so where
/// the peer sends what is due and nothing fails.
pub fn meetings_are_done()
    ensures done { MeetingsAreDone }
    ensures complete { MeetingsAreComplete }
{}

/// What a node says in a meeting that ended as done is in the ranges of its types, where its journal is. The
/// journal of each node that a caller has is in range.
pub fn meetings_say_what_is_in_range()
    ensures { MeetingsSayInRange }
{}

/// Two nodes met, each read what the other wrote, and nothing was refused. Then their journals say the same and
/// leave one state, or two different units of one digest are in the two.
pub fn meetings_converge()
    ensures converge { MeetingsConverge }
    ensures states { MetNodesAreOne }
{}
