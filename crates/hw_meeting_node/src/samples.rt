//! Frames in a peer's bytes, by the definitions.

ghost use Rattle.hw_meeting_node.specs.Samples.{ThatASummaryIsHeard, ThatBytesEnd};

/// Which frames small bytes have.
pub fn small_frames_are_heard()
    ensures heard { ThatASummaryIsHeard }
    ensures end { ThatBytesEnd }
{}
