//! Laws of sessions that are read frame by frame.

ghost use Rattle.std.specs.Prelude.{List};
ghost use Rattle.hw_types.specs.declared.answers.Frame.{Frame};
ghost use Rattle.hw_link.specs.UnderWay.{ReadsFrameByFrame};

/// What a node knows that reads frame by frame, however its reads are cut. Here the node's state is the frames
/// that it heard; the lemma says it of each state.
pub fn frames_are_read_one_by_one()
    ensures { ReadsFrameByFrame (List Frame) }
{}
