//! Frames of nodes that meet.

ghost use Rattle.std.specs.Prelude.{◌≡◌};
ghost use Rattle.hw_meeting.specs.declared.frame.FrameError.TheVariants as Faults;

use hw_agree::LaneSummary;
use hw_types::{Digest, IndexList, Items, OutOfMemory, Vertex};

/// What a node says of each validator, in their order.
pub type SummaryList = Items<LaneSummary>;

/// What two nodes that meet say to each other.
#[derive(Drop)]
pub enum MeetingFrame {
    /// The instance that the sender is of.
    Hello(Digest),
    /// A vertex that the sender owes.
    Vertex(Vertex),
    /// What the sender has of each validator.
    Summary(SummaryList),
    /// The validators that are torn for the sender, in rising order.
    Torn(IndexList),
    /// The sender has nothing more to say.
    Done,
}

/// Why bytes are no frame.
#[derive(Clone, Copy, Debug, PartialEq, Eq)]
pub enum FrameError {
    /// They spell none.
    Form,
    /// It was out of memory.
    OutOfMemory,
}

impl From<OutOfMemory> for FrameError {
    ghost from_gives = { λ _ fault. fault ≡ Faults.OutOfMemory };

    fn from(_error: OutOfMemory) -> FrameError {
        FrameError::OutOfMemory
    }
}
