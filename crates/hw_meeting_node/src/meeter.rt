//! What a node keeps of a meeting.

ghost use Rattle.std.specs.Prelude.{◌≡◌, ◌≤◌, length, IfOk};
ghost use Rattle.hw_meeting_node.specs.{Meeting.{begun}, Handling.{meeting_of, IsKept}};

use hw_core::Core;
use hw_meeting::{PlaceList, SummaryList, summary_of};
use hw_types::OutOfMemory;
use std::alloc::Global;

/// Which of two nodes that meet a node is.
#[derive(Clone, Copy, Debug, PartialEq, Eq)]
pub enum Side {
    /// It dialled, and speaks first.
    Caller,
    /// It was dialled.
    Host,
}

/// What a node waits for that meets another.
#[derive(Clone, Copy, Debug, PartialEq, Eq)]
pub(crate) enum Stage {
    /// The other's Hello.
    Greeting,
    /// What the other has of each validator.
    Telling,
    /// The validators that are torn for the other.
    Tearing,
    /// Vertices up to a Done.
    Taking,
}

/// What a node keeps of a meeting.
#[derive(Drop)]
pub(crate) struct Meeter {
    pub(crate) stage: Stage,
    /// What it has of each validator.
    pub(crate) mine: SummaryList,
    /// What the other has of each validator, once it said so.
    pub(crate) theirs: SummaryList,
    /// The places in the journal of what it owes the other, once that is known.
    pub(crate) due: PlaceList,
    /// How many vertices of the other it refused.
    pub(crate) refused: u64,
}

/// A node that begins to meet another.
pub(crate) fn begin(alloc: Global, core: &Core) -> Result<Meeter, OutOfMemory>
    ensures begins { IfOk result (λ meeter. meeting_of meeter core.now ≡ begun core.now) }
    ensures kept { IfOk result (λ meeter. IsKept meeter core.now) }
{
    Ok(Meeter {
        stage: Stage::Greeting,
        mine: summary_of(alloc, core)?,
        theirs: SummaryList::new(alloc),
        due: PlaceList::new(alloc),
        refused: 0,
    })
}

/// How many validators the node's configuration has.
pub(crate) fn validators(core: &Core) -> u32
    ensures count { result ≡ length core.now.config.weights }
    ensures few { result ≤ 1024 }
{
    core.state().config().weights.len() as u32
}
