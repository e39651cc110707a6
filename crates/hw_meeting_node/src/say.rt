//! What a node says at a meeting.

ghost use Rattle.std.specs.Prelude.{◌≡◌, ◌<◌, [], ◌∷◌, true, length, filter_map, slice_get, All};
ghost use Rattle.hw_types.specs.Spelling.{VertexFits};
ghost use Rattle.hw_link.specs.{Links.{IsLinkCounted}, Sent.{Sends, OnlySends}};
ghost use Rattle.hw_meeting.specs.Frames.{IsSaid};
ghost use Rattle.hw_meeting.specs.declared.frame.MeetingFrame.TheVariants as frame;
ghost use Rattle.hw_meeting_node.specs.{Frames.{sent_bytes}, Meeting.{told_of, hello, summary, torn, all_due}};

use crate::meeter::validators;
use crate::send_meeting;
use hw_core::Core;
use hw_io::Door;
use hw_link::SessionEnd;
use hw_meeting::{LaneSummary, MeetingFrame, SummaryList, torn_for};
use hw_types::Vertex;
use std::alloc::Global;

/// Says Hello.
pub(crate) fn say_hello<D: Door>(alloc: Global, core: &Core, door: &mut D) -> Result<(), SessionEnd>
    requires open { D.is_open door.old ≡ true }
    ensures sent { Sends (sent_bytes (hello core.now)) (D.sessions door.old) (D.sessions door.new) result }
    ensures cause { IsLinkCounted (D.faults door.old) (D.faults door.new) result }
    ensures rest { OnlySends D.Door door.old door.new }
{
    send(alloc, core, door, &MeetingFrame::Hello(*core.instance()))
}

/// Says what the node has of each validator.
pub(crate) fn say_summary<D: Door>(
    alloc: Global,
    core: &Core,
    door: &mut D,
    mine: &SummaryList,
) -> Result<(), SessionEnd>
    requires mine { mine.now ≡ told_of core.now }
    requires open { D.is_open door.old ≡ true }
    ensures sent { Sends (sent_bytes (summary core.now)) (D.sessions door.old) (D.sessions door.new) result }
    ensures cause { IsLinkCounted (D.faults door.old) (D.faults door.new) result }
    ensures rest { OnlySends D.Door door.old door.new }
{
    let parts = mine.copy()?;
    send(alloc, core, door, &MeetingFrame::Summary(parts))
}

/// Says which validators are torn for the node, by the other's summary.
pub(crate) fn say_torn<D: Door>(
    alloc: Global,
    core: &Core,
    door: &mut D,
    mine: &[LaneSummary],
    theirs: &[LaneSummary],
) -> Result<(), SessionEnd>
    requires mine { mine.now ≡ told_of core.now }
    requires open { D.is_open door.old ≡ true }
    ensures sent { Sends (sent_bytes (torn core.now theirs.now)) (D.sessions door.old) (D.sessions door.new) result }
    ensures cause { IsLinkCounted (D.faults door.old) (D.faults door.new) result }
    ensures rest { OnlySends D.Door door.old door.new }
{
    let torn = torn_for(alloc, core, mine, theirs)?;
    send(alloc, core, door, &MeetingFrame::Torn(torn))
}

/// Sends the vertices at these places of the journal, and then Done.
pub(crate) fn say_due<D: Door>(
    alloc: Global,
    core: &Core,
    door: &mut D,
    places: &[u64],
) -> Result<(), SessionEnd>
    requires within { All (λ place. place < length core.now.journal) places.now }
    requires open { D.is_open door.old ≡ true }
    ensures sent { Sends (sent_bytes (all_due (filter_map (slice_get core.now.journal) places.now))) (D.sessions door.old) (D.sessions door.new) result }
    ensures cause { IsLinkCounted (D.faults door.old) (D.faults door.new) result }
    ensures rest { OnlySends D.Door door.old door.new }
{
    for place in places {
        send_vertex(alloc, core, door, core.journal_at(*place))?;
    }
    send(alloc, core, door, &MeetingFrame::Done)
}

/// Sends a vertex.
fn send_vertex<D: Door>(
    alloc: Global,
    core: &Core,
    door: &mut D,
    vertex: &Vertex,
) -> Result<(), SessionEnd>
    requires fits { VertexFits vertex.now }
    requires open { D.is_open door.old ≡ true }
    ensures sent { Sends (sent_bytes (frame.Vertex vertex.now ∷ [])) (D.sessions door.old) (D.sessions door.new) result }
    ensures cause { IsLinkCounted (D.faults door.old) (D.faults door.new) result }
    ensures rest { OnlySends D.Door door.old door.new }
{
    let copy = vertex.copy()?;
    send(alloc, core, door, &MeetingFrame::Vertex(copy))
}

/// Sends a frame, which fits the number of the node's validators.
fn send<D: Door>(
    alloc: Global,
    core: &Core,
    door: &mut D,
    frame: &MeetingFrame,
) -> Result<(), SessionEnd>
    requires said { IsSaid (length core.now.config.weights) frame.now }
    requires open { D.is_open door.old ≡ true }
    ensures sent { Sends (sent_bytes (frame.now ∷ [])) (D.sessions door.old) (D.sessions door.new) result }
    ensures cause { IsLinkCounted (D.faults door.old) (D.faults door.new) result }
    ensures rest { OnlySends D.Door door.old door.new }
{
    send_meeting(alloc, door, validators(core), frame)
}
