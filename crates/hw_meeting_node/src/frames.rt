//! What a node does at a frame of the node that it meets.

ghost use Rattle.std.specs.Prelude.{◌≡◌, ◌<◌, ℕ, List, Option, Some, true, length, filter_map, slice_get, All, OnOk, IfOk};
ghost use Rattle.hw_types.specs.Spelling.{VertexFits};
ghost use Rattle.hw_io.specs.Doors.{Session};
ghost use Rattle.hw_link.specs.{Links.{IsLinkCounted}, Sent.{Sends, OnlySends}};
ghost use Rattle.hw_meeting_node.specs.Frames.{sent_bytes};
ghost use Rattle.hw_meeting_node.specs.Meeting.{told_of, owed_by, to_hello, to_summary, to_torn, greeted, told, given_torn, given_vertex, finished};
ghost use Rattle.hw_meeting_node.specs.Handling.{meeting_of, IsKept, Reacts, IsTakerCounted};
ghost use Rattle.hw_meeting_node.specs.Taking.{TakesOf};
ghost use Rattle.hw_meeting_node.specs.declared.meeter.Stage.TheVariants as stage;

use crate::meeter::{Meeter, Side, Stage};
use crate::say::{say_due, say_hello, say_summary, say_torn};
use crate::taker::{TakeFault, Taker};
use hw_core::Core;
use hw_io::Door;
use hw_link::SessionEnd;
use hw_meeting::{LaneSummary, PlaceList, SummaryList, due_places, torn_for};
use hw_types::{Cause, Digest, IndexList, OutOfMemory, Vertex};
use std::alloc::Global;

/// Handles the other's Hello, which is of the own instance.
#[tactic(auto, using(crate::proofs::ReactLaws::sent_unstored))]
pub(crate) fn at_hello<D: Door>(
    alloc: Global,
    core: &Core,
    door: &mut D,
    meeter: &mut Meeter,
    side: Side,
    other: Digest,
) -> Result<(), SessionEnd>
    requires stage { meeter.old.stage ≡ stage.Greeting }
    requires kept { IsKept meeter.old core.now }
    requires open { D.is_open door.old ≡ true }
    ensures reacts { Reacts core.now (greeted side (meeting_of meeter.old core.now) other) (meeting_of meeter.new core.now) (D.sessions door.old) (D.sessions door.new) result }
    ensures kept { OnOk result (IsKept meeter.new core.now) }
    ensures cause { IsLinkCounted (D.faults door.old) (D.faults door.new) result }
    ensures stored { (count : ℕ) → IsTakerCounted count count result }
    ensures rest { OnlySends D.Door door.old door.new }
{
    if other == *core.instance() {
        meeter.stage = Stage::Telling;
        answer_hello(alloc, core, door, side, &meeter.mine)
    } else {
        Err(SessionEnd::WrongInstance)
    }
}

/// Answers a Hello: the caller says what it has of each validator, the host says Hello.
fn answer_hello<D: Door>(
    alloc: Global,
    core: &Core,
    door: &mut D,
    side: Side,
    mine: &SummaryList,
) -> Result<(), SessionEnd>
    requires mine { mine.now ≡ told_of core.now }
    requires open { D.is_open door.old ≡ true }
    ensures sent { Sends (sent_bytes (to_hello side core.now)) (D.sessions door.old) (D.sessions door.new) result }
    ensures cause { IsLinkCounted (D.faults door.old) (D.faults door.new) result }
    ensures rest { OnlySends D.Door door.old door.new }
{
    match side {
        Side::Caller => say_summary(alloc, core, door, mine),
        Side::Host => say_hello(alloc, core, door),
    }
}

/// Handles what the other has of each validator.
#[tactic(auto, using(crate::proofs::ReactLaws::sent_unstored))]
pub(crate) fn at_summary<D: Door>(
    alloc: Global,
    core: &Core,
    door: &mut D,
    meeter: &mut Meeter,
    side: Side,
    theirs: SummaryList,
) -> Result<(), SessionEnd>
    requires stage { meeter.old.stage ≡ stage.Telling }
    requires kept { IsKept meeter.old core.now }
    requires open { D.is_open door.old ≡ true }
    ensures reacts { Reacts core.now (told side (meeting_of meeter.old core.now) theirs) (meeting_of meeter.new core.now) (D.sessions door.old) (D.sessions door.new) result }
    ensures kept { OnOk result (IsKept meeter.new core.now) }
    ensures cause { IsLinkCounted (D.faults door.old) (D.faults door.new) result }
    ensures stored { (count : ℕ) → IsTakerCounted count count result }
    ensures rest { OnlySends D.Door door.old door.new }
{
    let answer = answer_summary(alloc, core, door, side, &meeter.mine, theirs.as_slice());
    meeter.theirs = theirs;
    meeter.stage = Stage::Tearing;
    answer
}

/// Answers a summary: the caller says which validators are torn for it, the host what it has of each.
fn answer_summary<D: Door>(
    alloc: Global,
    core: &Core,
    door: &mut D,
    side: Side,
    mine: &SummaryList,
    theirs: &[LaneSummary],
) -> Result<(), SessionEnd>
    requires mine { mine.now ≡ told_of core.now }
    requires open { D.is_open door.old ≡ true }
    ensures sent { Sends (sent_bytes (to_summary side core.now theirs.now)) (D.sessions door.old) (D.sessions door.new) result }
    ensures cause { IsLinkCounted (D.faults door.old) (D.faults door.new) result }
    ensures rest { OnlySends D.Door door.old door.new }
{
    match side {
        Side::Caller => say_torn(alloc, core, door, mine.as_slice(), theirs),
        Side::Host => say_summary(alloc, core, door, mine),
    }
}

/// Handles the validators that are torn for the other. From then on it is known what is owed.
#[tactic(auto, using(crate::proofs::ReactLaws::sent_unstored))]
pub(crate) fn at_torn<D: Door>(
    alloc: Global,
    core: &Core,
    door: &mut D,
    meeter: &mut Meeter,
    side: Side,
    torn: &[u32],
) -> Result<(), SessionEnd>
    requires stage { meeter.old.stage ≡ stage.Tearing }
    requires kept { IsKept meeter.old core.now }
    requires open { D.is_open door.old ≡ true }
    ensures reacts { Reacts core.now (given_torn side (meeting_of meeter.old core.now) torn.now) (meeting_of meeter.new core.now) (D.sessions door.old) (D.sessions door.new) result }
    ensures kept { OnOk result (IsKept meeter.new core.now) }
    ensures cause { IsLinkCounted (D.faults door.old) (D.faults door.new) result }
    ensures stored { (count : ℕ) → IsTakerCounted count count result }
    ensures rest { OnlySends D.Door door.old door.new }
{
    let due = owed(
        alloc,
        core,
        meeter.mine.as_slice(),
        meeter.theirs.as_slice(),
        torn,
    )?;
    meeter.due = due;
    meeter.stage = Stage::Taking;
    answer_torn(alloc, core, door, side, meeter)
}

/// The places of what the node owes the other, for which these validators are torn.
fn owed(
    alloc: Global,
    core: &Core,
    mine: &[LaneSummary],
    theirs: &[LaneSummary],
    torn: &[u32],
) -> Result<PlaceList, OutOfMemory>
    requires mine { mine.now ≡ told_of core.now }
    ensures owed { IfOk result (λ places. filter_map (slice_get core.now.journal) places ≡ owed_by core.now theirs.now torn.now) }
    ensures within { IfOk result (λ places. All (λ place. place < length core.now.journal) places) }
{
    let mut all = torn_for(alloc, core, mine, theirs)?;
    all.extend(torn)?;
    due_places(
        alloc,
        core,
        core.journal_count(),
        all.as_slice(),
        mine,
        theirs,
    )
}

/// Answers the validators that are torn for the other: the caller sends what it owes, the host says which
/// are torn for it.
fn answer_torn<D: Door>(
    alloc: Global,
    core: &Core,
    door: &mut D,
    side: Side,
    meeter: &Meeter,
) -> Result<(), SessionEnd>
    requires mine { meeter.now.mine ≡ told_of core.now }
    requires within { All (λ place. place < length core.now.journal) meeter.now.due }
    requires open { D.is_open door.old ≡ true }
    ensures sent { Sends (sent_bytes (to_torn side core.now meeter.now.theirs (filter_map (slice_get core.now.journal) meeter.now.due))) (D.sessions door.old) (D.sessions door.new) result }
    ensures cause { IsLinkCounted (D.faults door.old) (D.faults door.new) result }
    ensures rest { OnlySends D.Door door.old door.new }
{
    match side {
        Side::Caller => say_due(alloc, core, door, meeter.due.as_slice()),
        Side::Host => say_torn(
            alloc,
            core,
            door,
            meeter.mine.as_slice(),
            meeter.theirs.as_slice(),
        ),
    }
}

/// Handles the other's Done, which ends the session: the host first sends what it owes.
#[tactic(auto, using(crate::proofs::ReactLaws::sent_unstored))]
pub(crate) fn at_done<D: Door>(
    alloc: Global,
    core: &Core,
    door: &mut D,
    meeter: &Meeter,
    side: Side,
) -> Result<(), SessionEnd>
    requires kept { IsKept meeter.now core.now }
    requires open { D.is_open door.old ≡ true }
    ensures reacts { Reacts core.now (finished side (meeting_of meeter.now core.now)) (meeting_of meeter.now core.now) (D.sessions door.old) (D.sessions door.new) result }
    ensures cause { IsLinkCounted (D.faults door.old) (D.faults door.new) result }
    ensures stored { (count : ℕ) → IsTakerCounted count count result }
    ensures rest { OnlySends D.Door door.old door.new }
{
    match side {
        Side::Caller => Err(SessionEnd::Done),
        Side::Host => {
            say_due(alloc, core, door, meeter.due.as_slice())?;
            Err(SessionEnd::Done)
        }
    }
}

/// Takes a vertex of the other. A refused one is counted, and a clash ends the session.
pub(crate) fn at_vertex<T: Taker>(
    taker: &mut T,
    meeter: &mut Meeter,
    vertex: Vertex,
) -> Result<(), SessionEnd>
    requires fits { VertexFits vertex }
    requires stage { meeter.old.stage ≡ stage.Taking }
    requires kept { IsKept meeter.old (T.received taker.old) }
    ensures reacts { (sessions : Option (List Session)) → Reacts (T.received taker.old) (given_vertex (T.verdict taker.old) (meeting_of meeter.old (T.received taker.old)) vertex) (meeting_of meeter.new (T.received taker.new)) sessions sessions result }
    ensures kept { OnOk result (IsKept meeter.new (T.received taker.new)) }
    ensures takes { TakesOf T.steps (Some vertex) taker.old taker.new result }
    ensures cause { IsTakerCounted (T.faults taker.old) (T.faults taker.new) result }
    ensures link { (count : ℕ) → IsLinkCounted count count result }

    ensures config { (T.received taker.new).config ≡ (T.received taker.old).config }
    ensures verdict { T.verdict taker.new ≡ T.verdict taker.old }
    ensures holds { T.holds taker.new ≡ T.holds taker.old }
{
    match taker.take(vertex) {
        Ok(_receipt) => Ok(()),
        Err(TakeFault::Refused(cause)) => {
            meeter.refused = meeter.refused.saturating_add(1);
            match cause {
                Cause::Clash { .. } => Err(SessionEnd::Clash),
                _ => Ok(()),
            }
        }
        Err(TakeFault::AppendFault) => Err(SessionEnd::AppendFault),
        Err(TakeFault::OutOfMemory) => Err(SessionEnd::OutOfMemory),
    }
}
