//! A meeting, frame by frame.

ghost use Rattle.std.specs.Prelude.{◌≡◌, ◌⊎◌, ◌<◌, ◌≤◌, [], ℕ, List, Option, Some, None, true, false, length, OnOk, IfOk, All};
ghost use Rattle.hw_types.specs.Real.{CoreState};
ghost use Rattle.hw_io.specs.{Doors.{Session, AsksMore}, Faults.{raised}};
ghost use Rattle.hw_link.specs.{Asked.{IsAskedInside, IsAskedBehind, IsPrompt}, Links.{after_part, IsLinkCounted}, Sent.{Sends, OnlySends}};
ghost use Rattle.hw_link.specs.Told.{door_told};
ghost use Rattle.hw_meeting.specs.Frames.{IsSaid};
ghost use Rattle.hw_meeting_node.specs.Frames.{frame_here, sent_bytes};
ghost use Rattle.hw_meeting_node.specs.Meeting.{begun, first_word, meet_step, at_stage, met_said};
ghost use Rattle.hw_meeting_node.specs.Handling.{meeting_of, IsKept, Reacts, IsTakerCounted};
ghost use Rattle.hw_meeting_node.specs.Sessions.{CallsPeer, HostsPeer, MeetsNone, IsLinkEnd, IsTakerEnd};
ghost use Rattle.hw_meeting_node.specs.Taking.{vertex_at, TakesThere, TakesPeer, TakesNone, TakesOf, GoesNext, with_taker, meeting_with};
ghost use Rattle.hw_meeting_node.specs.declared.meeter.Side.TheVariants as side;

use crate::end::{MeetEnd, meet_end};
use crate::frames::{at_done, at_hello, at_summary, at_torn, at_vertex};
use crate::meeter::{Meeter, Side, Stage, begin, validators};
use crate::read_meeting;
use crate::say::say_hello;
use crate::taker::Taker;
use hw_core::Core;
use hw_io::Door;
use hw_link::{BYTE_LIMIT, SessionEnd};
use hw_meeting::MeetingFrame;
use std::alloc::Global;

/// Dials the node at this address and meets it. Then it hangs up.
///
/// Each node says Hello, what it has of each validator, and which validators are torn for it, the caller each
/// time first. Then the caller sends its vertices that are due, and Done, and then the other. What comes is
/// taken. `Done` has the count of refused vertices.
///
/// `BadFrame` is the end by a frame that isn't due, one that spells nothing, or one that is cut. It has the place
/// of the frame's first byte. `WrongInstance` is the end by a Hello of another instance, and `EndOfInput` the end
/// of the peer's bytes after a frame. `ByteLimit` is the end after 268,435,456 bytes, when the frame that ends with
/// them was handled. `LinkFault` is a failed call of the door. `AppendFault` comes from the taker, and so does
/// `Clash`, where it refused a vertex by that cause.
///
/// Each of the peer's vertices is handed to the taker as its frame is handled, in order. What the taker is then
/// is what each of them made of it, one after the other.
pub fn meet_one<D: Door, T: Taker>(
    alloc: Global,
    taker: &mut T,
    address: &str,
    door: &mut D,
) -> MeetEnd
    ensures met { CallsPeer address.now (T.received taker.old) (T.verdict taker.old) (T.received taker.new) (door_told (D.sessions door.old) (D.ends door.old)) (door_told (D.sessions door.new) (D.ends door.new)) result
        ⊎ MeetsNone (T.received taker.old) (T.received taker.new) (D.sessions door.old) (D.sessions door.new) result }
    ensures took { TakesPeer T.steps side.Caller (Some address.now) (T.verdict taker.old) (with_taker (T.received taker.old) taker.old) (with_taker (T.received taker.new) taker.new) (door_told (D.sessions door.old) (D.ends door.old)) (door_told (D.sessions door.new) (D.ends door.new)) result
        ⊎ TakesNone (with_taker (T.received taker.old) taker.old) (with_taker (T.received taker.new) taker.new) (D.sessions door.old) (D.sessions door.new) result }
    ensures prompt { All (IsPrompt (met_said side.Caller (T.received taker.old) (T.verdict taker.old))) (D.asks door.new) }
    ensures link { IsLinkEnd (D.faults door.old) (D.faults door.new) result }
    ensures appends { IsTakerEnd (T.faults taker.old) (T.faults taker.new) result }

    ensures config { (T.received taker.new).config ≡ (T.received taker.old).config }
    ensures verdict { T.verdict taker.new ≡ T.verdict taker.old }
    ensures holds { T.holds taker.new ≡ T.holds taker.old }
    ensures closed { D.is_open door.new ≡ false }
    ensures dials { D.dials door.new ≡ raised (D.dials door.old) }
    ensures accepts { D.accepts door.new ≡ D.accepts door.old }
{
    match door.dial(address) {
        Ok(()) => {
            let end = meet(alloc, taker, door, Side::Caller);
            door.hang_up();
            end
        }
        Err(fault) => meet_end(SessionEnd::from(fault), 0),
    }
}

/// Takes a node that dials and meets it, as the other side of `meet_one`. Then it hangs up.
pub fn host_one<D: Door, T: Taker>(alloc: Global, taker: &mut T, door: &mut D) -> MeetEnd
    ensures met { HostsPeer (T.received taker.old) (T.verdict taker.old) (T.received taker.new) (door_told (D.sessions door.old) (D.ends door.old)) (door_told (D.sessions door.new) (D.ends door.new)) result
        ⊎ MeetsNone (T.received taker.old) (T.received taker.new) (D.sessions door.old) (D.sessions door.new) result }
    ensures took { TakesPeer T.steps side.Host None (T.verdict taker.old) (with_taker (T.received taker.old) taker.old) (with_taker (T.received taker.new) taker.new) (door_told (D.sessions door.old) (D.ends door.old)) (door_told (D.sessions door.new) (D.ends door.new)) result
        ⊎ TakesNone (with_taker (T.received taker.old) taker.old) (with_taker (T.received taker.new) taker.new) (D.sessions door.old) (D.sessions door.new) result }
    ensures prompt { All (IsPrompt (met_said side.Host (T.received taker.old) (T.verdict taker.old))) (D.asks door.new) }
    ensures link { IsLinkEnd (D.faults door.old) (D.faults door.new) result }
    ensures appends { IsTakerEnd (T.faults taker.old) (T.faults taker.new) result }

    ensures config { (T.received taker.new).config ≡ (T.received taker.old).config }
    ensures verdict { T.verdict taker.new ≡ T.verdict taker.old }
    ensures holds { T.holds taker.new ≡ T.holds taker.old }
    ensures closed { D.is_open door.new ≡ false }
    ensures accepts { D.accepts door.new ≡ raised (D.accepts door.old) }
    ensures dials { D.dials door.new ≡ D.dials door.old }
{
    match door.accept() {
        Ok(()) => {
            let end = meet(alloc, taker, door, Side::Host);
            door.hang_up();
            end
        }
        Err(fault) => meet_end(SessionEnd::from(fault), 0),
    }
}

/// Meets the node of the session that is there, up to its end.
fn meet<D: Door, T: Taker>(alloc: Global, taker: &mut T, door: &mut D, side: Side) -> MeetEnd
    requires open { D.is_open door.old ≡ true }
    ensures met { TakesThere T.steps side (T.verdict taker.old) (with_taker (T.received taker.old) taker.old) (with_taker (T.received taker.new) taker.new) (door_told (D.sessions door.old) (D.ends door.old)) (door_told (D.sessions door.new) (D.ends door.new)) result }
    ensures asks { AsksMore (IsAskedBehind (met_said side (T.received taker.old) (T.verdict taker.old)) (D.sessions door.old)) (D.asks door.old) (D.asks door.new) }
    ensures link { IsLinkEnd (D.faults door.old) (D.faults door.new) result }
    ensures appends { IsTakerEnd (T.faults taker.old) (T.faults taker.new) result }

    ensures config { (T.received taker.new).config ≡ (T.received taker.old).config }
    ensures verdict { T.verdict taker.new ≡ T.verdict taker.old }
    ensures holds { T.holds taker.new ≡ T.holds taker.old }
    ensures accepts { D.accepts door.new ≡ D.accepts door.old }
    ensures dials { D.dials door.new ≡ D.dials door.old }
{
    match say_first(alloc, taker.core(), door, side) {
        Ok(mut meeter) => meet_frames(alloc, taker, door, side, &mut meeter),
        Err(end) => meet_end(end, 0),
    }
}

/// Begins a meeting. Before anything is read the caller says Hello.
fn say_first<D: Door>(
    alloc: Global,
    core: &Core,
    door: &mut D,
    side: Side,
) -> Result<Meeter, SessionEnd>
    requires open { D.is_open door.old ≡ true }
    ensures begins { IfOk result (λ meeter. meeting_of meeter core.now ≡ begun core.now) }
    ensures kept { IfOk result (λ meeter. IsKept meeter core.now) }
    ensures sent { Sends (sent_bytes (first_word side core.now)) (D.sessions door.old) (D.sessions door.new) result }
    ensures cause { IsLinkCounted (D.faults door.old) (D.faults door.new) result }
    ensures rest { OnlySends D.Door door.old door.new }
{
    let meeter = begin(alloc, core)?;
    match side {
        Side::Caller => {
            say_hello(alloc, core, door)?;
            Ok(meeter)
        }
        Side::Host => Ok(meeter),
    }
}

/// Handles the frames of the other, up to the end of the session.
fn meet_frames<D: Door, T: Taker>(
    alloc: Global,
    taker: &mut T,
    door: &mut D,
    side: Side,
    meeter: &mut Meeter,
) -> MeetEnd
    requires begins { meeting_of meeter.old (T.received taker.old) ≡ begun (T.received taker.old) }
    requires kept { IsKept meeter.old (T.received taker.old) }
    requires open { D.is_open door.old ≡ true }
    ensures met { (first : Option (List Session)) → D.sessions door.old ≡ after_part [] (sent_bytes (first_word side (T.received taker.old))) false first
        → TakesThere T.steps side (T.verdict taker.old) (with_taker (T.received taker.old) taker.old) (with_taker (T.received taker.new) taker.new) (door_told first (D.ends door.old)) (door_told (D.sessions door.new) (D.ends door.new)) result }
    ensures asks { (first : Option (List Session)) → D.sessions door.old ≡ after_part [] (sent_bytes (first_word side (T.received taker.old))) false first
        → AsksMore (IsAskedBehind (met_said side (T.received taker.old) (T.verdict taker.old)) first) (D.asks door.old) (D.asks door.new) }
    ensures link { IsLinkEnd (D.faults door.old) (D.faults door.new) result }
    ensures appends { IsTakerEnd (T.faults taker.old) (T.faults taker.new) result }

    ensures config { (T.received taker.new).config ≡ (T.received taker.old).config }
    ensures verdict { T.verdict taker.new ≡ T.verdict taker.old }
    ensures holds { T.holds taker.new ≡ T.holds taker.old }
    ensures accepts { D.accepts door.new ≡ D.accepts door.old }
    ensures dials { D.dials door.new ≡ D.dials door.old }
{
    let mut place = 0;
    while place < BYTE_LIMIT {
        match meet_next(alloc, taker, door, side, meeter, place) {
            Ok(next) => place = next,
            Err(end) => return meet_end(end, meeter.refused),
        }
    }
    MeetEnd::ByteLimit
}

/// Reads the frame that begins at this place of the session and handles it. Its answer is the place after the
/// frame, or how the session ends.
fn meet_next<D: Door, T: Taker>(
    alloc: Global,
    taker: &mut T,
    door: &mut D,
    side: Side,
    meeter: &mut Meeter,
    place: u64,
) -> Result<u64, SessionEnd>
    requires place { place ≤ BYTE_LIMIT }
    requires kept { IsKept meeter.old (T.received taker.old) }
    requires open { D.is_open door.old ≡ true }
    ensures met { GoesNext T.steps (length (T.received taker.old).config.weights) place (meet_step side (T.verdict taker.old) (meeting_of meeter.old (T.received taker.old))) (meeting_with (meeting_of meeter.old (T.received taker.old)) taker.old) (meeting_with (meeting_of meeter.new (T.received taker.new)) taker.new) (door_told (D.sessions door.old) (D.ends door.old)) (door_told (D.sessions door.new) (D.ends door.new)) result }
    ensures asks { AsksMore (IsAskedInside (frame_here (length (T.received taker.old).config.weights)) place [] (D.sessions door.old)) (D.asks door.old) (D.asks door.new) }
    ensures kept { OnOk result (IsKept meeter.new (T.received taker.new)) }
    ensures next { IfOk result (λ next. (place < next) × (next ≤ BYTE_LIMIT)) }
    ensures link { IsLinkCounted (D.faults door.old) (D.faults door.new) result }
    ensures appends { IsTakerCounted (T.faults taker.old) (T.faults taker.new) result }

    ensures config { (T.received taker.new).config ≡ (T.received taker.old).config }
    ensures verdict { T.verdict taker.new ≡ T.verdict taker.old }
    ensures holds { T.holds taker.new ≡ T.holds taker.old }
    ensures open { D.is_open door.new ≡ true }
    ensures accepts { D.accepts door.new ≡ D.accepts door.old }
    ensures dials { D.dials door.new ≡ D.dials door.old }
{
    let count = validators(taker.core());
    let heard = read_meeting(alloc, door, count, place)?;
    meet_frame(alloc, taker, door, side, meeter, place, heard.frame)?;
    Ok(heard.next)
}

/// Handles the frame that begins at this place of the session.
fn meet_frame<D: Door, T: Taker>(
    alloc: Global,
    taker: &mut T,
    door: &mut D,
    side: Side,
    meeter: &mut Meeter,
    place: u64,
    frame: MeetingFrame,
) -> Result<(), SessionEnd>
    requires said { IsSaid (length (T.received taker.old).config.weights) frame }
    requires kept { IsKept meeter.old (T.received taker.old) }
    requires open { D.is_open door.old ≡ true }
    ensures reacts { Reacts (T.received taker.old) (at_stage meeter.old.stage side (T.verdict taker.old) (meeting_of meeter.old (T.received taker.old)) place frame) (meeting_of meeter.new (T.received taker.new)) (D.sessions door.old) (D.sessions door.new) result }
    ensures takes { TakesOf T.steps (vertex_at meeter.old.stage frame) taker.old taker.new result }
    ensures kept { OnOk result (IsKept meeter.new (T.received taker.new)) }
    ensures link { IsLinkCounted (D.faults door.old) (D.faults door.new) result }
    ensures appends { IsTakerCounted (T.faults taker.old) (T.faults taker.new) result }

    ensures config { (T.received taker.new).config ≡ (T.received taker.old).config }
    ensures verdict { T.verdict taker.new ≡ T.verdict taker.old }
    ensures holds { T.holds taker.new ≡ T.holds taker.old }
    ensures open { D.is_open door.new ≡ true }
    ensures asks { D.asks door.new ≡ D.asks door.old }
    ensures ends { D.ends door.new ≡ D.ends door.old }
    ensures accepts { D.accepts door.new ≡ D.accepts door.old }
    ensures dials { D.dials door.new ≡ D.dials door.old }
{
    match meeter.stage {
        Stage::Greeting => match frame {
            MeetingFrame::Hello(other) => {
                at_hello(alloc, taker.core(), door, meeter, side, other)
            }
            _ => Err(SessionEnd::BadFrame(place)),
        },
        Stage::Telling => match frame {
            MeetingFrame::Summary(theirs) => {
                at_summary(alloc, taker.core(), door, meeter, side, theirs)
            }
            _ => Err(SessionEnd::BadFrame(place)),
        },
        Stage::Tearing => match frame {
            MeetingFrame::Torn(torn) => {
                at_torn(alloc, taker.core(), door, meeter, side, torn.as_slice())
            }
            _ => Err(SessionEnd::BadFrame(place)),
        },
        Stage::Taking => match frame {
            MeetingFrame::Vertex(vertex) => at_vertex(taker, meeter, vertex),
            MeetingFrame::Done => at_done(alloc, taker.core(), door, meeter, side),
            _ => Err(SessionEnd::BadFrame(place)),
        },
    }
}
