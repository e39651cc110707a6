//! Sending a frame to a node that is met.

ghost use Rattle.std.specs.Prelude.{◌≡◌, ◌≤◌, true};
ghost use Rattle.hw_link.specs.{Links.{IsLinkCounted}, Sent.{Sends, OnlySends}};
ghost use Rattle.hw_meeting.specs.Frames.{IsSaid};
ghost use Rattle.hw_meeting_node.specs.Frames.{framed};

use crate::ranges::meeting_is_in_range;
use hw_io::Door;
use hw_link::{SessionEnd, send_body};
use hw_meeting::{MeetingFrame, encode_meeting};
use std::alloc::Global;

/// Sends a frame after its length, where there are this many validators. On an error a first part of the two
/// was sent.
#[tactic(auto, using(crate::proofs::LengthLaws::meeting_short))]
pub fn send_meeting<D: Door>(
    alloc: Global,
    door: &mut D,
    validators: u32,
    frame: &MeetingFrame,
) -> Result<(), SessionEnd>
    requires few { validators ≤ 1024 }
    requires said { IsSaid validators frame.now }
    requires open { D.is_open door.old ≡ true }
    ensures sent { Sends (framed frame.now) (D.sessions door.old) (D.sessions door.new) result }
    ensures cause { IsLinkCounted (D.faults door.old) (D.faults door.new) result }
    ensures rest { OnlySends D.Door door.old door.new }
{
    let body = encode_meeting(alloc, validators, frame)?;
    // For the prover: each number is in the range of its type. It does nothing.
    meeting_is_in_range(frame);
    send_body(alloc, door, body.as_slice())
}
