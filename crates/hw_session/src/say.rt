//! Saying a frame.

ghost use Rattle.std.specs.Prelude.{◌≡◌, true};
ghost use Rattle.hw_types.specs.Spelling.{FrameFits};
ghost use Rattle.hw_link.specs.{Frames.{framed}, Links.{IsLinkCounted}, Sent.{Sends}};
ghost use Rattle.hw_session.specs.Outside.{door_calls};

use hw_io::Door;
use hw_link::{SessionEnd, send_frame};
use hw_types::Frame;
use std::alloc::Global;

/// Sends a frame, which isn't kept.
pub fn say<D: Door>(alloc: Global, door: &mut D, frame: Frame) -> Result<(), SessionEnd>
    requires fits { FrameFits frame }
    requires open { D.is_open door.old ≡ true }
    ensures sent { Sends (framed frame) (D.sessions door.old) (D.sessions door.new) result }
    ensures cause { IsLinkCounted (D.faults door.old) (D.faults door.new) result }

    ensures door { door_calls (D.is_open door.new) (D.ends door.new) (D.accepts door.new) (D.dials door.new) (D.asks door.new) ≡ door_calls (D.is_open door.old) (D.ends door.old) (D.accepts door.old) (D.dials door.old) (D.asks door.old) }
{
    let sent = send_frame(alloc, door, &frame);
    // For the prover: it is dropped by one call.
    drop(frame);
    sent
}
