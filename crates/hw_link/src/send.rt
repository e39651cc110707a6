//! Sending a frame over a link.

ghost use Rattle.std.specs.Prelude.{◌≡◌, ◌<◌, ◌^◌, true, length, IfOk};
ghost use Rattle.hw_types.specs.Spelling.{FrameFits};
ghost use Rattle.hw_io.specs.Faults.{HasCause};
ghost use Rattle.hw_link.specs.{Frames.{behind_length, framed}, Links.{IsLinkCounted}, Sent.{Sends, SendsPart, OnlySends}};

use crate::end::SessionEnd;
use hw_codec::{encode_frame, frame_is_in_range};
use hw_io::{Door, IoFault};
use hw_types::{Bytes, Frame, OutOfMemory};
use std::alloc::Global;

/// Sends the length of a frame, and then the frame. On an error a first part of the two was sent.
#[tactic(auto, using(crate::proofs::LengthLaws::frame_short))]
pub fn send_frame<D: Door>(alloc: Global, door: &mut D, frame: &Frame) -> Result<(), SessionEnd>
    requires fits { FrameFits frame.now }
    requires open { D.is_open door.old ≡ true }
    ensures sent { Sends (framed frame.now) (D.sessions door.old) (D.sessions door.new) result }
    ensures cause { IsLinkCounted (D.faults door.old) (D.faults door.new) result }

    ensures open { D.is_open door.new ≡ true }
    ensures asks { D.asks door.new ≡ D.asks door.old }
    ensures ends { D.ends door.new ≡ D.ends door.old }
    ensures accepts { D.accepts door.new ≡ D.accepts door.old }
    ensures dials { D.dials door.new ≡ D.dials door.old }
{
    let body = encode_frame(alloc, frame)?;
    // For the prover: each number is in the range of its type. It does nothing.
    frame_is_in_range(frame);
    send_body(alloc, door, body.as_slice())
}

/// Sends a frame of these bytes after its length. There are fewer than 2^32 of them. On an error a first part of
/// the two was sent.
pub fn send_body<D: Door>(alloc: Global, door: &mut D, body: &[u8]) -> Result<(), SessionEnd>
    requires short { length body.now < 2 ^ 32 }
    requires open { D.is_open door.old ≡ true }
    ensures sent { Sends (behind_length body.now) (D.sessions door.old) (D.sessions door.new) result }
    ensures cause { IsLinkCounted (D.faults door.old) (D.faults door.new) result }
    ensures rest { OnlySends D.Door door.old door.new }
{
    let bytes = behind_length(alloc, body)?;
    send_all(door, bytes.as_slice())?;
    Ok(())
}

/// The bytes, with their length before them.
fn behind_length(alloc: Global, body: &[u8]) -> Result<Bytes, OutOfMemory>
    requires { length body.now < 2 ^ 32 }
    ensures { IfOk result (λ bytes. bytes ≡ behind_length body.now) }
{
    let length = body.len() as u32;
    let mut bytes = Bytes::new(alloc);
    bytes.extend(&length.to_be_bytes())?;
    bytes.extend(body)?;
    Ok(bytes)
}

/// Sends all of the bytes, piece by piece. On an error a first part of them was sent.
fn send_all<D: Door>(door: &mut D, bytes: &[u8]) -> Result<(), IoFault>
    requires open { D.is_open door.old ≡ true }
    ensures sent { SendsPart bytes.now (D.sessions door.old) (D.sessions door.new) result }
    ensures cause { HasCause (D.faults door.old) (D.faults door.new) result }
    ensures rest { OnlySends D.Door door.old door.new }
{
    let mut done = 0;
    while done < bytes.len() {
        done += door.write(&bytes[done..])?;
    }
    Ok(())
}
