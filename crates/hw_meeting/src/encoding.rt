//! Frames as bytes.

ghost use Rattle.std.specs.Prelude.{◌≡◌, ◌<◌, ◌^◌, ◌++◌, ◌∷◌, [], length, IfOk, OnOk};
ghost use Rattle.hw_types.specs.Spelling.{vertex_bytes, VertexFits};
ghost use Rattle.hw_meeting.specs.Frames.{meeting_bytes, SpellsMeeting, IsSaid};

use crate::frame::MeetingFrame;
use crate::part::put_parts;
use hw_codec::{Field, encode_vertex, put_list};
use hw_types::{Bytes, OutOfMemory, Vertex};
use std::alloc::Global;

/// The one spelling of a frame, without its length, where there are this many validators.
///
/// Units in it keep the limits of their format. A summary has one part for each validator. The torn ones are
/// validators in rising order.
pub fn encode_meeting(
    alloc: Global,
    validators: u32,
    frame: &MeetingFrame,
) -> Result<Bytes, OutOfMemory>
    requires { IsSaid validators frame.now }
    ensures { IfOk result (λ body. SpellsMeeting validators body frame.now) }
{
    let mut out = Vec::new(alloc);
    put_meeting(alloc, validators, frame, &mut out)?;
    Ok(Bytes::from_vec(out))
}

#[tactic(auto, using(crate::proofs::PartLaws::few_validators))]
fn put_meeting(
    alloc: Global,
    validators: u32,
    frame: &MeetingFrame,
    out: &mut Vec<u8>,
) -> Result<(), OutOfMemory>
    requires { IsSaid validators frame.now }
    ensures { OnOk result (out.new.items ≡ out.old.items ++ meeting_bytes frame.now) }
{
    match frame {
        MeetingFrame::Hello(instance) => {
            out.push(1)?;
            instance.put(out)
        }
        MeetingFrame::Vertex(vertex) => {
            out.push(2)?;
            put_vertex(alloc, vertex, out)
        }
        MeetingFrame::Summary(parts) => {
            out.push(3)?;
            put_parts(validators, parts.as_slice(), out)
        }
        MeetingFrame::Torn(numbers) => {
            out.push(4)?;
            put_list(numbers.as_slice(), out)
        }
        MeetingFrame::Done => Ok(out.push(5)?),
    }
}

fn put_vertex(alloc: Global, vertex: &Vertex, out: &mut Vec<u8>) -> Result<(), OutOfMemory>
    requires { VertexFits vertex.now }
    ensures { OnOk result (out.new.items ≡ out.old.items ++ vertex_bytes vertex.now) }
{
    let bytes = encode_vertex(alloc, vertex)?;
    Ok(out.extend_from_slice(bytes.as_slice())?)
}
