//! Frames, and the needs in them, as bytes.

ghost use Rattle.std.specs.Prelude.{◌≡◌, ◌++◌, OnOk};
ghost use Rattle.std.proofs.Common.{lit<};
ghost use Rattle.hw_types.specs.{Reading.{Gives, need_at, frame_at}, Spelling.{need_bytes, frame_bytes, FrameFits}};

use crate::field::{Field, list_len, put_list, put_tagged, read_list};
use crate::reader::Reader;
use crate::vertex::{put_vertex, read_vertex, vertex_len};
use hw_types::{CodecError, Frame, MAX_LIST, Need, OutOfMemory};
use std::alloc::Global;

#[tactic(auto, unfolding(hw_types::specs::Reading::frame_at))]
pub(crate) fn read_frame(alloc: Global, reader: &mut Reader<'_>) -> Result<Frame, CodecError>
    ensures { Gives (λ frame. (frame, reader.new)) result (frame_at reader.old) }
{
    let place = reader.place();
    match reader.u8()? {
        1 => Ok(Frame::Hello(reader.digest()?)),
        2 => Ok(Frame::Vertex(read_vertex(alloc, reader)?)),
        3 => Ok(Frame::Have(reader.u64()?)),
        4 => Ok(Frame::Want(read_list(alloc, MAX_LIST as u32, reader)?)),
        5 => Ok(Frame::Done),
        6 => Ok(Frame::Missing(Need::read(reader)?)),
        _ => Err(CodecError::BadTag(place)),
    }
}

/// How many bytes a frame has.
pub(crate) fn frame_len(frame: &Frame) -> usize {
    match frame {
        Frame::Hello(_) => 33,
        Frame::Vertex(vertex) => vertex_len(vertex).saturating_add(1),
        Frame::Have(_) => 9,
        Frame::Want(needs) => list_len(needs.as_slice()).saturating_add(1),
        Frame::Done => 1,
        Frame::Missing(need) => need.len().saturating_add(1),
    }
}

/// Writes a frame behind what stands in `out`.
pub(crate) fn put_frame(frame: &Frame, out: &mut Vec<u8>) -> Result<(), OutOfMemory>
    requires { FrameFits frame.now }
    ensures { OnOk result (out.new.items ≡ out.old.items ++ frame_bytes frame.now) }
{
    match frame {
        Frame::Hello(instance) => put_tagged(1, instance, out),
        Frame::Vertex(vertex) => {
            out.push(2)?;
            put_vertex(vertex, out)
        }
        Frame::Have(place) => put_tagged(3, place, out),
        Frame::Want(needs) => {
            out.push(4)?;
            put_list(needs.as_slice(), out)
        }
        Frame::Done => Ok(out.push(5)?),
        Frame::Missing(need) => put_tagged(6, need, out),
    }
}

impl Field for Need {
    ghost at = { need_at };

    ghost spelling = { need_bytes };

    ghost LEAST = { 5 };

    ghost has_bytes = { lit< tt };

    const LEAST: usize = 5;

    #[tactic(auto, unfolding(hw_types::specs::Reading::need_at))]
    fn read(reader: &mut Reader<'_>) -> Result<Need, CodecError> {
        let place = reader.place();
        match reader.u8()? {
            1 => Ok(Need::Unit(reader.digest()?)),
            2 => Ok(Need::Evidence(reader.u32()?)),
            3 => Ok(Need::Endorsed(reader.digest()?)),
            _ => Err(CodecError::BadTag(place)),
        }
    }

    fn len(&self) -> usize {
        match self {
            Need::Unit(_) | Need::Endorsed(_) => 33,
            Need::Evidence(_) => 5,
        }
    }

    fn put(&self, out: &mut Vec<u8>) -> Result<(), OutOfMemory> {
        match self {
            Need::Unit(digest) => put_tagged(1, digest, out),
            Need::Evidence(validator) => put_tagged(2, validator, out),
            Need::Endorsed(digest) => put_tagged(3, digest, out),
        }
    }
}
