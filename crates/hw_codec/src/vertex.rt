//! Vertices as bytes.

ghost use Rattle.std.specs.Prelude.{◌≡◌, ◌++◌, OnOk};
ghost use Rattle.hw_types.specs.{Reading.{Gives, signed_at, vertex_at, vertex_behind}, Spelling.{signed_bytes, vertex_bytes, Fits, VertexFits}};

use crate::field::Field;
use crate::reader::Reader;
use crate::unit::{put_unit, read_unit, unit_len};
use hw_types::{CodecError, Endorsement, Evidence, OutOfMemory, Signature, SignedUnit, Vertex};
use std::alloc::Global;

/// The kind of a vertex that is a unit: its first byte.
pub const UNIT_KIND: u8 = 1;

/// How many bytes a signature has.
pub const SIGNATURE_LENGTH: usize = 32;

#[tactic(auto, unfolding(hw_types::specs::Reading::vertex_at))]
pub(crate) fn read_vertex(alloc: Global, reader: &mut Reader<'_>) -> Result<Vertex, CodecError>
    ensures { Gives (λ vertex. (vertex, reader.new)) result (vertex_at reader.old) }
{
    let place = reader.place();
    match reader.u8()? {
        UNIT_KIND => Ok(Vertex::Unit(read_signed(alloc, reader)?)),
        2 => read_evidence(alloc, reader),
        3 => read_endorsement(reader),
        _ => Err(CodecError::BadTag(place)),
    }
}

/// What follows the kind of an evidence. Out of line: the back end zeroes a function's whole frame on entry, and mostly
/// a vertex is a unit.
fn read_evidence(alloc: Global, reader: &mut Reader<'_>) -> Result<Vertex, CodecError>
    ensures { Gives (λ vertex. (vertex, reader.new)) result (vertex_behind 0 2 reader.old) }
{
    let left = read_signed(alloc, reader)?;
    let right = read_signed(alloc, reader)?;
    Ok(Vertex::Evidence(Evidence { left, right }))
}

/// What stands behind the kind of an endorsement.
fn read_endorsement(reader: &mut Reader<'_>) -> Result<Vertex, CodecError>
    ensures { Gives (λ vertex. (vertex, reader.new)) result (vertex_behind 0 3 reader.old) }
{
    let unit = reader.digest()?;
    let endorser = reader.u32()?;
    let signature = Signature(reader.array()?);
    Ok(Vertex::Endorsement(Endorsement {
        unit,
        endorser,
        signature,
    }))
}

#[tactic(auto, unfolding(hw_types::specs::Reading::signed_at))]
fn read_signed(alloc: Global, reader: &mut Reader<'_>) -> Result<SignedUnit, CodecError>
    ensures { Gives (λ unit. (unit, reader.new)) result (signed_at reader.old) }
{
    let unit = read_unit(alloc, reader)?;
    let signature = Signature(reader.array()?);
    Ok(SignedUnit { unit, signature })
}

/// How many bytes a vertex has.
pub(crate) fn vertex_len(vertex: &Vertex) -> usize {
    match vertex {
        Vertex::Unit(unit) => signed_len(unit).saturating_add(1),
        Vertex::Evidence(evidence) => signed_len(&evidence.left)
            .saturating_add(signed_len(&evidence.right))
            .saturating_add(1),
        Vertex::Endorsement(_) => 69,
    }
}

fn signed_len(unit: &SignedUnit) -> usize {
    unit_len(&unit.unit).saturating_add(SIGNATURE_LENGTH)
}

/// Writes a vertex behind what stands in `out`.
pub(crate) fn put_vertex(vertex: &Vertex, out: &mut Vec<u8>) -> Result<(), OutOfMemory>
    requires { VertexFits vertex.now }
    ensures { OnOk result (out.new.items ≡ out.old.items ++ vertex_bytes vertex.now) }
{
    match vertex {
        Vertex::Unit(unit) => {
            out.push(1)?;
            put_signed(unit, out)
        }
        Vertex::Evidence(evidence) => {
            out.push(2)?;
            put_signed(&evidence.left, out)?;
            put_signed(&evidence.right, out)
        }
        Vertex::Endorsement(endorsement) => {
            out.push(3)?;
            endorsement.unit.put(out)?;
            endorsement.endorser.put(out)?;
            Ok(out.extend_from_slice(&endorsement.signature.0)?)
        }
    }
}

fn put_signed(unit: &SignedUnit, out: &mut Vec<u8>) -> Result<(), OutOfMemory>
    requires { Fits unit.now.unit }
    ensures { OnOk result (out.new.items ≡ out.old.items ++ signed_bytes unit.now) }
{
    put_unit(&unit.unit, out)?;
    Ok(out.extend_from_slice(&unit.signature.0)?)
}
