//! Where in the bytes of a log that stands of which a unit's name is the digest.

ghost use Rattle.std.specs.Prelude.{◌≡◌, ◌+◌, ◌-◌, ◌<◌, Ok, IfSome};
ghost use Rattle.hw_types.specs.Reading.{vertex_of};
ghost use Rattle.hw_log.specs.Named.{NamesUnit};

use hw_codec::SIGNATURE_LENGTH;
use hw_lanes::Part;
use hw_types::Vertex;

/// The part of these bytes that spells the unit, where they are its vertex in the full form; None of another vertex. So
/// nothing has to be spelled again for the unit's name.
pub(crate) fn unit_in(vertex: &Vertex, bytes: &[u8]) -> Option<Part>
    requires { vertex_of bytes.now ≡ Ok vertex.now }
    ensures { IfSome result (NamesUnit vertex.now bytes.now) }
{
    match vertex {
        Vertex::Unit(_) => Some(unit_part(0, bytes.len())),
        Vertex::Evidence(_) | Vertex::Endorsement(_) => None,
    }
}

/// What stands between the kind and the signature of a unit's vertex.
pub(crate) fn unit_part(start: usize, end: usize) -> Part
    requires { start + SIGNATURE_LENGTH < end }
    ensures { result ≡ record { start = start + 1; end = end - SIGNATURE_LENGTH } }
{
    Part {
        start: start + 1,
        end: end - SIGNATURE_LENGTH,
    }
}
