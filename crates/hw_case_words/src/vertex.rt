//! Vertices that lines give.

ghost use Rattle.std.specs.Prelude.{IsTrue};
ghost use Rattle.hw_types.specs.Spelling.{VertexFits};

use hw_codec::fits;
use hw_types::Vertex;

/// Whether each unit of the vertex keeps the limits of its format.
pub fn is_in_format(vertex: &Vertex) -> bool
    ensures { IsTrue result → VertexFits vertex.now }
{
    match vertex {
        Vertex::Unit(unit) => fits(&unit.unit),
        Vertex::Evidence(evidence) => fits(&evidence.left.unit) && fits(&evidence.right.unit),
        Vertex::Endorsement(_) => true,
    }
}
