//! What a node has of a need.

ghost use Rattle.std.specs.List.{All};
ghost use Rattle.hw_types.specs.Spelling.{VertexFits};

use hw_case_words::Answer;
use hw_codec::encode_vertex;
use hw_core::Core;
use hw_needs::{evidence_of, vertices_of};
use hw_types::{Need, Vertex};

/// The vertices of the need, as bytes.
pub fn put_needed(answer: &mut Answer, core: &Core, need: &Need) {
    match vertices_of(answer.alloc(), core, need) {
        Ok(vertices) if vertices.len() == 0 => answer.put("-"),
        Ok(vertices) => put_vertices(answer, vertices.as_slice()),
        Err(_) => answer.refuse(),
    }
}

/// The vertices as bytes, with a space between.
fn put_vertices(answer: &mut Answer, vertices: &[Vertex])
    requires { All VertexFits vertices.now }
{
    let mut between = "";
    for vertex in vertices {
        answer.put(between);
        put_vertex(answer, vertex);
        between = " ";
    }
}

fn put_vertex(answer: &mut Answer, vertex: &Vertex)
    requires { VertexFits vertex.now }
{
    match encode_vertex(answer.alloc(), vertex) {
        Ok(bytes) => answer.hex(bytes.as_slice()),
        Err(_) => answer.refuse(),
    }
}

/// The first four bytes of the signatures of the two units that show the validator.
pub fn against(answer: &mut Answer, core: &Core, validator: u32) {
    match evidence_of(answer.alloc(), core, validator) {
        Ok(Some(evidence)) => {
            answer.hex(&evidence.left.signature.0[..4]);
            answer.put(" ");
            answer.hex(&evidence.right.signature.0[..4]);
        }
        Ok(None) => answer.put("-"),
        Err(_) => answer.refuse(),
    }
}
