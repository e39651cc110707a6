//! Each value of a certificate's fields is in the range of its type.

ghost use Rattle.std.specs.List.{All};
ghost use Rattle.hw_codec.specs.Ranges.{VertexInRange};
ghost use Rattle.hw_light.specs.Spelling.{CertificateInRange};

use crate::certificate::Certificate;
use hw_codec::{array_is_in_range, config_is_in_range, vertex_is_in_range};
use hw_types::Vertex;

/// Each number and byte of a certificate is in the range of its type. It does nothing else.
pub fn certificate_is_in_range(certificate: &Certificate)
    ensures { CertificateInRange certificate.now }
{
    config_is_in_range(&certificate.config);
    array_is_in_range(&certificate.block.0);
    vertices_are_in_range(certificate.vertices.as_slice());
}

fn vertices_are_in_range(vertices: &[Vertex])
    ensures { All VertexInRange vertices.now }
{
    for vertex in vertices {
        vertex_is_in_range(vertex);
    }
}
