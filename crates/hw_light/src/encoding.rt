//! A certificate as bytes.

ghost use Rattle.std.specs.{Prelude.{◌≡◌, ◌<◌, ◌^◌, ◌++◌, length, IfOk, OnOk}, List.{All, flat_map}};
ghost use Rattle.hw_types.specs.Spelling.{ConfigFits, VertexFits, config_bytes};
ghost use Rattle.hw_light.specs.Spelling.{part_bytes, counted_vertex, certificate_bytes, CertificateFits, SpellsCertificate};

use crate::certificate::Certificate;
use crate::reader::{MAGIC, VERSION};
use hw_codec::{config_is_in_range, encode_config, encode_vertex, vertex_is_in_range};
use hw_types::{Bytes, Config, OutOfMemory, Vertex};
use std::alloc::Global;

/// The one spelling of a certificate.
///
/// Its configuration and each vertex keep the limits of their formats, and there are at most
/// 131,072 vertices.
pub fn encode_certificate(alloc: Global, certificate: &Certificate) -> Result<Bytes, OutOfMemory>
    requires { CertificateFits certificate.now }
    ensures { IfOk result (λ bytes. SpellsCertificate bytes certificate.now) }
{
    let mut out = Bytes::new(alloc);
    out.extend(&MAGIC)?;
    out.push(VERSION)?;
    put_config(alloc, &certificate.config, &mut out)?;
    out.extend(&certificate.block.0)?;
    out.extend(&(certificate.vertices.len() as u32).to_be_bytes())?;
    put_vertices(alloc, certificate.vertices.as_slice(), &mut out)?;
    Ok(out)
}

/// Puts a configuration last, after its length.
#[tactic(auto, using(crate::proofs::LengthLaws::config_short))]
fn put_config(alloc: Global, config: &Config, out: &mut Bytes) -> Result<(), OutOfMemory>
    requires { ConfigFits config.now }
    ensures { OnOk result (out.new ≡ out.old ++ part_bytes (config_bytes config.now)) }
{
    let spelling = encode_config(alloc, config)?;
    // For the prover: each number is in the range of its type. It does nothing.
    config_is_in_range(config);
    put_part(spelling.as_slice(), out)
}

/// Puts vertices last, each after its length.
fn put_vertices(alloc: Global, vertices: &[Vertex], out: &mut Bytes) -> Result<(), OutOfMemory>
    requires { All VertexFits vertices.now }
    ensures { OnOk result (out.new ≡ out.old ++ flat_map counted_vertex vertices.now) }
{
    for vertex in vertices {
        put_vertex(alloc, vertex, out)?;
    }
    Ok(())
}

/// Puts a vertex last, after its length.
#[tactic(auto, using(crate::proofs::LengthLaws::vertex_short))]
fn put_vertex(alloc: Global, vertex: &Vertex, out: &mut Bytes) -> Result<(), OutOfMemory>
    requires { VertexFits vertex.now }
    ensures { OnOk result (out.new ≡ out.old ++ counted_vertex vertex.now) }
{
    let spelling = encode_vertex(alloc, vertex)?;
    // For the prover: each number is in the range of its type. It does nothing.
    vertex_is_in_range(vertex);
    put_part(spelling.as_slice(), out)
}

/// Puts bytes last, after their length.
fn put_part(part: &[u8], out: &mut Bytes) -> Result<(), OutOfMemory>
    requires { length part.now < 2 ^ 32 }
    ensures { OnOk result (out.new ≡ out.old ++ part_bytes part.now) }
{
    out.extend(&(part.len() as u32).to_be_bytes())?;
    out.extend(part)
}
