//! A certificate from its bytes.

ghost use Rattle.std.specs.Prelude.{◌≡◌, Ok, IfOk, IfErr};
ghost use Rattle.hw_types.specs.Reading.{config_of, vertex_of};
ghost use Rattle.hw_light.specs.declared.certificate.Certificate.{Certificate};
ghost use Rattle.hw_light.specs.declared.error.CertError.TheVariants.{BadConfig, BadVertex};
ghost use Rattle.hw_light.specs.Spelling.{SpellsCertificate, CertificateInRange};
ghost use Rattle.hw_light.specs.Reading.{Gives, IsReadAs, IsErrorOf, WrapsNoWant, decoded, config_at, vertex_at, vertices_at, certificate_of};

use crate::certificate::{Certificate, VertexList};
use crate::error::CertError;
use crate::reader::{MAX_VERTICES, Reader};
use hw_codec::{decode_config, decode_vertex};
use hw_types::{CodecError, Config, Digest, Items, Vertex};
use std::alloc::Global;

/// The certificate that the bytes spell, all of them.
///
/// The first error in the order of the bytes is answered, with its place. That is the place of the field that is
/// cut or too long. Where a vertex is no spelling, it is that of the vertex's length. Otherwise it is that of the
/// first byte after the whole.
pub fn decode_certificate(alloc: Global, bytes: &[u8]) -> Result<Certificate, CertError>
    // What is read is spelled so, every byte of it.
    ensures ok { IfOk result (λ certificate. SpellsCertificate bytes.now certificate) }

    // What is spelled so is read, unless memory runs out.
    ensures read { (certificate : Certificate) → CertificateInRange certificate → SpellsCertificate bytes.now certificate → IsReadAs result certificate }

    // It is what reading from left to right gives.
    ensures value { IfOk result (λ certificate. certificate_of bytes.now ≡ Ok certificate) }

    // Another error is the first one, and no error of content contains "out of memory".
    ensures error { IfErr result (IsErrorOf (certificate_of bytes.now)) }
    ensures memory { IfErr result WrapsNoWant }
{
    whole_certificate(alloc, bytes)
}

#[tactic(auto, unfolding(crate::specs::Reading::certificate_of))]
fn whole_certificate(alloc: Global, bytes: &[u8]) -> Result<Certificate, CertError>
    ensures said { Gives (λ certificate. certificate) result (certificate_of bytes.now) }
    ensures memory { IfErr result WrapsNoWant }
{
    let mut reader = Reader::begin(bytes)?;
    reader.version()?;
    let config = read_config(alloc, &mut reader)?;
    let block = Digest(reader.array()?);
    let count = reader.count(MAX_VERTICES)?;
    let vertices = read_vertices(alloc, count, &mut reader)?;
    reader.end()?;
    Ok(Certificate {
        config,
        block,
        vertices,
    })
}

/// Reads the configuration, which comes after its length.
#[tactic(auto, unfolding(crate::specs::Reading::config_at))]
fn read_config(alloc: Global, reader: &mut Reader<'_>) -> Result<Config, CertError>
    ensures said { Gives (λ config. (config, reader.new)) result (config_at reader.old) }
    ensures memory { IfErr result WrapsNoWant }
{
    let part = reader.part()?;
    decoded_config(alloc, part)
}

/// Reads this many vertices.
fn read_vertices(
    alloc: Global,
    count: u32,
    reader: &mut Reader<'_>,
) -> Result<VertexList, CertError>
    ensures said { Gives (λ list. (list, reader.new)) result (vertices_at count reader.old) }
    ensures memory { IfErr result WrapsNoWant }
{
    let mut vertices = Items::new(alloc);
    for _ in 0..count {
        vertices.push(read_vertex(alloc, reader)?)?;
    }
    Ok(vertices)
}

/// Reads a vertex, which comes after its length.
#[tactic(auto, unfolding(crate::specs::Reading::vertex_at))]
fn read_vertex(alloc: Global, reader: &mut Reader<'_>) -> Result<Vertex, CertError>
    ensures said { Gives (λ vertex. (vertex, reader.new)) result (vertex_at reader.old) }
    ensures memory { IfErr result WrapsNoWant }
{
    let at = reader.place();
    let part = reader.part()?;
    decoded_vertex(alloc, at, part)
}

/// The configuration that these bytes spell.
fn decoded_config(alloc: Global, bytes: &[u8]) -> Result<Config, CertError>
    ensures said { Gives (λ config. config) result (decoded BadConfig (config_of bytes.now)) }
    ensures memory { IfErr result WrapsNoWant }
{
    match decode_config(alloc, bytes) {
        Ok(config) => Ok(config),
        Err(CodecError::OutOfMemory) => Err(CertError::OutOfMemory),
        Err(error) => Err(CertError::BadConfig(error)),
    }
}

/// The vertex that these bytes spell, whose length is at this place.
fn decoded_vertex(alloc: Global, at: u64, bytes: &[u8]) -> Result<Vertex, CertError>
    ensures said { Gives (λ vertex. vertex) result (decoded (BadVertex at) (vertex_of bytes.now)) }
    ensures memory { IfErr result WrapsNoWant }
{
    match decode_vertex(alloc, bytes) {
        Ok(vertex) => Ok(vertex),
        Err(CodecError::OutOfMemory) => Err(CertError::OutOfMemory),
        Err(error) => Err(CertError::BadVertex(at, error)),
    }
}
