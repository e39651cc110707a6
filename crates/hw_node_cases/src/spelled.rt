//! What hexadecimal digits spell.

ghost use Rattle.std.specs.Prelude.{IfOk};
ghost use Rattle.hw_types.specs.Spelling.{VertexFits};

use hw_admit::StateFault;
use hw_case_words::{Answer, digest_of_byte};
use hw_codec::{decode_config, decode_vertex};
use hw_types::{CodecError, Config, Digest, Vertex};

/// The configuration that the digits spell.
pub fn config_of(answer: &mut Answer, digits: &str) -> Result<Config, CodecError> {
    let bytes = answer.bytes(digits);
    decode_config(answer.alloc(), bytes.as_slice())
}

/// The vertex that the digits spell.
pub fn vertex_of(answer: &mut Answer, digits: &str) -> Result<Vertex, CodecError>
    ensures { IfOk result VertexFits }
{
    let bytes = answer.bytes(digits);
    decode_vertex(answer.alloc(), bytes.as_slice())
}

/// The digest of these 64 digits, of zeros where they are others.
pub fn digest_of(answer: &mut Answer, digits: &str) -> Digest {
    let bytes = answer.bytes(digits);
    match bytes.as_slice().first_chunk::<32>() {
        Some(digest) => Digest(*digest),
        None => digest_of_byte(0),
    }
}

/// Puts the error of bytes that spell nothing.
pub fn put_error(answer: &mut Answer, error: CodecError) {
    match error {
        CodecError::OutOfMemory => answer.refuse(),
        error => answer.debug(&error),
    }
}

/// Puts the limit that a configuration breaks with which nothing begins.
pub fn put_start(answer: &mut Answer, start: StateFault) {
    match start {
        StateFault::Fault(fault) => answer.debug(&fault),
        StateFault::OutOfMemory => answer.refuse(),
    }
}

/// Keeps a node that begins.
pub fn begun<T: Drop>(answer: &mut Answer, nodes: &mut Vec<T>, node: T) {
    answer.push_to(nodes, node);
    answer.put("begun");
}
