//! What a certificate is answered.

ghost use Rattle.std.specs.List.{All};
ghost use Rattle.hw_types.specs.Spelling.{VertexFits};
ghost use Rattle.hw_light.specs.Spelling.{CertificateFits};

use crate::node::checks::{put_by_digits, put_by_keys};
use crate::node::making::made;
use crate::node::printed::put_error_line;
use hw_case_words::Answer;
use hw_core::Core;
use hw_light::{CertError, Certificate, decode_certificate, encode_certificate};

/// The answer of this kind to the certificate that these digits spell.
pub fn put_certificate(
    answer: &mut Answer,
    nodes: &mut Vec<Core>,
    kind: &str,
    digits: &str,
    word: &str,
) {
    let bytes = answer.bytes(digits);
    match decode_certificate(answer.alloc(), bytes.as_slice()) {
        Ok(certificate) => put_read(answer, nodes, kind, &certificate, bytes.as_slice(), word),
        Err(error) => not_read(answer, kind, error),
    }
}

/// The answer of this kind to a certificate that was read.
fn put_read(
    answer: &mut Answer,
    nodes: &mut Vec<Core>,
    kind: &str,
    certificate: &Certificate,
    bytes: &[u8],
    word: &str,
)
    requires fits { CertificateFits certificate.now }
    requires vertices { All VertexFits certificate.now.vertices }
{
    match kind {
        "read" => put_again(answer, certificate, bytes),
        "certify" | "ask" => made(answer, nodes, certificate, kind),
        "verdicts" => put_by_digits(answer, certificate, word),
        _ => put_by_keys(answer, kind, certificate, word),
    }
}

/// The error of bytes that are no certificate.
fn not_read(answer: &mut Answer, kind: &str, error: CertError) {
    match (kind, error) {
        ("ask" | "print", _) => put_error_line(answer, error),
        (_, CertError::OutOfMemory) => answer.refuse(),
        _ => answer.debug(&error),
    }
}

/// How many vertices the certificate has, and whether these bytes are its spelling.
fn put_again(answer: &mut Answer, certificate: &Certificate, bytes: &[u8])
    requires { CertificateFits certificate.now }
{
    answer.put("vertices ");
    answer.show(&certificate.vertices.len());
    answer.put(" again ");
    match encode_certificate(answer.alloc(), certificate) {
        Ok(again) => answer.show(&(again.as_slice() == bytes)),
        Err(_) => answer.refuse(),
    }
}
