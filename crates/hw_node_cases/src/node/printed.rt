//! What is printed of certificates.

ghost use Rattle.std.specs.List.{All};
ghost use Rattle.hw_types.specs.Spelling.{VertexFits};

use hw_case_words::Answer;
use hw_core::Core;
use hw_keys::Keys;
use hw_light::{
    CertError, Certificate, certify_block, check_by_keys, checked_text, put_asked, put_error,
};
use hw_types::{Bytes, Digest, OutOfMemory};
use std::alloc::Global;

/// What is wrong with bytes that are no certificate.
pub fn put_error_line(answer: &mut Answer, error: CertError) {
    let mut text = Bytes::new(answer.alloc());
    match put_error(&mut text, error) {
        Ok(()) => put_line(answer, text.as_slice()),
        Err(_) => answer.refuse(),
    }
}

/// The line of the certificate's check with these keys.
pub fn put_signed_line(answer: &mut Answer, certificate: &Certificate, keys: &Keys)
    requires { All VertexFits certificate.now.vertices }
{
    match signed_line(answer.alloc(), certificate, keys) {
        Ok(text) => put_line(answer, text.as_slice()),
        Err(_) => answer.refuse(),
    }
}

fn signed_line(alloc: Global, certificate: &Certificate, keys: &Keys) -> Result<Bytes, OutOfMemory>
    requires { All VertexFits certificate.now.vertices }
{
    let checked = check_by_keys(alloc, certificate, keys)?;
    checked_text(alloc, certificate, &checked)
}

/// What is printed where the certificate of this block is asked of a node.
pub fn put_asked_line(answer: &mut Answer, core: &mut Core, block: &Digest) {
    let mut text = Bytes::new(answer.alloc());
    match certify_block(answer.alloc(), core, block) {
        Ok(asked) if put_asked(&mut text, &asked).is_ok() => put_line(answer, text.as_slice()),
        _ => answer.refuse(),
    }
}

/// A line without its line feed.
fn put_line(answer: &mut Answer, line: &[u8]) {
    match String::from_utf8_lossy(answer.alloc(), line) {
        Ok(text) => answer.put(text.as_str().trim_end()),
        Err(_) => answer.refuse(),
    }
}
