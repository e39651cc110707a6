//! Keys, and what they sign.

ghost use Rattle.std.specs.Prelude.{◌≡◌, ◌<◌, length};
ghost use Rattle.hw_types.specs.Spelling.{VertexFits};

use hw_case_words::{Answer, lines_of, small};
use hw_codec::decode_vertex;
use hw_keys::{Keys, KeysFault};
use hw_types::{Digest, Signature, Vertex};

/// What keys answer: what is asked, then how many validators there are and the text of the keys.
pub fn keyed(answer: &mut Answer, kind: &str, words: &[&str]) {
    let [validators, text, words @ ..] = words else {
        return answer.refuse();
    };
    let text = lines_of(answer, text, b'/');
    read(answer, kind, text.as_slice(), small(validators), words);
}

/// What the keys of this text answer.
fn read(answer: &mut Answer, kind: &str, text: &[u8], validators: u32, words: &[&str]) {
    match Keys::read(answer.alloc(), text, validators) {
        Ok(keys) => put_read(answer, kind, &keys, validators, words),
        Err(KeysFault::At(place)) => {
            answer.put("at ");
            answer.number(place);
        }
        Err(KeysFault::OutOfMemory) => answer.refuse(),
    }
}

/// What the keys answer.
fn put_read(answer: &mut Answer, kind: &str, keys: &Keys, validators: u32, words: &[&str])
    requires { length keys.now ≡ validators }
{
    match words {
        [] => answer.put("read"),
        [vertex] => verdict_text(answer, keys, vertex),
        [validator, digest] => {
            let digest = answer.bytes(digest);
            signed_by(
                answer,
                kind,
                keys,
                validators,
                small(validator),
                digest.as_slice(),
            );
        }
        _ => answer.refuse(),
    }
}

/// What a validator signs, if it is one.
fn signed_by(
    answer: &mut Answer,
    kind: &str,
    keys: &Keys,
    validators: u32,
    validator: u32,
    digest: &[u8],
)
    requires { length keys.now ≡ validators }
{
    match digest.first_chunk::<32>() {
        Some(digest) if validator < validators => {
            signed_text(answer, kind, keys, validator, &Digest(*digest));
        }
        _ => answer.put("no validator"),
    }
}

/// What a validator signs.
fn signed_text(answer: &mut Answer, kind: &str, keys: &Keys, validator: u32, digest: &Digest)
    requires { validator < length keys.now }
{
    let Signature(signature) = if kind == "unit" {
        keys.sign_unit(validator, digest)
    } else {
        keys.sign_endorsement(validator, digest)
    };
    answer.hex(signature.as_slice());
}

/// The verdict on a vertex.
fn verdict_text(answer: &mut Answer, keys: &Keys, vertex: &str) {
    let bytes = answer.bytes(vertex);
    match decode_vertex(answer.alloc(), bytes.as_slice()) {
        Ok(vertex) => put_verdict(answer, keys, &vertex),
        Err(_) => answer.put("no vertex"),
    }
}

fn put_verdict(answer: &mut Answer, keys: &Keys, vertex: &Vertex)
    requires { VertexFits vertex.now }
{
    match keys.verdict(vertex) {
        Ok(verdict) => answer.truth(verdict),
        Err(_) => answer.refuse(),
    }
}
