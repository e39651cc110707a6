//! Certificates that are made.

ghost use Rattle.std.specs.{Prelude.{◌<◌, length, IfSome}, List.{All}};
ghost use Rattle.hw_types.specs.Spelling.{VertexFits};
ghost use Rattle.hw_core.specs.Decided.{decided_in};
ghost use Rattle.hw_light.specs.Spelling.{CertificateFits};

use crate::node::nodes::begin_with;
use crate::node::printed::put_asked_line;
use hw_case_words::Answer;
use hw_core::Core;
use hw_light::{Certificate, Certified, certify, encode_certificate};
use hw_types::{Cause, Digest, Vertex};

/// The certificate of a certificate's block, asked of a node that took its vertices, or the line that is printed for
/// it.
pub fn made(answer: &mut Answer, nodes: &mut Vec<Core>, certificate: &Certificate, kind: &str)
    requires { All VertexFits certificate.now.vertices }
{
    begin_taker(answer, nodes, certificate);
    match nodes.as_mut_slice() {
        [.., core] => {
            take_all(answer, core, certificate.vertices.as_slice());
            ask(answer, core, &certificate.block, kind);
        }
        [] => answer.put("no config"),
    }
}

/// Begins a node of the certificate's configuration, where there is one, in place of all others. What is said of it is
/// no part of the answer.
fn begin_taker(answer: &mut Answer, nodes: &mut Vec<Core>, certificate: &Certificate) {
    let mut unheard = Answer::new(answer.alloc());
    nodes.clear();
    match certificate.config.copy() {
        Ok(config) => begin_with(&mut unheard, nodes, config),
        Err(_) => answer.refuse(),
    }
    if unheard.finish().is_none() {
        answer.refuse();
    }
}

/// Delivers the vertices with true verdicts, whatever becomes of them.
fn take_all(answer: &mut Answer, core: &mut Core, vertices: &[Vertex])
    requires { All VertexFits vertices.now }
{
    for vertex in vertices {
        take(answer, core, vertex);
    }
}

/// Delivers one vertex.
fn take(answer: &mut Answer, core: &mut Core, vertex: &Vertex)
    requires { VertexFits vertex.now }
{
    match vertex.copy() {
        Ok(vertex) => taken(answer, core, vertex),
        Err(_) => answer.refuse(),
    }
}

/// Delivers the vertex. A refusal is ignored, unless memory ran out.
fn taken(answer: &mut Answer, core: &mut Core, vertex: Vertex)
    requires { VertexFits vertex }
{
    match core.deliver(vertex, true) {
        Ok(_receipt) => {}
        Err(refused) => match refused.cause {
            Cause::OutOfMemory => answer.refuse(),
            _ => {}
        },
    }
}

/// Asks the node for the certificate of this block.
fn ask(answer: &mut Answer, core: &mut Core, block: &Digest, kind: &str) {
    if kind == "ask" {
        return put_asked_line(answer, core, block);
    }
    match place_of(core, block) {
        Some(index) => put_certified(answer, core, index),
        None => answer.put("no decision"),
    }
}

/// The place of this block among the decided ones.
fn place_of(core: &Core, block: &Digest) -> Option<u64>
    ensures { IfSome result (λ index. index < length (decided_in core.now)) }
{
    for index in 0..core.decision_count() {
        if core.decision(index).block == *block {
            return Some(index);
        }
    }
    None
}

/// The certificate of the decided block of that place.
fn put_certified(answer: &mut Answer, core: &mut Core, index: u64)
    requires { index < length (decided_in core.old) }
{
    match certify(answer.alloc(), core, index) {
        Ok(Certified::Made(certificate)) => put_spelled(answer, &certificate),
        Ok(Certified::NotNow) => answer.put("no standing"),
        Ok(Certified::TooLong(count)) => {
            answer.put("no length ");
            answer.show(&count);
        }
        Err(_) => answer.refuse(),
    }
}

/// How many vertices a certificate has, and its bytes.
fn put_spelled(answer: &mut Answer, certificate: &Certificate)
    requires { CertificateFits certificate.now }
{
    answer.put("certified ");
    answer.show(&certificate.vertices.len());
    answer.put(" ");
    match encode_certificate(answer.alloc(), certificate) {
        Ok(bytes) => answer.hex(bytes.as_slice()),
        Err(_) => answer.refuse(),
    }
}
