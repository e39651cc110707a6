//! Nodes from words.

use crate::spelled::{config_of, vertex_of};
use hw_admit::StateFault;
use hw_case_words::Answer;
use hw_core::Core;
use hw_types::{CodecError, Config};

/// Puts a node of the configuration that the digits spell last, where it has one.
pub fn begin(answer: &mut Answer, nodes: &mut Vec<Core>, config: &str) {
    match config_of(answer, config) {
        Ok(config) => begin_with(answer, nodes, config),
        Err(CodecError::OutOfMemory) => answer.refuse(),
        Err(_) => {}
    }
}

fn begin_with(answer: &mut Answer, nodes: &mut Vec<Core>, config: Config) {
    match Core::new(answer.alloc(), config) {
        Ok(core) => begun(answer, nodes, core),
        Err(StateFault::Fault(_)) => {}
        Err(StateFault::OutOfMemory) => answer.refuse(),
    }
}

fn begun(answer: &mut Answer, nodes: &mut Vec<Core>, core: Core) {
    if nodes.push(core).is_err() {
        answer.refuse();
    }
}

/// Delivers each vertex that the digits between commas spell, with a true verdict.
pub fn deliver_all(answer: &mut Answer, core: &mut Core, vertices: &str) {
    for word in vertices.split(',') {
        deliver(answer, core, word);
    }
}

/// Delivers the vertex that the digits spell, if they spell one.
fn deliver(answer: &mut Answer, core: &mut Core, digits: &str) {
    match vertex_of(answer, digits) {
        Ok(vertex) => {
            let _answer = core.deliver(vertex, true);
        }
        Err(CodecError::OutOfMemory) => answer.refuse(),
        Err(_) => {}
    }
}
