//! A node, and what is delivered to it.

ghost use Rattle.hw_types.specs.Spelling.{VertexFits};

use crate::receipts::{SPACED, put_receipt};
use crate::spelled::{begun, config_of, put_error, put_start, vertex_of};
use hw_case_words::Answer;
use hw_core::Core;
use hw_types::{Cause, Config, Vertex};

/// Begins a node of the configuration that these digits spell.
pub fn begin(answer: &mut Answer, nodes: &mut Vec<Core>, digits: &str) {
    match config_of(answer, digits) {
        Ok(config) => begin_with(answer, nodes, config),
        Err(error) => put_error(answer, error),
    }
}

/// Begins a node of this configuration, where it keeps its limits.
pub fn begin_with(answer: &mut Answer, nodes: &mut Vec<Core>, config: Config) {
    match Core::new(answer.alloc(), config) {
        Ok(core) => begun(answer, nodes, core),
        Err(start) => put_start(answer, start),
    }
}

/// Delivers the vertex that these digits spell.
pub fn deliver(answer: &mut Answer, core: &mut Core, digits: &str) {
    match vertex_of(answer, digits) {
        Ok(vertex) => delivered(answer, core, vertex),
        Err(error) => put_error(answer, error),
    }
}

fn delivered(answer: &mut Answer, core: &mut Core, vertex: Vertex)
    requires { VertexFits vertex }
{
    match core.deliver(vertex, true) {
        Ok(receipt) => put_receipt(answer, &SPACED, receipt),
        Err(refused) => put_cause(answer, refused.cause),
    }
}

fn put_cause(answer: &mut Answer, cause: Cause) {
    match cause {
        Cause::OutOfMemory => answer.refuse(),
        Cause::Local(rule) => {
            answer.put("local ");
            answer.debug(&rule);
        }
        _ => answer.put("refused"),
    }
}
