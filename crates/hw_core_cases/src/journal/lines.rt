//! Lines of words. A line that isn't of the language is refused, and so is one that runs out of memory.

use crate::journal::chains::chain;
use crate::journal::deliveries::{deliver, endorse};
use crate::journal::names::Node;
use crate::journal::places::{missing, place};
use crate::journal::shown::show;
use crate::journal::summits::{explain, starts, summit};
use crate::journal::units::{evidence, unit};
use crate::journal::wanted::{against, endorsers, unmet};
use hw_admit::StateFault;
use hw_case_words::{Answer, config_of, digest_of_byte};
use hw_codec::instance_of;
use hw_core::Core;
use hw_types::{Config, Digest};
use std::alloc::Global;

/// Answers a line, of the node that began last.
pub fn tell(answer: &mut Answer, nodes: &mut Vec<Node>, line: &str) {
    let words = answer.words(line, ' ');
    match words.as_slice() {
        ["#", ..] => repeated(answer, line),
        ["weights", ..] => began(answer, nodes, words.as_slice()),
        [kind, rest @ ..] => asked(answer, nodes.as_mut_slice(), kind, rest),
        [] => answer.refuse(),
    }
}

fn repeated(answer: &mut Answer, line: &str) {
    answer.put(line);
    answer.put("\n");
}

/// Begins a node with the configuration that the words give. Where there is none, why.
fn began(answer: &mut Answer, nodes: &mut Vec<Node>, words: &[&str]) {
    let config = config_of(answer, words);
    match instance_in_limits(answer.alloc(), &config) {
        Some(instance) => began_in(answer, nodes, config, instance),
        None => answer.refuse(),
    }
}

/// The same with this configuration, which is of this instance.
fn began_in(answer: &mut Answer, nodes: &mut Vec<Node>, config: Config, instance: Digest) {
    match Core::new(answer.alloc(), config) {
        Ok(core) => begins(answer, nodes, core, instance),
        Err(StateFault::Fault(fault)) => {
            answer.debug(&fault);
            answer.put("\n");
        }
        Err(StateFault::OutOfMemory) => answer.refuse(),
    }
}

/// The node is asked from now on.
fn begins(answer: &mut Answer, nodes: &mut Vec<Node>, core: Core, instance: Digest) {
    let names = Vec::new(answer.alloc());
    answer.push_to(
        nodes,
        Node {
            core,
            instance,
            names,
        },
    );
    answer.put("began\n");
}

/// The instance of a configuration. One that breaks a limit has none, and no node either.
fn instance_in_limits(alloc: Global, config: &Config) -> Option<Digest> {
    match config.check() {
        Ok(()) => instance_of(alloc, config).ok(),
        Err(_) => Some(digest_of_byte(0)),
    }
}

/// Asks the last node.
fn asked(answer: &mut Answer, nodes: &mut [Node], kind: &str, words: &[&str]) {
    match nodes {
        [.., node] => moved(answer, node, kind, words),
        [] => answer.refuse(),
    }
}

/// The answer of the node, which may change.
fn moved(answer: &mut Answer, node: &mut Node, kind: &str, words: &[&str]) {
    match kind {
        "unit" => unit(answer, node.instance, &mut node.names, words),
        "evidence" => evidence(answer, &mut node.names, words),
        "deliver" => deliver(answer, node, words, true),
        "forge" => deliver(answer, node, words, false),
        "endorse" => endorse(answer, node, words),
        "chain" => chain(answer, node.instance, &mut node.core, words),
        "summit" => summit(answer, &mut node.core, words),
        "starts" => starts(answer, &mut node.core, words),
        "explain" => explain(answer, &mut node.core, words),
        _ => looked_up(answer, node, kind, words),
    }
}

/// The answer of the node that stays as it is.
fn looked_up(answer: &mut Answer, node: &Node, kind: &str, words: &[&str]) {
    match kind {
        "place" => place(answer, node, words),
        "missing" => missing(answer, node, words),
        "unmet" => unmet(answer, node, words),
        "against" => against(answer, node, words),
        "endorsers" => endorsers(answer, node, words),
        "show" => show(answer, node, words),
        _ => answer.refuse(),
    }
}
