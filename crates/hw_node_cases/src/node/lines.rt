//! Lines of words.

use crate::node::actions::acts;
use crate::node::certificates::put_certificate;
use crate::node::clusters::{put_generated, put_simulated};
use crate::node::feeds::{fed, passed};
use crate::node::nodes::{begin, deliver};
use crate::node::wanted::{against, put_needed};
use crate::spelled::digest_of;
use hw_case_words::{Answer, number, small};
use hw_core::Core;
use hw_types::{Need, OutOfMemory};

/// Answers a line, of the node that began last.
pub fn tell(answer: &mut Answer, nodes: &mut Vec<Core>, line: &str) {
    let words = answer.words(line, ' ');
    match words.as_slice() {
        ["#", ..] => answer.put(line),
        [kind, words @ ..] => tell_words(answer, nodes, kind, words),
        [] => answer.refuse(),
    }
}

/// Answers a line of this kind.
fn tell_words(answer: &mut Answer, nodes: &mut Vec<Core>, kind: &str, words: &[&str]) {
    match kind {
        "feed" | "each" | "once" => of_log(answer, kind, words),
        "gen" | "sim" | "nodes" => of_clusters(answer, kind, words),
        _ => match words {
            [word] => of_one(answer, nodes, kind, word),
            [bytes, word] => put_certificate(answer, nodes, kind, bytes, word),
            _ => answer.refuse(),
        },
    }
}

/// Answers a line of consumers that are passed what a log decides.
fn of_log(answer: &mut Answer, kind: &str, words: &[&str]) {
    match words {
        [log, plans @ ..] if kind == "feed" => {
            let text = fed(answer.alloc(), log, plans);
            put_text(answer, text);
        }
        [log, plans @ ..] => {
            let text = passed(answer.alloc(), kind == "each", log, plans);
            put_text(answer, text);
        }
        [] => answer.refuse(),
    }
}

/// Answers a line with one word after its kind.
fn of_one(answer: &mut Answer, nodes: &mut Vec<Core>, kind: &str, word: &str) {
    match kind {
        "begin" => begin(answer, nodes, word),
        "read" | "certify" | "ask" => put_certificate(answer, nodes, kind, word, ""),
        _ => asked(answer, nodes.as_mut_slice(), kind, word),
    }
}

/// The answer of the node that began last.
fn asked(answer: &mut Answer, nodes: &mut [Core], kind: &str, word: &str) {
    match nodes {
        [.., core] => node_answer(answer, core, kind, word),
        [] => answer.put("no node"),
    }
}

/// The answer of the node, which a delivery may change.
fn node_answer(answer: &mut Answer, core: &mut Core, kind: &str, word: &str) {
    match kind {
        "deliver" => deliver(answer, core, word),
        "against" => against(answer, core, small(word)),
        _ => {
            let need = need_of(answer, kind, word);
            put_needed(answer, core, &need);
        }
    }
}

fn need_of(answer: &mut Answer, kind: &str, word: &str) -> Need {
    match kind {
        "unit" => Need::Unit(digest_of(answer, word)),
        "endorsed" => Need::Endorsed(digest_of(answer, word)),
        _ => Need::Evidence(small(word)),
    }
}

/// Answers a line of clusters of nodes.
fn of_clusters(answer: &mut Answer, kind: &str, words: &[&str]) {
    match words {
        [seed, rounds] if kind == "gen" => {
            put_generated(answer, number(seed), number(rounds));
        }
        [seed, nodes, steps] if kind == "sim" => {
            put_simulated(answer, number(seed), number(nodes), number(steps));
        }
        [count, records, actions @ ..] => {
            let text = acts(answer.alloc(), number(count), small(records), actions);
            put_text(answer, text);
        }
        _ => answer.refuse(),
    }
}

/// Puts the text, where there was memory for it.
fn put_text(answer: &mut Answer, text: Result<String, OutOfMemory>) {
    match text {
        Ok(text) => answer.put(text.as_str()),
        Err(_) => answer.refuse(),
    }
}
