//! Nodes with a log in memory, and what they answer.

ghost use Rattle.std.specs.Prelude.{◌≡◌, length, IfOk, IfSome, None, string_bytes};
ghost use Rattle.hw_types.specs.{Limits.{config_fault}, Spelling.{ConfigFits}};

use crate::session::outside::{plan_files, put_log};
use crate::session::peers::{accept, drive, serve};
use hw_case_words::{Answer, number, small, with_line_feeds};
use hw_codec::decode_config;
use hw_doubles::MemFiles;
use hw_session::{Keys, MakeFault, Node, StartFault};
use hw_types::{Config, Plan};

/// The name of the log.
pub const LOG: &str = "LOG";

/// What each node of a line starts with.
#[derive(Drop)]
struct Scene {
    /// The bytes of the configuration.
    config: Vec<u8>,
    /// The text of the keys.
    keys: Vec<u8>,
}

/// What nodes answer that start with a configuration and keys from a log, and act.
pub fn session_text(answer: &mut Answer, nodes: &mut Vec<Node>, words: &[&str]) {
    let [config, keys, log, failure, acts @ ..] = words else {
        return answer.refuse();
    };
    let scene = scene_of(answer, config, keys);
    let mut files = files_of(answer, log, failure);
    start(answer, &scene, &mut files, nodes);
    for act in acts {
        answer.put(" ");
        step(answer, &scene, &mut files, nodes, act);
    }
    put_end(answer, &files, nodes.as_slice());
}

fn scene_of(answer: &mut Answer, config: &str, keys: &str) -> Scene {
    let config = answer.bytes(config);
    match with_line_feeds(answer.alloc(), keys) {
        Some(keys) => Scene { config, keys },
        None => {
            answer.refuse();
            Scene {
                config,
                keys: Vec::new(answer.alloc()),
            }
        }
    }
}

/// Files with this log, of which that call fails.
fn files_of(answer: &mut Answer, log: &str, failure: &str) -> MemFiles {
    let mut files = MemFiles::in_pieces(answer.alloc(), 100);
    put_log(answer, &mut files, log);
    let planned = plan_files(&mut files, failure);
    answer.keep(planned);
    files
}

/// Lets a node act, and puts what came of it.
fn step(
    answer: &mut Answer,
    scene: &Scene,
    files: &mut MemFiles,
    nodes: &mut Vec<Node>,
    act: &str,
) {
    match act.split_once(':') {
        Some((kind, words)) => act_on(answer, files, nodes.as_mut_slice(), kind, words),
        None if act == "again" => start(answer, scene, files, nodes),
        None => answer.put("-"),
    }
}

/// Lets the node act that there is.
fn act_on(answer: &mut Answer, files: &mut MemFiles, nodes: &mut [Node], kind: &str, words: &str) {
    let [node] = nodes else {
        return answer.put("-");
    };
    match kind {
        "accept" => accept(answer, files, node, words),
        "serve" => serve(answer, files, node, words),
        "drive" => drive(answer, files, node, words),
        _ => make(answer, files, node, small(kind), words),
    }
}

/// Starts a node in place of all others, and puts how it started.
fn start(answer: &mut Answer, scene: &Scene, files: &mut MemFiles, nodes: &mut Vec<Node>) {
    nodes.clear();
    match decode_config(answer.alloc(), scene.config.as_slice()) {
        Ok(config) => start_with(answer, scene.keys.as_slice(), files, config, nodes),
        Err(_) => answer.put("no configuration"),
    }
}

/// The same with this configuration.
fn start_with(
    answer: &mut Answer,
    keys: &[u8],
    files: &mut MemFiles,
    config: Config,
    nodes: &mut Vec<Node>,
)
    requires { ConfigFits config }
{
    if config.check().is_err() {
        return answer.put("no configuration");
    }
    match Keys::read(answer.alloc(), keys, config.weights.len() as u32) {
        Ok(keys) => started(answer, files, config, keys, nodes),
        Err(_) => answer.put("no keys"),
    }
}

/// The same with these keys too.
fn started(
    answer: &mut Answer,
    files: &mut MemFiles,
    config: Config,
    keys: Keys,
    nodes: &mut Vec<Node>,
)
    requires lawful { config_fault config ≡ None }
    requires keys { length keys ≡ length config.weights }
{
    match Node::start(answer.alloc(), files, LOG, config, keys) {
        Ok(node) => begun(answer, nodes, node),
        Err(fault) => put_fault(answer, &fault),
    }
}

fn begun(answer: &mut Answer, nodes: &mut Vec<Node>, node: Node) {
    if nodes.push(node).is_err() {
        answer.refuse();
    }
    answer.put("started");
}

/// Puts why no node started.
fn put_fault(answer: &mut Answer, fault: &StartFault) {
    match fault {
        StartFault::Log(error) => answer.debug(error),
        StartFault::OtherConfig => answer.put("OtherConfig"),
        StartFault::Clash { .. } => answer.put("Clash"),
        StartFault::RecordsFull(at) => put_full(answer, "RecordsFull(", *at),
        StartFault::ParkFull(at) => put_full(answer, "ParkFull(", *at),
        StartFault::OutOfMemory => answer.refuse(),
    }
}

fn put_full(answer: &mut Answer, word: &str, at: u64) {
    answer.put(word);
    answer.number(at);
    answer.put(")");
}

/// Lets the node make a unit, and puts which. There is none where the validator, the moment or the value can't be.
fn make(answer: &mut Answer, files: &mut MemFiles, node: &mut Node, me: u32, words: &str) {
    let Some((now, value)) = words.split_once(':') else {
        return answer.put("-");
    };
    let value = answer.bytes(value);
    let now = number(now);
    let validators = node.core().state().config().weights.len();
    if me as usize >= validators || now >= 1 << 63 || value.len() > 4096 {
        return answer.put("None");
    }
    match node.make(files, me, now, value.as_slice()) {
        Ok(Some(plan)) => put_plan(answer, &plan),
        Ok(None) => answer.put("None"),
        Err(MakeFault::OutOfMemory) => answer.refuse(),
        Err(fault) => answer.debug(&fault),
    }
}

/// Puts what was made.
fn put_plan(answer: &mut Answer, plan: &Plan) {
    let (kind, seq, time) = (plan.kind, plan.unit.seq, plan.unit.time);
    let put = write!(answer.text, "{kind:?}:{seq}:{time}");
    answer.keep(put);
}

/// Puts the node's counts and its log.
fn put_end(answer: &mut Answer, files: &MemFiles, nodes: &[Node]) {
    for node in nodes {
        put_counts(answer, node);
    }
    answer.put(" ");
    match files.file(LOG) {
        None => answer.put("no log"),
        Some(log) => answer.hex(log),
    }
}

fn put_counts(answer: &mut Answer, node: &Node) {
    let (journal, settled) = (node.core().journal_count(), node.core().settled_count());
    let (limits, refused) = (node.limit_hits(), node.refused_count());
    let repeats = node.repeat_count();
    let put = write!(
        answer.text,
        " journal {journal} settled {settled} limits {limits} refused {refused} repeats {repeats}"
    );
    answer.keep(put);
}
