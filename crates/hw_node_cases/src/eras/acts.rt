//! What is done to eras, and what they answer.

ghost use Rattle.hw_types.specs.Spelling.{VertexFits};

use crate::eras::configs::put_config;
use crate::receipts::{SPACED, put_receipt};
use crate::spelled::{begun, config_of, put_error, put_start};
use hw_case_words::{Answer, small};
use hw_codec::{decode_vertex, encode_vertex};
use hw_core::Core;
use hw_eras::{EraCause, EraOpen, EraRefused, Eras};
use hw_types::{Cause, Config, Vertex};

/// Begins with era 0 of the configuration that these digits spell.
pub fn begin(answer: &mut Answer, nodes: &mut Vec<Eras>, digits: &str) {
    match config_of(answer, digits) {
        Ok(config) => begin_with(answer, nodes, config),
        Err(error) => put_error(answer, error),
    }
}

fn begin_with(answer: &mut Answer, nodes: &mut Vec<Eras>, config: Config) {
    match Eras::new(answer.alloc(), config) {
        Ok(eras) => begun(answer, nodes, eras),
        Err(start) => put_start(answer, start),
    }
}

/// What the eras answer to these words.
pub fn act(answer: &mut Answer, eras: &mut Eras, kind: &str, words: &[&str]) {
    match words {
        [era, vertex] => deliver(answer, eras, small(era), vertex, kind == "deliver"),
        [era] => put_era(answer, eras.core(small(era))),
        [] if kind == "open" => open(answer, eras),
        [] => answer.labelled("count ", u64::from(eras.count())),
        _ => answer.refuse(),
    }
}

/// Delivers the vertex that the digits spell.
pub fn deliver(answer: &mut Answer, eras: &mut Eras, era: u32, digits: &str, verdict: bool) {
    let bytes = answer.bytes(digits);
    match decode_vertex(answer.alloc(), bytes.as_slice()) {
        Ok(vertex) => delivered(answer, eras, era, vertex, verdict, bytes.as_slice()),
        Err(error) => put_error(answer, error),
    }
}

/// Delivers the vertex of these bytes.
fn delivered(
    answer: &mut Answer,
    eras: &mut Eras,
    era: u32,
    vertex: Vertex,
    verdict: bool,
    bytes: &[u8],
)
    requires { VertexFits vertex }
{
    match eras.deliver(era, vertex, verdict) {
        Ok(receipt) => put_receipt(answer, &SPACED, receipt),
        Err(refused) => put_refusal(answer, &refused, bytes),
    }
}

/// Why a vertex of these bytes was refused, and whether it came back.
fn put_refusal(answer: &mut Answer, refused: &EraRefused, bytes: &[u8])
    requires { VertexFits refused.now.vertex }
{
    put_cause(answer, refused.cause);
    match encode_vertex(answer.alloc(), &refused.vertex) {
        Ok(spelled) if spelled.as_slice() == bytes => {}
        Ok(_) => answer.put(" changed"),
        Err(_) => answer.refuse(),
    }
}

fn put_cause(answer: &mut Answer, cause: EraCause) {
    match cause {
        EraCause::UnknownEra => answer.put("unknown era"),
        EraCause::Core(Cause::BadSignature) => answer.put("bad signature"),
        EraCause::Core(Cause::Local(rule)) => {
            answer.put("local ");
            answer.debug(&rule);
        }
        EraCause::Core(Cause::OutOfMemory) => answer.refuse(),
        EraCause::Core(_) => answer.put("refused"),
    }
}

/// Opens the next era.
fn open(answer: &mut Answer, eras: &mut Eras) {
    match eras.open_next() {
        Ok(Some(number)) => answer.labelled("era ", u64::from(number)),
        Ok(None) => answer.put("none"),
        Err(EraOpen::Full) => answer.put("full"),
        Err(EraOpen::OutOfMemory) => answer.refuse(),
    }
}

/// The node of an era, where there is one.
fn put_era(answer: &mut Answer, core: Option<&Core>) {
    match core {
        Some(core) => put_core(answer, core),
        None => answer.put("none"),
    }
}

fn put_core(answer: &mut Answer, core: &Core) {
    answer.put("config ");
    put_config(answer, core.state().config());
    let (journal, settled) = (core.journal_count(), core.settled_count());
    let put = write!(answer.text, " journal {journal} settled {settled} decided");
    answer.keep(put);
    for index in 0..core.decision_count() {
        answer.put(" ");
        answer.hex(core.decision(index).block.0.as_slice());
    }
}
