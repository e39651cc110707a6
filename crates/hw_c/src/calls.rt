//! What the exports do with a node, once it is out of its handle.

ghost use Rattle.std.specs.Prelude.{◌≡◌, true, is_some, Option};
ghost use Rattle.hw_types.specs.declared.unit.Digest.{Digest};
ghost use Rattle.hw_types.specs.declared.unit.SignedUnit.{SignedUnit};
ghost use Rattle.hw_types.specs.declared.unit.Vertex.TheVariants as vertices;
ghost use Rattle.hw_types.specs.Spelling.{VertexFits, digest_of};
ghost use Rattle.hw_c.specs.Answers.{flag, digest_bytes, summary_of, observed_of, placed_of, decided_of};
ghost use Rattle.hw_c.specs.Calls.{IsNodeOf, IsVertexDelivery, IsDelivery, IsEntry, IsSummary, IsObserved, IsPlaced, IsDecided, AreFaulty};
ghost use Rattle.hw_c.specs.Named.{IsNameIn};

use crate::codes::Fault;
use crate::put::copy_all;
use hw_admit::StateFault;
use hw_codec::{decode_config, decode_vertex, encode_vertex};
use hw_core::{Core, Place};
use hw_explain::faulty;
use hw_text::rule_number;
use hw_types::{Bytes, Decision, Digest, Obs, Receipt, Vertex};
use std::alloc::Global;

/// The counts of a node, the weight of its faulty validators, and its fork choice.
#[repr(C)]
#[derive(Clone, Copy)]
pub struct Summary {
    pub journal: u64,
    pub decided: u64,
    pub faulty_weight: u64,
    pub settled: u32,
    pub parked: u32,
    pub dropped: u32,
    /// 1 where the faulty weight exceeds the threshold, else 0.
    pub exceeded: u32,
    /// 1 where there is a fork choice, else 0.
    pub has_fork: u32,
    pub fork: [u8; 32],
}

/// What a node observes of a validator.
#[repr(C)]
#[derive(Clone, Copy)]
pub struct Observed {
    pub kind: u32,
    pub unit: [u8; 32],
}

/// What became of a unit.
#[repr(C)]
#[derive(Clone, Copy)]
pub struct Placed {
    pub kind: u32,
    pub number: u32,
}

/// A decided block.
#[repr(C)]
#[derive(Clone, Copy)]
pub struct Decided {
    pub block: [u8; 32],
    pub height: u64,
    pub quorum: u64,
    pub at: u64,
    pub level: u32,
}

/// Makes a node of the configuration that the bytes spell. `Bytes` where they spell none, and `Config` where it breaks
/// a limit.
pub fn make(alloc: Global, config: &[u8]) -> Result<Core, Fault>
    ensures { IsNodeOf config.now result }
{
    let config = decode_config(alloc, config)?;
    match Core::new(alloc, config) {
        Ok(core) => Ok(core),
        Err(StateFault::Fault(fault)) => Err(Fault::Config(fault)),
        Err(StateFault::OutOfMemory) => Err(Fault::OutOfMemory),
    }
}

/// Delivers the vertex that the bytes spell. Where it is a unit with a right verdict, the name is that of this unit.
pub fn deliver_named(
    alloc: Global,
    core: &mut Core,
    bytes: &[u8],
    verdict: bool,
    name: Digest,
) -> Result<Receipt, Fault>
    requires { verdict ≡ true → IsNameIn bytes.now name }
    ensures { IsDelivery core.old bytes.now verdict result core.new }
{
    let vertex = decode_vertex(alloc, bytes)?;
    if verdict {
        take_named(core, vertex, name)
    } else {
        take(core, vertex, false)
    }
}

/// Delivers the vertex that the bytes spell. Where it is a unit, this works out its name.
pub fn deliver_unnamed(
    alloc: Global,
    core: &mut Core,
    bytes: &[u8],
    verdict: bool,
) -> Result<Receipt, Fault>
    ensures { IsDelivery core.old bytes.now verdict result core.new }
{
    let vertex = decode_vertex(alloc, bytes)?;
    take(core, vertex, verdict)
}

/// Delivers a vertex whose verdict is right. Where it is a unit, the name is that of this unit.
fn take_named(core: &mut Core, vertex: Vertex, name: Digest) -> Result<Receipt, Fault>
    requires fits { VertexFits vertex }
    requires name { (s : SignedUnit) → vertex ≡ vertices.Unit s → name ≡ digest_of s.unit }
    ensures { IsVertexDelivery core.old vertex true result core.new }
{
    match vertex {
        Vertex::Unit(unit) => match core.deliver_named(unit, name) {
            Ok(receipt) => Ok(receipt),
            Err(refused) => Err(Fault::Refused(refused.cause)),
        },
        other => take(core, other, true),
    }
}

/// Delivers a vertex with its verdict.
fn take(core: &mut Core, vertex: Vertex, verdict: bool) -> Result<Receipt, Fault>
    requires { VertexFits vertex }
    ensures { IsVertexDelivery core.old vertex verdict result core.new }
{
    match core.deliver(vertex, verdict) {
        Ok(receipt) => Ok(receipt),
        Err(refused) => Err(Fault::Refused(refused.cause)),
    }
}

/// The journal's entry of that place, as bytes. `Nothing` where the journal is shorter.
pub fn entry(alloc: Global, core: &Core, place: u64) -> Result<Bytes, Fault>
    ensures { IsEntry core.now place result }
{
    if place >= core.journal_count() {
        return Err(Fault::Nothing);
    }
    Ok(encode_vertex(alloc, core.journal_at(place))?)
}

/// 1 for yes, 0 for no.
pub fn flag(holds: bool) -> u32
    ensures { result ≡ flag holds }
{
    if holds { 1 } else { 0 }
}

/// The bytes of a digest, or zeros where there is none.
pub fn digest_bytes(digest: Option<Digest>) -> [u8; 32]
    ensures { result ≡ digest_bytes digest }
{
    match digest {
        Some(digest) => digest.0,
        None => [0; 32],
    }
}

/// The counts of the node, the weight of its faulty validators, and its fork choice.
pub fn summarize(core: &Core) -> Result<Summary, Fault>
    ensures { IsSummary core.now result }
{
    let found = core.fork();
    let fork = digest_bytes(found);
    Ok(Summary {
        journal: core.journal_count(),
        decided: core.decision_count(),
        faulty_weight: core.faulty_weight(),
        settled: core.settled_count(),
        parked: core.parked_count(),
        dropped: core.dropped_count(),
        exceeded: flag(core.exceeded().is_some()),
        has_fork: flag(found.is_some()),
        fork,
    })
}

/// What is observed of a validator: 0 nothing, 1 this is its latest unit, 2 it equivocated.
pub fn observed_of(observation: Obs) -> Observed
    ensures { result ≡ observed_of observation }
{
    match observation {
        Obs::Absent => Observed {
            kind: 0,
            unit: [0; 32],
        },
        Obs::Correct(digest) => {
            let unit = digest.0;
            Observed { kind: 1, unit }
        }
        Obs::Faulty => Observed {
            kind: 2,
            unit: [0; 32],
        },
    }
}

/// What the node observes of the validator. `OutOfRange` where the configuration has no such validator.
pub fn observation(core: &Core, validator: u32) -> Result<Observed, Fault>
    ensures { IsObserved core.now validator result }
{
    if validator as usize >= core.state().config().weights.len() {
        return Err(Fault::OutOfRange);
    }
    Ok(observed_of(core.observation(validator)))
}

fn placed_of(place: Place) -> Placed
    ensures { result ≡ placed_of place }
{
    match place {
        Place::Unknown => Placed { kind: 0, number: 0 },
        Place::Settled(number) => Placed {
            kind: 1,
            number: number.0,
        },
        Place::Parked(missing) => Placed {
            kind: 2,
            number: missing,
        },
        Place::Dropped(rule) => Placed {
            kind: 3,
            number: rule_number(rule),
        },
    }
}

/// What became of the unit of this digest.
pub fn place(core: &Core, digest: &[u8; 32]) -> Result<Placed, Fault>
    ensures { IsPlaced core.now digest.now result }
{
    let place = core.place_of(&Digest(*digest));
    Ok(placed_of(place))
}

fn decided_of(decision: &Decision) -> Decided
    ensures { result ≡ decided_of decision.now }
{
    let block = decision.block.0;
    Decided {
        block,
        height: decision.height,
        quorum: decision.quorum,
        at: decision.at,
        level: decision.level,
    }
}

/// The decided block of that place. `Nothing` where fewer blocks are decided.
pub fn decision(core: &Core, index: u64) -> Result<Decided, Fault>
    ensures { IsDecided core.now index result }
{
    if index >= core.decision_count() {
        return Err(Fault::Nothing);
    }
    Ok(decided_of(core.decision(index)))
}

/// Puts the faulty validators into the list, in rising order, as many as fit. Answers how many there are in all.
pub fn put_faulty(alloc: Global, core: &Core, list: &mut [u32]) -> Result<usize, Fault>
    ensures { AreFaulty core.now list.old list.new result }
{
    let found = faulty(alloc, core)?;
    Ok(copy_all(found.as_slice(), list))
}
