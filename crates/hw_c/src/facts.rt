//! What a unit is: what it says, and what a node has worked out about it.

ghost use Rattle.std.specs.Prelude.{◌≡◌, ◌<◌, length, map, slice_get, Some, IfOk};
ghost use Rattle.hw_types.specs.Graph.{Node};
ghost use Rattle.hw_types.specs.Real.{settled_in};
ghost use Rattle.hw_types.specs.Rounds.{round_id};
ghost use Rattle.hw_types.specs.Spelling.{Fits};
ghost use Rattle.hw_core.specs.Order.{order_in};
ghost use Rattle.hw_c.specs.Answers.{flag, observed_of};
ghost use Rattle.hw_c.specs.Buffers.{copied};
ghost use Rattle.hw_c.specs.Facts.{said_of, settled_facts, height_in, IsVoteOf, IsParentOf, value_bytes, IsUnitFacts, IsSpelledFacts};

use crate::calls::{Observed, digest_bytes, flag, observed_of};
use crate::codes::Fault;
use crate::put::{WithBytes, copy_all};
use hw_codec::{decode_vertex, digest_of};
use hw_core::{Core, Place};
use hw_dag::UnitNo;
use hw_types::{Bytes, Digest, Obs, OutOfMemory, Vertex, WireUnit};
use std::alloc::Global;

/// What a unit says, and what a node has worked out about it.
#[repr(C)]
#[derive(Clone, Copy)]
pub struct UnitFacts {
    pub creator: u32,
    /// Its round lasts 2^exponent milliseconds.
    pub exponent: u32,
    /// The validator that leads its round.
    pub leader: u32,
    /// What became of it: 0 it isn't in the journal, 1 settled, 2 parked, 3 dropped.
    pub place: u32,
    /// 1 where it has a value, and so is a block; else 0.
    pub is_block: u32,
    /// 1 where it is a settled block above another; else 0.
    pub has_parent: u32,
    /// 1 where it is settled; else 0.
    pub has_vote: u32,
    /// How many units its endorsed list names.
    pub endorsed: u32,
    pub seq: u64,
    /// When it was made, in milliseconds.
    pub time: u64,
    /// When its round begins, in milliseconds.
    pub round: u64,
    /// Of a settled block: how many blocks are below it on its chain; else 0.
    pub height: u64,
    /// How many bytes its value has.
    pub length: u64,
    pub digest: [u8; 32],
    /// The block that it stands on, where it has one; else zeros.
    pub parent: [u8; 32],
    /// The block that it votes for, where it is settled: itself, if it is a block; else zeros.
    pub vote: [u8; 32],
}

/// When the round of that moment and exponent begins. It is 0 for a round that is longer than all time.
fn round_of(time: u64, exponent: u8) -> u64
    ensures { result ≡ round_id time exponent }
{
    if exponent >= 64 {
        0
    } else {
        time >> exponent << exponent
    }
}

/// What a unit of this name says.
fn said_by(core: &Core, unit: &WireUnit, name: &Digest) -> UnitFacts
    requires { Fits unit.now }
    ensures { result ≡ said_of core.now.config unit.now name.now }
{
    let round = round_of(unit.time, unit.exponent);
    let length = match &unit.value {
        Some(value) => value.len() as u64,
        None => 0,
    };
    let digest = name.0;
    UnitFacts {
        creator: unit.creator,
        exponent: u32::from(unit.exponent),
        leader: core.state().leaders().leader(round),
        place: 0,
        is_block: flag(unit.value.is_some()),
        has_parent: 0,
        has_vote: 0,
        endorsed: unit.endorsed.len() as u32,
        seq: unit.seq,
        time: unit.time,
        round,
        height: 0,
        length,
        digest,
        parent: [0; 32],
        vote: [0; 32],
    }
}

/// The block that the settled unit of this number votes for.
fn vote_of(core: &Core, no: UnitNo) -> Digest
    requires { no.0 < length (settled_in core.now) }
    ensures { (x : Node) → slice_get (order_in core.now) no.0 ≡ Some x → IsVoteOf core.now x result }
{
    let dag = core.state().dag();
    *dag.unit(dag.unit(no).vote()).digest()
}

/// The block that the settled unit of this number stands on, where it is a block and has one.
fn parent_of(core: &Core, no: UnitNo) -> Option<Digest>
    requires { no.0 < length (settled_in core.now) }
    ensures { (x : Node) → slice_get (order_in core.now) no.0 ≡ Some x → IsParentOf core.now x result }
{
    let dag = core.state().dag();
    match dag.unit(no).parent() {
        Some(parent) => Some(*dag.unit(parent).digest()),
        None => None,
    }
}

/// How many blocks are below the settled unit of this number on its chain, where it is a block; else 0.
fn height_of(core: &Core, no: UnitNo) -> u64
    requires { no.0 < length (settled_in core.now) }
    ensures { (x : Node) → slice_get (order_in core.now) no.0 ≡ Some x → result ≡ height_in core.now x }
{
    core.state().dag().unit(no).height().unwrap_or(0)
}

/// What a unit says, with what the node has worked out about the settled unit of this number.
fn with_settled(core: &Core, no: UnitNo, said: UnitFacts) -> UnitFacts
    requires { no.0 < length (settled_in core.now) }
    ensures { (x : Node) → slice_get (order_in core.now) no.0 ≡ Some x → result ≡ settled_facts core.now x said }
{
    let vote = vote_of(core, no);
    let parent = parent_of(core, no);
    let height = height_of(core, no);
    let has_parent = flag(parent.is_some());
    let parent = digest_bytes(parent);
    let vote = vote.0;
    UnitFacts {
        place: 1,
        has_vote: 1,
        vote,
        has_parent,
        parent,
        height,
        ..said
    }
}

/// The bytes of a unit's value: none where it has no value.
pub fn value_of(alloc: Global, unit: &WireUnit) -> Result<Bytes, OutOfMemory>
    ensures { IfOk result (λ bytes. bytes ≡ value_bytes unit.now) }
{
    match &unit.value {
        Some(value) => Ok(value.copy()?),
        None => Ok(Bytes::new(alloc)),
    }
}

/// What the unit observes of each validator.
fn observed_list(alloc: Global, panorama: &[Obs]) -> Result<Vec<Observed>, OutOfMemory>
    ensures { IfOk result (λ list. list.items ≡ map observed_of panorama.now) }
{
    Ok(
        panorama
            .iter()
            .map(|seen| observed_of(*seen))
            .collect(alloc)?,
    )
}

/// What the journal's unit of this digest is, with its value, and what it observes of each validator. `Nothing` where
/// the journal has none.
pub fn unit_facts(
    alloc: Global,
    core: &Core,
    digest: &[u8; 32],
    list: &mut [Observed],
) -> Result<WithBytes<UnitFacts>, Fault>
    ensures { IsUnitFacts core.now digest.now list.old list.new result }
{
    let name = Digest(*digest);
    let Some(signed) = core.unit_of(&name) else {
        return Err(Fault::Nothing);
    };
    let said = said_by(core, &signed.unit, &name);
    let value = match core.place_of(&name) {
        Place::Settled(no) => with_settled(core, no, said),
        Place::Parked(_) => placed(said, 2),
        Place::Dropped(_) => placed(said, 3),
        Place::Unknown => said,
    };
    let bytes = value_of(alloc, &signed.unit)?;
    let observed = observed_list(alloc, signed.unit.panorama.as_slice())?;
    copy_all(observed.as_slice(), list);
    Ok(WithBytes { value, bytes })
}

fn placed(said: UnitFacts, place: u32) -> UnitFacts
    ensures { result ≡ record said { place = place } }
{
    let mut facts = said;
    facts.place = place;
    facts
}

/// What the unit of the vertex that the bytes spell says, with its value, and what it observes of each validator.
/// `Nothing` where the vertex is no unit.
pub fn spelled_facts(
    alloc: Global,
    core: &Core,
    bytes: &[u8],
    list: &mut [Observed],
) -> Result<WithBytes<UnitFacts>, Fault>
    ensures { IsSpelledFacts core.now.config bytes.now list.old list.new result }
{
    let Vertex::Unit(signed) = decode_vertex(alloc, bytes)? else {
        return Err(Fault::Nothing);
    };
    let name = digest_of(alloc, &signed.unit)?;
    let value = said_by(core, &signed.unit, &name);
    let bytes = value_of(alloc, &signed.unit)?;
    let observed = observed_list(alloc, signed.unit.panorama.as_slice())?;
    copy_all(observed.as_slice(), list);
    Ok(WithBytes { value, bytes })
}
