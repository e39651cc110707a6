//! The compact form of a unit: what changed since its creator's last one. A log of version 2 alone
//! has it, as a vertex of kind 4.

ghost use Rattle.std.specs.{Prelude.{◌≡◌, ◌≤◌, ◌<◌, ◌^◌, ◌++◌, length, slice_index, Ok, IfOk, IfErr, OnOk}, Option.{option_copied, option_to_list}};
ghost use Rattle.hw_types.specs.{declared.unit.Vertex.{Vertex}, Reading.{Gives, whole, vertex_of}, Spelling.{Fits, VertexFits, counted}};
ghost use Rattle.hw_codec.specs.Decoded.{IsReadAs, IsErrorOf};
ghost use Rattle.hw_codec.specs.Ranges.{VertexInRange};
ghost use Rattle.hw_codec.specs.Last.{last_by, goes_on};
ghost use Rattle.hw_codec.specs.Compact.{change_in, changes_from, change_bytes, numbers_bytes, tail_bytes, changed_bytes, compact_bytes, told_bytes, bytes_after, known_creator, creator_at, change_at, changed_at, panorama_at, told_at, compact_kind_at, compact_at, compact_of, is_due, unless_due, vertex_after, PanoramaFits, SpellsAfter};

use crate::decoding::decode_vertex;
use crate::encoding::encode_vertex;
use crate::field::{Field, list_len, put_list, read_list};
use crate::last::{Last, due, last_by};
use crate::reader::Reader;
use crate::unit::{put_value, read_time, read_value, value_len};
use hw_types::{
    Bytes, CodecError, Items, MAX_LIST, MAX_VALIDATORS, Obs, ObsList, OutOfMemory, Signature,
    SignedUnit, Vertex, WireUnit,
};
use std::alloc::Global;

/// The kind of a vertex in the compact form.
const COMPACT: u8 = 4;

/// What a unit observes in a slot, where its creator's last one observed something else.
#[derive(Clone, Copy)]
pub struct Change {
    pub slot: u32,
    pub obs: Obs,
}

/// A creator with its last unit.
#[derive(Drop)]
struct Known<'a> {
    creator: u32,
    last: &'a Last,
}

// ---- reading

/// The vertex that the bytes spell in a log of version 2, all of them, where these are the last
/// units of the validators. Errors are those of `decode_unit`; besides, the full form of a unit
/// whose compact form is due is `BadTag(0)`, after all others.
pub fn decode_vertex_after(
    alloc: Global,
    lasts: &[Option<Last>],
    bytes: &[u8],
) -> Result<Vertex, CodecError>
    // What is read is spelled so, every byte of it.
    ensures ok { IfOk result (λ vertex. SpellsAfter lasts.now bytes.now vertex) }

    // What is spelled so is read, unless memory runs out.
    ensures read { (vertex : Vertex) → VertexInRange vertex → SpellsAfter lasts.now bytes.now vertex → IsReadAs result vertex }

    // It is what reading from left to right gives.
    ensures value { IfOk result (λ vertex. vertex_after lasts.now bytes.now ≡ Ok vertex) }

    // Another error than want of memory is the first one.
    ensures error { IfErr result (IsErrorOf (vertex_after lasts.now bytes.now)) }
{
    whole_after(alloc, lasts, bytes)
}

#[tactic(auto, unfolding(crate::specs::Compact::vertex_after))]
fn whole_after(alloc: Global, lasts: &[Option<Last>], bytes: &[u8]) -> Result<Vertex, CodecError>
    ensures read { Gives (λ vertex. vertex) result (vertex_after lasts.now bytes.now) }
    ensures limit { IfOk result PanoramaFits }
{
    if first_of(bytes) == COMPACT {
        return Ok(Vertex::Unit(whole_compact(alloc, lasts, bytes)?));
    }
    let vertex = decode_vertex(alloc, bytes)?;
    if is_due(lasts, &vertex) {
        return Err(CodecError::BadTag(0));
    }
    Ok(vertex)
}

/// Whether the compact form is due for the vertex.
fn is_due(lasts: &[Option<Last>], vertex: &Vertex) -> bool
    ensures { result ≡ is_due lasts.now vertex.now }
{
    match vertex {
        Vertex::Unit(signed) => due(lasts, &signed.unit).is_some(),
        Vertex::Evidence(_) | Vertex::Endorsement(_) => false,
    }
}

/// The first byte, or 0 where there is none.
fn first_of(bytes: &[u8]) -> u8
    ensures { result ≡ slice_index bytes.now 0 }
{
    match bytes.first() {
        Some(byte) => *byte,
        None => 0,
    }
}

#[tactic(auto, unfolding(hw_types::specs::Reading::whole))]
fn whole_compact(
    alloc: Global,
    lasts: &[Option<Last>],
    bytes: &[u8],
) -> Result<SignedUnit, CodecError>
    ensures read { Gives (λ signed. signed) result (compact_of lasts.now bytes.now) }
    ensures limit { IfOk result (λ signed. length signed.unit.panorama ≤ 1024) }
{
    let mut reader = Reader::new(bytes);
    let signed = read_compact(alloc, lasts, &mut reader)?;
    reader.end()?;
    Ok(signed)
}

#[tactic(auto, unfolding(crate::specs::Compact::compact_at))]
fn read_compact(
    alloc: Global,
    lasts: &[Option<Last>],
    reader: &mut Reader<'_>,
) -> Result<SignedUnit, CodecError>
    ensures read { Gives (λ signed. (signed, reader.new)) result (compact_at lasts.now reader.old) }
    ensures limit { IfOk result (λ signed. length signed.unit.panorama ≤ 1024) }
{
    read_kind(reader)?;
    let known = read_creator(lasts, reader)?;
    read_told(alloc, known.creator, known.last, reader)
}

/// Reads the kind of the compact form.
fn read_kind(reader: &mut Reader<'_>) -> Result<u8, CodecError>
    ensures { Gives (λ kind. (kind, reader.new)) result (compact_kind_at reader.old) }
{
    let place = reader.place();
    let kind = reader.u8()?;
    if kind != COMPACT {
        return Err(CodecError::BadTag(place));
    }
    Ok(kind)
}

/// Reads a creator that has a last unit, in which it is observed.
fn read_creator<'a>(
    lasts: &'a [Option<Last>],
    reader: &mut Reader<'_>,
) -> Result<Known<'a>, CodecError>
    ensures read { Gives (λ known. ((known.creator, known.last.now), reader.new)) result (creator_at lasts.now reader.old) }
    ensures slot { IfOk result (λ known. known.creator < length known.last.now.panorama) }
{
    let place = reader.place();
    let creator = reader.u32()?;
    match last_by(lasts, creator) {
        Some(last) => {
            if (creator as usize) < last.panorama().len() {
                Ok(Known { creator, last })
            } else {
                Err(CodecError::OutOfRange(place))
            }
        }
        None => Err(CodecError::OutOfRange(place)),
    }
}

/// Reads the fields behind the creator.
#[tactic(auto, unfolding(crate::specs::Compact::told_at))]
fn read_told(
    alloc: Global,
    creator: u32,
    last: &Last,
    reader: &mut Reader<'_>,
) -> Result<SignedUnit, CodecError>
    requires { creator < length last.now.panorama }
    ensures read { Gives (λ signed. (signed, reader.new)) result (told_at creator last.now reader.old) }
    ensures limit { IfOk result (λ signed. length signed.unit.panorama ≤ 1024) }
{
    let seq = reader.u64()?;
    let time = read_time(reader)?;
    let exponent = reader.u8()?;
    let panorama = read_panorama(creator, last, reader)?;
    let value = read_value(alloc, reader)?;
    let endorsed = read_list(alloc, MAX_LIST as u32, reader)?;
    let signature = Signature(reader.array()?);
    let unit = WireUnit {
        instance: last.instance(),
        creator,
        seq,
        time,
        exponent,
        panorama,
        value,
        endorsed,
    };
    Ok(SignedUnit { unit, signature })
}

/// Reads the changes of a panorama.
#[tactic(auto, unfolding(crate::specs::Compact::panorama_at))]
fn read_panorama(creator: u32, last: &Last, reader: &mut Reader<'_>) -> Result<ObsList, CodecError>
    requires { creator < length last.now.panorama }
    ensures read { Gives (λ panorama. (panorama, reader.new)) result (panorama_at creator last.now reader.old) }
    ensures limit { IfOk result (λ panorama. length panorama ≤ 1024) }
{
    let count = reader.count(MAX_VALIDATORS as u32)?;
    let mut panorama = last.base(creator)?;
    read_changes(creator, count, panorama.as_mut_slice(), reader)?;
    Ok(ObsList::from_vec(panorama).shared()?)
}

/// Reads so many changes, and makes them.
fn read_changes(
    creator: u32,
    count: u32,
    panorama: &mut [Obs],
    reader: &mut Reader<'_>,
) -> Result<(), CodecError>
    ensures read { Gives (λ _. (panorama.new, reader.new)) result (changed_at creator count 0 panorama.old reader.old) }
    ensures same { length panorama.new ≡ length panorama.old }
{
    let mut from = 0;
    for _ in 0..count {
        let change = read_change(creator, from, panorama, reader)?;
        panorama[change.slot as usize] = change.obs;
        from = change.slot as usize + 1;
    }
    Ok(())
}

/// Reads a change in a slot from this one on.
#[tactic(auto, unfolding(crate::specs::Compact::change_at), using(crate::proofs::LastLaws::obs_tested))]
fn read_change(
    creator: u32,
    from: usize,
    panorama: &[Obs],
    reader: &mut Reader<'_>,
) -> Result<Change, CodecError>
    ensures read { Gives (λ change. (change, reader.new)) result (change_at creator from panorama.now reader.old) }
    ensures slot { IfOk result (λ change. change.slot < length panorama.now) }
{
    let place = reader.place();
    let slot = reader.u32()?;
    if (slot as usize) < from || slot as usize >= panorama.len() || slot == creator {
        return Err(CodecError::OutOfRange(place));
    }
    let place = reader.place();
    let obs = Obs::read(reader)?;
    if obs == panorama[slot as usize] {
        return Err(CodecError::OutOfRange(place));
    }
    Ok(Change { slot, obs })
}

// ---- writing

/// The one spelling of a vertex in a log of version 2, where these are the last units of the
/// validators. Its units keep the limits of their format.
pub fn encode_vertex_after(
    alloc: Global,
    lasts: &[Option<Last>],
    vertex: &Vertex,
) -> Result<Bytes, OutOfMemory>
    requires { VertexFits vertex.now }
    ensures { IfOk result (λ bytes. bytes ≡ bytes_after lasts.now vertex.now) }
{
    match vertex {
        Vertex::Unit(signed) => match due(lasts, &signed.unit) {
            Some(last) => encode_compact(alloc, last, signed),
            None => encode_vertex(alloc, vertex),
        },
        Vertex::Evidence(_) | Vertex::Endorsement(_) => encode_vertex(alloc, vertex),
    }
}

/// The compact form of a unit that goes on from this one.
fn encode_compact(alloc: Global, last: &Last, signed: &SignedUnit) -> Result<Bytes, OutOfMemory>
    requires fits { Fits signed.now.unit }
    requires size { length last.now.panorama ≡ length signed.now.unit.panorama }
    ensures { IfOk result (λ bytes. bytes ≡ compact_bytes last.now signed.now) }
{
    let unit = &signed.unit;
    let changes = changes_of(
        alloc,
        unit.creator,
        last.panorama(),
        unit.panorama.as_slice(),
    )?;
    let mut out = Vec::with_capacity(alloc, compact_len(&changes, unit))?;
    put_compact(signed, &changes, &mut out)?;
    Ok(Bytes::from_vec(out))
}

/// Where the second panorama differs from the first, but for the creator's slot.
fn changes_of(
    alloc: Global,
    creator: u32,
    before: &[Obs],
    now: &[Obs],
) -> Result<Items<Change>, OutOfMemory>
    requires size { length before.now ≡ length now.now }
    requires limit { length now.now ≤ 1024 }
    ensures changes { IfOk result (λ changes. changes ≡ changes_from creator 0 before.now now.now) }
    ensures few { IfOk result (λ changes. length changes ≤ 1024) }
{
    let mut changes = Items::new(alloc);
    for (slot, obs) in now.iter().enumerate() {
        match change_in(creator, slot as u32, before[slot], *obs) {
            Some(change) => changes.push(change)?,
            None => {}
        }
    }
    Ok(changes)
}

/// The change in this slot, if the unit observes there what its last one doesn't.
#[tactic(auto, using(crate::proofs::LastLaws::obs_tested))]
fn change_in(creator: u32, slot: u32, before: Obs, now: Obs) -> Option<Change>
    ensures { option_to_list result ≡ change_in creator slot before now }
{
    if slot == creator || now == before {
        None
    } else {
        Some(Change { slot, obs: now })
    }
}

/// How many bytes the compact form has.
fn compact_len(changes: &Items<Change>, unit: &WireUnit) -> usize {
    changes_len(changes.as_slice())
        .saturating_add(54)
        .saturating_add(value_len(&unit.value))
        .saturating_add(list_len(unit.endorsed.as_slice()))
}

/// How many bytes the changes have with their count.
fn changes_len(changes: &[Change]) -> usize {
    let mut len: usize = 4;
    for change in changes {
        len = len.saturating_add(change.obs.len()).saturating_add(4);
    }
    len
}

/// Writes a unit in the compact form, with these changes.
fn put_compact(
    signed: &SignedUnit,
    changes: &Items<Change>,
    out: &mut Vec<u8>,
) -> Result<(), OutOfMemory>
    requires fits { Fits signed.now.unit }
    requires few { length changes.now ≤ 1024 }
    ensures { OnOk result (out.new.items ≡ out.old.items ++ changed_bytes changes.now signed.now) }
{
    out.push(COMPACT)?;
    put_numbers(&signed.unit, out)?;
    put_changes(changes, out)?;
    put_tail(signed, out)?;
    Ok(())
}

/// Writes the numbers of a unit.
fn put_numbers(unit: &WireUnit, out: &mut Vec<u8>) -> Result<(), OutOfMemory>
    ensures { OnOk result (out.new.items ≡ out.old.items ++ numbers_bytes unit.now) }
{
    unit.creator.put(out)?;
    unit.seq.put(out)?;
    unit.time.put(out)?;
    Ok(out.push(unit.exponent)?)
}

/// Writes the last fields of a unit, and its signature.
fn put_tail(signed: &SignedUnit, out: &mut Vec<u8>) -> Result<(), OutOfMemory>
    requires { Fits signed.now.unit }
    ensures { OnOk result (out.new.items ≡ out.old.items ++ tail_bytes signed.now) }
{
    put_value(&signed.unit.value, out)?;
    put_list(signed.unit.endorsed.as_slice(), out)?;
    Ok(out.extend_from_slice(&signed.signature.0)?)
}

/// Writes how many changes there are, and each of them.
fn put_changes(changes: &Items<Change>, out: &mut Vec<u8>) -> Result<(), OutOfMemory>
    requires { length changes.now ≤ 1024 }
    ensures { OnOk result (out.new.items ≡ out.old.items ++ counted change_bytes changes.now) }
{
    (changes.len() as u32).put(out)?;
    for change in changes.as_slice() {
        change.slot.put(out)?;
        change.obs.put(out)?;
    }
    Ok(())
}
