//! The last unit of each validator, as a log goes on.

ghost use Rattle.std.specs.{Prelude.{◌≡◌, Some, None, Ok, set, replicate, IfOk, IfErr, IfSome}, Option.{option_map}};
ghost use Rattle.hw_types.specs.Spelling.{Fits, VertexFits, digest_of};
ghost use Rattle.hw_codec.specs.{Decoded.{IsErrorOf}, Last.{last_of}};
ghost use Rattle.hw_log.specs.{Named.{IsNameOf, NamesUnit}, Spelled.{SpellsIn}, Lasts.{IsVersion, no_lasts, noted_in, noted_name, with_noted, vertex_bytes_in, vertex_in}};

use crate::head::FULL;
use crate::name::unit_in;
use hw_codec::{Last, decode_vertex, decode_vertex_after, encode_vertex, encode_vertex_after};
use hw_lanes::Part;
use hw_types::{Bytes, CodecError, Digest, OutOfMemory, Vertex, WireUnit};
use std::alloc::Global;
use std::marker::Model;

/// The version of a log, and the last unit of each validator so far: that of the latest entry that
/// holds a unit by it, whatever its verdict. Units inside evidence are none. In version 1 none is
/// kept.
#[derive(Drop)]
pub struct Lasts {
    alloc: Global,
    version: u8,
    units: Vec<Option<Last>>,
}

impl Model for Lasts {
    ghost use Rattle.hw_log.specs.Lasts.{LastUnits, IsVersion};

    ghost Value = { LastUnits };

    ghost view = { λ l. record { version = l.version; units = l.units.items } };

    ghost invariant = { λ l. IsVersion l.version };
}

/// A unit that becomes its creator's last one.
#[derive(Drop)]
struct LastUnit {
    creator: u32,
    last: Last,
}

/// What an entry's vertex changes of the last units: one becomes its creator's, or none does.
#[derive(Drop)]
pub struct Noted {
    kept: Option<LastUnit>,
}

impl Model for Noted {
    ghost use Rattle.std.specs.{Prelude.{Option}, Option.{option_map}};
    ghost use Rattle.hw_log.specs.Lasts.{NotedUnit};

    ghost Value = { Option NotedUnit };

    ghost view = { λ n. option_map (λ k. record { creator = k.creator; last = k.last }) n.kept };
}

impl Noted {
    /// The creator of the unit that becomes its last one, if one does.
    pub(crate) fn creator(&self) -> Option<u32>
        ensures { result ≡ option_map (λ kept. kept.creator) self.now }
    {
        match &self.kept {
            Some(kept) => Some(kept.creator),
            None => None,
        }
    }

    /// The name of the unit that becomes its creator's last one, if one does.
    pub fn name(&self) -> Option<Digest>
        ensures { result ≡ noted_name self.now }
    {
        match &self.kept {
            Some(kept) => Some(kept.last.name()),
            None => None,
        }
    }
}

impl Lasts {
    /// None yet, in a log of this version, 1 or 2, of so many validators.
    pub fn new(alloc: Global, version: u8, validators: u32) -> Result<Lasts, OutOfMemory>
        requires { IsVersion version }
        ensures { IfOk result (λ lasts. lasts ≡ no_lasts version validators) }
    {
        let units = if version == FULL {
            Vec::new(alloc)
        } else {
            no_units(alloc, validators)?
        };
        Ok(Lasts {
            alloc,
            version,
            units,
        })
    }

    /// The version of the log.
    pub(crate) fn version(&self) -> u8
        ensures said { result ≡ self.now.version }
        ensures known { IsVersion result }
    {
        self.version
    }

    /// Whether it keeps the last unit of this validator.
    pub(crate) fn keeps(&self, validator: u32) -> bool {
        (validator as usize) < self.units.len()
    }

    /// Where it takes its memory.
    pub(crate) fn allocator(&self) -> Global {
        self.alloc
    }

    /// What this vertex changes, whose units keep the limits of their format. It takes the memory
    /// that is needed to note it.
    pub fn prepare(&self, vertex: &Vertex) -> Result<Noted, OutOfMemory>
        requires { VertexFits vertex.now }
        ensures { IfOk result (λ noted. noted ≡ noted_in self.now vertex.now) }
    {
        match vertex {
            Vertex::Unit(signed) => {
                if signed.unit.creator as usize >= self.units.len() {
                    return Ok(Noted { kept: None });
                }
                noted_of(self.alloc, &signed.unit)
            }
            Vertex::Evidence(_) | Vertex::Endorsement(_) => Ok(Noted { kept: None }),
        }
    }

    /// What this vertex changes, as [`prepare`](Lasts::prepare) answers it. It is a unit of this name, and isn't
    /// hashed again.
    pub fn prepare_named(&self, vertex: &Vertex, name: Digest) -> Result<Noted, OutOfMemory>
        requires fits { VertexFits vertex.now }
        requires name { IsNameOf vertex.now name }
        ensures { IfOk result (λ noted. noted ≡ noted_in self.now vertex.now) }
    {
        match vertex {
            Vertex::Unit(signed) => {
                if signed.unit.creator as usize >= self.units.len() {
                    return Ok(Noted { kept: None });
                }
                noted_by(&signed.unit, name)
            }
            Vertex::Evidence(_) | Vertex::Endorsement(_) => self.prepare(vertex),
        }
    }

    /// Changes the last units so. It takes no memory.
    pub fn note(&mut self, noted: Noted)
        ensures { self.new ≡ with_noted self.old noted }
    {
        match noted.kept {
            Some(kept) => put(&mut self.units, kept.creator as usize, kept.last),
            None => {}
        }
    }

    /// The one byte string of a vertex here, whose units keep the limits of their format.
    pub(crate) fn encode(&self, alloc: Global, vertex: &Vertex) -> Result<Bytes, OutOfMemory>
        requires { VertexFits vertex.now }
        ensures { IfOk result (λ bytes. bytes ≡ vertex_bytes_in self.now vertex.now) }
    {
        if self.version == FULL {
            encode_vertex(alloc, vertex)
        } else {
            encode_vertex_after(alloc, self.units.as_slice(), vertex)
        }
    }

    /// The vertex that the bytes spell here, or the first error.
    pub(crate) fn decode(&self, bytes: &[u8]) -> Result<Vertex, CodecError>
        ensures value { IfOk result (λ vertex. vertex_in self.now bytes.now ≡ Ok vertex) }
        ensures fits { IfOk result VertexFits }
        ensures spelled { IfOk result (SpellsIn self.now bytes.now) }
        ensures error { IfErr result (IsErrorOf (vertex_in self.now bytes.now)) }
    {
        if self.version == FULL {
            decode_vertex(self.alloc, bytes)
        } else {
            decode_vertex_after(self.alloc, self.units.as_slice(), bytes)
        }
    }

    /// The part of these bytes that spells the unit of the vertex, where they hold the whole of it: in version 1, of a
    /// vertex that is a unit.
    pub(crate) fn unit_in(&self, vertex: &Vertex, bytes: &[u8]) -> Option<Part>
        requires { vertex_in self.now bytes.now ≡ Ok vertex.now }
        ensures { IfSome result (NamesUnit vertex.now bytes.now) }
    {
        if self.version == FULL {
            unit_in(vertex, bytes)
        } else {
            None
        }
    }
}

/// That this unit becomes its creator's last one. Out of line: the back end zeroes a function's whole frame on entry,
/// and in version 1 none is kept.
fn noted_of(alloc: Global, unit: &WireUnit) -> Result<Noted, OutOfMemory>
    requires { Fits unit.now }
    ensures { IfOk result (λ noted. noted ≡ Some (record { creator = unit.now.creator; last = last_of unit.now })) }
{
    let last = Last::of(alloc, unit)?;
    let creator = unit.creator;
    Ok(Noted {
        kept: Some(LastUnit { creator, last }),
    })
}

/// The same of a unit whose name is known already.
fn noted_by(unit: &WireUnit, name: Digest) -> Result<Noted, OutOfMemory>
    requires fits { Fits unit.now }
    requires name { name ≡ digest_of unit.now }
    ensures { IfOk result (λ noted. noted ≡ Some (record { creator = unit.now.creator; last = last_of unit.now })) }
{
    let last = Last::named(unit, name)?;
    let creator = unit.creator;
    Ok(Noted {
        kept: Some(LastUnit { creator, last }),
    })
}

/// The unit in this place is from now on this one, if there is such a place.
fn put(units: &mut Vec<Option<Last>>, place: usize, last: Last)
    ensures { units.new.items ≡ set units.old.items place (Some last) }
{
    if place < units.len() {
        units[place] = Some(last);
    }
}

/// No unit for each of so many validators.
fn no_units(alloc: Global, validators: u32) -> Result<Vec<Option<Last>>, OutOfMemory>
    ensures { IfOk result (λ units. units.items ≡ replicate validators None) }
{
    let mut units = Vec::with_capacity(alloc, validators as usize)?;
    for _ in 0..validators {
        units.push(None)?;
    }
    Ok(units)
}
