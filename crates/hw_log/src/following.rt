//! The last units of a log that is read, and the units that seem to follow.

ghost use Rattle.std.specs.Prelude.{◌≡◌, ◌↔◌, ◌⊎◌, ◌≤◌, [], length, take, map, All, IsTrue, IfOk, IfSome, OnOk, OnErr};
ghost use Rattle.sha2.specs.Sha256.{sha256};
ghost use Rattle.hw_types.specs.Spelling.{VertexFits, unit_bytes};
ghost use Rattle.hw_log.specs.Following.{AreSpelled, Follows, IsByOther, IsFirst, IsRead, unit_of};
ghost use Rattle.hw_log.specs.Lasts.{IsVersion, lasts_after, no_lasts, noted_in, noted_name, with_noted};
ghost use Rattle.hw_log.specs.Named.{IsNameOf};

use crate::held::entry_at;
use crate::lasts::{Lasts, Noted};
use hw_codec::{UNIT_KIND, encode_unit, vertex_is_in_range};
use hw_lanes::{Part, digests_in};
use hw_types::{Bytes, Digest, OutOfMemory, SignedUnit, Vertex};
use std::alloc::Global;
use std::marker::Model;

/// At most this many units are decoded ahead.
const MOST: usize = 64;

/// Where the spellings have this many bytes together, no other is added.
const MOST_BYTES: usize = 262_144;

/// The kind of a vertex that is a unit in the compact form.
const CHANGES: u8 = 4;

/// A unit, and the bytes that its vertex has in the log.
#[derive(Drop)]
pub struct ReadUnit {
    pub bytes: Bytes,
    pub signed: SignedUnit,
}

/// A unit that seems to follow, and its name.
#[derive(Drop)]
pub struct NextUnit {
    pub read: ReadUnit,
    pub name: Digest,
}

/// The last unit of each validator, as a log is read.
///
/// In version 2 the entries don't hold whole units. Where one is asked for, it is decoded with those behind it, as far as
/// they are held and no two have one creator, and their names are worked out together: four side by
/// side take about half the time. What was decoded ahead is handed out only for an entry of the same bytes.
#[derive(Drop)]
pub(crate) struct Following {
    lasts: Lasts,
    /// The next one stands last.
    units: Vec<NextUnit>,
}

impl Model for Following {
    ghost use Rattle.std.specs.Prelude.{All};
    ghost use Rattle.hw_log.specs.{Lasts.{LastUnits}, Following.{Follows}};

    ghost Value = { LastUnits };

    ghost view = { λ f. f.lasts };

    ghost invariant = { λ f. All (Follows f.lasts) f.units.items };
}

impl Following {
    /// None yet, as [`Lasts::new`] says.
    pub(crate) fn new(alloc: Global, version: u8, validators: u32) -> Result<Following, OutOfMemory>
        requires { IsVersion version }
        ensures { IfOk result (λ lasts. lasts ≡ no_lasts version validators) }
    {
        Ok(Following {
            lasts: Lasts::new(alloc, version, validators)?,
            units: Vec::new(alloc),
        })
    }

    /// These last units alone.
    pub(crate) fn lasts(&self) -> &Lasts
        ensures { result.now ≡ self.now }
    {
        &self.lasts
    }

    /// These last units alone, and an end to the reading.
    pub(crate) fn into_lasts(self) -> Lasts
        ensures { result ≡ self }
    {
        self.lasts
    }

    /// The unit that the first `count` of the bytes spell, with its name, where it becomes its creator's last one and was
    /// decoded. The entries behind it begin with the other bytes.
    pub(crate) fn next_unit(&mut self, held: &[u8], count: usize) -> Option<NextUnit>
        requires { count ≤ length held.now }
        ensures next { IfSome result (IsFirst self.old (take count held.now)) }
        ensures same { self.new ≡ self.old }
    {
        let bytes = &held[..count];
        if !is_kept(&self.lasts, bytes) {
            return None;
        }
        if let Some(unit) = self.take(bytes) {
            return Some(unit);
        }
        self.look(held, count);
        self.take(bytes)
    }

    /// The next unit, if its bytes are these. Another one is let go.
    fn take(&mut self, bytes: &[u8]) -> Option<NextUnit>
        ensures next { IfSome result (IsFirst self.old bytes.now) }
        ensures same { self.new ≡ self.old }
    {
        let Some(next) = self.units.pop() else {
            return None;
        };
        if !has_bytes(&next, bytes) {
            return None;
        }
        Some(next)
    }

    /// Decodes the unit that the first `count` of the bytes spell, and those that follow. Where there is no memory for
    /// that, nothing changes.
    fn look(&mut self, held: &[u8], count: usize)
        requires { count ≤ length held.now }
        ensures same { self.new ≡ self.old }
    {
        match units_from(&self.lasts, held, count) {
            Ok(units) => self.units = units,
            Err(_) => {}
        }
    }

    /// Goes behind an entry with this vertex, whose name may be known. The answer is the name of the unit that becomes its
    /// creator's last one.
    pub(crate) fn keep(
        &mut self,
        vertex: &Vertex,
        name: Option<Digest>,
    ) -> Result<Option<Digest>, OutOfMemory>
        requires fits { VertexFits vertex.now }
        requires name { IfSome name (IsNameOf vertex.now) }
        ensures name { IfOk result (λ name. name ≡ noted_name (noted_in self.old vertex.now)) }
        ensures kept { OnOk result (self.new ≡ lasts_after self.old vertex.now) }
        ensures same { OnErr result (self.new ≡ self.old) }
    {
        let noted = match name {
            Some(name) => self.lasts.prepare_named(vertex, name)?,
            None => self.lasts.prepare(vertex)?,
        };
        let name = noted.name();
        self.note(noted);
        Ok(name)
    }

    /// Changes the last units so. What was decoded against the one that changes is let go.
    fn note(&mut self, noted: Noted)
        ensures { self.new ≡ with_noted self.old noted }
    {
        forget(&mut self.units, noted.creator());
        self.lasts.note(noted);
    }
}

/// Whether these are the bytes of the unit's vertex.
fn has_bytes(next: &NextUnit, bytes: &[u8]) -> bool
    ensures { IsTrue result ↔ (next.now.read.bytes ≡ bytes.now) }
{
    next.read.bytes.as_slice() == bytes
}

/// Lets the units go, if one of them is by this validator.
fn forget(units: &mut Vec<NextUnit>, creator: Option<u32>)
    ensures others { IfSome creator (λ creator. All (IsByOther creator) units.new.items) }
    ensures left { (units.new.items ≡ units.old.items) ⊎ (units.new.items ≡ []) }
{
    match creator {
        Some(creator) => if !are_by_others(units.as_slice(), creator) {
            units.clear()
        },
        None => {}
    }
}

/// Whether none of these units is by this validator.
fn are_by_others(units: &[NextUnit], creator: u32) -> bool
    ensures { IsTrue result → All (IsByOther creator) units.now }
{
    'units: for next in units {
        if next.read.signed.unit.creator == creator {
            return false;
        }
    }
    true
}

/// The unit that the first `count` of the bytes spell, and those that follow, with their names. The first one stands
/// last.
fn units_from(lasts: &Lasts, held: &[u8], count: usize) -> Result<Vec<NextUnit>, OutOfMemory>
    requires { count ≤ length held.now }
    ensures { IfOk result (λ units. All (Follows lasts.now) units.items) }
{
    let Gathered {
        units,
        bytes,
        parts,
    } = gathered_from(lasts, held, count)?;
    let digests = digests_in(lasts.allocator(), bytes.as_slice(), parts.as_slice())?;
    named(lasts, units, digests)
}

/// These units with their names, in the other order.
fn named(
    lasts: &Lasts,
    mut units: Vec<ReadUnit>,
    mut digests: Vec<[u8; 32]>,
) -> Result<Vec<NextUnit>, OutOfMemory>
    requires read { All (IsRead lasts.now) units.items }
    requires digests { digests.items ≡ map (λ read. sha256 (unit_bytes (unit_of read))) units.items }
    ensures { IfOk result (λ units. All (Follows lasts.now) units.items) }
{
    let mut named = Vec::with_capacity(lasts.allocator(), units.len())?;
    'units: while let Some(read) = units.pop() {
        match digests.pop() {
            Some(digest) => named.push(NextUnit {
                read,
                name: Digest(digest),
            })?,
            None => break,
        }
    }
    Ok(named)
}

/// Units, their spellings one behind the other, and where each stands.
#[derive(Drop)]
struct Gathered {
    units: Vec<ReadUnit>,
    bytes: Vec<u8>,
    parts: Vec<Part>,
}

/// The unit that the first `count` of the bytes spell, and those that follow.
fn gathered_from(lasts: &Lasts, held: &[u8], count: usize) -> Result<Gathered, OutOfMemory>
    requires { count ≤ length held.now }
    ensures read { IfOk result (λ gathered. All (IsRead lasts.now) gathered.units.items) }
    ensures spelled { IfOk result (λ gathered. AreSpelled gathered.bytes.items gathered.parts.items gathered.units.items) }
{
    let alloc = lasts.allocator();
    let mut gathered = Gathered {
        units: Vec::with_capacity(alloc, MOST)?,
        bytes: Vec::with_capacity(alloc, held.len())?,
        parts: Vec::with_capacity(alloc, MOST)?,
    };
    let most = apart(lasts, held, count);
    gather(lasts, &held[..count], &mut gathered)?;
    let mut at = count;
    'entries: while gathered.units.len() < most && gathered.bytes.len() < MOST_BYTES {
        match entry_at(held, at) {
            Some(entry) => {
                gather(lasts, &held[entry.start..entry.end], &mut gathered)?;
                at = entry.end;
            }
            None => break,
        }
    }
    Ok(gathered)
}

/// Adds the unit that these bytes of a vertex spell, if they spell one that becomes its creator's last one.
fn gather(lasts: &Lasts, vertex: &[u8], gathered: &mut Gathered) -> Result<(), OutOfMemory>
    requires read { All (IsRead lasts.now) gathered.old.units.items }
    requires spelled { AreSpelled gathered.old.bytes.items gathered.old.parts.items gathered.old.units.items }
    ensures read { OnOk result (All (IsRead lasts.now) gathered.new.units.items) }
    ensures spelled { OnOk result (AreSpelled gathered.new.bytes.items gathered.new.parts.items gathered.new.units.items) }
{
    if !is_kept(lasts, vertex) {
        return Ok(());
    }
    match unit_in(lasts, vertex) {
        Some(signed) => {
            let bytes = Bytes::from_vec(Vec::from_slice(lasts.allocator(), vertex)?);
            add(lasts, ReadUnit { bytes, signed }, gathered)
        }
        None => Ok(()),
    }
}

/// Adds this unit.
fn add(lasts: &Lasts, read: ReadUnit, gathered: &mut Gathered) -> Result<(), OutOfMemory>
    requires unit { IsRead lasts.now read }
    requires read { All (IsRead lasts.now) gathered.old.units.items }
    requires spelled { AreSpelled gathered.old.bytes.items gathered.old.parts.items gathered.old.units.items }
    ensures read { OnOk result (All (IsRead lasts.now) gathered.new.units.items) }
    ensures spelled { OnOk result (AreSpelled gathered.new.bytes.items gathered.new.parts.items gathered.new.units.items) }
{
    let spelling = encode_unit(lasts.allocator(), &read.signed.unit)?;
    let start = gathered.bytes.len();
    gathered.bytes.extend_from_slice(spelling.as_slice())?;
    let end = gathered.bytes.len();
    gathered.parts.push(Part { start, end })?;
    Ok(gathered.units.push(read)?)
}

/// How many units of different creators seem to stand from here on. Where another one follows, they are so many that no
/// lane stays idle. Nothing that is answered depends on it.
fn apart(lasts: &Lasts, held: &[u8], count: usize) -> usize
    requires { count ≤ length held.now }
{
    let mut creators = [0; MOST];
    let mut found = 0;
    let mut start = 0;
    let mut end = count;
    'entries: while found < MOST {
        match creator_in(&held[start..end]) {
            Some(creator) if lasts.keeps(creator) => {
                if is_among(creator, &creators[..found]) {
                    return whole_fours(found);
                }
                creators[found] = creator;
                found += 1;
            }
            Some(_) | None => {}
        }
        match entry_at(held, end) {
            Some(entry) => {
                start = entry.start;
                end = entry.end;
            }
            None => return found,
        }
    }
    found
}

/// The number without what is left behind fours, and a number below four itself.
fn whole_fours(number: usize) -> usize {
    if number < 4 {
        number
    } else {
        number - number % 4
    }
}

/// Whether the validator is one of these.
fn is_among(validator: u32, validators: &[u32]) -> bool {
    'validators: for other in validators {
        if *other == validator {
            return true;
        }
    }
    false
}

/// Whether these bytes of a vertex seem to spell a unit that becomes its creator's last one.
fn is_kept(lasts: &Lasts, vertex: &[u8]) -> bool {
    match creator_in(vertex) {
        Some(creator) => lasts.keeps(creator),
        None => false,
    }
}

/// The creator of the unit that these bytes of a vertex seem to spell. Nothing that is answered depends on it.
fn creator_in(vertex: &[u8]) -> Option<u32> {
    let at = match vertex.first() {
        Some(&UNIT_KIND) => 33,
        Some(&CHANGES) => 1,
        Some(_) | None => return None,
    };
    if vertex.len() < at + 4 {
        return None;
    }
    Some(u32::from_be_bytes([vertex[at], vertex[at + 1], vertex[at + 2], vertex[at + 3]]))
}

/// The unit that these bytes of a vertex spell, if they spell one.
fn unit_in(lasts: &Lasts, vertex: &[u8]) -> Option<SignedUnit>
    ensures { IfSome result (λ signed. IsRead lasts.now (record { bytes = vertex.now; signed = signed })) }
{
    match lasts.decode(vertex) {
        Ok(decoded) => {
            // For the prover alone: each number of the vertex is in the range of its type.
            vertex_is_in_range(&decoded);
            match decoded {
                Vertex::Unit(signed) => Some(signed),
                Vertex::Evidence(_other) => None,
                Vertex::Endorsement(_other) => None,
            }
        }
        Err(_error) => None,
    }
}
