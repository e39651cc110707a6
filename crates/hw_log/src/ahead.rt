//! The bytes of a log that are held, and the names of the units that stand ahead in them.

ghost use Rattle.std.specs.{Prelude.{◌≡◌, ◌+◌, ◌<◌, ◌≤◌, [], length, drop, map, All, IsTrue, IfOk, IfSome}, Option.{option_map}};
ghost use Rattle.sha2.specs.Sha256.{sha256};
ghost use Rattle.hw_io.specs.Reads.{OnlyReads, CountsReads, HoldsMore};
ghost use Rattle.hw_lanes.specs.Pieces.{IsWithin, part_of};

use crate::held::{HeldEntry, entry_at};
use crate::name::unit_part;
use hw_codec::{SIGNATURE_LENGTH, UNIT_KIND};
use hw_io::{Files, IoFault, ReadBuffer};
use hw_lanes::{Part, digests_in};
use hw_types::{Digest, MAX_LENGTH, OutOfMemory};
use sha2::{Digest as _, Sha256};
use std::alloc::Global;
use std::marker::Model;

/// At most this many names are worked out at once.
const MOST: usize = 64;

/// Parts of a log's bytes, and the digest of each.
#[derive(Drop)]
struct Ahead {
    parts: Vec<Part>,
    digests: Vec<[u8; 32]>,
}

/// Bytes that were read of a log and are not yet used, in front of the file that is begun, as a [`ReadBuffer`] holds
/// them.
///
/// Where a name is asked for, those of the entries behind it are worked out with it, as far as they are held: four side
/// by side take about half the time. They are a function of the bytes that are held, so that nothing else depends on
/// them.
#[derive(Drop)]
pub(crate) struct NamingBuffer {
    alloc: Global,
    buffer: ReadBuffer,
    /// Parts of the bytes that were held when they were looked at.
    ahead: Ahead,
    /// How many of these bytes were used since then.
    used: usize,
    /// Which part will be asked for next.
    next: usize,
}

impl Model for NamingBuffer {
    ghost use Rattle.std.specs.Prelude.{ℕ, List};
    ghost use Rattle.hw_log.specs.Ahead.{AreAhead};

    ghost Value = { List ℕ };

    ghost view = { λ b. b.buffer };

    ghost invariant = { λ b. AreAhead b.buffer b.used b.ahead.parts.items b.ahead.digests.items };
}

impl NamingBuffer {
    /// Holds nothing, and takes no memory yet.
    pub(crate) fn new(alloc: Global) -> NamingBuffer
        ensures empty { result ≡ [] }
    {
        NamingBuffer {
            alloc,
            buffer: ReadBuffer::new(alloc),
            ahead: Ahead {
                parts: Vec::new(alloc),
                digests: Vec::new(alloc),
            },
            used: 0,
            next: 0,
        }
    }

    /// The bytes that are held, the next one first.
    pub(crate) fn as_slice(&self) -> &[u8]
        ensures bytes { result.now ≡ self.now }
    {
        self.buffer.as_slice()
    }

    /// Uses the first `count` of the bytes that are held.
    pub(crate) fn consume(&mut self, count: usize)
        requires { count ≤ length self.old }
        ensures rest { self.new ≡ drop count self.old }
    {
        self.buffer.consume(count);
        self.used = self.used.saturating_add(count);
    }

    /// Reads until `n` bytes are held, as [`ReadBuffer::available`] does.
    pub(crate) fn available<F: Files>(&mut self, files: &mut F, n: usize) -> Result<usize, IoFault>
        requires { n ≤ MAX_LENGTH }
        ensures count { IfOk result (λ count. count ≡ length self.new) }
        ensures end { IsTrue F.tells → IfOk result (λ count. count < n → F.unread files.new ≡ []) }
        ensures more { HoldsMore F.Files files.old files.new self.old self.new }
        ensures counted { CountsReads F.Files files.old files.new result }
        ensures rest { OnlyReads F.Files files.old files.new }
    {
        self.buffer.available(files, n)
    }

    /// The name of the unit whose spelling is this part of the bytes that are held, if there is one.
    pub(crate) fn name_of(&mut self, unit: Option<Part>) -> Option<Digest>
        requires { IfSome unit (IsWithin (length self.old)) }
        ensures name { result ≡ option_map (λ part. record { 0 = sha256 (part_of self.old part) }) unit }
        ensures same { self.new ≡ self.old }
    {
        let part = unit?;
        Some(Digest(self.digest_of(part)))
    }

    /// The digest of this part of the bytes that are held.
    fn digest_of(&mut self, part: Part) -> [u8; 32]
        requires { IsWithin (length self.old) part }
        ensures digest { result ≡ sha256 (part_of self.old part) }
        ensures same { self.new ≡ self.old }
    {
        if let Some(digest) = self.known(part) {
            return digest;
        }
        self.look(part);
        match self.known(part) {
            Some(digest) => digest,
            None => Sha256::digest(&self.buffer.as_slice()[part.start..part.end]),
        }
    }

    /// The digest of this part of the bytes that are held, where it was worked out ahead. Another part is next after
    /// it.
    fn known(&mut self, part: Part) -> Option<[u8; 32]>
        ensures digest { IfSome result (λ digest. digest ≡ sha256 (part_of self.old part)) }
        ensures same { self.new ≡ self.old }
    {
        let next = self.next;
        if next < self.ahead.parts.len()
            && next < self.ahead.digests.len()
            && stands_at(self.ahead.parts[next], self.used, part)
        {
            self.next = next + 1;
            Some(self.ahead.digests[next])
        } else {
            None
        }
    }

    /// Works out the digests of this part of the bytes that are held, and of the units in the entries behind it. Where
    /// there is no memory for that, nothing changes.
    fn look(&mut self, part: Part)
        requires { IsWithin (length self.old) part }
        ensures same { self.new ≡ self.old }
    {
        match digests_from(self.alloc, self.buffer.as_slice(), part) {
            Ok(ahead) => {
                self.ahead = ahead;
                self.used = 0;
                self.next = 0;
            }
            Err(_) => {}
        }
    }
}

/// Whether a part of the bytes that were held before `used` of them were used is this part of those that are held.
fn stands_at(before: Part, used: usize, part: Part) -> bool
    ensures { IsTrue result → (before.start ≡ used + part.start) × (before.end ≡ used + part.end) }
{
    before.start >= used
        && before.start - used == part.start
        && before.end >= used
        && before.end - used == part.end
}

/// The digests of this part of the bytes, and of the units in the entries behind it.
fn digests_from(alloc: Global, bytes: &[u8], first: Part) -> Result<Ahead, OutOfMemory>
    requires { IsWithin (length bytes.now) first }
    ensures within { IfOk result (λ ahead. All (IsWithin (length bytes.now)) ahead.parts.items) }
    ensures digests { IfOk result (λ ahead. ahead.digests.items ≡ map (λ part. sha256 (part_of bytes.now part)) ahead.parts.items) }
{
    let parts = parts_from(alloc, bytes, first)?;
    let digests = digests_in(alloc, bytes, parts.as_slice())?;
    Ok(Ahead { parts, digests })
}

/// This part of the bytes, behind which an entry ends with a signature, and the spellings of the units in the entries
/// that follow, as many as are wanted at once.
fn parts_from(alloc: Global, bytes: &[u8], first: Part) -> Result<Vec<Part>, OutOfMemory>
    requires { IsWithin (length bytes.now) first }
    ensures { IfOk result (λ parts. All (IsWithin (length bytes.now)) parts.items) }
{
    let mut parts = Vec::with_capacity(alloc, MOST)?;
    parts.push(first)?;
    let mut at = first.end + SIGNATURE_LENGTH;
    'entries: while parts.len() < MOST {
        match entry_at(bytes, at) {
            Some(entry) => {
                if let Some(part) = unit_of(bytes, entry) {
                    parts.push(part)?;
                }
                at = entry.end;
            }
            None => break,
        }
    }
    Ok(parts)
}

/// The spelling of the unit of this entry, if it looks like one with a right verdict.
fn unit_of(bytes: &[u8], entry: HeldEntry) -> Option<Part>
    requires order { entry.start ≤ entry.end }
    requires within { entry.end ≤ length bytes.now }
    ensures { IfSome result (IsWithin (length bytes.now)) }
{
    let HeldEntry {
        verdict,
        start,
        end,
    } = entry;
    if verdict && end - start > SIGNATURE_LENGTH && bytes[start] == UNIT_KIND {
        Some(unit_part(start, end))
    } else {
        None
    }
}
