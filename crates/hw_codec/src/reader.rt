//! A cursor over bytes: it takes one field after the other, and knows where each begins.

ghost use Rattle.std.specs.{Prelude.{◌≡◌, ◌==◌, length, Ok, Err, if◌then◌else◌}, Int.{w8, w32, w64}};
ghost use Rattle.hw_types.specs.Reading.{Gives, bytes_at, number_at, count_at, digest_at};

use hw_types::{CodecError, Digest};
use std::marker::Model;

/// The bytes that aren't read yet, and how many were read before them.
///
/// What takes a field answers `Truncated` with the field's place where fewer bytes are left than it has.
/// Places count bytes, from 0 at the first one. Of a number the highest byte comes first.
#[derive(Drop)]
pub struct Reader<'a> {
    place: u64,
    rest: &'a [u8],
}

impl<'a> Model for Reader<'a> {
    ghost use Rattle.std.specs.Prelude.{◌+◌, ◌<◌, ◌^◌, length};
    ghost use Rattle.hw_types.specs.Reading.{Rest};

    ghost Value = { Rest };

    ghost view = { λ r. record { place = r.place; bytes = r.rest.now } };

    ghost invariant = { λ r. r.place + length r.rest.now < 2 ^ 64 };
}

impl<'a> Reader<'a> {
    /// A reader at the first of these bytes, whose place is 0.
    pub fn new(bytes: &'a [u8]) -> Reader<'a>
        ensures { result ≡ record { place = 0; bytes = bytes.now } }
    {
        Reader {
            place: 0,
            rest: bytes,
        }
    }

    /// The place of the next byte.
    pub fn place(&self) -> u64
        ensures { result ≡ self.now.place }
    {
        self.place
    }

    /// How many bytes are left.
    pub(crate) fn left(&self) -> usize
        ensures { result ≡ length self.now.bytes }
    {
        self.rest.len()
    }

    /// The next bytes, so many.
    pub fn bytes(&mut self, count: usize) -> Result<&'a [u8], CodecError>
        ensures { Gives (λ bytes. (bytes.now, self.new)) result (bytes_at count self.old) }
    {
        let rest = self.rest;
        if rest.len() < count {
            return Err(CodecError::Truncated(self.place));
        }
        let (field, rest) = rest.split_at(count);
        self.place += count as u64;
        self.rest = rest;
        Ok(field)
    }

    /// The next `N` bytes.
    pub fn array<const N: usize>(&mut self) -> Result<[u8; N], CodecError>
        ensures { Gives (λ bytes. (bytes, self.new)) result (bytes_at N self.old) }
    {
        let rest = self.rest;
        let Some((field, rest)) = rest.split_first_chunk::<N>() else {
            return Err(CodecError::Truncated(self.place));
        };
        self.place += N as u64;
        self.rest = rest;
        Ok(*field)
    }

    /// A number of one byte.
    pub fn u8(&mut self) -> Result<u8, CodecError>
        ensures { Gives (λ n. (n, self.new)) result (number_at w8 self.old) }
    {
        Ok(u8::from_be_bytes(self.array()?))
    }

    /// A number of four bytes.
    pub fn u32(&mut self) -> Result<u32, CodecError>
        ensures { Gives (λ n. (n, self.new)) result (number_at w32 self.old) }
    {
        Ok(u32::from_be_bytes(self.array()?))
    }

    /// A number of eight bytes.
    pub fn u64(&mut self) -> Result<u64, CodecError>
        ensures { Gives (λ n. (n, self.new)) result (number_at w64 self.old) }
    {
        Ok(u64::from_be_bytes(self.array()?))
    }

    /// A number of four bytes that is at most the limit. Where it is above, `TooLong` has its place.
    pub fn count(&mut self, limit: u32) -> Result<u32, CodecError>
        ensures { Gives (λ n. (n, self.new)) result (count_at limit self.old) }
    {
        let place = self.place;
        let count = self.u32()?;
        if count > limit {
            return Err(CodecError::TooLong(place));
        }
        Ok(count)
    }

    /// A digest of 32 bytes.
    pub fn digest(&mut self) -> Result<Digest, CodecError>
        ensures { Gives (λ digest. (digest, self.new)) result (digest_at self.old) }
    {
        Ok(Digest(self.array()?))
    }

    /// Tests that no byte is left. Where one is, `Trailing` has its place.
    pub fn end(&self) -> Result<(), CodecError>
        ensures { result ≡ (if length self.now.bytes == 0 then Ok tt else Err (CodecError.Trailing self.now.place)) }
    {
        if !self.rest.is_empty() {
            return Err(CodecError::Trailing(self.place));
        }
        Ok(())
    }
}
