//! A cursor over the bytes of a certificate: it takes one field after the other, and knows where
//! each begins.

ghost use Rattle.std.specs.Prelude.{◌≡◌, ◌≤◌, length, IfOk, IfErr};
ghost use Rattle.hw_light.specs.Reading.{Gives, WrapsNoWant, rest_at, field_at, count_at, part_at, behind_magic, behind_version, ended_at};

use crate::error::CertError;
use hw_types::{MAX_LENGTH, MAX_RECORDS};
use std::marker::Model;

/// A certificate begins with these bytes.
pub(crate) const MAGIC: [u8; 4] = *b"HWCT";

/// The version of a certificate's format.
pub(crate) const VERSION: u8 = 1;

/// A certificate has at most this many vertices: as many as a journal may have.
pub(crate) const MAX_VERTICES: u32 = MAX_RECORDS as u32;

/// The bytes that aren't read yet, and how many were read before them.
#[derive(Drop)]
pub(crate) struct Reader<'a> {
    place: u64,
    rest: &'a [u8],
}

impl<'a> Model for Reader<'a> {
    ghost use Rattle.std.specs.Prelude.{◌+◌, ◌<◌, ◌^◌, length};
    ghost use Rattle.hw_types.specs.Reading.{Rest};

    ghost Value = { Rest };

    ghost view = { λ r. record { place = r.place; bytes = r.rest.now } };

    ghost invariant = { λ r. r.place + length r.rest.now < 2 ^ 64 };
}

impl<'a> Reader<'a> {
    /// A reader after the bytes that say what this is.
    pub(crate) fn begin(bytes: &'a [u8]) -> Result<Reader<'a>, CertError>
        ensures said { Gives (λ reader. reader) result (behind_magic bytes.now) }
        ensures memory { IfErr result WrapsNoWant }
    {
        match bytes.strip_prefix(MAGIC.as_slice()) {
            Some(rest) => Ok(Reader {
                place: MAGIC.len() as u64,
                rest,
            }),
            None => Err(CertError::BadMagic),
        }
    }

    /// The place of the next byte.
    pub(crate) fn place(&self) -> u64
        ensures { result ≡ self.now.place }
    {
        self.place
    }

    /// Reads the version, which must be the one of this format.
    pub(crate) fn version(&mut self) -> Result<(), CertError>
        ensures said { Gives (λ _. self.new) result (behind_version self.old) }
        ensures memory { IfErr result WrapsNoWant }
    {
        let [version] = self.array::<1>()?;
        if version != VERSION {
            return Err(CertError::Version(version));
        }
        Ok(())
    }

    /// A field of this many bytes.
    fn field(&mut self, count: usize) -> Result<&'a [u8], CertError>
        ensures said { Gives (λ bytes. (bytes.now, self.new)) result (field_at count self.old) }
        ensures memory { IfErr result WrapsNoWant }
    {
        let rest = self.rest;
        if rest.len() < count {
            return Err(CertError::Torn(self.place));
        }
        let (field, rest) = rest.split_at(count);
        self.place += count as u64;
        self.rest = rest;
        Ok(field)
    }

    /// A field of `N` bytes.
    pub(crate) fn array<const N: usize>(&mut self) -> Result<[u8; N], CertError>
        ensures said { Gives (λ bytes. (bytes, self.new)) result (field_at N self.old) }
        ensures memory { IfErr result WrapsNoWant }
    {
        let rest = self.rest;
        let Some((field, rest)) = rest.split_first_chunk::<N>() else {
            return Err(CertError::Torn(self.place));
        };
        self.place += N as u64;
        self.rest = rest;
        Ok(*field)
    }

    /// A number that is at most the limit.
    pub(crate) fn count(&mut self, limit: u32) -> Result<u32, CertError>
        ensures said { Gives (λ n. (n, self.new)) result (count_at limit self.old) }
        ensures memory { IfErr result WrapsNoWant }
    {
        let place = self.place;
        let count = u32::from_be_bytes(self.array()?);
        if count > limit {
            return Err(CertError::TooLong(place));
        }
        Ok(count)
    }

    /// The bytes of a part, which come after their length.
    #[tactic(auto, unfolding(crate::specs::Reading::part_at))]
    pub(crate) fn part(&mut self) -> Result<&'a [u8], CertError>
        ensures said { Gives (λ bytes. (bytes.now, self.new)) result (part_at self.old) }
        ensures memory { IfErr result WrapsNoWant }
    {
        let length = self.count(MAX_LENGTH as u32)?;
        self.field(length as usize)
    }

    /// Tests that no byte is left.
    pub(crate) fn end(&self) -> Result<(), CertError>
        ensures { result ≡ ended_at self.now }
    {
        if !self.rest.is_empty() {
            return Err(CertError::Trailing(self.place));
        }
        Ok(())
    }
}
